// The line on standard error by which words are refused.
ghost use Rattle.dcm_devices.specs.Writing.{Wrote};
ghost use Rattle.dcm_table_words.specs.Usages as spec;

use crate::usage::TableUsage;
use dcm_base::{DeviceOut, Watched, WriteFailed};
use dcm_names::put_refusal;
use itoa::Buffer;

/// Reports why words are refused, by one line.
pub fn put_usage<E: DeviceOut>(
    usage: TableUsage,
    errors: &mut Watched<E>,
) -> Result<(), WriteFailed>
    ensures { Wrote E.DeviceOut errors.old errors.new (spec.usage_line usage) result }
{
    let mut digits = Buffer::new();
    match usage {
        TableUsage::AtWord(fault, word) => {
            let place = [b" at word ".as_slice(), digits.format(word).as_bytes()];
            put_refusal(fault.number(), &place, fault.text(), errors)
        }
        TableUsage::InColumn(refusal, column) => {
            let place = [b" in column ".as_slice(), digits.format(column).as_bytes()];
            put_refusal(refusal.number(), &place, refusal.text(), errors)
        }
        _ => put_refusal(usage.number(), &[], usage.text(), errors),
    }
}
