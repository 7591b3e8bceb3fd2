// The lines of items, and of the ends of items and sequences.
ghost use Rattle.std.specs.Prelude.{◌≡◌, ◌≤◌};
ghost use Rattle.dcm_base.specs.Dump.Dump as dump;
ghost use Rattle.dcm_devices.specs.Writing.{Wrote};

use crate::dump::layout::{
    Line, WRITTEN_LEVEL, put_line, put_written, written_item, written_item_end,
    written_sequence_end,
};
use dcm_base::{DeviceOut, Dictionary, Length, MOST_OPEN, Tag, Watched, WriteFailed};

fn item_opening(length: Length) -> &'static [u8]
    ensures { result.now ≡ dump.item_opening length }
{
    match length {
        Length::Known(_) => b"(Item with explicit length)",
        Length::Undefined => b"(Item with undefined length)",
    }
}

fn sequence_end(length: Length) -> &'static [u8]
    ensures { result.now ≡ dump.sequence_end length }
{
    match length {
        Length::Known(_) => b"(SequenceDelimitationItem for re-encod.)",
        Length::Undefined => b"(SequenceDelimitationItem)",
    }
}

fn item_end(length: Length) -> &'static [u8]
    ensures { result.now ≡ dump.item_end length }
{
    match length {
        Length::Known(_) => b"(ItemDelimitationItem for re-encoding)",
        Length::Undefined => b"(ItemDelimitationItem)",
    }
}

/// Writes the line of an item that begins.
pub fn put_item_line<W: DeviceOut>(
    out: &mut Watched<W>,
    dictionary: Dictionary,
    line: &mut Line,
    level: usize,
    declared: Length,
) -> Result<(), WriteFailed>
    requires { level ≤ MOST_OPEN }
    ensures { Wrote W.DeviceOut out.old out.new (dump.item_line dictionary level declared) result }
{
    if level <= WRITTEN_LEVEL
        && let Some(written) = written_item(declared)
    {
        return put_written(out, written, level);
    }
    let display = item_opening(declared);
    put_line(
        out,
        dictionary,
        line,
        level,
        Tag::ITEM,
        *b"na",
        display,
        declared,
        1,
    )
}

/// Writes the line of the end of an item.
pub fn put_item_end_line<W: DeviceOut>(
    out: &mut Watched<W>,
    dictionary: Dictionary,
    line: &mut Line,
    level: usize,
    declared: Length,
) -> Result<(), WriteFailed>
    requires { level ≤ MOST_OPEN }
    ensures { Wrote W.DeviceOut out.old out.new (dump.item_end_line dictionary level declared) result }
{
    if level <= WRITTEN_LEVEL {
        return put_written(out, written_item_end(declared), level);
    }
    let (display, none) = (item_end(declared), Length::Known(0));
    put_line(
        out,
        dictionary,
        line,
        level,
        Tag::ITEM_END,
        *b"na",
        display,
        none,
        0,
    )
}

/// Writes the line of the end of a sequence.
pub fn put_sequence_end_line<W: DeviceOut>(
    out: &mut Watched<W>,
    dictionary: Dictionary,
    line: &mut Line,
    level: usize,
    declared: Length,
) -> Result<(), WriteFailed>
    requires { level ≤ MOST_OPEN }
    ensures { Wrote W.DeviceOut out.old out.new (dump.sequence_end_line dictionary level declared) result }
{
    if level <= WRITTEN_LEVEL {
        return put_written(out, written_sequence_end(declared), level);
    }
    let (display, none) = (sequence_end(declared), Length::Known(0));
    put_line(
        out,
        dictionary,
        line,
        level,
        Tag::SEQUENCE_END,
        *b"na",
        display,
        none,
        0,
    )
}
