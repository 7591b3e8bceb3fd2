// The heading before a dump.
ghost use Rattle.std.specs.Prelude.{◌≡◌, ◌++◌};
ghost use Rattle.dcm_devices.specs.Writing.{Wrote};
ghost use Rattle.dcm_dumps.specs.Heading as spec;

use dcm_base::{DeviceOut, Watched, WriteFailed, put_parts};
use dcm_names::shown_name;
use itoa::Buffer;

/// What comes before a heading: an empty line, unless it is the first.
fn before_heading(is_first: bool) -> &'static [u8]
    ensures { result.now ≡ spec.before_heading is_first }
{
    if is_first {
        b"".as_slice()
    } else {
        b"\n".as_slice()
    }
}

/// What comes after the number of a name, where it is known how many there are: a stroke, and how many.
fn of_total(total: Option<u64>, digits: &mut Buffer) -> (&'static [u8], &[u8])
    ensures { result.0.now ++ result.1.now ≡ spec.of_total total }
{
    match total {
        Some(total) => (b"/".as_slice(), digits.format(total).as_bytes()),
        None => (b"".as_slice(), b"".as_slice()),
    }
}

/// Writes the heading of a file: its number, the number of files if this is known, and the name.
pub fn put_heading<W: DeviceOut>(
    is_first: bool,
    number: u64,
    total: Option<u64>,
    name: &[u8],
    out: &mut Watched<W>,
) -> Result<(), WriteFailed>
    ensures { Wrote W.DeviceOut out.old out.new (spec.heading is_first number total name.now) result }
{
    let mut digits = Buffer::new();
    let mut total_digits = Buffer::new();
    let (stroke, total) = of_total(total, &mut total_digits);
    let shown = shown_name(name);
    put_parts(
        out,
        &[
            before_heading(is_first),
            b"# dcmdump (".as_slice(),
            digits.format(number).as_bytes(),
            stroke,
            total,
            b"): ".as_slice(),
            shown.as_slice(),
            b"\n\n".as_slice(),
        ],
    )
}
