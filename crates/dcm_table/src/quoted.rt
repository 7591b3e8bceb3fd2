// Texts in double quotes (RFC 4180).
ghost use Rattle.std.specs.Prelude.{◌≡◌, ◌<◌, length};
ghost use Rattle.dcm_base.specs.Steps.Outputs.{Writer};
ghost use Rattle.dcm_devices.specs.Writing.{Wrote};
ghost use Rattle.dcm_table.specs.Quoted as spec;

use dcm_base::{DeviceOut, Watched, WriteFailed, put_all};
use dcm_value::byte_digits;

/// How texts and names are written.
#[derive(Clone, Copy, Debug, PartialEq, Eq)]
pub enum TextForm {
    /// Each byte that is no part of valid UTF-8 as `\xNN`, so that the table is valid UTF-8.
    ValidUtf8,
    /// Bytes as they are.
    AsItIs,
    /// Texts that Specific Character Set concerns by what is in force, as characters in UTF-8, and all others as by
    /// `ValidUtf8`.
    Decoded,
}

pub(crate) const QUOTE: u8 = b'"';

/// Writes a quote twice, and another byte once.
fn put_doubled_byte<W: DeviceOut>(byte: u8, out: &mut Watched<W>) -> Result<(), WriteFailed>
    ensures { Wrote W.DeviceOut out.old out.new (spec.doubled_byte byte) result }
{
    if byte == QUOTE {
        put_all(out, &[QUOTE, QUOTE])
    } else {
        put_all(out, &[byte])
    }
}

/// Writes bytes, with quotes doubled.
pub(crate) fn put_doubled<W: DeviceOut>(
    bytes: &[u8],
    out: &mut Watched<W>,
) -> Result<(), WriteFailed>
    ensures { Wrote W.DeviceOut out.old out.new (spec.doubled bytes.now) result }
{
    for byte in bytes {
        put_doubled_byte(*byte, out)?;
    }
    Ok(())
}

/// Writes a byte that is no part of valid UTF-8: `\xNN`.
fn put_escaped<W: DeviceOut>(byte: u8, out: &mut Watched<W>) -> Result<(), WriteFailed>
    ensures { Wrote W.DeviceOut out.old out.new (spec.escaped_byte byte) result }
{
    let [high, low] = byte_digits(byte);
    put_all(out, &[b'\\', b'x', high, low])
}

/// Writes bytes with quotes doubled, and those that are no part of valid UTF-8 escaped.
fn put_valid<W: DeviceOut>(bytes: &[u8], out: &mut Watched<W>) -> Result<(), WriteFailed>
    ensures { Wrote W.DeviceOut out.old out.new (spec.doubled (spec.valid_utf8 bytes.now)) result }
{
    let mut rest = bytes;
    while let Err(error) = std::str::from_utf8(rest) {
        let (valid, after) = rest.split_at(error.valid_up_to());
        put_doubled(valid, out)?;
        put_escaped(after[0], out)?;
        let (_, behind) = after.split_at(1);
        rest = behind;
    }
    put_doubled(rest, out)
}

/// Writes bytes with quotes doubled, in this form.
fn put_text<W: DeviceOut>(
    form: TextForm,
    bytes: &[u8],
    out: &mut Watched<W>,
) -> Result<(), WriteFailed>
    ensures { Wrote W.DeviceOut out.old out.new (spec.doubled (spec.text_in form bytes.now)) result }
{
    match form {
        TextForm::ValidUtf8 | TextForm::Decoded => put_valid(bytes, out),
        TextForm::AsItIs => put_doubled(bytes, out),
    }
}

/// Writes a name, or a text of which (0008,0005) says nothing, in double quotes, in this form. Fails where the writer
/// fails.
pub fn put_quoted<W: DeviceOut>(
    form: TextForm,
    bytes: &[u8],
    out: &mut Watched<W>,
) -> Result<(), WriteFailed>
    ensures { Wrote W.DeviceOut out.old out.new (spec.quoted (spec.text_in form bytes.now)) result }
{
    put_all(out, &[QUOTE])?;
    put_text(form, bytes, out)?;
    put_all(out, &[QUOTE])
}
