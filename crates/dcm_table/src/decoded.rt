// Texts by Specific Character Set, in double quotes (RFC 4180).
ghost use Rattle.std.specs.Prelude.{◌≡◌, ◌&&◌, nat_le};
ghost use Rattle.std.specs.List.{list_all};
ghost use Rattle.dcm_devices.specs.Writing.{Wrote};
ghost use Rattle.dcm_table.specs.Quoted as spec;
ghost use Rattle.dcm_text.specs.Shown.{cell};

use crate::quoted::{QUOTE, TextForm, put_doubled, put_quoted};
use dcm_base::{DeviceOut, Watched, WriteFailed, put_all};
use dcm_text::{Decoder, Sets, TextKind, in_cell};

/// Writes a text as characters, with quotes doubled.
fn put_characters<W: DeviceOut>(
    sets: Sets,
    kind: TextKind,
    text: &[u8],
    out: &mut Watched<W>,
) -> Result<(), WriteFailed>
    ensures { Wrote W.DeviceOut out.old out.new (spec.doubled (cell sets kind text.now)) result }
{
    let mut decoder = Decoder::new(sets, kind);
    let mut rest = text;
    while let Some((part, after)) = decoder.next(rest, true) {
        put_doubled(in_cell(&part).as_slice(), out)?;
        rest = after;
    }
    Ok(())
}

/// Whether a text is ASCII without controls: it is its bytes, whatever is in force.
fn is_printable(text: &[u8]) -> bool
    ensures { result ≡ list_all (λ b. nat_le 0x20 b && nat_le b 0x7E) text.now }
{
    text.iter().all(|byte| 0x20 <= *byte && *byte <= 0x7E)
}

/// Writes a text by what is in force, in double quotes: its characters in UTF-8, and bytes without a character as
/// `\xNN`. Fails where the writer fails.
pub fn put_decoded<W: DeviceOut>(
    sets: Sets,
    kind: TextKind,
    text: &[u8],
    out: &mut Watched<W>,
) -> Result<(), WriteFailed>
    ensures { Wrote W.DeviceOut out.old out.new (spec.quoted (cell sets kind text.now)) result }
{
    if is_printable(text) {
        return put_quoted(TextForm::AsItIs, text, out);
    }
    put_all(out, &[QUOTE])?;
    put_characters(sets, kind, text, out)?;
    put_all(out, &[QUOTE])
}
