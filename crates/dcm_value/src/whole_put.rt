// The display of a whole value by Specific Character Set that goes right out, since it may be longer than a line.
ghost use Rattle.std.specs.Prelude.{◌≡◌, if◌then◌else◌, ◌+◌, ◌<◌, ◌≤◌, ◌^◌, [], ◌++◌, length, codes, flat_map, nat_lt};
ghost use Rattle.std.specs.Prelude.{OnOk, IfOk};
ghost use Rattle.dcm_base.specs.declared.mode.Mode.TheVariants.{Full};
ghost use Rattle.dcm_base.specs.Dump.ValueText.{padded, is_single as is_one};
ghost use Rattle.dcm_devices.specs.Writing.{Wrote};
ghost use Rattle.dcm_text.specs.Shown.{dumped_piece};
ghost use Rattle.dcm_text.specs.TextPieces.{pieces_left};
ghost use Rattle.dcm_value.specs.Decoded.{backslashes};
ghost use Rattle.dcm_value.specs.DecodedDisplay as spec;

use crate::decoded_text::{DecodedText, kind_of, may_have_name, read_by};
use crate::display::append_spaces;
use crate::next_piece::next_of;
use crate::way::unpadded;
use crate::whole_decoded::{count, show_front};
use crate::widths::UNCUT;
use arrayvec::ArrayVec;
use dcm_base::{DeviceOut, Mode, Vr, Watched, WriteFailed, put_all};
use dcm_text::{Sets, TextPieces};

/// The most bytes that go out at once. A larger block is blanked for longer than most texts take, and of a smaller one
/// the calls of the writer would be felt.
const BLOCK: usize = 1024;

/// The most bytes of ASCII that are shown at once.
const RUN: usize = 256;

/// The most bytes of a block that has room for one step more, which shows so many bytes, or the twelve of a piece.
const FREE: usize = BLOCK - RUN - 12;

/// Writes what a dump shows in full of a whole value by Specific Character Set, with the spaces up to 40 bytes. The
/// answer is how many values there are. Fails where the writer fails.
pub fn put_decoded<W: DeviceOut>(
    vr: Vr,
    sets: Sets,
    value: &[u8],
    out: &mut Watched<W>,
) -> Result<u64, WriteFailed>
    ensures wrote { Wrote W.DeviceOut out.old out.new (spec.decoded_text_of Full vr sets value.now) result }
    ensures count { IfOk result (λ n. n ≡ spec.decoded_count vr sets value.now) }
{
    if value.is_empty() || may_have_name(vr, value.len()) {
        return put_by_text(vr, sets, value, out);
    }
    let text = unpadded(vr, value);
    let mut pieces = TextPieces::new(read_by(vr, sets), kind_of(vr), text);
    put_pieces(vr, &mut pieces, out)
}

/// The same of a value that has no bytes, or may have a name.
fn put_by_text<W: DeviceOut>(
    vr: Vr,
    sets: Sets,
    value: &[u8],
    out: &mut Watched<W>,
) -> Result<u64, WriteFailed>
    requires { length value.now < 2 ^ 32 }
    ensures wrote { Wrote W.DeviceOut out.old out.new (spec.decoded_text_of Full vr sets value.now) result }
    ensures count { IfOk result (λ n. n ≡ spec.decoded_count vr sets value.now) }
{
    let mut line: ArrayVec<u8, UNCUT> = ArrayVec::new();
    let mut text = DecodedText::new(vr, sets, value.len() as u32, Mode::Full);
    text.feed(value, out)?;
    let count = text.finish(&mut line, out)?;
    put_all(out, line.as_slice())?;
    Ok(count)
}

/// The same of a text that has some bytes, or had a pad byte, and has no name. A short one goes out at once, and needs
/// no block.
fn put_pieces<W: DeviceOut>(
    vr: Vr,
    pieces: &mut TextPieces,
    out: &mut Watched<W>,
) -> Result<u64, WriteFailed>
    ensures wrote { Wrote W.DeviceOut out.old out.new (padded (spec.bracketed_pieces (pieces_left pieces.old))) result }
    ensures count { IfOk result (λ n. n ≡ (if is_one vr then 1 else 1 + backslashes (pieces_left pieces.old))) }
{
    let mut shown = ArrayVec::new();
    shown.push(b'[');
    let front = show_front(pieces, &mut shown);
    if shown.len() < UNCUT {
        shown.push(b']');
        append_spaces(shown.len(), &mut shown);
        put_all(out, shown.as_slice())?;
        return Ok(count(vr, front));
    }
    put_all(out, shown.as_slice())?;
    let others = put_others(pieces, out)?;
    Ok(count(vr, front + others))
}

/// Writes what is shown of the pieces that are left, and the bracket behind them. The answer is how many backslashes
/// there are among them.
fn put_others<W: DeviceOut>(
    pieces: &mut TextPieces,
    out: &mut Watched<W>,
) -> Result<u64, WriteFailed>
    ensures wrote { Wrote W.DeviceOut out.old out.new (flat_map dumped_piece (pieces_left pieces.old) ++ codes "]")
        result }
    ensures count { IfOk result (λ n. n ≡ backslashes (pieces_left pieces.old)) }
    ensures few { IfOk result (λ n. n ≤ length pieces.old.rest.now) }
{
    let mut block = ArrayVec::new();
    let mut count = 0;
    while let Some(next) = next_of(pieces, RUN) {
        next.show(RUN, &mut block);
        count += next.backslashes() as u64;
        put_full(&mut block, out)?;
    }
    block.push(b']');
    put_all(out, block.as_slice())?;
    Ok(count)
}

/// Writes a block that may have no room for what comes next, and empties it.
fn put_full<W: DeviceOut>(
    block: &mut ArrayVec<u8, BLOCK>,
    out: &mut Watched<W>,
) -> Result<(), WriteFailed>
    ensures wrote { Wrote W.DeviceOut out.old out.new
        (if nat_lt FREE (length block.old.items) then block.old.items else []) result }
    ensures block { OnOk result (block.new.items ≡ (if nat_lt FREE (length block.old.items) then [] else
        block.old.items)) }
{
    if block.len() > FREE {
        put_all(out, block.as_slice())?;
        block.clear();
    }
    Ok(())
}
