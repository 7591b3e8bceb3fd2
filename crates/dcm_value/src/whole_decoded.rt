// The display of a whole value by Specific Character Set.
ghost use Rattle.std.specs.Prelude.{◌≡◌, ◌&&◌, ◌||◌, ◌==◌, if◌then◌else◌, ◌+◌, ◌<◌, ◌≤◌, ◌^◌, true, [], ◌++◌, length};
ghost use Rattle.std.specs.Prelude.{codes, take, flat_map, not, nat_le, MatchOption, is_some};
ghost use Rattle.dcm_base.specs.Dump.ValueText.{padded, is_single as is_one};
ghost use Rattle.dcm_text.specs.Shown.{dumped_piece};
ghost use Rattle.dcm_text.specs.TextPieces.{pieces_left};
ghost use Rattle.dcm_value.specs.Decoded.{backslashes, cut_size as spec_cut};
ghost use Rattle.dcm_value.specs.DecodedDisplay as spec;
ghost use Rattle.dcm_value.specs.DecodedProgress.{is_named};

use crate::decoded::cut_size;
use crate::decoded_text::{kind_of, may_have_name, read_by};
use crate::display::append_spaces;
use crate::next_piece::next_of;
use crate::units::{append, append_many};
use crate::way::{is_single, unpadded};
use crate::whole::append_no_value;
use crate::widths::UNCUT;
use arrayvec::ArrayVec;
use dcm_base::{Mode, Vr};
use dcm_text::{Sets, TextPieces};

/// The most bytes of ASCII that are shown at once.
const RUN: usize = 64;

/// The room for a display that is not cut, or for the front of a longer one: one step shows at most so many bytes, or
/// the twelve of a piece.
pub const ROOM: usize = UNCUT + RUN + 12;

/// Appends what a dump shows of a whole value by Specific Character Set, with the spaces up to 40 bytes. In short mode
/// a long display is cut, and no character of it. The answer is how many values there are; or nothing, and then nothing
/// is appended: of a value that may have a name, a unique identifier of at most 64 bytes, and in full mode of a display
/// of more than 66 bytes. Both are left to `DecodedText`.
pub fn append_decoded<const N: usize>(
    mode: Mode,
    vr: Vr,
    sets: Sets,
    value: &[u8],
    line: &mut ArrayVec<u8, N>,
) -> Option<u64>
    requires room { length line.old.items + 66 ≤ N }
    ensures items { MatchOption result (line.new.items ≡ line.old.items)
        (λ n. (line.new.items ≡ line.old.items ++ spec.decoded_text_of mode vr sets value.now)
        × (n ≡ spec.decoded_count vr sets value.now)) }
    ensures within { length line.new.items ≤ length line.old.items + 66 }
    ensures known { is_some result ≡ (not (is_named vr (length value.now))
        && (spec.is_short mode || nat_le (length (spec.decoded_display vr sets value.now)) 66)) }
{
    if may_have_name(vr, value.len()) {
        return None;
    }
    if value.is_empty() {
        append_no_value(line);
        return Some(0);
    }
    let text = unpadded(vr, value);
    let mut pieces = TextPieces::new(read_by(vr, sets), kind_of(vr), text);
    append_text(mode, vr, &mut pieces, line)
}

/// The same for a text that has some bytes, or had a pad byte, and has no name.
fn append_text<const N: usize>(
    mode: Mode,
    vr: Vr,
    pieces: &mut TextPieces,
    line: &mut ArrayVec<u8, N>,
) -> Option<u64>
    requires room { length line.old.items + 66 ≤ N }
    ensures items { MatchOption result (line.new.items ≡ line.old.items)
        (λ n. (line.new.items ≡ line.old.items
        ++ padded (spec.decoded_shortened mode (spec.bracketed_pieces (pieces_left pieces.old))))
        × (n ≡ (if is_one vr then 1 else 1 + backslashes (pieces_left pieces.old)))) }
    ensures within { length line.new.items ≤ length line.old.items + 66 }
    ensures known { is_some result
        ≡ (spec.is_short mode || nat_le (length (spec.bracketed_pieces (pieces_left pieces.old))) 66) }
{
    let mut shown = ArrayVec::new();
    shown.push(b'[');
    let front = show_front(pieces, &mut shown);
    if shown.len() < UNCUT {
        shown.push(b']');
        append_many(shown.as_slice(), line);
        append_spaces(shown.len(), line);
        return Some(count(vr, front));
    }
    match mode {
        Mode::Short => {
            append_cut(shown.as_slice(), line);
            Some(count_all(vr, front, pieces))
        }
        Mode::Full => None,
    }
}

/// How many values a text has that has so many backslashes.
pub fn count(vr: Vr, backslashes: u64) -> u64
    requires { backslashes < 2 ^ 63 }
    ensures { result ≡ (if is_one vr then 1 else 1 + backslashes) }
{
    if is_single(vr) { 1 } else { backslashes + 1 }
}

/// The same, where some pieces were not looked at: they need not be, where a text is always one value.
fn count_all(vr: Vr, front: u64, pieces: &mut TextPieces) -> u64
    requires { front + length pieces.old.rest.now < 2 ^ 63 }
    ensures { result ≡ (if is_one vr then 1 else 1 + (front + backslashes (pieces_left pieces.old))) }
{
    if is_single(vr) {
        return 1;
    }
    front + count_rest(pieces) + 1
}

/// How many backslashes there are in what is left.
fn count_rest(pieces: &mut TextPieces) -> u64
    requires { length pieces.old.rest.now < 2 ^ 63 }
    ensures count { result ≡ backslashes (pieces_left pieces.old) }
    ensures few { result ≤ length pieces.old.rest.now }
{
    let mut count = 0;
    while let Some(next) = next_of(pieces, usize::MAX) {
        count += next.backslashes() as u64;
    }
    count
}

/// Shows pieces until nothing is left, or the display will be long, and counts the backslashes among them.
pub fn show_front(pieces: &mut TextPieces, shown: &mut ArrayVec<u8, ROOM>) -> u64
    requires begun { length shown.old.items ≤ 65 }
    requires few { length pieces.old.rest.now < 2 ^ 63 }
    ensures shown { shown.new.items ++ flat_map dumped_piece (pieces_left pieces.new)
        ≡ shown.old.items ++ flat_map dumped_piece (pieces_left pieces.old) }
    ensures ended { length shown.new.items ≤ 65 → pieces_left pieces.new ≡ [] }
    ensures count { result + backslashes (pieces_left pieces.new) ≡ backslashes (pieces_left pieces.old) }
    ensures few { result + length pieces.new.rest.now ≤ length pieces.old.rest.now }
{
    let mut count = 0;
    while shown.len() < UNCUT {
        let Some(next) = next_of(pieces, RUN) else {
            return count;
        };
        next.show(RUN, shown);
        count += next.backslashes() as u64;
    }
    count
}

/// Appends the front of a display that is longer than 66 bytes, and the dots.
fn append_cut<const N: usize>(display: &[u8], line: &mut ArrayVec<u8, N>)
    requires { length line.old.items + 66 ≤ N }
    ensures items { line.new.items ≡ line.old.items ++ (take (spec_cut display.now) display.now ++ codes "...") }
    ensures within { length line.new.items ≤ length line.old.items + 66 }
{
    let (left, _) = display.split_at(cut_size(display).min(display.len()));
    append_many(left, line);
    append(b"...", line);
}
