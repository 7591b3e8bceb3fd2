// The display of a whole value that is known at once.
ghost use Rattle.std.specs.Prelude.{◌≡◌, ◌==◌, ◌&&◌, if◌then◌else◌, ◌+◌, ◌<◌, ◌≤◌, ◌++◌, length, codes, count_by};
ghost use Rattle.std.specs.Prelude.{IfSome, MatchOption, is_some, nat_le};
ghost use Rattle.dcm_base.specs.declared.mode.Mode.{Mode as AnyMode};
ghost use Rattle.dcm_base.specs.Dump.ValueText.{shape, padded, bracketed, identified, is_single as is_one};
ghost use Rattle.dcm_base.specs.Dump.ValueText.{unpadded as kept};
ghost use Rattle.dcm_text.specs.declared.sets.Sets.{Sets as AnySets};
ghost use Rattle.dcm_value.specs.DecodedDisplay as decoded;
ghost use Rattle.dcm_value.specs.WholeAscii.{ascii_shown, is_known_ascii};
ghost use Rattle.dcm_value.specs.Way as ways;
ghost use Rattle.dcm_value.specs.Progress.{end_writes, multiplicity};
ghost use Rattle.dcm_value.specs.Whole as spec;

use crate::counting::backslashes;
use crate::decoded_text::may_have_name;
use crate::display::append_spaces;
use crate::escapes::{is_plain_ascii, is_plain_text};
use crate::way::{Way, is_single, unpadded, way_of};
use crate::widths::UNCUT;
use arrayvec::ArrayVec;
use dcm_base::{Syntax, Vr, uid_name};

/// The most bytes of a text that is shown at once: with its brackets it is not cut.
const LONGEST_TEXT: usize = UNCUT - 2;

/// The most bytes of a name that is shown at once: with its mark it is not cut.
const LONGEST_NAME: usize = UNCUT - 1;

/// What is shown of a value without bytes.
pub const NO_VALUE: &[u8] = b"(no value available)";

/// Appends what a dump shows of a whole value, with the spaces up to 40 bytes, where that is known at once: of a value
/// without bytes, of a text of at most 64 bytes that is shown as it is, and of a unique identifier that is so or has a
/// name. None of these is cut, so both modes show the same. The answer is how many values there are; or nothing, and
/// then nothing is appended. Most values of a file are so, and here none needs a `ValueText`, whose state is larger
/// than they are.
pub fn append_whole<const N: usize>(
    vr: Vr,
    syntax: Syntax,
    value: &[u8],
    line: &mut ArrayVec<u8, N>,
) -> Option<u64>
    requires room { length line.old.items + 66 ≤ N }
    ensures items { MatchOption result (line.new.items ≡ line.old.items)
        (λ n. (line.new.items ≡ line.old.items ++ end_writes (spec.whole vr syntax value.now))
        × (n ≡ multiplicity (spec.whole vr syntax value.now))) }
    ensures modes { (mode : AnyMode) → IfSome result (λ n. (line.new.items
        ≡ line.old.items ++ spec.text_in mode vr syntax value.now) × (n ≡ spec.count_in mode vr syntax value.now)) }
    ensures within { length line.new.items ≤ length line.old.items + 66 }
    ensures known { is_some result ≡ spec.is_known vr value.now }
{
    if value.is_empty() {
        append_no_value(line);
        return Some(0);
    }
    if value.len() <= LONGEST_TEXT && append_shown(vr, value, line) {
        Some(count(vr, value))
    } else {
        None
    }
}

/// Appends what is shown of a value in brackets or by its name, with spaces, if it is known at once.
fn append_shown<const N: usize>(vr: Vr, value: &[u8], line: &mut ArrayVec<u8, N>) -> bool
    requires few { length value.now ≤ LONGEST_TEXT }
    requires room { length line.old.items + 66 ≤ N }
    ensures known { result ≡ spec.is_known_as (ways.way_of (shape vr) (length value.now)) (kept vr value.now) }
    ensures items { line.new.items ≡ (if result then line.old.items
        ++ padded (spec.shown_as (ways.way_of (shape vr) (length value.now)) (kept vr value.now)) else line.old.items) }
    ensures within { length line.new.items ≤ length line.old.items + 66 }
{
    match way_of(vr, value.len() as u32) {
        Way::InBrackets => append_plain(unpadded(vr, value), line),
        Way::ByName => append_identified(unpadded(vr, value), line),
        Way::InUnits => false,
    }
}

/// Appends a text in brackets, with spaces, if it is shown as it is.
fn append_plain<const N: usize>(text: &[u8], line: &mut ArrayVec<u8, N>) -> bool
    requires few { length text.now ≤ LONGEST_TEXT }
    requires room { length line.old.items + 66 ≤ N }
    ensures known { result ≡ spec.is_plain text.now }
    ensures items { line.new.items ≡ (if result then line.old.items ++ padded (bracketed text.now) else
        line.old.items) }
    ensures within { length line.new.items ≤ length line.old.items + 66 }
{
    let is_plain = is_plain_text(text);
    if is_plain {
        append_bracketed(text, line);
    }
    is_plain
}

/// Appends what a dump shows of a whole value whatever Specific Character Set is in force, with the spaces up to 40
/// bytes, where that is known at once: of a value without bytes, and of plain ASCII of at most 64 bytes, by its name or
/// as it is. The answer is how many values there are; or nothing, and then nothing is appended. The bytes are looked at
/// once.
pub fn append_whole_ascii<const N: usize>(
    vr: Vr,
    value: &[u8],
    line: &mut ArrayVec<u8, N>,
) -> Option<u64>
    requires room { length line.old.items + 66 ≤ N }
    ensures items { MatchOption result (line.new.items ≡ line.old.items) (λ n. (mode : AnyMode) (sets : AnySets)
        → (line.new.items ≡ line.old.items ++ decoded.decoded_text_of mode vr sets value.now)
        × (n ≡ decoded.decoded_count vr sets value.now)) }
    ensures within { length line.new.items ≤ length line.old.items + 66 }
    ensures known { is_some result ≡ is_known_ascii vr value.now }
{
    if value.is_empty() {
        append_no_value(line);
        return Some(0);
    }
    let text = unpadded(vr, value);
    let may_have_name = may_have_name(vr, value.len());
    if value.len() <= LONGEST_TEXT
        && is_plain_ascii(text)
        && append_ascii(text, may_have_name, line)
    {
        Some(count(vr, value))
    } else {
        None
    }
}

/// Appends plain ASCII by its name, if it may have one, or in brackets, with spaces. A name that is long is left out.
fn append_ascii<const N: usize>(
    text: &[u8],
    may_have_name: bool,
    line: &mut ArrayVec<u8, N>,
) -> bool
    requires few { length text.now ≤ LONGEST_TEXT }
    requires room { length line.old.items + 66 ≤ N }
    ensures known { result ≡ nat_le (length (ascii_shown may_have_name text.now)) 66 }
    ensures items { line.new.items ≡ (if result then line.old.items ++ padded (ascii_shown may_have_name text.now)
        else line.old.items) }
    ensures within { length line.new.items ≤ length line.old.items + 66 }
{
    let name = if may_have_name { uid_name(text) } else { None };
    match name {
        Some(name) => append_short_name(name.as_bytes(), line),
        None => {
            append_bracketed(text, line);
            true
        }
    }
}

/// Appends a unique identifier by its name, or in brackets if it is shown as it is, with spaces.
fn append_identified<const N: usize>(uid: &[u8], line: &mut ArrayVec<u8, N>) -> bool
    requires few { length uid.now ≤ LONGEST_TEXT }
    requires room { length line.old.items + 66 ≤ N }
    ensures known { result ≡ spec.is_known_uid uid.now }
    ensures items { line.new.items ≡ (if result then line.old.items ++ padded (identified uid.now) else
        line.old.items) }
    ensures within { length line.new.items ≤ length line.old.items + 66 }
{
    let Some(name) = uid_name(uid) else {
        return append_plain(uid, line);
    };
    append_short_name(name.as_bytes(), line)
}

/// How many values a text has, one for each backslash and one more.
fn count(vr: Vr, value: &[u8]) -> u64
    ensures { result ≡ (if is_one vr then 1 else 1 + count_by (λ b. b == 92) value.now) }
{
    if is_single(vr) {
        1
    } else {
        backslashes(value) as u64 + 1
    }
}

/// Appends a text in brackets, and spaces.
fn append_bracketed<const N: usize>(text: &[u8], line: &mut ArrayVec<u8, N>)
    requires few { length text.now ≤ LONGEST_TEXT }
    requires room { length line.old.items + 66 ≤ N }
    ensures items { line.new.items ≡ line.old.items ++ padded (codes "[" ++ text.now ++ codes "]") }
    ensures within { length line.new.items ≤ length line.old.items + 66 }
{
    line.push(b'[');
    let _ = line.try_extend_from_slice(text);
    line.push(b']');
    append_spaces(text.len() + 2, line);
}

/// Appends the name of a unique identifier, with spaces, if it is not long.
fn append_short_name<const N: usize>(name: &[u8], line: &mut ArrayVec<u8, N>) -> bool
    requires room { length line.old.items + 66 ≤ N }
    ensures known { result ≡ nat_le (length name.now) LONGEST_NAME }
    ensures items { line.new.items ≡ (if result then line.old.items ++ padded (codes "=" ++ name.now)
        else line.old.items) }
    ensures within { length line.new.items ≤ length line.old.items + 66 }
{
    let is_short = name.len() <= LONGEST_NAME;
    if is_short {
        append_name(name, line);
    }
    is_short
}

/// Appends the name of a unique identifier behind its mark, and spaces.
fn append_name<const N: usize>(name: &[u8], line: &mut ArrayVec<u8, N>)
    requires few { length name.now ≤ LONGEST_NAME }
    requires room { length line.old.items + 66 ≤ N }
    ensures items { line.new.items ≡ line.old.items ++ padded (codes "=" ++ name.now) }
    ensures within { length line.new.items ≤ length line.old.items + 66 }
{
    line.push(b'=');
    let _ = line.try_extend_from_slice(name);
    append_spaces(name.len() + 1, line);
}

/// Appends what is shown of a value without bytes, and spaces.
pub fn append_no_value<const N: usize>(line: &mut ArrayVec<u8, N>)
    requires room { length line.old.items + 66 ≤ N }
    ensures items { line.new.items ≡ line.old.items ++ padded (codes "(no value available)") }
    ensures within { length line.new.items ≤ length line.old.items + 66 }
{
    let _ = line.try_extend_from_slice(NO_VALUE);
    append_spaces(NO_VALUE.len(), line);
}
