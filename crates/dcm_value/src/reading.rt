// Values from their texts.
ghost use Rattle.std.specs.Prelude.{◌≡◌, ◌≢◌, ◌<◌, ◌≤◌, [], ◌∷◌, length, take, drop, codes, MatchOption, MatchResult};
ghost use Rattle.std.specs.Prelude.{IfSome, position};
ghost use Rattle.std.specs.Prelude.{◌==◌, ◌||◌};
ghost use Rattle.dcm_base.specs.Lines.ReadValue as spec;
ghost use Rattle.dcm_base.specs.Tables.Representation.{unit};
ghost use Rattle.dcm_base.specs.Dump.ValueText.{shape};
ghost use Rattle.dcm_value.specs.Parts.{part_value};
ghost use Rattle.dcm_value.specs.Taking.{behind, Begins, Reads, TakesPart};
ghost use Rattle.dcm_value.specs.Swap.{IsUnit};

use crate::digits::unescape;
use crate::parts::part;
use crate::units::{Kind, kind_of};
use crate::way::{Way, way_of};
use crate::whole::NO_VALUE;
use arrayvec::ArrayVec;
use dcm_base::{VALUE_LIMIT, Vr, uid_of};

/// A text that shows no value of its representation, or one of more than 65,536 bytes.
#[derive(Clone, Copy, Debug, PartialEq, Eq)]
pub struct BadValue;

/// More bytes after those that are there.
fn extend(value: &mut ArrayVec<u8, VALUE_LIMIT>, bytes: &[u8]) -> Result<(), BadValue>
    ensures { TakesPart (Some bytes.now) value.old.items value.new.items result }
{
    match value.try_extend_from_slice(bytes) {
        Ok(()) => Ok(()),
        Err(_) => Err(BadValue),
    }
}

/// One part more.
fn read_part(
    kind: Kind,
    size: usize,
    text: &[u8],
    value: &mut ArrayVec<u8, VALUE_LIMIT>,
) -> Result<(), BadValue>
    requires { IsUnit size }
    ensures { TakesPart (part_value kind size text.now) value.old.items value.new.items result }
{
    match part(kind, size, text) {
        Some(bytes) => extend(value, bytes.as_slice()),
        None => Err(BadValue),
    }
}

/// The place of the first backslash.
fn backslash(text: &[u8]) -> Option<usize>
    ensures { result ≡ position (λ b. b == 92) text.now }
{
    text.iter().position(|byte| *byte == b'\\')
}

/// The parts between backslashes.
fn read_parts(
    kind: Kind,
    size: usize,
    text: &[u8],
    value: &mut ArrayVec<u8, VALUE_LIMIT>,
) -> Result<(), BadValue>
    requires size { IsUnit size }
    requires none { value.old.items ≡ [] }
    ensures { Reads (spec.joined (part_value kind size) text.now) value.new.items result }
{
    let mut rest = text;
    while let Some(at) = backslash(rest) {
        let (front, after) = rest.split_at(at);
        read_part(kind, size, front, value)?;
        let (_, next) = after.split_at(1);
        rest = next;
    }
    read_part(kind, size, rest, value)
}

/// The byte that follows a percent sign as two digits, and what comes after it.
fn read_escape(text: &[u8]) -> Option<(u8, &[u8])>
    ensures value { MatchOption result (spec.bracketed_value (37 ∷ text.now) ≡ None)
        (λ r. Begins (37 ∷ text.now) r.0 r.1.now) }
    ensures shorter { IfSome result (λ r. length r.1.now < length text.now) }
{
    match text {
        [high, low, after @ ..] => Some((unescape(&[*high, *low])?, after)),
        _ => None,
    }
}

/// The first byte of a text in brackets that has not ended, and what comes after it.
fn read_byte(text: &[u8]) -> Option<(u8, &[u8])>
    requires { text.now ≢ codes "]" }
    ensures value { MatchOption result (spec.bracketed_value text.now ≡ None) (λ r. Begins text.now r.0 r.1.now) }
    ensures shorter { IfSome result (λ r. length r.1.now < length text.now) }
{
    let [byte, after @ ..] = text else {
        return None;
    };
    match *byte {
        b'%' => read_escape(after),
        b']' => None,
        plain => Some((plain, after)),
    }
}

/// The place of the first percent sign or closing bracket.
fn plain_end(text: &[u8]) -> Option<usize>
    ensures { result ≡ position (λ b. b == 37 || b == 93) text.now }
{
    text.iter().position(|byte| *byte == b'%' || *byte == b']')
}

/// How many bytes there are before the first percent sign or closing bracket, or in all.
fn plain_size(text: &[u8]) -> usize
    ensures value { spec.bracketed_value text.now
        ≡ behind (take result text.now) (spec.bracketed_value (drop result text.now)) }
    ensures within { result ≤ length text.now }
{
    match plain_end(text) {
        Some(at) => at,
        None => text.len(),
    }
}

/// The bytes of a text after its opening bracket.
fn read_bracketed(text: &[u8], value: &mut ArrayVec<u8, VALUE_LIMIT>) -> Result<(), BadValue>
    requires { value.old.items ≡ [] }
    ensures { Reads (spec.bracketed_value text.now) value.new.items result }
{
    let (plain, after) = text.split_at(plain_size(text));
    extend(value, plain)?;
    let mut rest = after;
    while rest != b"]".as_slice() {
        match read_byte(rest) {
            Some((byte, after)) => {
                extend(value, &[byte])?;
                rest = after;
            }
            None => return Err(BadValue),
        }
    }
    Ok(())
}

/// A text in brackets.
fn read_text(text: &[u8], value: &mut ArrayVec<u8, VALUE_LIMIT>) -> Result<(), BadValue>
    requires { value.old.items ≡ [] }
    ensures { Reads (spec.text_value text.now) value.new.items result }
{
    match text {
        [b'[', inner @ ..] => read_bracketed(inner, value),
        _ => Err(BadValue),
    }
}

/// A unique identifier, by its name or in brackets.
fn read_identifier(text: &[u8], value: &mut ArrayVec<u8, VALUE_LIMIT>) -> Result<(), BadValue>
    requires { value.old.items ≡ [] }
    ensures { Reads (spec.uid_value text.now) value.new.items result }
{
    match text {
        [b'=', name @ ..] => match uid_of(name) {
            Some(uid) => extend(value, uid.as_bytes()),
            None => Err(BadValue),
        },
        _ => read_text(text, value),
    }
}

/// The bytes in which a value is turned round.
fn unit_size(vr: Vr) -> usize
    ensures value { result ≡ unit vr }
    ensures size { IsUnit result }
{
    vr.unit()
}

/// A value by its representation.
fn read_shape(vr: Vr, text: &[u8], value: &mut ArrayVec<u8, VALUE_LIMIT>) -> Result<(), BadValue>
    requires { value.old.items ≡ [] }
    ensures { Reads (spec.value_in (shape vr) (unit vr) text.now) value.new.items result }
{
    match way_of(vr, 0) {
        Way::InBrackets => read_text(text, value),
        Way::ByName => read_identifier(text, value),
        Way::InUnits => read_parts(kind_of(vr), unit_size(vr), text, value),
    }
}

/// Reads a value from the text by which a dump shows it (PS3.5 6.2), into what is then all that is there: its bytes
/// in little endian order, with no pad byte, at most 65,536. Fails where the text shows no such value.
pub fn read_value_into(
    vr: Vr,
    text: &[u8],
    value: &mut ArrayVec<u8, VALUE_LIMIT>,
) -> Result<(), BadValue>
    ensures { MatchResult result (λ _. spec.value_of_text vr text.now ≡ Some value.new.items)
        (λ _. spec.value_of_text vr text.now ≡ None) }
{
    value.clear();
    if vr == Vr::SQ {
        return Err(BadValue);
    }
    if text == NO_VALUE {
        return Ok(());
    }
    read_shape(vr, text, value)
}

/// The value that the text of a dump shows (PS3.5 6.2), in little endian order and with no pad byte, at most 65,536
/// bytes. Fails where it shows no such value.
pub fn read_value(vr: Vr, text: &[u8]) -> Result<ArrayVec<u8, VALUE_LIMIT>, BadValue>
    ensures { MatchResult result (λ v. spec.value_of_text vr text.now ≡ Some v.items)
        (λ _. spec.value_of_text vr text.now ≡ None) }
{
    let mut value = ArrayVec::new();
    read_value_into(vr, text, &mut value)?;
    Ok(value)
}
