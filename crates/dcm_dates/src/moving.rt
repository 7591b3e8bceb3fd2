// Texts whose dates are moved by days.
ghost use Rattle.std.specs.Prelude.{◌≡◌, ◌+◌, ◌++◌, ◌<◌, ◌≤◌, [], ◌∷◌, List, ℕ, length, position, option_map, ◌==◌};
ghost use Rattle.std.specs.Prelude.{not, if◌then◌else◌};
ghost use Rattle.dcm_dates.specs.Moved as spec;
ghost use Rattle.dcm_dates.specs.Numbered as numbered;

use crate::calendar::LAST_NUMBER;
use crate::date::Date;
use crate::text::{DATE_SIZE, digits_of, is_rest, read_day};
use arrayvec::ArrayVec;
use dcm_bytes::{append, backslash};

/// The most bytes of a text that is moved, and of a value that is held until its end: 64 characters of a PatientID (PS3.5
/// 6.2) have up to four each.
pub const MOST_HELD: usize = 256;

/// What the parts of a text are (PS3.5 6.2).
#[derive(Clone, Copy, Debug, PartialEq, Eq)]
pub enum DateKind {
    /// Dates.
    Da,
    /// Dates, each perhaps with a time of day and the distance from UTC.
    Dt,
}

/// The number of the day so many days after another one, where there is one.
fn moved_number(days: i32, number: u32) -> Option<u32>
    ensures { result ≡ spec.moved_number days number }
{
    let moved = number as i64 + days as i64;
    if 1 <= moved && moved <= LAST_NUMBER as i64 {
        Some(moved as u32)
    } else {
        None
    }
}

/// A date, moved: eight digits that show a day become those of the day so many days later.
fn moved_date(days: i32, text: &[u8]) -> Option<[u8; DATE_SIZE]>
    ensures { result ≡ spec.moved_date days text.now }
{
    let date = read_day(text)?;
    let number = moved_number(days, date.number())?;
    Some(digits_of(Date::of_number(number)))
}

/// Whether this may follow a date.
fn may_follow(kind: DateKind, rest: &[u8]) -> bool
    ensures { result ≡ spec.may_follow kind rest.now }
{
    match kind {
        DateKind::Da => rest.is_empty(),
        DateKind::Dt => is_rest(rest),
    }
}

/// Appends a part with its date moved, where it can be: nothing stays nothing, and what follows the date stays.
fn add_part(kind: DateKind, days: i32, part: &[u8], out: &mut ArrayVec<u8, MOST_HELD>) -> Option<()>
    requires { length out.old.items + length part.now ≤ 256 }
    ensures { spec.Adds (spec.moved_part kind days part.now) out.old.items out.new.items result }
{
    if part.is_empty() {
        return Some(());
    }
    if part.len() < DATE_SIZE {
        return None;
    }
    let (date, rest) = part.split_at(DATE_SIZE);
    if !may_follow(kind, rest) {
        return None;
    }
    let moved = moved_date(days, date)?;
    append(&moved, out);
    append(rest, out);
    Some(())
}

/// Appends a text with all its dates moved, where all can be.
fn add_parts(
    kind: DateKind,
    days: i32,
    text: &[u8],
    out: &mut ArrayVec<u8, MOST_HELD>,
) -> Option<()>
    requires none { out.old.items ≡ [] }
    requires short { length text.now ≤ 256 }
    ensures { spec.Adds (spec.all_moved kind days text.now) [] out.new.items result }
{
    let mut rest = text;
    while let Some(at) = backslash(rest) {
        let (part, after) = rest.split_at(at);
        add_part(kind, days, part, out)?;
        append(b"\\", out);
        let (_, next) = after.split_at(1);
        rest = next;
    }
    add_part(kind, days, rest, out)
}

/// A text without padding with all its dates shifted by a number of days. The result is empty if one of the dates
/// cannot be shifted, or if the text has more than `MOST_HELD` bytes.
pub fn moved(kind: DateKind, days: i32, text: &[u8]) -> ArrayVec<u8, MOST_HELD>
    ensures { result.items ≡ spec.moved kind days text.now }
{
    let mut out = ArrayVec::new();
    if text.len() > MOST_HELD {
        return out;
    }
    match add_parts(kind, days, text, &mut out) {
        Some(()) => out,
        None => ArrayVec::new(),
    }
}
