// Dates and times of day as text (PS3.5 6.2).
ghost use Rattle.std.specs.Prelude.{◌≡◌, ◌+◌, ◌<◌, ◌≤◌, length, true, option_map, IfSome, not, position, if◌then◌else◌};
ghost use Rattle.std.specs.List.{list_all};
ghost use Rattle.dcm_dates.specs.DateText as spec;
ghost use Rattle.dcm_dates.specs.Numbered as numbered;

use crate::date::Date;

/// The bytes of a date, YYYYMMDD.
pub const DATE_SIZE: usize = 8;

/// The most digits of a fraction of a second.
const MOST_OF_FRACTION: usize = 6;

const LAST_HOUR: u8 = 23;

const LAST_MINUTE: u8 = 59;

/// A leap second counts.
const LAST_SECOND: u8 = 60;

/// The most hours from UTC.
const LAST_HOUR_FROM_UTC: u8 = 14;

/// Whether a byte is a digit.
fn is_digit(byte: u8) -> bool
    ensures { result ≡ spec.is_digit byte }
{
    b'0' <= byte && byte <= b'9'
}

/// Whether all bytes are digits.
fn are_digits(text: &[u8]) -> bool
    ensures { result ≡ list_all spec.is_digit text.now }
{
    text.iter().all(|byte| is_digit(*byte))
}

/// The number that the digit at a place shows.
fn digit_at(text: &[u8], at: usize) -> u32
    requires { at < length text.now }
    ensures value { result ≡ spec.digit_at text.now at }
    ensures some { result < 256 }
{
    text[at].saturating_sub(b'0') as u32
}

/// The day that YYYYMMDD shows.
#[tactic(auto, unfolding(crate::specs::DateText::shown))]
fn shown(text: &[u8]) -> Date
    requires { length text.now ≡ 8 }
    ensures { result ≡ spec.shown text.now }
{
    Date {
        year: 1000 * digit_at(text, 0)
            + 100 * digit_at(text, 1)
            + 10 * digit_at(text, 2)
            + digit_at(text, 3),
        month: 10 * digit_at(text, 4) + digit_at(text, 5),
        day: 10 * digit_at(text, 6) + digit_at(text, 7),
    }
}

/// The day that a text shows, which is eight digits.
pub fn read_day(text: &[u8]) -> Option<Date>
    ensures value { result ≡ (if spec.shows_day text.now then Some (spec.shown text.now) else None) }
    ensures day { IfSome result (λ d. numbered.is_day d ≡ true) }
{
    if text.len() != DATE_SIZE || !are_digits(text) {
        return None;
    }
    let date = shown(text);
    if date.is_day() { Some(date) } else { None }
}

/// The digit of a number below ten.
fn digit(number: u32) -> u8
    requires { number < 10 }
    ensures { result ≡ 48 + number }
{
    b'0' + number as u8
}

/// A day as YYYYMMDD.
#[tactic(auto, unfolding(crate::specs::DateText::digits_of))]
pub fn digits_of(date: Date) -> [u8; DATE_SIZE]
    requires { numbered.is_day date ≡ true }
    ensures { result ≡ spec.digits_of date }
{
    [
        digit(date.year / 1000),
        digit(date.year / 100 % 10),
        digit(date.year / 10 % 10),
        digit(date.year % 10),
        digit(date.month / 10),
        digit(date.month % 10),
        digit(date.day / 10),
        digit(date.day % 10),
    ]
}

/// Whether two bytes are the digits of a number up to a bound.
fn is_pair(most: u8, high: u8, low: u8) -> bool
    ensures { result ≡ spec.is_pair most high low }
{
    is_digit(high) && is_digit(low) && 10 * (high - b'0') + (low - b'0') <= most
}

/// What comes after two such digits.
fn after_pair(most: u8, text: &[u8]) -> Option<&[u8]>
    ensures { option_map (λ r. r.now) result ≡ spec.after_pair most text.now }
{
    match text {
        [high, low, rest @ ..] if is_pair(most, *high, *low) => Some(rest),
        _ => None,
    }
}

/// Whether these are minutes from UTC, and nothing after them.
fn is_zone_minutes(text: &[u8]) -> bool
    ensures { result ≡ spec.is_zone_minutes text.now }
{
    match after_pair(LAST_MINUTE, text) {
        Some(rest) => rest.is_empty(),
        None => false,
    }
}

/// Whether this is nothing, or the distance from UTC: a sign, hours and minutes.
fn is_zone(text: &[u8]) -> bool
    ensures { result ≡ spec.is_zone text.now }
{
    let [sign, hours @ ..] = text else {
        return true;
    };
    if *sign != b'+' && *sign != b'-' {
        return false;
    }
    match after_pair(LAST_HOUR_FROM_UTC, hours) {
        Some(minutes) => is_zone_minutes(minutes),
        None => false,
    }
}

/// The place of the first byte that is no digit.
fn first_other(text: &[u8]) -> Option<usize>
    ensures { result ≡ position (λ b. not (spec.is_digit b)) text.now }
{
    text.iter().position(|byte| !is_digit(*byte))
}

/// How many digits a text begins with.
fn digits_before(text: &[u8]) -> usize
    ensures value { result ≡ spec.digits_before text.now }
    ensures within { result ≤ length text.now }
{
    match first_other(text) {
        Some(at) => at,
        None => text.len(),
    }
}

/// Whether these are one to six digits of a second, and then perhaps the distance from UTC.
fn is_fraction(text: &[u8]) -> bool
    ensures { result ≡ spec.is_fraction text.now }
{
    let digits = digits_before(text);
    1 <= digits && digits <= MOST_OF_FRACTION && is_zone(&text[digits..])
}

/// Whether this is a point and a fraction of a second.
fn is_point_and_fraction(text: &[u8]) -> bool
    ensures { result ≡ spec.is_point_and_fraction text.now }
{
    match text {
        [b'.', fraction @ ..] => is_fraction(fraction),
        _ => false,
    }
}

/// Whether this may follow the seconds of a time.
fn is_after_seconds(text: &[u8]) -> bool
    ensures { result ≡ spec.is_after_seconds text.now }
{
    is_zone(text) || is_point_and_fraction(text)
}

/// Whether this may follow the minutes of a time.
fn is_after_minutes(text: &[u8]) -> bool
    ensures { result ≡ spec.is_after_minutes text.now }
{
    if is_zone(text) {
        return true;
    }
    match after_pair(LAST_SECOND, text) {
        Some(rest) => is_after_seconds(rest),
        None => false,
    }
}

/// Whether this may follow the hours of a time.
fn is_after_hours(text: &[u8]) -> bool
    ensures { result ≡ spec.is_after_hours text.now }
{
    if is_zone(text) {
        return true;
    }
    match after_pair(LAST_MINUTE, text) {
        Some(rest) => is_after_minutes(rest),
        None => false,
    }
}

/// Whether a text may follow the date of a DT: perhaps HH, HHMM, HHMMSS or HHMMSS.F, and then perhaps the offset from
/// UTC.
pub fn is_rest(text: &[u8]) -> bool
    ensures { result ≡ spec.is_rest text.now }
{
    if is_zone(text) {
        return true;
    }
    match after_pair(LAST_HOUR, text) {
        Some(rest) => is_after_hours(rest),
        None => false,
    }
}
