// Days of the Gregorian calendar and their numbers.
ghost use Rattle.std.specs.Prelude.{◌≡◌, ◌+◌, ◌-◌, ◌<◌, ◌≤◌, true, List};
ghost use Rattle.dcm_dates.specs.Calendar as spec;

/// The last year that has four digits.
pub const LAST_YEAR: u32 = 9999;

/// The months of a year.
pub const MONTHS: u32 = 12;

/// The days of a year that is no leap year.
const YEAR: u32 = 365;

/// The days of four years, of which the last is a leap year.
const FOUR_YEARS: u32 = 4 * YEAR + 1;

/// The days of a century whose last year is no leap year.
const CENTURY: u32 = 25 * FOUR_YEARS - 1;

/// The days of four centuries, after which leap years come again.
const FOUR_CENTURIES: u32 = 4 * CENTURY + 1;

/// The number of 9999-12-31, the last day whose year has four digits.
pub const LAST_NUMBER: u32 = 3_652_059;

/// The most of a kind that the first three of four have: the fourth has a day more.
const FOURTH: u32 = 3;

/// Whether a year of the Gregorian calendar is a leap year.
pub fn is_leap(year: u32) -> bool
    ensures { result ≡ spec.is_leap year }
{
    year % 4 == 0 && (year % 100 != 0 || year % 400 == 0)
}

/// The days of a month of a year.
pub fn days_of_month(year: u32, month: u32) -> u32
    ensures days { result ≡ spec.days_of_month year month }
    ensures some { result ≤ 31 }
{
    match month {
        2 if is_leap(year) => 29,
        2 => 28,
        4 | 6 | 9 | 11 => 30,
        _ => 31,
    }
}

/// The days of all years before a year.
#[tactic(auto, unfolding(crate::specs::Calendar::days_before))]
pub fn days_before(year: u32) -> u32
    requires first { 1 ≤ year }
    requires last { year ≤ 9999 }
    ensures { result ≡ spec.days_before year }
{
    let past = year - 1;
    YEAR * past + past / 4 - past / 100 + past / 400
}

/// The days of a year before a month.
pub fn days_before_month(year: u32, month: u32) -> u32
    requires first { 1 ≤ month }
    requires last { month ≤ 12 }
    ensures { result ≡ spec.days_of_months year (month - 1) }
{
    let mut days = 0;
    for earlier in 1..month {
        days += days_of_month(year, earlier);
    }
    days
}

/// A year, and the number of a day in it, from 1.
#[derive(Clone, Copy)]
pub struct DayOfYear {
    pub year: u32,
    pub day: u32,
}

/// The year of the day that has a number, and the number of this day in the year.
pub fn day_of_year(number: u32) -> DayOfYear
    requires first { 1 ≤ number }
    requires last { number ≤ 3652059 }
    ensures year { 1 ≤ result.year }
    ensures last { result.year ≤ 9999 }
    ensures day { 1 ≤ result.day }
    ensures within { result.day ≤ spec.days_of_year result.year }
    ensures number { spec.days_before result.year + result.day ≡ number }
{
    let past = number - 1;
    let in_centuries = past % FOUR_CENTURIES;
    let centuries = (in_centuries / CENTURY).min(FOURTH);
    let in_fours = in_centuries - centuries * CENTURY;
    let in_years = in_fours % FOUR_YEARS;
    let years = (in_years / YEAR).min(FOURTH);
    DayOfYear {
        year: past / FOUR_CENTURIES * 400 + centuries * 100 + in_fours / FOUR_YEARS * 4 + years + 1,
        day: in_years - years * YEAR + 1,
    }
}
