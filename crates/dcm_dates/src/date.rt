// A day and its number.
ghost use Rattle.std.specs.Prelude.{◌≡◌, ◌≤◌, true};
ghost use Rattle.dcm_dates.specs.Numbered as spec;

use crate::calendar::{
    LAST_YEAR, MONTHS, day_of_year, days_before, days_before_month, days_of_month,
};

/// A day of the Gregorian calendar.
#[derive(Clone, Copy, Debug, PartialEq, Eq)]
pub struct Date {
    pub year: u32,
    pub month: u32,
    pub day: u32,
}

/// A month of a year, and a day of it.
#[derive(Clone, Copy)]
struct DayOfMonth {
    month: u32,
    day: u32,
}

/// The month of a day of a year, and which of its days it is.
fn day_of_month(year: u32, day_of_year: u32) -> DayOfMonth
    ensures { (result.month, result.day) ≡ spec.in_months 11 year 1 day_of_year }
{
    let mut day = day_of_year;
    for month in 1..MONTHS {
        let days = days_of_month(year, month);
        if day <= days {
            return DayOfMonth { month, day };
        }
        day -= days;
    }
    DayOfMonth { month: MONTHS, day }
}

impl Date {
    /// Whether the date exists, in a year from 1 to 9999.
    pub fn is_day(&self) -> bool
        ensures { result ≡ spec.is_day self.now }
    {
        1 <= self.year
            && self.year <= LAST_YEAR
            && 1 <= self.month
            && self.month <= MONTHS
            && 1 <= self.day
            && self.day <= days_of_month(self.year, self.month)
    }

    /// The number of a day: 0001-01-01 has 1, and each next day the next number.
    pub fn number(&self) -> u32
        requires { spec.is_day self.now ≡ true }
        ensures value { result ≡ spec.number_of self.now }
        ensures some { 1 ≤ result }
        ensures within { result ≤ 3652059 }
    {
        days_before(self.year) + days_before_month(self.year, self.month) + self.day
    }

    /// The day that has a number from 1 to 3,652,059, which is that of 9999-12-31.
    pub fn of_number(number: u32) -> Date
        requires first { 1 ≤ number }
        requires last { number ≤ 3652059 }
        ensures value { result ≡ spec.date_of number }
        ensures day { spec.is_day result ≡ true }
        ensures number { spec.number_of result ≡ number }
    {
        let in_year = day_of_year(number);
        let in_month = day_of_month(in_year.year, in_year.day);
        Date {
            year: in_year.year,
            month: in_month.month,
            day: in_month.day,
        }
    }
}
