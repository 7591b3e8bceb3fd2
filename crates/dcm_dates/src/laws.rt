//! Laws of the definitions. Each function takes nothing and makes no call: its contract is the law.
ghost use Rattle.std.specs.Prelude.{◌≡◌, ◌≢◌, ℕ, ℤ, ◌+◌, ◌+ℤ◌, neg_ℤ, ◌≤◌, true, List, [], length};
ghost use Rattle.dcm_dates.specs.declared.date.Date.{Date};
ghost use Rattle.dcm_dates.specs.declared.moving.DateKind.{DateKind};
ghost use Rattle.dcm_dates.specs.Calendar.{day_number};
ghost use Rattle.dcm_dates.specs.Numbered.{date_of, is_day, number_of};
ghost use Rattle.dcm_dates.specs.Moved.{moved, moved_date};
ghost use Rattle.dcm_dates.specs.Laws.{IsTextMoved, next_day, number_shown};

/// Days are numbered without gaps from 1, which is 0001-01-01, to 3,652,059, which is 9999-12-31.
pub fn dates_are_numbers()
    ensures first { day_number 1 1 1 ≡ 1 }
    ensures next { (date : Date) → is_day date ≡ true → number_of (next_day date) ≡ number_of date + 1 }
    ensures within { (date : Date) → is_day date ≡ true → (1 ≤ number_of date) × (number_of date ≤ 3652059) }
    ensures one_day { (date : Date) → is_day date ≡ true → date_of (number_of date) ≡ date }
    ensures one_number { (n : ℕ) → 1 ≤ n → n ≤ 3652059 → (is_day (date_of n) ≡ true) × (number_of (date_of n) ≡ n) }
{}

/// A shifted text keeps its length, its number of values and the times behind the dates, and each date is the right
/// number of days later.
///
/// - A text that cannot be shifted so is emptied.
/// - No other text has these properties, where the text has at most 256 bytes.
pub fn dates_are_moved()
    ensures moved { (kind : DateKind) (days : ℤ) (text : List ℕ) → moved kind days text ≢ []
        → IsTextMoved kind days text (moved kind days text) }
    ensures only { (kind : DateKind) (days : ℤ) (text new : List ℕ) → length text ≤ 256
        → IsTextMoved kind days text new → moved kind days text ≡ new }
{}

/// Two dates that are shifted by the same number of days keep the number of days between them.
pub fn intervals_are_kept()
    ensures { (days : ℤ) (one other new newer : List ℕ) → moved_date days one ≡ Some new
        → moved_date days other ≡ Some newer
        → number_shown newer + number_shown one ≡ number_shown new + number_shown other }
{}

/// Shifting a text twice is one shift by the sum of days, and shifting the text back restores the text.
///
/// - The text was not emptied by the first shift.
pub fn moves_add_up()
    ensures sum { (kind : DateKind) (days more : ℤ) (text : List ℕ) → moved kind days text ≢ []
        → moved kind more (moved kind days text) ≡ moved kind (days +ℤ more) text }
    ensures back { (kind : DateKind) (days : ℤ) (text : List ℕ) → moved kind days text ≢ []
        → moved kind (neg_ℤ days) (moved kind days text) ≡ text }
{}
