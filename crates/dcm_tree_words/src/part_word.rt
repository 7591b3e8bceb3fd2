// The part that a word names.
ghost use Rattle.std.specs.Prelude.{◌≡◌, ◌≤◌, option_map};
ghost use Rattle.dcm_tree_words.specs.Parts as spec;
ghost use Rattle.dcm_tree_words.specs.Plans.{part_as, part_with};

use crate::part::Part;
use dcm_base::decimal_number;
use dcm_edits::cut_at;

/// The most digits of a number of parts.
const MOST_DIGITS: usize = 4;

/// The number that 1 to 4 decimal digits spell. Leading zeros are allowed.
fn short_number(digits: &[u8]) -> Option<u16>
    ensures { result ≡ spec.short_number digits.now }
{
    if digits.len() > MOST_DIGITS {
        return None;
    }
    let number = decimal_number(digits)?;
    Some(number as u16)
}

/// The part that its number and the number of parts give.
fn part_of_numbers(number: u16, count: u16) -> Option<Part>
    requires { count ≤ 9999 }
    ensures { option_map part_as result ≡ part_with number count }
{
    if number == 0 || number > count {
        return None;
    }
    Some(Part { number, count })
}

/// The part that a word names as `I/N`.
pub fn part_of(word: &[u8]) -> Option<Part>
    ensures { option_map part_as result ≡ spec.part_of word.now }
{
    let (number, count) = cut_at(b'/', word);
    let number = short_number(number)?;
    let count = short_number(count?)?;
    part_of_numbers(number, count)
}
