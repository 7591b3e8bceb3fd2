// Numbers from their decimal digits.
ghost use Rattle.std.specs.Prelude.{◌≡◌, ◌<◌, ◌≤◌, length, IfSome};
ghost use Rattle.dcm_base.specs.Lines.ReadValue as spec;

/// The most digits of a number.
const MOST_DIGITS: usize = 20;

/// The number that a decimal digit spells.
pub fn decimal_digit(byte: u8) -> Option<u8>
    ensures value { result ≡ spec.digit 10 byte }
    ensures below { IfSome result (λ d. d < 10) }
{
    match byte {
        b'0'..=b'9' => Some(byte - b'0'),
        _ => None,
    }
}

/// The number that at most 20 decimal digits spell, the highest first.
fn number(digits: &[u8]) -> Option<u128>
    requires { length digits.now ≤ 20 }
    ensures { result ≡ spec.number_in 10 0 digits.now }
{
    let mut number = 0;
    for byte in digits {
        number = number * 10 + u128::from(decimal_digit(*byte)?);
    }
    Some(number)
}

/// The number that 1 to 20 decimal digits spell, the highest first. Leading zeros are allowed.
pub fn decimal_number(digits: &[u8]) -> Option<u128>
    ensures { result ≡ spec.decimal_number digits.now }
{
    if digits.is_empty() || digits.len() > MOST_DIGITS {
        return None;
    }
    number(digits)
}
