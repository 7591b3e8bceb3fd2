// Numbers from their hexadecimal digits.
ghost use Rattle.std.specs.Prelude.{◌≡◌, ◌<◌, ◌≤◌, ◌*◌, ◌^◌, IfSome, length};
ghost use Rattle.dcm_base.specs.Lines.ReadValue as spec;

/// The number that a hexadecimal digit spells, in either case.
#[inline(always)]
fn hexadecimal_digit(byte: u8) -> Option<u8>
    ensures value { result ≡ spec.digit 16 byte }
    ensures below { IfSome result (λ d. d < 16) }
{
    match byte {
        b'0'..=b'9' => Some(byte - b'0'),
        b'A'..=b'F' => Some(byte - b'A' + 10),
        b'a'..=b'f' => Some(byte - b'a' + 10),
        _ => None,
    }
}

/// The number that at most 16 hexadecimal digits spell, the highest first.
fn number(digits: &[u8]) -> Option<u64>
    requires { length digits.now ≤ 16 }
    ensures value { result ≡ spec.number_in 16 0 digits.now }
    ensures small { IfSome result (λ n. n < 16 ^ length digits.now) }
{
    let mut number = 0;
    for byte in digits {
        number = number * 16 + u64::from(hexadecimal_digit(*byte)?);
    }
    Some(number)
}

/// The number of so many bytes that two hexadecimal digits each spell, in either case, the highest first.
pub fn hexadecimal(size: usize, digits: &[u8]) -> Option<u64>
    requires { size ≤ 8 }
    ensures value { result ≡ spec.hex_number (2 * size) digits.now }
    ensures small { IfSome result (λ n. n < 256 ^ size) }
{
    if digits.len() != 2 * size {
        return None;
    }
    number(digits)
}

/// The byte of the two hexadecimal digits after a percent sign, in either case. Other bytes name none.
pub fn unescape(digits: &[u8; 2]) -> Option<u8>
    ensures { result ≡ spec.hex_number 2 digits.now }
{
    let byte = hexadecimal(1, digits)?;
    Some(byte as u8)
}
