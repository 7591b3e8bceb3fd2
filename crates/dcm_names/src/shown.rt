// How a name is shown in a line.
ghost use Rattle.std.specs.Prelude.{◌≡◌, ◌++◌, ◌≤◌, ◌+◌, length};
ghost use Rattle.dcm_base.specs.Dump.ValueText.{hex_byte};
ghost use Rattle.dcm_names.specs.Names as spec;

use crate::list::MOST_OF_NAME;
use arrayvec::ArrayVec;

/// The most bytes by which one byte of a name is shown.
const MOST_OF_BYTE: usize = 3;

/// The most bytes by which a name is shown.
pub const MOST_SHOWN: usize = MOST_OF_BYTE * MOST_OF_NAME;

/// The two digits of a byte, in lower case.
fn hex_digits(byte: u8) -> [u8; 2]
    ensures { result ≡ hex_byte byte }
{
    let mut digits = [0; 2];
    let _ = hex::encode_to_slice([byte], &mut digits);
    digits
}

/// Whether a byte of a name is shown by its number: controls and the backslash are.
fn is_shown_by_number(byte: u8) -> bool
    ensures { result ≡ spec.is_shown_by_number byte }
{
    byte < b' ' || byte == b'\\' || byte == 0x7F
}

/// Appends a byte of a name as it is shown.
fn show_byte(byte: u8, text: &mut ArrayVec<u8, MOST_SHOWN>)
    requires { length text.old.items + 3 ≤ 12288 }
    ensures items { text.new.items ≡ text.old.items ++ spec.shown_byte byte }
    ensures len { length text.new.items ≤ length text.old.items + 3 }
{
    if is_shown_by_number(byte) {
        let [high, low] = hex_digits(byte);
        text.push(b'\\');
        text.push(high);
        text.push(low);
    } else {
        text.push(byte);
    }
}

/// A name as a line on standard error shows it. A long name is cut.
pub fn shown_name(name: &[u8]) -> ArrayVec<u8, MOST_SHOWN>
    ensures value { result.items ≡ spec.shown_name name.now }
    ensures within { length result.items ≤ 12288 }
{
    let (shown, _) = name.split_at(name.len().min(MOST_OF_NAME));
    let mut text = ArrayVec::new();
    for byte in shown {
        show_byte(*byte, &mut text);
    }
    text
}
