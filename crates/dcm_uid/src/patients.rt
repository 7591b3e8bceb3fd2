// Pseudonyms of patients, and the days that a key makes of them.
ghost use Rattle.std.specs.Prelude.{◌≡◌, ◌≤◌, ◌<◌, ◌+◌, ◌++◌, ◌∷◌, ℕ, ℤ, pos, negsuc, ◌≤ℤ◌, List, [], length, take};
ghost use Rattle.std.specs.List.{flat_map};
ghost use Rattle.std.specs.Int.{w64, from_be_bytes};
ghost use Rattle.dcm_uid.specs.Hmac.{IsKey, hmac_sha256};
ghost use Rattle.dcm_uid.specs.Pseudonym as spec;

use crate::hmac::{CODE_SIZE, Key};
use arrayvec::ArrayVec;
use dcm_head::without_pads;

/// The most bytes of a PatientID that names a patient: 64 characters (PS3.5 6.2, LO) have up to four each.
pub const MOST_OF_PATIENT: usize = 256;

/// The bytes of a pseudonym.
pub const PSEUDONYM_SIZE: usize = 21;

/// The bytes of a code that are shown by a pseudonym: two of a million patients share one by a chance below 10^-12.
const SHOWN: usize = 10;

/// How many different numbers of days there are: of ten years.
const MOST_DAYS: u64 = 3652;

/// A text without the spaces in front.
fn without_spaces_before(text: &[u8]) -> &[u8]
    ensures value { result.now ≡ spec.without_spaces_before text.now }
    ensures within { length result.now ≤ length text.now }
{
    let mut rest = text;
    while let [b' ', after @ ..] = rest {
        rest = after;
    }
    rest
}

/// The patient whom a PatientID names: its value without padding, in front too; nothing where it is too long.
#[tactic(auto, unfolding(crate::specs::Pseudonym::patient))]
pub fn patient(value: &[u8]) -> &[u8]
    ensures value { result.now ≡ spec.patient value.now }
    ensures short { length result.now ≤ 256 }
{
    let named = without_pads(value);
    if named.len() <= MOST_OF_PATIENT {
        without_spaces_before(named)
    } else {
        &[]
    }
}

/// A hexadecimal digit in lower case.
fn hex_digit(number: u8) -> u8
    requires { number < 16 }
    ensures { result ≡ spec.hex_digit number }
{
    if number < 10 {
        b'0' + number
    } else {
        b'a' - 10 + number
    }
}

/// The code of a patient under a key, for what is named.
fn code(key: &Key, name: &[u8], patient: &[u8]) -> [u8; CODE_SIZE]
    ensures { (k : List ℕ) → IsKey key.now k → result ≡ hmac_sha256 k (spec.message name.now patient.now) }
{
    key.hmac_of_three(name, b"\\", patient)
}

/// Appends P and the first bytes of a code in hexadecimal digits.
fn show_code(code: &[u8; CODE_SIZE], out: &mut ArrayVec<u8, PSEUDONYM_SIZE>)
    requires { out.old.items ≡ [] }
    ensures { out.new.items ≡ 80 ∷ flat_map spec.hex_byte (take 10 code.now) }
{
    out.push(b'P');
    'bytes: for i in 0..SHOWN {
        out.push(hex_digit(code[i] / 16));
        out.push(hex_digit(code[i] % 16));
    }
}

/// What takes the place of a PatientID under a key, without padding: P and twenty hexadecimal digits, which are the
/// same for the same patient, and nothing where it names none.
#[tactic(auto, unfolding(crate::specs::Pseudonym::pseudonym))]
pub fn pseudonym(key: &Key, value: &[u8]) -> ArrayVec<u8, PSEUDONYM_SIZE>
    ensures { (k : List ℕ) → IsKey key.now k → result.items ≡ spec.pseudonym k value.now }
{
    let named = patient(value);
    let mut out = ArrayVec::new();
    if !named.is_empty() {
        show_code(&code(key, b"PatientID", named), &mut out);
    }
    out
}

/// The number in the first eight bytes of a code, the highest first.
fn number_of(code: &[u8; CODE_SIZE]) -> u64
    ensures { result ≡ from_be_bytes w64 (take 8 code.now) }
{
    u64::from_be_bytes([
        code[0], code[1], code[2], code[3], code[4], code[5], code[6], code[7],
    ])
}

/// By how many days dates of a patient are moved under a key: 1 to 3,652 days into the past.
pub fn days(key: &Key, patient: &[u8]) -> i32
    ensures value { (k : List ℕ) → IsKey key.now k → result ≡ spec.days k patient.now }
    ensures past { result ≤ℤ negsuc 0 }
    ensures within { negsuc 3651 ≤ℤ result }
{
    -1 - (number_of(&code(key, b"days", patient)) % MOST_DAYS) as i32
}
