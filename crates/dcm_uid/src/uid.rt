// New UIDs in place of old ones.
ghost use Rattle.std.specs.Prelude.{◌≡◌, ◌≤◌, ◌+◌, ◌++◌, ℕ, List, length};
ghost use Rattle.std.specs.List.{list_all};
ghost use Rattle.dcm_uid.specs.Hmac.{IsKey, hmac_sha256};
ghost use Rattle.dcm_uid.specs.Uid as spec;

use crate::hmac::{CODE_SIZE, Key};
use arrayvec::ArrayVec;
use dcm_bytes::append;
use dcm_head::without_pads;
use itoa::Buffer;

/// The version of a UUID, 8, in the high half of byte 6 (RFC 9562 4.2).
const VERSION: u8 = 0x80;

/// The variant of a UUID, in the two high bits of byte 8 (RFC 9562 4.1).
const VARIANT: u8 = 0x80;

/// The most bytes of a UID (PS3.5 9.1).
const MOST_OF_UID: usize = 64;

/// The most bytes of a new UID: those of `2.25.`, and the digits of a number of 128 bits.
const MOST_OF_NEW: usize = 44;

/// The UUID of version 8 of a digest (RFC 9562 5.8).
fn uuid(digest: &[u8; CODE_SIZE]) -> [u8; 16]
    ensures { result ≡ spec.uuid digest.now }
{
    [
        digest[0],
        digest[1],
        digest[2],
        digest[3],
        digest[4],
        digest[5],
        digest[6] % 16 + VERSION,
        digest[7],
        digest[8] % 64 + VARIANT,
        digest[9],
        digest[10],
        digest[11],
        digest[12],
        digest[13],
        digest[14],
        digest[15],
    ]
}

/// Its number.
fn uuid_number(digest: &[u8; CODE_SIZE]) -> u128
    ensures { result ≡ spec.uuid_number digest.now }
{
    u128::from_be_bytes(uuid(digest))
}

/// The new UID in place of `b` under a key: `2.25.` and the number of a UUID (PS3.5 B.2).
pub fn new_uid(key: &Key, b: &[u8]) -> ArrayVec<u8, MOST_OF_NEW>
    ensures value { (k : List ℕ) → IsKey key.now k → result.items ≡ spec.new_uid k b.now }
    ensures short { length result.items ≤ 44 }
    ensures form { spec.IsNewUid result.items }
{
    let number = uuid_number(&key.hmac(b));
    let mut buffer = Buffer::new();
    let mut uid = ArrayVec::new();
    append(b"2.25.", &mut uid);
    append(buffer.format(number).as_bytes(), &mut uid);
    uid
}

/// Whether a byte is a digit or a point.
fn is_uid_byte(b: u8) -> bool
    ensures { result ≡ spec.is_uid_byte b }
{
    b == b'.' || (b'0' <= b && b <= b'9')
}

/// Whether all are digits and points.
fn are_uid_bytes(b: &[u8]) -> bool
    ensures { result ≡ list_all spec.is_uid_byte b.now }
{
    b.iter().all(|x| is_uid_byte(*x))
}

/// Whether it is a UID of the standard's own.
fn is_standard(b: &[u8]) -> bool
    ensures { result ≡ spec.is_standard b.now }
{
    b.starts_with(b"1.2.840.10008.") && are_uid_bytes(b)
}

/// Whether it is one UID of at most 64 bytes (PS3.5 6.2).
fn is_one_uid(b: &[u8]) -> bool
    ensures { result ≡ spec.is_one_uid b.now }
{
    !b.is_empty() && b.len() <= MOST_OF_UID && !b.contains(&b'\\')
}

/// What takes the place of the value of a UID under a key (PS3.15 E.1.1, action U), without padding: nothing where it is
/// not one UID of at most 64 bytes, itself where it is the standard's own, else a new one.
pub fn new_value(key: &Key, value: &[u8]) -> ArrayVec<u8, MOST_OF_UID>
    ensures { (k : List ℕ) → IsKey key.now k → result.items ≡ spec.new_value k value.now }
{
    let b = without_pads(value);
    let mut out = ArrayVec::new();
    if !is_one_uid(b) {
        return out;
    }
    if is_standard(b) {
        append(b, &mut out);
    } else {
        append(new_uid(key, b).as_slice(), &mut out);
    }
    out
}
