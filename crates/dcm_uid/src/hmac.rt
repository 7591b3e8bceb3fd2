// HMAC-SHA-256 (RFC 2104), which takes the block of the key once.
ghost use Rattle.std.specs.Prelude.{◌≡◌, ◌≤◌, ℕ, ⊤, List, length, map, bit_xor, ◌++◌};
ghost use Rattle.sha2.specs.Hashers.{Holds256};
ghost use Rattle.dcm_uid.specs.Hmac.{IsKey, filled, hmac_sha256, pad, short_key};

use sha2::{Digest, Sha256};

/// The bytes of a block (FIPS 180-4 table 1).
const BLOCK: usize = 64;

/// The bytes of a digest, and of an authentication code (FIPS 180-4 table 1).
pub const CODE_SIZE: usize = 32;

/// What each byte of the block of the key is turned by for the inner pass, and for the outer one (RFC 2104 2).
const INNER_PAD: u8 = 0x36;

const OUTER_PAD: u8 = 0x5C;

/// A clone that cannot fail.
fn copied<T: Clone>(x: &T) -> T
    requires { T.is_infallible x.now }
    ensures { T.is_clone x.now result }
{
    match x.clone() {
        Ok(it) => it,
        Err(_) => unreachable!(),
    }
}

/// A key of at most a block, followed by zeros.
fn filled(key: &[u8]) -> [u8; BLOCK]
    requires { length key.now ≤ 64 }
    ensures { result ≡ filled key.now }
{
    let mut block = [0; BLOCK];
    block[..key.len()].copy_from_slice(key);
    block
}

/// The block of a key: it is followed by zeros, and a key of more than a block is hashed first.
fn block_of(key: &[u8]) -> [u8; BLOCK]
    ensures { result ≡ filled (short_key key.now) }
{
    if key.len() <= BLOCK {
        filled(key)
    } else {
        filled(&Sha256::digest(key))
    }
}

/// The block, each byte XOR this one.
fn turned(byte: u8, block: &[u8; BLOCK]) -> [u8; BLOCK]
    ensures { result ≡ map (bit_xor byte) block.now }
{
    let mut out = [0; BLOCK];
    'bytes: for i in 0..BLOCK {
        out[i] = byte ^ block[i];
    }
    out
}

/// A key: the hashers of the two passes, each after the block of the key.
#[derive(Drop)]
pub struct Key {
    inner: Sha256,
    outer: Sha256,
}

impl Key {
    /// The key of these bytes, of any number.
    pub fn new(key: &[u8]) -> Key
        ensures { IsKey result key.now }
    {
        let block = block_of(key);
        Key {
            inner: Sha256::new_with_prefix(&turned(INNER_PAD, &block)),
            outer: Sha256::new_with_prefix(&turned(OUTER_PAD, &block)),
        }
    }

    /// The authentication code of the message that was hashed after the block of the inner pass.
    fn code_of(&self, inner: Sha256) -> [u8; CODE_SIZE]
        ensures { (key message : List ℕ) → IsKey self.now key → Holds256 inner (pad 0x36 key ++ message)
            → result ≡ hmac_sha256 key message }
    {
        let digest = inner.finalize();
        let mut outer = copied(&self.outer);
        outer.update(&digest);
        outer.finalize()
    }

    /// The authentication code of a message under the key.
    pub fn hmac(&self, message: &[u8]) -> [u8; CODE_SIZE]
        ensures { (key : List ℕ) → IsKey self.now key → result ≡ hmac_sha256 key message.now }
    {
        let mut inner = copied(&self.inner);
        inner.update(message);
        self.code_of(inner)
    }

    /// The authentication code of a message in three pieces.
    pub fn hmac_of_three(&self, first: &[u8], second: &[u8], third: &[u8]) -> [u8; CODE_SIZE]
        ensures { (key : List ℕ) → IsKey self.now key
            → result ≡ hmac_sha256 key (first.now ++ (second.now ++ third.now)) }
    {
        let mut inner = copied(&self.inner);
        inner.update(first);
        inner.update(second);
        inner.update(third);
        self.code_of(inner)
    }
}
