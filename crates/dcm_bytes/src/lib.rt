//! What all crates do with bytes in room of a fixed size, and where texts are parted.
#![tactic(auto)]

ghost use Rattle.std.specs.Prelude.{◌≡◌, ◌≤◌, ◌+◌, ◌++◌, ◌==◌, length, position};

use arrayvec::ArrayVec;

/// Appends bytes, for which there is room.
pub fn append<const N: usize>(bytes: &[u8], text: &mut ArrayVec<u8, N>)
    requires { length text.old.items + length bytes.now ≤ N }
    ensures { text.new.items ≡ text.old.items ++ bytes.now }
{
    match text.try_extend_from_slice(bytes) {
        Ok(()) => (),
        Err(_) => unreachable!(),
    }
}

/// The place of the first backslash, which parts the values of a text (PS3.5 6.4).
pub fn backslash(text: &[u8]) -> Option<usize>
    ensures { result ≡ position (λ b. b == 0x5C) text.now }
{
    text.iter().position(|byte| *byte == b'\\')
}
