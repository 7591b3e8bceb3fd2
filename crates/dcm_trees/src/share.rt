// The names of a tree that one of several runs does.
ghost use Rattle.std.specs.Prelude.{◌≡◌};
ghost use Rattle.dcm_trees.specs.Share as spec;

use dcm_tree_words::Part;

/// The hash of no bytes (FNV-1a of 32 bits).
const BASIS: u32 = 2_166_136_261;

/// What the hash is multiplied with for each byte.
const PRIME: u32 = 16_777_619;

/// The hash of a relative name.
fn hash(bytes: &[u8]) -> u32
    ensures { result ≡ spec.hash bytes.now }
{
    let mut hash = BASIS;
    for byte in bytes {
        hash ^= u32::from(*byte);
        hash = hash.wrapping_mul(PRIME);
    }
    hash
}

/// Whether a relative name is of this part of the names.
pub fn is_of(part: Part, relative: &[u8]) -> bool
    ensures { result ≡ spec.is_of part.number part.count relative.now }
{
    hash(relative) % u32::from(part.count) + 1 == u32::from(part.number)
}
