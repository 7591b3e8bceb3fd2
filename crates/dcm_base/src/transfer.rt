// Transfer syntaxes (PS3.5 annex A).
ghost use Rattle.std.specs.Prelude.{◌≡◌};
ghost use Rattle.dcm_base.specs.Tables.Transfer as spec;

use crate::dictionary::Dictionary;
use crate::syntax::{Coding, Syntax};

/// Implicit VR Little Endian (PS3.5 A.1).
pub const IMPLICIT_UID: &[u8] = b"1.2.840.10008.1.2";

/// Explicit VR Little Endian (PS3.5 A.2).
pub const LITTLE_UID: &[u8] = b"1.2.840.10008.1.2.1";

/// Explicit VR Big Endian (PS3.5 A.3).
pub const BIG_UID: &[u8] = b"1.2.840.10008.1.2.2";

/// A transfer syntax whose data set is deflated, and is not read.
#[derive(Clone, Copy, Debug, PartialEq, Eq)]
pub struct Deflated;

fn is_deflated(uid: &[u8]) -> bool
    ensures { result ≡ spec.is_deflated uid.now }
{
    uid == b"1.2.840.10008.1.2.1.99".as_slice()
        || uid == b"1.2.840.10008.1.2.4.95".as_slice()
        || uid == b"1.2.840.10008.1.2.4.205".as_slice()
}

/// How a data set of this transfer syntax is spelled (PS3.5 A.1, A.2, A.3, A.4), read by the extract;
/// `Coding::read_by` names another dictionary.
#[tactic(auto, unfolding(crate::specs::Tables::Transfer::coding_of))]
pub fn coding_of(uid: &[u8]) -> Result<Coding, Deflated>
    ensures { result ≡ spec.coding_of uid.now }
{
    let native = |syntax| Coding {
        syntax,
        encapsulated: false,
    };
    if uid == IMPLICIT_UID {
        return Ok(native(Syntax::Implicit(Dictionary::Extract)));
    }
    if uid == LITTLE_UID {
        return Ok(native(Syntax::LITTLE));
    }
    if uid == BIG_UID {
        return Ok(native(Syntax::Big(Dictionary::Extract)));
    }
    if is_deflated(uid) {
        return Err(Deflated);
    }
    Ok(Coding {
        syntax: Syntax::LITTLE,
        encapsulated: true,
    })
}
