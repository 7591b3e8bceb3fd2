// The unique identifier of a transfer syntax (PS3.10 7.1).
ghost use Rattle.std.specs.Prelude.{◌≡◌, ◌≤◌, ◌<◌, IfSome, IfNone, length};
ghost use Rattle.dcm_head.specs.SyntaxUids.{SHORT_LIMIT, uid_of_syntax};

use dcm_base::{BIG_UID, IMPLICIT_UID, LITTLE_UID, Syntax};
use std::marker::Model;

/// The bytes of the longest value that a short head can have, with its pad byte (PS3.5 7.1.2).
const MOST_BYTES: usize = 65_534;

/// The unique identifier of a transfer syntax, without pad bytes (PS3.5 9.1): of at most 65,534 bytes, as the length of
/// an element of VR UI can say.
#[derive(Drop)]
pub struct SyntaxUid<'a> {
    bytes: &'a [u8],
}

impl<'a> Model for SyntaxUid<'a> {
    ghost use Rattle.std.specs.Prelude.{◌≤◌, List, ℕ, length};
    ghost use Rattle.dcm_head.specs.SyntaxUids.{SHORT_LIMIT};

    ghost Value = { List ℕ };

    ghost view = { λ u. u.bytes.now };

    ghost invariant = { λ u. length u.bytes.now ≤ SHORT_LIMIT };
}

impl<'a> SyntaxUid<'a> {
    /// These bytes, unless there are more than 65,534.
    pub fn new(bytes: &'a [u8]) -> Option<SyntaxUid<'a>>
        ensures some { IfSome result (λ u. u ≡ bytes.now) }
        ensures none { IfNone result (SHORT_LIMIT < length bytes.now) }
    {
        if bytes.len() > MOST_BYTES {
            return None;
        }
        Some(SyntaxUid { bytes })
    }

    /// The UID of a transfer syntax that is not encapsulated (PS3.5 annex A).
    pub fn of(syntax: Syntax) -> SyntaxUid<'static>
        ensures { result ≡ uid_of_syntax syntax }
    {
        let bytes = match syntax {
            Syntax::Implicit(_) => IMPLICIT_UID,
            Syntax::Little(_) => LITTLE_UID,
            Syntax::Big(_) => BIG_UID,
        };
        SyntaxUid { bytes }
    }

    /// The bytes of the UID.
    pub fn as_bytes(&self) -> &'a [u8]
        ensures value { result.now ≡ self.now }
        ensures limit { length result.now ≤ SHORT_LIMIT }
    {
        self.bytes
    }
}
