// What stays of a meta group where identity is taken out of its file.
ghost use Rattle.std.specs.Prelude.{◌≡◌, ◌&&◌, ◌≤◌, length};
ghost use Rattle.dcm_deid.specs.Meta as spec;
ghost use Rattle.dcm_deid.specs.Meta.{implementation, meta_renewing};

use crate::fate::Options;
use crate::key::UidKey;
use dcm_base::{META_GROUP, Tag};
use dcm_head::{MetaElement, PREAMBLE, Renewal, Renewed};

/// The preamble of a file without identity.
pub const NO_PREAMBLE: [u8; PREAMBLE] = [0; PREAMBLE];

/// The action for an element of the meta group.
#[derive(Clone, Copy, Debug, PartialEq, Eq)]
pub enum MetaFate {
    /// The element is removed.
    Remove,
    /// The element is kept with its value.
    Keep,
    /// The element is kept with a new UID.
    Uid,
}

/// The implementation that writes the file, this tool's (PS3.10 7.1, PS3.15 E.1): ImplementationClassUID (0002,0012) and
/// ImplementationVersionName (0002,0013), as they are written.
const IMPLEMENTATION: [u8; 68] =
    *b"\x02\0\x12\0UI\x2C\x002.25.313428391727201999114611669686557106709\x02\0\x13\0SH\x08\0DCMTOOLS";

/// What becomes of a meta element: the version of the group, the class and the instance, and the transfer syntax stay.
pub fn meta_fate(options: &Options, tag: Tag) -> MetaFate
    ensures { result ≡ spec.meta_fate options.now tag }
{
    match (tag.group, tag.element) {
        (META_GROUP, 0x0003) if !options.uids => MetaFate::Uid,
        (META_GROUP, 0x0001..=0x0003 | 0x0010) => MetaFate::Keep,
        _ => MetaFate::Remove,
    }
}

/// What stays of a meta group without identity.
#[derive(Drop)]
pub struct MetaWithoutIdentity<'a> {
    options: Options,
    key: UidKey<'a>,
}

impl<'a> MetaWithoutIdentity<'a> {
    /// A meta group without identity. The key is that of new UIDs.
    pub fn new(options: Options, key: &'a [u8]) -> Self
        ensures options { result.options ≡ options }
        ensures key { result.key.bytes.now ≡ key.now }
    {
        MetaWithoutIdentity {
            options,
            key: UidKey::new(key),
        }
    }
}

impl<'a> Renewal for MetaWithoutIdentity<'a> {
    ghost renewing = { λ self. meta_renewing self.options self.key.bytes.now };

    ghost own = { λ self. implementation };

    fn renew(&self, element: MetaElement<'_>) -> Renewed {
        match meta_fate(&self.options, element.tag) {
            MetaFate::Remove => Renewed::Gone,
            MetaFate::Keep => Renewed::Same,
            MetaFate::Uid => Renewed::New(self.key.new_value(element.value)),
        }
    }

    fn own_elements(&self) -> &[u8] {
        &IMPLEMENTATION
    }
}
