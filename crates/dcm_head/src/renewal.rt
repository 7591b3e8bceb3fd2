// What stays of a meta group that is written anew.
ghost use Rattle.std.specs.Prelude.{◌≡◌, ◌<◌, IfSome, IfNone, None, Some, length, List, ℕ};
ghost use Rattle.dcm_base.specs.Conversion.NewMeta.{Renewing};
ghost use Rattle.dcm_base.specs.Tree.Tree.{Trees, no_tree};
ghost use Rattle.dcm_head.specs.Rewriting as spec;

use crate::element::MetaElement;
use arrayvec::ArrayVec;
use dcm_base::Tag;

/// The most bytes of a value that is put in place of another: those of a unique identifier (PS3.5 6.2).
const MOST_OF_NEW: usize = 64;

/// What is done with an element of a meta group.
#[derive(Drop)]
pub enum Renewed {
    /// The element is removed.
    Gone,
    /// The element is kept with its value.
    Same,
    /// The element is kept with this value, which has no padding.
    New(ArrayVec<u8, MOST_OF_NEW>),
}

impl Renewed {
    /// The element that is written.
    pub fn of<'a>(&'a self, element: MetaElement<'a>) -> Option<MetaElement<'a>>
        requires { length element.value.now < 65535 }
        ensures some { IfSome result (λ e. spec.StaysAs self.now element.entry e) }
        ensures limit { IfSome result (λ e. length e.value.now < 65535) }
        ensures none { IfNone result (spec.renewed_value self.now element.entry.value.now ≡ None) }
    {
        match self {
            Renewed::Gone => None,
            Renewed::Same => Some(element),
            Renewed::New(value) => Some(MetaElement {
                value: value.as_slice(),
                ..element
            }),
        }
    }

    /// Whether the transfer syntax is named after an element of this tag.
    pub fn is_named(&self, named: bool, tag: Tag) -> bool
        ensures { (value : List ℕ) → result ≡ spec.named_after (spec.renewed_value self.now value) named tag }
    {
        match self {
            Renewed::Gone => named,
            Renewed::Same | Renewed::New(_) => named || tag.names_syntax(),
        }
    }
}

/// Decides which elements of a meta group are kept, and with which values.
pub trait Renewal {
    /// The value that an element is to have, or none where it goes.
    ghost renewing: { Self → Renewing };

    /// What becomes of an element.
    fn renew(&self, element: MetaElement<'_>) -> Renewed
        ensures { spec.renewed_value result element.entry.value.now
            ≡ renewing self.now element.entry.tag element.entry.vr element.entry.value.now };

    /// The elements that it puts behind those that stay.
    ghost own: { Self → Trees };

    /// The same as they are written.
    fn own_elements(&self) -> &[u8]
        ensures { spec.AreOwn (own self.now) result.now };
}

/// Keeps all elements with their values.
pub struct AllStays;

impl Renewal for AllStays {
    ghost renewing = { λ self. spec.all_stays };

    ghost own = { λ self. no_tree };

    fn renew(&self, _element: MetaElement<'_>) -> Renewed {
        Renewed::Same
    }

    fn own_elements(&self) -> &[u8] {
        &[]
    }
}
