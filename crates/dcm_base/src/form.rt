ghost use Rattle.std.specs.Prelude.{◌≡◌};
ghost use Rattle.dcm_base.specs.Bytes.Spelling as spec;
ghost use Rattle.dcm_base.specs.declared.vr.Vr.TheVariants.{UN};

use crate::dictionary::{Dictionary, is_standard_sequence};
use crate::length::Length;
use crate::syntax::Syntax;
use crate::tag::Tag;
use crate::vr::Vr;

/// What follows the head of an element: a value, items, fragments, or nothing that may stand there (PS3.5 7.5, A.4).
#[derive(Clone, Copy, Debug, PartialEq, Eq)]
pub enum Form {
    Value,
    Sequence,
    FragmentList,
    Nothing,
}

/// SQ for an unknown element that the dictionary calls a sequence (PS3.5 6.2.2).
fn unknown_read_in(dictionary: Dictionary, tag: Tag) -> Vr
    ensures { result ≡ spec.read_in dictionary tag UN }
{
    match dictionary {
        Dictionary::Extract => Vr::UN,
        Dictionary::Standard | Dictionary::Signed => {
            if is_standard_sequence(tag) {
                Vr::SQ
            } else {
                Vr::UN
            }
        }
    }
}

/// The representation by which the contents of an element are read.
#[inline(always)]
pub fn read_as(syntax: Syntax, tag: Tag, vr: Vr) -> Vr
    ensures { result ≡ spec.read_as syntax tag vr }
{
    match vr {
        Vr::UN => match syntax {
            Syntax::Little(dictionary) | Syntax::Big(dictionary) => {
                unknown_read_in(dictionary, tag)
            }
            _ => Vr::UN,
        },
        _ => vr,
    }
}

/// What follows a head of this syntax, representation and length (PS3.5 7.5, 6.2.2, A.4).
#[tactic(auto, unfolding(crate::specs::Bytes::Spelling::form))]
pub fn form_of(syntax: Syntax, vr: Vr, length: Length) -> Form
    ensures { result ≡ spec.form syntax vr length }
{
    match (vr, length) {
        (Vr::SQ, _) | (Vr::UN, Length::Undefined) => Form::Sequence,
        (_, Length::Known(_)) => Form::Value,
        (Vr::OB | Vr::OW, Length::Undefined) if matches!(syntax, Syntax::Little(_)) =>
            Form::FragmentList,
        (_, Length::Undefined) => Form::Nothing,
    }
}
