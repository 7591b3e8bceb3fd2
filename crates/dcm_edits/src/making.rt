// An edit from its path and its value.
ghost use Rattle.std.specs.Prelude.{◌≡◌, ◌≤◌, [], ◌∷◌, ◌++◌, length, map, IfOk, true};
ghost use Rattle.dcm_base.specs.Lines.ReadValue as value_spec;
ghost use Rattle.dcm_edits.specs.Edit as spec_edit;
ghost use Rattle.dcm_edits.specs.EditWords as spec;
ghost use Rattle.dcm_edits.specs.Making.{kind_as, known_as, Makes, word_value, with_value, steps_to, is_of_all, Fit};
ghost use Rattle.dcm_edits.specs.Meaning.{action_of as action_as, along, edit_of as edit_as};

use crate::edit::{Action, Edit, NewElement, PathEdit, Step};
use crate::fault::Failure;
use crate::form::{Kind, has_form};
use crate::known::{Known, known_parts, uses_sequences};
use crate::path::{cut_at, parts_of};
use dcm_base::{Dictionary, EditRefusal, VALUE_LIMIT, Vr};
use dcm_value::{read_value, takes_bytes};
use std::alloc::{AllocError, Allocator};

fn copy_of<A: Allocator>(alloc: A, bytes: &[u8]) -> Result<Vec<u8, A>, Failure>
    ensures { Makes (λ v. v.items) result (Ok bytes.now) }
{
    let mut copy = Vec::new(alloc);
    copy.extend_from_slice(bytes)?;
    Ok(copy)
}

/// The value that a word means in this representation; of a text the word itself (DECISIONS, D-19).
fn value_of_word<A: Allocator>(alloc: A, vr: Vr, word: &[u8]) -> Result<Vec<u8, A>, Failure>
    ensures value { Makes (λ v. v.items) result (word_value vr word.now) }
    ensures short { IfOk result (λ v. length v.items ≤ value_spec.VALUE_LIMIT) }
{
    if word.is_empty() {
        return Ok(Vec::new(alloc));
    }
    if takes_bytes(vr) {
        if word.len() > VALUE_LIMIT {
            return Err(Failure::Refused(EditRefusal::ValueDoesNotFit));
        }
        return copy_of(alloc, word);
    }
    match read_value(vr, word) {
        Ok(value) => copy_of(alloc, value.as_slice()),
        Err(_) => Err(Failure::Refused(EditRefusal::ValueDoesNotFit)),
    }
}

/// The steps that lead to the end of a path.
fn steps_of<A: Allocator>(alloc: A, leading: &[Known]) -> Result<Vec<Step, A>, AllocError>
    ensures { IfOk result (λ steps. (edit : spec_edit.PathEdit)
        → along steps.items edit ≡ steps_to (map known_as leading.now) edit) }
{
    let mut steps = Vec::new(alloc);
    let mut rest = leading;
    while let [known, after @ ..] = rest {
        if let Some(index) = known.index {
            steps.push(Step {
                tag: known.tag,
                index,
            })?;
        }
        rest = after;
    }
    Ok(steps)
}

fn new_element<A: Allocator>(alloc: A, known: Known, text: &[u8]) -> Result<NewElement<A>, Failure>
    ensures { Makes (λ e. (e.tag, e.vr, e.value.items)) result (with_value known.tag known.vr text.now) }
{
    let value = value_of_word(alloc, known.vr, text)?;
    Ok(NewElement {
        tag: known.tag,
        vr: known.vr,
        value,
    })
}

/// The end of a path that erases an element, or items where there is an index.
fn erasing<A: Allocator>(last: Known) -> Action<A>
    ensures { action_as result ≡ spec.item_or_element (known_as last).tag (known_as last).index }
{
    match last.index {
        None => Action::Erase(last.tag),
        Some(index) => Action::EraseItem(Step {
            tag: last.tag,
            index,
        }),
    }
}

fn on_path<A: Allocator>(alloc: A, leading: &[Known], action: Action<A>) -> Result<Edit<A>, Failure>
    ensures { Makes edit_as result (Ok (spec_edit.on_path (steps_to (map known_as leading.now) (action_as action)))) }
{
    let steps = steps_of(alloc, leading)?;
    Ok(Edit::OnPath(PathEdit { steps, action }))
}

/// An edit of this kind, on the parts that lead to the last one, with its value.
fn edit_on<A: Allocator + Copy>(
    alloc: A,
    kind: Kind,
    leading: &[Known],
    last: Known,
    text: &[u8],
) -> Result<Edit<A>, Failure>
    requires { is_of_all kind ≡ true → leading.now ≡ [] }
    ensures { Makes edit_as result
        (spec.valued_edit (kind_as kind) (map known_as leading.now ++ known_as last ∷ []) text.now) }
{
    match kind {
        Kind::Inserts => {
            let element = new_element(alloc, last, text)?;
            on_path(alloc, leading, Action::Insert(element))
        }
        Kind::Modifies => {
            let element = new_element(alloc, last, text)?;
            on_path(alloc, leading, Action::Modify(element))
        }
        Kind::Erases => on_path(alloc, leading, erasing(last)),
        Kind::ModifiesAll => Ok(Edit::ModifyAll(new_element(alloc, last, text)?)),
        Kind::ErasesAll => Ok(Edit::EraseAll(last.tag)),
    }
}

/// An edit of this kind from its known parts and its value.
fn edit_of_known<A: Allocator + Copy>(
    alloc: A,
    kind: Kind,
    known: &[Known],
    text: &[u8],
) -> Result<Edit<A>, Failure>
    requires { Fit kind known.now }
    ensures { Makes edit_as result (spec.edit_of_known (kind_as kind) text.now (map known_as known.now)) }
{
    if !uses_sequences(kind.takes_value(), known) {
        return Err(Failure::Refused(EditRefusal::SequenceMisused));
    }
    let (leading, end) = known.split_at(known.len() - 1);
    edit_on(alloc, kind, leading, end[0], text)
}

/// An edit from its path and its value.
fn edit_of_path<A: Allocator + Copy>(
    alloc: A,
    dictionary: Dictionary,
    kind: Kind,
    path: &[u8],
    text: &[u8],
) -> Result<Edit<A>, Failure>
    ensures { Makes edit_as result (spec.meant_edit dictionary (kind_as kind) path.now text.now) }
{
    let parts = match parts_of(path) {
        Some(parts) if has_form(kind, parts.as_slice()) => parts,
        _ => return Err(Failure::Refused(EditRefusal::BadOption)),
    };
    match known_parts(dictionary, parts.as_slice()) {
        Ok(known) => edit_of_known(alloc, kind, known.as_slice(), text),
        Err(refusal) => Err(Failure::Refused(refusal)),
    }
}

/// An edit from the word that follows its option.
pub fn edit_of_word<A: Allocator + Copy>(
    alloc: A,
    dictionary: Dictionary,
    kind: Kind,
    word: &[u8],
) -> Result<Edit<A>, Failure>
    ensures { Makes edit_as result (spec.meant_word dictionary (kind_as kind) word.now) }
{
    if kind.takes_value() {
        let (path, value) = cut_at(b'=', word);
        edit_of_path(alloc, dictionary, kind, path, value.unwrap_or(&[]))
    } else {
        edit_of_path(alloc, dictionary, kind, word, &[])
    }
}
