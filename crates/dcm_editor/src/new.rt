// New elements, put where a data set lacks them.
ghost use Rattle.std.specs.Prelude.{◌≡◌, ◌<◌, ◌≤◌, [], ◌∷◌, Some, length, map};
ghost use Rattle.dcm_base.specs.Steps.Atoms.{opens, opens_item, closes_item, closes_sequence};
ghost use Rattle.dcm_base.specs.declared.length.Length.TheVariants.{Undefined};
ghost use Rattle.dcm_base.specs.Tables.Syntax.{Little};
ghost use Rattle.dcm_base.specs.declared.vr.Vr.TheVariants.{SQ};
ghost use Rattle.dcm_editor.specs.Asking as asking;
ghost use Rattle.dcm_edits.specs.Meaning.{edit_of};
ghost use Rattle.dcm_edits.specs.NewOnes.{first_new};
ghost use Rattle.dcm_editor.specs.Outputs as outputs;
ghost use Rattle.dcm_edits.specs.Overlap.{AreApart, ArePublic};
ghost use Rattle.dcm_stream.specs.Sinks as sinks;

use crate::asked::{Gap, New, Question};
use crate::place::Asked;
use dcm_base::{Length, Syntax, Tag, Vr, WriteFailed};
use dcm_edits::NewElement;
use dcm_head::Head;
use dcm_stream::{Sink, Token, take_all};
use std::alloc::Allocator;

/// Passes on the value of a new element, with this tag.
pub fn put_leaf_at<S: Sink, A: Allocator>(
    tag: Tag,
    element: &NewElement<A>,
    sink: &mut S,
) -> Result<(), WriteFailed>
    ensures { outputs.TookTrees S.Sink sink.old sink.new (outputs.leaf_at tag element.now) result }
{
    let tokens = Token::leaf(tag, element.vr, element.value.as_slice());
    take_all(tokens.as_slice(), sink)
}

/// Passes on a new value.
fn put_leaf<S: Sink, A: Allocator>(element: &NewElement<A>, sink: &mut S) -> Result<(), WriteFailed>
    ensures { outputs.TookTrees S.Sink sink.old sink.new (outputs.leaf_at element.now.tag element.now) result }
{
    put_leaf_at(element.tag, element, sink)
}

/// Opens a new sequence, and the one item of it.
fn open_made<S: Sink>(tag: Tag, sink: &mut S) -> Result<(), WriteFailed>
    ensures { sinks.Took S.Sink sink.old sink.new (opens tag SQ Undefined Little ∷ opens_item Undefined ∷ []) result }
{
    let head = Head {
        tag,
        vr: Vr::SQ,
        length: Length::Undefined,
    };
    sink.take(Token::Open(head, Syntax::LITTLE))?;
    sink.take(Token::OpenItem(Length::Undefined))
}

/// Closes the item of a new sequence, and then the sequence.
fn close_made<S: Sink>(sink: &mut S) -> Result<(), WriteFailed>
    ensures { sinks.Took S.Sink sink.old sink.new (closes_item ∷ closes_sequence ∷ []) result }
{
    sink.take(Token::CloseItem)?;
    sink.take(Token::CloseSeq)
}

/// Passes on a new sequence, with one item and the new elements in it.
#[cycle(put)]
fn put_sequence<S: Sink, A: Allocator>(
    asked: &Asked<'_, A>,
    tag: Tag,
    sink: &mut S,
) -> Result<(), WriteFailed>
    requires depth { asked.now.depth < 64 }
    requires short { asking.AreShort (map edit_of asked.now.edits.now) }
    requires apart { AreApart (asking.edits_of asked.now) }
    requires public { ArePublic (asking.edits_of asked.now) }
    requires here { asking.seen (first_new tag (asking.edits_of asked.now)) ≡ asking.a_sequence tag }
    ensures { outputs.TookFirst S.Sink sink.old sink.new tag (asking.edits_of asked.now) result }
{
    open_made(tag, sink)?;
    let mask = asked.answering(Question::GoesAlong(tag, 0));
    let inner = Asked {
        edits: asked.edits,
        depth: asked.depth + 1,
        mask,
    };
    let everywhere = Gap {
        last: None,
        next: None,
    };
    put_new(&inner, everywhere, sink)?;
    close_made(sink)
}

/// Passes on a new element, the first of its tag.
#[cycle(put)]
fn put_one<S: Sink, A: Allocator>(
    asked: &Asked<'_, A>,
    new: New<'_, A>,
    sink: &mut S,
) -> Result<(), WriteFailed>
    requires short { asking.AreShort (map edit_of asked.now.edits.now) }
    requires apart { AreApart (asking.edits_of asked.now) }
    requires public { ArePublic (asking.edits_of asked.now) }
    requires here { asking.seen (first_new (asking.new_tag new) (asking.edits_of asked.now))
        ≡ asking.seen_of (Some new) }
    ensures { outputs.TookFirst S.Sink sink.old sink.new (asking.new_tag new.entry) (asking.edits_of asked.now) result }
{
    match new {
        New::Leaf(element) => put_leaf(element, sink),
        New::Sequence(tag) => put_sequence(asked, tag, sink),
    }
}

/// Passes on the new elements of a gap, in the order of their tags.
#[cycle(put)]
pub fn put_new<S: Sink, A: Allocator>(
    asked: &Asked<'_, A>,
    gap: Gap,
    sink: &mut S,
) -> Result<(), WriteFailed>
    requires short { asking.AreShort (map edit_of asked.now.edits.now) }
    requires apart { AreApart (asking.edits_of asked.now) }
    requires public { ArePublic (asking.edits_of asked.now) }
    ensures { outputs.TookNew S.Sink sink.old sink.new (asking.in_gap gap) (asking.edits_of asked.now) result }
{
    let mut left = gap;
    while let Some(new) = asked.least_new(left) {
        put_one(asked, new, sink)?;
        left.last = Some(new.tag());
    }
    Ok(())
}
