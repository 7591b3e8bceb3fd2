// How far edits have come along an input.
ghost use Rattle.std.specs.Prelude.{◌≡◌, ◌≤◌, ◌<◌, length, map, fold, Some, None, reverse, true};
ghost use Rattle.dcm_base.specs.Steps.Atoms.{closes_item, opens_item, ends};
ghost use Rattle.dcm_base.specs.declared.length.Length.{Length as AnyLength};
ghost use Rattle.dcm_stream.specs.Tokens.{atoms_of};
ghost use Rattle.dcm_editor.specs.Asking as asking;
ghost use Rattle.dcm_editor.specs.EditSink as spec;
ghost use Rattle.dcm_editor.specs.Editing as editing;
ghost use Rattle.dcm_editor.specs.Indexes as indexes;
ghost use Rattle.dcm_editor.specs.Masks as masks;
ghost use Rattle.dcm_editor.specs.declared.asked.Question.TheVariants.{AtHead};
ghost use Rattle.dcm_edits.specs.Meaning.{edit_of};

use crate::asked::{Fate, Question};
use crate::index::TagIndex;
use crate::mask::all;
use crate::place::Asked;
use arrayvec::ArrayVec;
use dcm_base::Tag;
use dcm_edits::Edit;
use dcm_stream::{Skip, Token};
use std::alloc::Allocator;

/// The most data sets that are open around another.
pub const MOST_AROUND: usize = 64;

/// An open data set: the edits that concern it, the tag of its last element, and the number of items that this element
/// has so far.
#[derive(Clone, Copy, Debug, Default, PartialEq, Eq)]
pub struct Level {
    pub mask: u64,
    pub last: Option<Tag>,
    pub items: u32,
}

/// The open data sets, what is open of a dropped element or item, and which edits have found their place.
#[derive(Drop)]
pub struct Editor {
    pub level: Level,
    pub outermost_first: ArrayVec<Level, MOST_AROUND>,
    pub skip: Skip,
    pub found: u64,
}

/// A data set of which these edits ask something.
#[inline(always)]
fn new_level(mask: u64) -> Level
    ensures { editing.level_of result ≡ record { mask = mask; last = None; count = 0 } }
{
    Level {
        mask,
        last: None,
        items: 0,
    }
}

impl Editor {
    /// Before the first token of an input.
    pub fn new<A: Allocator>(edits: &[Edit<A>]) -> Editor
        requires { length edits.now ≤ 64 }
        ensures { editing.meant edits.now result ≡ spec.begun (map edit_of edits.now) }
    {
        let mask = all(edits.len());
        Editor {
            level: new_level(mask),
            outermost_first: ArrayVec::new(),
            skip: Skip::nothing(),
            found: Asked {
                edits,
                depth: 0,
                mask,
            }
            .answering(Question::AtTop),
        }
    }

    /// How many data sets are open around the innermost one.
    pub fn depth(&self) -> usize
        ensures value { result ≡ length (reverse self.now.outermost_first.items) }
        ensures limit { result ≤ 64 }
    {
        self.outermost_first.len()
    }

    /// The edits that have found their place so far or find it here, by the input (DECISIONS, D-28).
    #[inline(always)]
    fn found_with<A: Allocator>(&self, edits: &[Edit<A>], question: Question) -> u64
        requires { length edits.now ≤ 64 }
        ensures { masks.bits result 0 (map edit_of edits.now) ≡ editing.found_with edits.now self.now question }
    {
        self.found
            | Asked {
                edits,
                depth: self.depth(),
                mask: self.level.mask,
            }
            .answering(question)
    }

    /// The edits that have found their place so far or find it at the head of an element.
    #[inline(always)]
    fn found_at<A: Allocator>(&self, edits: &[Edit<A>], index: &TagIndex, tag: Tag) -> u64
        requires few { length edits.now ≤ 64 }
        requires index { indexes.has_all index.now 0 (map edit_of edits.now) ≡ true }
        ensures { masks.bits result 0 (map edit_of edits.now)
            ≡ editing.found_with edits.now self.now (AtHead tag self.now.level.last) }
    {
        let found_here = Asked {
            edits,
            depth: self.depth(),
            mask: index.candidates(self.level.mask, tag),
        }
        .answering(Question::AtHead(tag, self.level.last));
        self.found | found_here
    }

    /// What the edits do with an element of the innermost data set.
    pub fn fate_of<'e, A: Allocator>(
        &self,
        edits: &'e [Edit<A>],
        index: &TagIndex,
        tag: Tag,
    ) -> Fate<'e, A>
        requires few { length edits.now ≤ 64 }
        requires index { indexes.has_all index.now 0 (map edit_of edits.now) ≡ true }
        ensures { asking.fate_of result ≡ editing.first_fate edits.now self.now tag }
    {
        Asked {
            edits,
            depth: self.depth(),
            mask: index.candidates(self.level.mask, tag),
        }
        .first_fate(tag)
    }

    /// Whether no edit changes an element of the innermost data set, which is not dropped, or puts another one before
    /// it.
    #[inline(always)]
    pub fn leaves<A: Allocator>(&self, edits: &[Edit<A>], index: &TagIndex, tag: Tag) -> bool
        requires few { length edits.now ≤ 64 }
        requires index { indexes.has_all index.now 0 (map edit_of edits.now) ≡ true }
        ensures { result ≡ editing.leaves edits.now self.now tag }
    {
        let mask = index.candidates(self.level.mask, tag);
        !self.skip.is_open() && (mask == 0 || !self.is_met(edits, mask, tag))
    }

    /// Whether an edit of a mask changes an element of the innermost data set, or puts another one before it.
    fn is_met<A: Allocator>(&self, edits: &[Edit<A>], mask: u64, tag: Tag) -> bool
        requires { length edits.now ≤ 64 }
        ensures { result ≡ editing.is_met edits.now self.now mask tag }
    {
        Asked {
            edits,
            depth: self.depth(),
            mask,
        }
        .any_meets(tag, self.level.last)
    }

    /// Whether the next item of the last element is erased.
    #[inline(always)]
    pub fn erases_item<A: Allocator>(&self, edits: &[Edit<A>], tag: Tag) -> bool
        requires { length edits.now ≤ 64 }
        ensures { result ≡ editing.any_erases edits.now self.now tag }
    {
        let question = Question::Erases(tag, self.level.items);
        Asked {
            edits,
            depth: self.depth(),
            mask: self.level.mask,
        }
        .any_answers(question)
    }

    /// Whether the next item is erased, if there is an element to which the item belongs.
    #[inline(always)]
    pub fn erases_next<A: Allocator>(&self, edits: &[Edit<A>]) -> bool
        requires { length edits.now ≤ 64 }
        ensures { result ≡ editing.erases_next edits.now self.now self.now.level.last }
    {
        match self.level.last {
            Some(tag) => self.erases_item(edits, tag),
            None => false,
        }
    }

    /// After the head of an element.
    fn open<A: Allocator>(&mut self, edits: &[Edit<A>], index: &TagIndex, tag: Tag)
        requires few { length edits.now ≤ 64 }
        requires index { indexes.has_all index.now 0 (map edit_of edits.now) ≡ true }
        ensures { editing.Opens edits.now self.old self.new tag }
    {
        let found = self.found_at(edits, index, tag);
        let stays = matches!(self.fate_of(edits, index, tag), Fate::Stays);
        self.found = found;
        self.skip.open(!stays);
        self.level.last = Some(tag);
        self.level.items = 0;
    }

    /// After the head of an element that the edits leave as it is.
    pub fn pass_by(&mut self, tag: Tag)
        ensures { editing.state self.new ≡ masks.masks_passed_by (editing.state self.old) tag }
    {
        self.skip.open(false);
        self.level.last = Some(tag);
        self.level.items = 0;
    }

    /// Whether nothing is dropped, and no edit puts something above the last element of the innermost data set.
    #[inline(always)]
    pub fn puts_nothing(&self, index: &TagIndex) -> bool
        ensures { result ≡ editing.puts_nothing index.now self.now }
    {
        !self.skip.is_open() && index.makes_nothing(self.level.mask)
    }

    /// Whether nothing is dropped, and no edit names the next item of the last element.
    #[inline(always)]
    pub fn passes_item(&self, index: &TagIndex) -> bool
        ensures { result ≡ editing.passes_item index.now self.now self.now.level.last }
    {
        match self.level.last {
            Some(tag) => {
                !self.skip.is_open() && index.enters_nothing(self.level.mask, tag, self.level.items)
            }
            None => false,
        }
    }

    /// After the head of an item that is passed on as it is, and of which these edits ask something.
    pub fn pass_item(&mut self, mask: u64)
        ensures { editing.state self.new
            ≡ masks.masks_item_passed mask (editing.state self.old) (editing.state self.old).level.last }
    {
        if self.level.last.is_none() || self.outermost_first.len() >= MOST_AROUND {
            return;
        }
        self.skip.open(false);
        self.level.items = self.level.items.saturating_add(1);
        self.outermost_first.push(self.level);
        self.level = new_level(mask);
    }

    /// After the end of an item that is passed on as it is.
    pub fn leave_item(&mut self)
        ensures { editing.state self.new
            ≡ masks.masks_item_left (editing.state self.old) (editing.state self.old).outer }
    {
        self.close();
        if let Some(level) = self.outermost_first.pop() {
            self.level = level;
        }
    }

    /// After the head of an item of the element with this tag, where there is room for its data set.
    #[inline(always)]
    fn enter_item<A: Allocator>(&mut self, edits: &[Edit<A>], tag: Tag)
        requires few { length edits.now ≤ 64 }
        requires last { self.old.level.last ≡ Some tag }
        requires room { length self.old.outermost_first.items < 64 }
        ensures { (declared : AnyLength) → editing.meant edits.now self.new
            ≡ spec.next (editing.meant edits.now self.old) (opens_item declared) }
    {
        let item = self.level.items;
        let found = self.found_with(edits, Question::AtItem(tag, item));
        let is_erased = self.erases_item(edits, tag);
        let question = Question::GoesAlong(tag, item);
        let inner = Asked {
            edits,
            depth: self.depth(),
            mask: self.level.mask,
        }
        .answering(question);
        self.found = found;
        self.skip.open(is_erased);
        self.level.items = item.saturating_add(1);
        self.outermost_first.push(self.level);
        self.level = new_level(inner);
    }

    /// After the head of an item.
    #[inline(always)]
    fn open_item<A: Allocator>(&mut self, edits: &[Edit<A>])
        requires { length edits.now ≤ 64 }
        ensures { (declared : AnyLength) → editing.meant edits.now self.new
            ≡ spec.next (editing.meant edits.now self.old) (opens_item declared) }
    {
        match self.level.last {
            Some(tag) if self.outermost_first.len() < MOST_AROUND => self.enter_item(edits, tag),
            _ => {}
        }
    }

    /// After the end of a value, a sequence or a fragment list.
    fn close(&mut self)
        ensures { editing.state self.new ≡ masks.masks_after_end (editing.state self.old) }
    {
        self.skip.close();
    }

    /// At the end of the innermost data set.
    fn end_set<A: Allocator>(&mut self, edits: &[Edit<A>])
        requires { length edits.now ≤ 64 }
        ensures { editing.meant edits.now self.new ≡ spec.next (editing.meant edits.now self.old) ends }
    {
        self.found = self.found_with(edits, Question::AtEnd(self.level.last));
    }

    /// After the end of an item.
    #[inline(always)]
    fn close_item<A: Allocator>(&mut self, edits: &[Edit<A>])
        requires { length edits.now ≤ 64 }
        ensures { editing.meant edits.now self.new ≡ spec.next (editing.meant edits.now self.old) closes_item }
    {
        let found = self.found_with(edits, Question::AtEnd(self.level.last));
        self.close();
        if let Some(level) = self.outermost_first.pop() {
            self.level = level;
            self.found = found;
        }
    }

    /// After the head of a fragment.
    fn open_fragment(&mut self)
        ensures { editing.state self.new ≡ masks.masks_in_fragment (editing.state self.old) }
    {
        self.skip.open(false);
    }

    /// After a token.
    pub fn go_on<A: Allocator>(&mut self, edits: &[Edit<A>], index: &TagIndex, token: Token)
        requires few { length edits.now ≤ 64 }
        requires index { indexes.has_all index.now 0 (map edit_of edits.now) ≡ true }
        ensures { editing.meant edits.now self.new
            ≡ fold spec.next (editing.meant edits.now self.old) (atoms_of token.entry) }
    {
        match token {
            Token::Open(head, _) => self.open(edits, index, head.tag),
            Token::Bytes(_) => {}
            Token::CloseLeaf | Token::CloseSeq => self.close(),
            Token::OpenItem(_) => self.open_item(edits),
            Token::CloseItem => self.close_item(edits),
            Token::OpenFragment(_) => self.open_fragment(),
            Token::End => self.end_set(edits),
        }
    }
}
