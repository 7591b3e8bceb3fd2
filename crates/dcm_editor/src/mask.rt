// Which edits of a command line ask something of an open data set, as a mask: bit k for edit k, counted from 0.
ghost use Rattle.std.specs.Prelude.{◌≡◌, ◌≢◌, ◌<◌, ◌≤◌, ◌+◌, ◌^◌, ℕ, length, map, not, true, false, Some};
ghost use Rattle.dcm_edits.specs.Edit as spec;
ghost use Rattle.dcm_editor.specs.Asking as asking;
ghost use Rattle.dcm_editor.specs.Masks as masks;
ghost use Rattle.dcm_edits.specs.Meaning.{edit_of};
ghost use Rattle.dcm_edits.specs.Together as together;
ghost use Rattle.dcm_editor.specs.declared.asked.Question.TheVariants.{Meets};

use crate::asked::{Fate, Gap, New, Question, answers, fate_by, meets, new_element};
use crate::place::Asked;
use dcm_base::Tag;
use dcm_edits::{Edit, MOST_EDITS};
use std::alloc::Allocator;

#[inline(always)]
fn is_set(mask: u64, place: usize) -> bool
    requires { place < 64 }
    ensures { result ≡ masks.is_set mask place }
{
    (mask >> place) & 1 == 1
}

/// A mask with one more bit set.
#[inline(always)]
pub fn with_bit(mask: u64, place: usize) -> u64
    requires { place < 64 }
    ensures same { masks.is_set result place ≡ true }
    ensures others { (k : ℕ) → k ≢ place → masks.is_set result k ≡ masks.is_set mask k }
{
    mask | (1 << place)
}

/// The mask of this number of edits (DECISIONS, D-56).
pub fn all(count: usize) -> u64
    requires { count ≤ 64 }
    ensures { (k : ℕ) → k < count → masks.is_set result k ≡ true }
{
    if count == MOST_EDITS {
        return u64::MAX;
    }
    (1 << count) - 1
}

/// The edits from a number on.
#[derive_where(Clone, Copy)]
struct Rest<'e, A: Allocator> {
    edits: &'e [Edit<A>],
    place: usize,
}

/// The edits from the first one on that the mask has.
#[inline(always)]
fn rest_of<A: Allocator>(edits: &[Edit<A>], mask: u64, place: usize) -> Rest<'_, A>
    requires few { place + length edits.now ≤ 64 }
    ensures few { result.place + length result.edits.now ≡ place + length edits.now }
    ensures fewer { length result.edits.now ≤ length edits.now }
    ensures skips { masks.Skips mask place (map edit_of edits.now) result.place (map edit_of result.edits.now) }
{
    if edits.is_empty() {
        return Rest { edits, place };
    }
    let lacking = (mask >> place).trailing_zeros() as usize;
    let skipped = lacking.min(edits.len());
    let (_, left) = edits.split_at(skipped);
    Rest {
        edits: left,
        place: place + skipped,
    }
}

/// The answer of an edit, if the mask has it.
#[inline(always)]
fn says_yes<A: Allocator>(
    edit: &Edit<A>,
    depth: usize,
    mask: u64,
    place: usize,
    question: Question,
) -> bool
    requires place { place < 64 }
    requires depth { depth < 2 ^ 32 }
    ensures { result ≡ asking.answer_of question (asking.asked_one depth mask place (edit_of edit.now)) }
{
    is_set(mask, place) && answers(edit, depth, question)
}

/// The same of what it does at an element.
#[inline(always)]
fn meets_in<A: Allocator>(
    edit: &Edit<A>,
    depth: usize,
    mask: u64,
    place: usize,
    tag: Tag,
    last: Option<Tag>,
) -> bool
    requires { place < 64 }
    ensures { result ≡ asking.answer_of (Meets tag last) (asking.asked_one depth mask place (edit_of edit.now)) }
{
    is_set(mask, place) && meets(edit, depth, tag, last)
}

/// The answers so far, and that of one more edit, if the mask has it.
#[inline(always)]
fn with_answer<A: Allocator>(
    yes: u64,
    edit: &Edit<A>,
    depth: usize,
    mask: u64,
    place: usize,
    question: Question,
) -> u64
    requires place { place < 64 }
    requires depth { depth < 2 ^ 32 }
    requires unset { masks.is_set yes place ≡ false }
    ensures here { masks.is_set result place
        ≡ asking.answer_of question (asking.asked_one depth mask place (edit_of edit.now)) }
    ensures others { (k : ℕ) → k ≢ place → masks.is_set result k ≡ masks.is_set yes k }
{
    if says_yes(edit, depth, mask, place, question) {
        return with_bit(yes, place);
    }
    yes
}

/// What an edit makes of an element, if the mask has it.
#[inline(always)]
fn fate_in<A: Allocator>(
    edit: &Edit<A>,
    depth: usize,
    mask: u64,
    place: usize,
    tag: Tag,
) -> Fate<'_, A>
    requires { place < 64 }
    ensures { asking.fate_of result ≡ spec.fate (asking.asked_one depth mask place (edit_of edit.now)) tag }
{
    if is_set(mask, place) {
        return fate_by(edit, depth, tag);
    }
    Fate::Stays
}

/// The lesser of two new elements; of two with one tag the first.
#[inline(always)]
fn lesser<'e, A: Allocator>(first: Option<New<'e, A>>, other: New<'e, A>) -> New<'e, A>
    ensures { asking.seen_of (Some result)
        ≡ asking.lesser (asking.seen_of first.entry) (asking.seen_of (Some other.entry)) }
{
    match first {
        Some(new) if !other.tag().is_below(new.tag()) => new,
        _ => other,
    }
}

/// What an edit puts in a gap, if the mask has it.
#[inline(always)]
fn new_in<A: Allocator>(
    edit: &Edit<A>,
    depth: usize,
    mask: u64,
    place: usize,
    gap: Gap,
) -> Option<New<'_, A>>
    requires { place < 64 }
    ensures { asking.seen_of result ≡ asking.new_in gap depth mask place (edit_of edit.now) }
{
    if !is_set(mask, place) {
        return None;
    }
    match new_element(edit, depth) {
        Some(new) if gap.holds(new.tag()) => Some(new),
        _ => None,
    }
}

impl<'e, A: Allocator> Asked<'e, A> {
    /// The edits of a mask that answer yes.
    #[inline(always)]
    pub fn answering(&self, question: Question) -> u64
        ensures { masks.bits result 0 (map edit_of self.now.edits.now)
            ≡ map (asking.answer_of question) (asking.edits_of self.now) }
    {
        let mut yes = 0;
        let mut rest = rest_of(self.edits, self.mask, 0);
        while let Some((edit, after)) = rest.edits.split_first() {
            yes = with_answer(yes, edit, self.depth, self.mask, rest.place, question);
            rest = rest_of(after, self.mask, rest.place + 1);
        }
        yes
    }

    /// Whether an edit of a mask answers yes.
    #[inline(always)]
    pub fn any_answers(&self, question: Question) -> bool
        ensures { result ≡ asking.any_answer question (asking.edits_of self.now) }
    {
        let mut rest = rest_of(self.edits, self.mask, 0);
        while let Some((edit, after)) = rest.edits.split_first() {
            if says_yes(edit, self.depth, self.mask, rest.place, question) {
                return true;
            }
            rest = rest_of(after, self.mask, rest.place + 1);
        }
        false
    }

    /// Whether an edit of a mask changes an element with this tag, or puts another one between the last one and it.
    /// Each element of an input is asked for, so this is not one question of many.
    #[inline(always)]
    pub fn any_meets(&self, tag: Tag, last: Option<Tag>) -> bool
        ensures { result ≡ asking.any_answer (Meets tag last) (asking.edits_of self.now) }
    {
        let mut rest = rest_of(self.edits, self.mask, 0);
        while let Some((edit, after)) = rest.edits.split_first() {
            if meets_in(edit, self.depth, self.mask, rest.place, tag, last) {
                return true;
            }
            rest = rest_of(after, self.mask, rest.place + 1);
        }
        false
    }

    /// What the first edit of a mask that changes an element makes of it.
    #[tactic(auto, using(crate::proofs::Masks::Skips::fate_skips, crate::proofs::Masks::Skips::fate_next))]
    pub fn first_fate(&self, tag: Tag) -> Fate<'e, A>
        ensures { asking.fate_of result ≡ together.first_fate (asking.edits_of self.now) tag }
    {
        let mut rest = rest_of(self.edits, self.mask, 0);
        while let Some((edit, after)) = rest.edits.split_first() {
            match fate_in(edit, self.depth, self.mask, rest.place, tag) {
                Fate::Stays => {}
                Fate::Becomes(element) => return Fate::Becomes(element),
                Fate::Goes => return Fate::Goes,
            }
            rest = rest_of(after, self.mask, rest.place + 1);
        }
        Fate::Stays
    }

    /// The new element with the least tag in a gap, of the edits of a mask.
    #[tactic(auto, using(crate::proofs::Masks::Skips::least_skips, crate::proofs::Masks::Skips::least_next))]
    pub fn least_new(&self, gap: Gap) -> Option<New<'e, A>>
        ensures { asking.seen_of result ≡ asking.least_new gap asking.nothing_new (asking.edits_of self.now) }
    {
        let mut least = None;
        let mut rest = rest_of(self.edits, self.mask, 0);
        while let Some((edit, after)) = rest.edits.split_first() {
            if let Some(new) = new_in(edit, self.depth, self.mask, rest.place, gap) {
                least = Some(lesser(least, new));
            }
            rest = rest_of(after, self.mask, rest.place + 1);
        }
        least
    }
}

/// The bits so far, and this one too where the mask lacks it.
fn with_unset(bits: u64, mask: u64, place: usize) -> u64
    requires place { place < 64 }
    requires unset { masks.is_set bits place ≡ false }
    ensures here { masks.is_set result place ≡ not (masks.is_set mask place) }
    ensures others { (k : ℕ) → k ≢ place → masks.is_set result k ≡ masks.is_set bits k }
{
    if is_set(mask, place) {
        return bits;
    }
    with_bit(bits, place)
}

/// The bits of so many edits that a mask lacks.
pub fn unset_bits(mask: u64, count: usize) -> u64
    requires { count ≤ 64 }
    ensures below { (k : ℕ) → k < count → masks.is_set result k ≡ not (masks.is_set mask k) }
    ensures above { (k : ℕ) → count ≤ k → masks.is_set result k ≡ false }
{
    let mut bits = 0;
    let mut place = 0;
    while place < count {
        bits = with_unset(bits, mask, place);
        place += 1;
    }
    bits
}
