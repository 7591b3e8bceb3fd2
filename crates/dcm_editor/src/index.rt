// Which edits of a command line may ask something at an element or an item, by its tag.
ghost use Rattle.std.specs.Prelude.{◌≡◌, ◌≤◌, ◌<◌, ℕ, length, map, true};
ghost use Rattle.dcm_edits.specs.Edit.{Edit as AnEdit};
ghost use Rattle.dcm_edits.specs.Meaning.{action_of, edit_of, index_of};
ghost use Rattle.dcm_editor.specs.Asking.{is_everywhere};
ghost use Rattle.dcm_editor.specs.Indexes as indexes;
ghost use Rattle.dcm_editor.specs.Masks as masks;
ghost use Rattle.std.specs.Int.Bits.{bit_and};

use crate::asked::Question;
use crate::mask::{all, with_bit};
use crate::place::Asked;
use dcm_base::{Tag, spread};
use dcm_edits::{Action, Edit, Index, Step};
use std::alloc::Allocator;

/// How many masks there are for the tags. With 256 for the tags of at most 64 edits few other tags share one with them.
const BUCKETS: usize = 256;

/// Two to the power of so many are `BUCKETS`.
const BUCKET_BITS: u32 = 8;

/// How many tags there are.
const ALL_TAGS: u64 = 0x1_0000_0000;

/// For each tag a mask of the edits that name it, among those of a few other tags.
#[derive(Drop)]
struct TagMasks {
    buckets: [u64; BUCKETS],
}

/// For each tag the edits that name it at the end of their paths; for each item of a sequence those that name it on the
/// way; the edits that put what is missing, those that erase private elements, and those that are asked in each
/// data set. That no edit asks something of an element, or of an item, is found by one look, however many there are.
#[derive(Drop)]
pub struct TagIndex {
    ends: TagMasks,
    steps: TagMasks,
    makers: u64,
    private: u64,
    everywhere: u64,
}

/// The number of the mask for a tag.
#[inline(always)]
fn bucket_of(tag: Tag) -> usize
    ensures value { result ≡ indexes.bucket_of tag }
    ensures small { result < 256 }
{
    spread(tag.number(), BUCKET_BITS)
}

/// The number of the mask for an item of a sequence. That of the sequence itself is for each item.
#[inline(always)]
fn bucket_of_item(tag: Tag, item: u32) -> usize
    ensures value { result ≡ indexes.bucket_of_item tag item }
    ensures small { result < 256 }
{
    let number = u64::from(tag.number()) + u64::from(item) + 1;
    spread((number % ALL_TAGS) as u32, BUCKET_BITS)
}

impl TagMasks {
    /// Those of no edit.
    fn empty() -> TagMasks {
        TagMasks {
            buckets: [0; BUCKETS],
        }
    }

    /// Adds an edit to the mask with this number.
    fn add_at(&mut self, bucket: usize, place: usize)
        requires bucket { bucket < 256 }
        requires place { place < 64 }
        ensures here { indexes.holds self.new place bucket ≡ true }
        ensures others { indexes.MasksGrow self.old self.new }
    {
        self.buckets[bucket] = with_bit(self.buckets[bucket], place);
    }

    /// Adds an edit that names a tag.
    fn add(&mut self, tag: Tag, place: usize)
        requires { place < 64 }
        ensures here { indexes.names self.new place tag ≡ true }
        ensures others { indexes.MasksGrow self.old self.new }
    {
        self.add_at(bucket_of(tag), place);
    }

    /// Adds an edit that names items of a sequence.
    fn add_step(&mut self, step: Step, place: usize)
        requires { place < 64 }
        ensures here { indexes.names_step self.new place step.tag (index_of step.index) ≡ true }
        ensures others { indexes.MasksGrow self.old self.new }
    {
        match step.index {
            Index::Number(item) => self.add_at(bucket_of_item(step.tag, item), place),
            Index::Every => self.add(step.tag, place),
        }
    }

    /// Adds an edit with these steps.
    fn add_steps(&mut self, steps: &[Step], place: usize)
        requires { place < 64 }
        ensures here { indexes.names_steps self.new place steps.now ≡ true }
        ensures others { indexes.MasksGrow self.old self.new }
    {
        let mut rest = steps;
        while let Some((step, after)) = rest.split_first() {
            self.add_step(*step, place);
            rest = after;
        }
    }

    /// The edits for a tag.
    #[inline(always)]
    fn at(&self, tag: Tag) -> u64
        ensures { result ≡ indexes.mask_at self.now tag }
    {
        self.buckets[bucket_of(tag)]
    }

    /// The edits for an item of a sequence.
    #[inline(always)]
    fn at_item(&self, tag: Tag, item: u32) -> u64
        ensures { result ≡ indexes.item_mask_at self.now tag item }
    {
        self.buckets[bucket_of(tag)] | self.buckets[bucket_of_item(tag, item)]
    }
}

impl TagIndex {
    /// That of no edit, beside those that are asked in each data set.
    fn empty(everywhere: u64) -> TagIndex
        ensures { result.everywhere ≡ everywhere }
    {
        TagIndex {
            ends: TagMasks::empty(),
            steps: TagMasks::empty(),
            makers: 0,
            private: 0,
            everywhere,
        }
    }

    /// Adds an edit with this action at the end of its path.
    fn add_action<A: Allocator>(&mut self, action: &Action<A>, place: usize)
        requires { place < 64 }
        ensures here { indexes.has_path self.new place (action_of action.now) ≡ true }
        ensures others { indexes.Grows self.old self.new }
        ensures same { self.new.everywhere ≡ self.old.everywhere }
    {
        match action {
            Action::Insert(_) => self.makers = with_bit(self.makers, place),
            Action::Modify(element) => self.ends.add(element.tag, place),
            Action::Erase(tag) => self.ends.add(*tag, place),
            Action::EraseItem(step) => self.steps.add_step(*step, place),
        }
    }

    /// Adds an edit.
    fn add<A: Allocator>(&mut self, edit: &Edit<A>, place: usize)
        requires { place < 64 }
        ensures here { indexes.has_edit self.new place (edit_of edit.now) ≡ true }
        ensures others { indexes.Grows self.old self.new }
        ensures same { self.new.everywhere ≡ self.old.everywhere }
    {
        match edit {
            Edit::OnPath(path) => {
                self.add_action(&path.action, place);
                self.steps.add_steps(path.steps.as_slice(), place);
            }
            Edit::ModifyAll(element) => self.ends.add(element.tag, place),
            Edit::EraseAll(tag) => self.ends.add(*tag, place),
            Edit::ErasePrivate => self.private = with_bit(self.private, place),
        }
    }

    /// That of the edits of a command line.
    pub fn of<A: Allocator>(edits: &[Edit<A>]) -> TagIndex
        requires { length edits.now ≤ 64 }
        ensures all { indexes.has_all result 0 (map edit_of edits.now) ≡ true }
        ensures everywhere { indexes.tells_everywhere result (map edit_of edits.now) }
    {
        let mut index = TagIndex::empty(edits_everywhere(edits));
        let mut rest = edits;
        let mut place = 0;
        while let Some((edit, after)) = rest.split_first() {
            index.add(edit, place);
            rest = after;
            place += 1;
        }
        index
    }

    /// The edits of a mask that may change an element with this tag, or put what is missing.
    #[inline(always)]
    pub fn candidates(&self, mask: u64, tag: Tag) -> u64
        ensures { result ≡ indexes.candidates self.now mask tag }
    {
        let named = self.ends.at(tag) | self.makers;
        if tag.is_private() {
            return mask & (named | self.private);
        }
        mask & named
    }

    /// Whether no edit of a mask puts what is missing.
    #[inline(always)]
    pub fn makes_nothing(&self, mask: u64) -> bool
        ensures { result ≡ indexes.makes_nothing self.now mask }
    {
        mask & self.makers == 0
    }

    /// Whether no edit of a mask names this item of a sequence.
    #[inline(always)]
    pub fn enters_nothing(&self, mask: u64, tag: Tag, item: u32) -> bool
        ensures { result ≡ indexes.enters_nothing self.now mask tag item }
    {
        mask & self.steps.at_item(tag, item) == 0
    }

    /// The edits of a mask that are asked in each data set.
    #[inline(always)]
    pub fn everywhere(&self, mask: u64) -> u64
        ensures { result ≡ bit_and mask self.now.everywhere }
    {
        mask & self.everywhere
    }
}

/// The edits that are asked in each data set.
fn edits_everywhere<A: Allocator>(edits: &[Edit<A>]) -> u64
    requires { length edits.now ≤ 64 }
    ensures { masks.bits result 0 (map edit_of edits.now) ≡ map is_everywhere (map edit_of edits.now) }
{
    Asked {
        edits,
        depth: 0,
        mask: all(edits.len()),
    }
    .answering(Question::IsEverywhere)
}
