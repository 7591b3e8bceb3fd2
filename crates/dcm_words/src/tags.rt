// The tags of elements that are named.
ghost use Rattle.std.specs.Prelude.{◌≡◌, ◌≤◌, ◌++◌, [], ◌∷◌, take};
ghost use Rattle.dcm_words.specs.declared.tags.TheConstants.{MOST_NAMED};

use dcm_base::Tag;

/// The most elements that a dump names.
pub const MOST_NAMED: usize = 64;

/// The tags of elements that are named, in the order of the words.
#[derive(Clone, Copy, Debug, PartialEq, Eq)]
pub struct Tags {
    tags: [Tag; MOST_NAMED],
    count: usize,
    ghost within: { count ≤ MOST_NAMED },
}

impl Tags {
    ghost use Rattle.dcm_words.specs.Tags.{tags_of};

    /// No tags.
    pub fn new() -> Self
        ensures { tags_of result ≡ [] }
    {
        Tags {
            tags: [Tag::ITEM; MOST_NAMED],
            count: 0,
        }
    }

    /// The tags.
    pub fn as_slice(&self) -> &[Tag]
        ensures { result.now ≡ tags_of self.now }
    {
        &self.tags[..self.count]
    }

    /// Adds a tag, where there is room.
    pub fn push(&mut self, tag: Tag)
        ensures { tags_of self.new ≡ take MOST_NAMED (tags_of self.old ++ tag ∷ []) }
    {
        if self.count < MOST_NAMED {
            self.tags[self.count] = tag;
            self.count += 1;
        }
    }
}
