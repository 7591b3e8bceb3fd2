// The elements that words name.
ghost use Rattle.std.specs.Prelude.{◌≡◌, ◌<◌, ◌+◌, ◌^◌, ◌++◌, [], ◌∷◌, List, ℕ};

use crate::tags::{MOST_NAMED, Tags};
use crate::usage::Usage;
use dcm_base::EditRefusal;
use dcm_edits::tag_named;

/// Why a word names no element, and which of such words it is, counted from 1.
#[derive(Clone, Copy, Debug, PartialEq, Eq)]
pub struct NamingRefusal {
    pub refusal: EditRefusal,
    pub number: usize,
}

/// What the words so far that name elements come to.
#[derive(Clone, Copy)]
pub struct Naming {
    tags: Tags,
    number: usize,
    refused: Option<NamingRefusal>,
}

impl Naming {
    ghost use Rattle.dcm_words.specs.Naming.{NamingIs, GivesTags};
    ghost use Rattle.dcm_words.specs.Words as spec;

    /// Before the first word.
    pub fn new() -> Self
        ensures { NamingIs result [] }
    {
        Naming {
            tags: Tags::new(),
            number: 0,
            refused: None,
        }
    }

    /// Adds the element that a word names. The first word that names none is kept, and those after it do not matter.
    pub fn add(&mut self, word: &[u8])
        requires { self.old.number + 1 < 2 ^ 64 }
        ensures { (words : List (List ℕ)) → NamingIs self.old words → NamingIs self.new (words ++ word.now ∷ []) }
    {
        self.number += 1;
        if self.refused.is_some() {
            return;
        }
        match tag_named(word) {
            Ok(tag) => {
                // One that is too many is not kept: their number tells it.
                self.tags.push(tag);
            }
            Err(refusal) => {
                self.refused = Some(NamingRefusal {
                    refusal,
                    number: self.number,
                });
            }
        }
    }

    /// The tags that all words name, or the first refusal.
    pub fn finish(self) -> Result<Tags, Usage>
        ensures { (words : List (List ℕ)) → NamingIs self words
            → GivesTags result (spec.elements_meant words) }
    {
        if let Some(refused) = self.refused {
            return Err(Usage::InElement(refused.refusal, refused.number));
        }
        if self.number > MOST_NAMED {
            return Err(Usage::TooManyElements);
        }
        Ok(self.tags)
    }
}
