// The edits of a command line.
ghost use Rattle.std.specs.Prelude.{◌≡◌, length, map};
ghost use Rattle.dcm_edits.specs.EditWords.{meant_edits, meant_edits_in};
ghost use Rattle.dcm_edits.specs.Making.{MakesAll, texts};
ghost use Rattle.dcm_edits.specs.Meaning.{edit_of, AreMeant};

use crate::edit::Edit;
use crate::fault::EditFault;
use crate::overlap::first_overlap;
use crate::parse::edits_of;
use dcm_base::{Dictionary, EditRefusal};
use std::alloc::{Allocator, Global};
use std::marker::Model;

/// The most edits of a command line: the bits of a mask of 64 bits.
pub const MOST_EDITS: usize = 64;

/// The edits that some words mean, in the order of the words: at most 64, of which no two overlap (DECISIONS, D-20).
#[derive(Debug, Drop)]
pub struct Edits<A: Allocator = Global> {
    list: Vec<Edit<A>, A>,
}

impl<A: Allocator> Model for Edits<A> {
    ghost use Rattle.std.specs.Prelude.{List, map};
    ghost use Rattle.dcm_edits.specs.Edit as spec;
    ghost use Rattle.dcm_edits.specs.EditCode.{edit_code};
    ghost use Rattle.std.specs.Coded.{coded_list};

    ghost Value = { List spec.Edit };

    ghost coded = { coded_list edit_code };

    ghost use Rattle.dcm_edits.specs.Meaning.{edit_of, AreMeant};

    ghost view = { λ e. map edit_of e.list.items };

    ghost invariant = { λ e. AreMeant (map edit_of e.list.items) };
}

impl<A: Allocator> Edits<A> {
    /// The edits that words mean by the extract of the dictionary, or the first refusal.
    pub fn parse(alloc: A, words: &[&[u8]]) -> Result<Edits<A>, EditFault>
    where
        A: Copy,
        ensures { MakesAll (λ edits. edits) result (meant_edits (texts words.now)) }
    {
        Edits::parse_in(alloc, Dictionary::Extract, words)
    }

    /// The edits that words mean by a dictionary, or the first refusal. Words that say something of all edits, `+dict`,
    /// `-dict` and `+ow`, are no edits and are passed over: `settings_of` answers what they say (DECISIONS, D-25).
    pub fn parse_in(
        alloc: A,
        dictionary: Dictionary,
        words: &[&[u8]],
    ) -> Result<Edits<A>, EditFault>
    where
        A: Copy,
        ensures { MakesAll (λ edits. edits) result (meant_edits_in dictionary (texts words.now)) }
    {
        let list = edits_of(alloc, dictionary, words)?;
        match first_overlap(list.as_slice()) {
            Some(number) => Err(EditFault::Refused(EditRefusal::Overlap, number)),
            None => Ok(Edits { list }),
        }
    }

    /// The edits, in the order of the words.
    pub fn list(&self) -> &[Edit<A>]
        ensures list { map edit_of result.now ≡ self.now }
        ensures meant { AreMeant self.now }
    {
        self.list.as_slice()
    }

    /// Does nothing: its contract says that some words mean the edits.
    pub fn are_meant(&self)
        ensures { AreMeant self.now }
    {
        let _ = &self.list;
    }

    /// How many edits there are.
    pub fn len(&self) -> usize
        ensures { result ≡ length self.now }
    {
        self.list.len()
    }
}
