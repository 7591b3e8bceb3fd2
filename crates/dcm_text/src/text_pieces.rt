//! A text that is there as a whole, piece by piece.
ghost use Rattle.std.specs.Prelude.{◌≡◌, ◌≤◌, ◌∷◌, [], ◌++◌, true, List, length, take, drop, map, IfSome, IfNone};
ghost use Rattle.std.specs.Prelude.{MatchOption};
ghost use Rattle.std.specs.List.{list_all};
ghost use Rattle.dcm_text.specs.Decoding.{decoded, decoded_from};
ghost use Rattle.dcm_text.specs.First as first;
ghost use Rattle.dcm_text.specs.Fronts.{ArePassed};
ghost use Rattle.dcm_text.specs.Laws.{IsUtf8InForce, is_plain, as_itself};

use crate::decoder::found;
use crate::first::{Meaning, start_of};
use crate::fronts::behind_all_shown;
use crate::set::{Halves, Right, TextKind};
use crate::sets::Sets;

/// What is left of a text that is there as a whole, and what all bytes mean there. A `Decoder` gives the same, but this
/// holds no bytes and copies none, so that it takes less time.
#[derive(Drop)]
pub struct TextPieces<'a> {
    sets: Sets,
    kind: TextKind,
    halves: Halves,
    rest: &'a [u8],
}

impl<'a> TextPieces<'a> {
    ghost use Rattle.dcm_text.specs.TextPieces.{pieces_left};

    /// All of a text.
    pub fn new(sets: Sets, kind: TextKind, text: &'a [u8]) -> Self
        ensures pieces { pieces_left result ≡ decoded sets kind text.now }
        ensures rest { result.rest.now ≡ text.now }
    {
        TextPieces {
            sets,
            kind,
            halves: start_of(&sets),
            rest: text,
        }
    }

    /// The bytes that are left.
    #[inline(always)]
    pub fn rest(&self) -> &'a [u8]
        ensures { result.now ≡ self.now.rest.now }
    {
        self.rest
    }

    /// Whether the text goes on as it began.
    #[inline(always)]
    pub fn is_at_start(&self) -> bool
        ensures start { result ≡ true → self.now.halves ≡ first.start_of self.now.sets }
        ensures other { self.now.halves ≡ first.start_of self.now.sets → result ≡ true }
    {
        self.halves == start_of(&self.sets)
    }

    /// The next piece: its bytes, and what they are; nothing at the end of the text.
    #[inline(always)]
    pub fn next(&mut self) -> Option<(&'a [u8], Meaning)>
        ensures left { MatchOption result (pieces_left self.old ≡ [])
            (λ p. pieces_left self.old ≡ (p.0.now, p.1) ∷ pieces_left self.new) }
        ensures ended { IfNone result (self.new ≡ self.old) }
        ensures bytes { IfSome result (λ p. self.old.rest.now ≡ p.0.now ++ self.new.rest.now) }
        ensures some { IfSome result (λ p. 1 ≤ length p.0.now) }
        ensures few { IfSome result (λ p. length p.0.now ≤ 4) }
    {
        match found(&self.sets, self.kind, self.halves, self.rest, true) {
            Some(found) => {
                let (bytes, rest) = self.rest.split_at(found.size);
                self.halves = found.halves;
                self.rest = rest;
                Some((bytes, found.meaning))
            }
            None => None,
        }
    }

    /// Passes over bytes in front that stand for themselves, and gives them: ASCII without designations, where the text
    /// goes on as it began. So it does behind them.
    pub fn pass_plain(&mut self, size: usize) -> &'a [u8]
        requires start { self.old.halves ≡ first.start_of self.old.sets }
        requires within { size ≤ length self.old.rest.now }
        requires plain { list_all (is_plain self.old.sets) (take size self.old.rest.now) ≡ true }
        ensures front { result.now ≡ take size self.old.rest.now }
        ensures bytes { self.old.rest.now ≡ result.now ++ self.new.rest.now }
        ensures left { pieces_left self.old ≡ map as_itself result.now ++ pieces_left self.new }
    {
        let (front, rest) = self.rest.split_at(size);
        self.rest = rest;
        front
    }

    /// Passes over characters in front that a dump shows as they are, and gives their bytes, at most so many: all of
    /// one, two or three bytes, where UTF-8 is in force and the text goes on as it began. So it does behind them.
    /// Elsewhere nothing is passed over.
    #[inline(always)]
    pub fn pass_shown(&mut self, most: usize) -> &'a [u8]
        ensures bytes { self.old.rest.now ≡ result.now ++ self.new.rest.now }
        ensures passed { ArePassed (pieces_left self.old) (pieces_left self.new) result.now }
        ensures within { length result.now ≤ most }
        ensures none { result.now ≡ [] → self.new ≡ self.old }
        ensures same { (self.new.sets ≡ self.old.sets) × (self.new.kind ≡ self.old.kind)
            × (self.new.halves ≡ self.old.halves) }
    {
        let size = self.shown_size(most);
        if size == 0 {
            return &[];
        }
        let (run, rest) = self.rest.split_at(size);
        self.rest = rest;
        run
    }

    /// How many bytes they have.
    #[inline(always)]
    fn shown_size(&self, most: usize) -> usize
        ensures within { result ≤ most }
        ensures left { result ≤ length self.now.rest.now }
        ensures passed { ArePassed (pieces_left self.now)
            (decoded_from self.now.sets self.now.kind self.now.halves (drop result self.now.rest.now))
            (take result self.now.rest.now) }
    {
        if !self.is_utf8() {
            return 0;
        }
        let (window, _) = self.rest.split_at(self.rest.len().min(most));
        window.len() - behind_all_shown(window).len()
    }

    /// Whether UTF-8 is in force, and the text goes on as it began.
    #[inline(always)]
    fn is_utf8(&self) -> bool
        ensures utf8 { result ≡ true → IsUtf8InForce self.now.sets }
        ensures start { result ≡ true → self.now.halves ≡ first.start_of self.now.sets }
    {
        matches!(self.sets.start(), Right::Utf8) && !self.sets.is_extended() && self.is_at_start()
    }
}
