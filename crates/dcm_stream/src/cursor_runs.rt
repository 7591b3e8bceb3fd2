// Runs of elements in explicit little endian whose heads are short and whose values are whole (PS3.5 7.1.2).
ghost use Rattle.std.specs.Prelude.{◌≡◌, ◌+◌, ◌<◌, ◌≤◌, ◌==◌, ◌&&◌, ◌||◌, [], None, false, length, IfSome, IfOk};
ghost use Rattle.std.specs.List.{slice_index_or};
ghost use Rattle.dcm_base.specs.declared.syntax.Syntax.TheVariants.{Little as little_in};
ghost use Rattle.dcm_base.specs.Reading.Place as place;
ghost use Rattle.dcm_base.specs.Reading.Reads as reads;
ghost use Rattle.dcm_stream.specs.Machine as spec;
ghost use Rattle.dcm_stream.specs.Sinks as sinks;
ghost use Rattle.dcm_stream.specs.WholeLeaf as whole;

use super::cursor::Cursor;
use super::levels::OpenLevels;
use super::whole_leaf::{WholeLeaf, plain_leaf};
use super::{Halt, Sink};
use dcm_base::{Container, Dictionary, Syntax};
use dcm_head::SHORT_HEAD;

/// The bytes of the group of items and of ends, FFFE (PS3.5 7.5).
const MARK_LOW: u8 = 0xFE;

const MARK_HIGH: u8 = 0xFF;

/// Whether elements may come in a container.
fn holds_elements(container: Container) -> bool
    ensures { result ≡ whole.holds_elements container }
{
    matches!(container, Container::DataSet | Container::Item)
}

/// Whether the bytes begin as an item or an end does, in either order.
#[inline(always)]
fn may_be_mark(bytes: &[u8]) -> bool
    requires { 8 ≤ length bytes.now }
    ensures { result ≡ ((slice_index_or bytes.now 0 0 == 254 && slice_index_or bytes.now 1 0 == 255)
        || (slice_index_or bytes.now 0 0 == 255 && slice_index_or bytes.now 1 0 == 254)) }
{
    (bytes[0] == MARK_LOW && bytes[1] == MARK_HIGH)
        || (bytes[0] == MARK_HIGH && bytes[1] == MARK_LOW)
}

/// The dictionary of the innermost container, where elements in explicit little endian may come in it.
#[inline(always)]
fn dictionary_inside(levels: &OpenLevels) -> Option<Dictionary>
    ensures { IfSome result (λ d. whole.HoldsLittle d levels.now) }
{
    let inner = levels.innermost()?;
    match inner.syntax {
        Syntax::Little(dictionary) if holds_elements(inner.container) => Some(dictionary),
        _ => None,
    }
}

/// The plain element that the bytes begin with, where the sink takes it.
#[inline(always)]
fn accepted_leaf<'p, S: Sink>(
    dictionary: Dictionary,
    bytes: &'p [u8],
    sink: &S,
) -> Option<WholeLeaf<'p>>
    ensures plain { IfSome result (whole.IsPlain (little_in dictionary) bytes.now) }
    ensures taken { IfSome result (λ leaf. S.bar (S.state sink.now) leaf.head ≡ None) }
{
    let leaf = plain_leaf(dictionary, bytes)?;
    match sink.accepts(&leaf.head) {
        Ok(()) => Some(leaf),
        Err(_) => None,
    }
}

impl Cursor {
    /// How many of so many bytes there are before the last head for which the open containers leave room.
    #[inline(always)]
    fn before_ends(&self, size: usize) -> usize
        requires { place.passes 8 (place.room self.now.position self.now.levels) ≡ false }
        ensures within { result ≤ size }
        ensures room { place.passes (result + 8) (place.room self.now.position self.now.levels) ≡ false }
    {
        match self.levels.room(self.position) {
            Some(room) => room.saturating_sub(SHORT_HEAD as u64).min(size as u64) as usize,
            None => size,
        }
    }

    /// Reads plain elements that the bytes begin with, up to one that is not plain or that the sink refuses, and
    /// answers how many bytes they have. Behind each is room for a head, so that nothing ends there.
    #[inline(always)]
    fn read_leaves<S: Sink>(
        &mut self,
        dictionary: Dictionary,
        run: &[u8],
        sink: &mut S,
    ) -> Result<usize, Halt>
        requires holds { whole.HoldsLittle dictionary self.old.levels }
        requires sign { spec.held_sign self.old ≡ None }
        requires left { self.old.left ≡ 0 }
        requires head { self.old.head.items ≡ [] }
        requires within { self.old.position + length run.now ≤ reads.INPUT_LIMIT }
        requires room { place.passes (length run.now + 8) (place.room self.old.position self.old.levels) ≡ false }
        ensures some { IfOk result (λ n. n ≤ length run.now) }
        ensures fed { sinks.FedPiece S.Sink sink.old sink.new self.old self.new run.now result }
    {
        let mut rest = run;
        while let Some(leaf) = accepted_leaf(dictionary, rest, sink) {
            let size = SHORT_HEAD + leaf.value.len();
            sink.take_whole(leaf.head, leaf.syntax, leaf.value)?;
            self.position += size as u64;
            let (_, after) = rest.split_at(size);
            rest = after;
        }
        Ok(run.len() - rest.len())
    }

    /// Reads plain elements that the bytes begin with, as far as no container ends there, and answers how many bytes
    /// they have.
    #[inline(always)]
    fn read_run<S: Sink>(&mut self, bytes: &[u8], sink: &mut S) -> Result<usize, Halt>
        requires stands { spec.Stands (spec.reading self.old None) }
        requires left { self.old.left ≡ 0 }
        requires head { self.old.head.items ≡ [] }
        requires within { self.old.position + length bytes.now ≤ reads.INPUT_LIMIT }
        ensures some { IfOk result (λ n. n ≤ length bytes.now) }
        ensures fed { sinks.FedPiece S.Sink sink.old sink.new self.old self.new bytes.now result }
    {
        if self.sign.is_some() {
            return Ok(0);
        }
        let Some(dictionary) = dictionary_inside(&self.levels) else {
            return Ok(0);
        };
        let (run, _) = bytes.split_at(self.before_ends(bytes.len()));
        self.read_leaves(dictionary, run, sink)
    }

    /// Reads the mark that the bytes begin with by its own way, for a sink that wants it, and answers how many bytes it
    /// has, or that there is none. Each mark enters or leaves by a call of its own: an item costs less than by the
    /// general way, and what reads heads stays small.
    #[inline(always)]
    fn read_mark_apart<S: Sink>(&mut self, bytes: &[u8], sink: &mut S) -> Result<usize, Halt>
        requires stands { spec.Stands (spec.reading self.old None) }
        requires left { self.old.left ≡ 0 }
        requires head { self.old.head.items ≡ [] }
        requires eight { 8 ≤ length bytes.now }
        requires within { self.old.position + length bytes.now ≤ reads.INPUT_LIMIT }
        ensures some { IfOk result (λ n. n ≤ length bytes.now) }
        ensures fed { sinks.FedPiece S.Sink sink.old sink.new self.old self.new bytes.now result }
    {
        if sink.wants_items_apart() && may_be_mark(bytes) {
            return self.read_mark(bytes, sink);
        }
        Ok(0)
    }

    /// The same of the head of a sequence.
    #[inline(always)]
    fn read_sequence_apart<S: Sink>(&mut self, bytes: &[u8], sink: &mut S) -> Result<usize, Halt>
        requires stands { spec.Stands (spec.reading self.old None) }
        requires left { self.old.left ≡ 0 }
        requires head { self.old.head.items ≡ [] }
        requires eight { 8 ≤ length bytes.now }
        requires within { self.old.position + length bytes.now ≤ reads.INPUT_LIMIT }
        ensures some { IfOk result (λ n. n ≤ length bytes.now) }
        ensures fed { sinks.FedPiece S.Sink sink.old sink.new self.old self.new bytes.now result }
    {
        if !sink.wants_items_apart() {
            return Ok(0);
        }
        self.read_sequence(bytes, sink)
    }

    /// Reads heads and whole values that the bytes begin with, or all of the bytes where not even one head is whole.
    /// What may be a mark is no element, so no run of elements is looked for there.
    #[inline(always)]
    pub fn read_heads<S: Sink>(&mut self, bytes: &[u8], sink: &mut S) -> Result<usize, Halt>
        requires stands { spec.Stands (spec.reading self.old None) }
        requires left { self.old.left ≡ 0 }
        requires head { self.old.head.items ≡ [] }
        requires eight { 8 ≤ length bytes.now }
        requires within { self.old.position + length bytes.now ≤ reads.INPUT_LIMIT }
        ensures some { IfOk result (λ n. (0 < n) × (n ≤ length bytes.now)) }
        ensures fed { sinks.FedPiece S.Sink sink.old sink.new self.old self.new bytes.now result }
    {
        let n = self.read_mark_apart(bytes, sink)?;
        if n > 0 {
            return Ok(n);
        }
        let n = self.read_run(bytes, sink)?;
        if n > 0 {
            return Ok(n);
        }
        let n = self.read_sequence_apart(bytes, sink)?;
        if n > 0 {
            return Ok(n);
        }
        self.read_head(bytes, sink)
    }
}
