// Items of sequences, and the ends of items and of sequences (PS3.5 7.5).
ghost use Rattle.std.specs.Prelude.{◌≡◌, ◌+◌, ◌<◌, ◌≤◌, [], false, length, Some, IfSome, IfOk};
ghost use Rattle.dcm_base.specs.Reading.Place as place;
ghost use Rattle.dcm_base.specs.Reading.Reads as reads;
ghost use Rattle.dcm_stream.specs.Judging.{opened_by};
ghost use Rattle.dcm_stream.specs.Machine as spec;
ghost use Rattle.dcm_stream.specs.Marks as marks;
ghost use Rattle.dcm_stream.specs.Places.{innermost};
ghost use Rattle.dcm_stream.specs.Sinks as sinks;

use super::cursor::Cursor;
use super::judge::Opening;
use super::levels::{OpenLevels, level_at, passes, with_length};
use super::{Halt, Sink, Token};
use dcm_base::{Container, Length, Level, Syntax};
use dcm_head::{HeadRead, SHORT_HEAD, read_tag, read_tagged};

/// An item of a sequence, or the end of an item or a sequence of no known length.
#[derive(Clone, Copy, Debug, PartialEq, Eq)]
enum Mark {
    Item(Length),
    ItemEnd,
    SequenceEnd,
}

/// The mark that the bytes begin with in a sequence, where it may come and fits.
#[inline(always)]
fn mark_in_sequence(inner: Level, levels: &OpenLevels, position: u64, bytes: &[u8]) -> Option<Mark>
    requires eight { 8 ≤ length bytes.now }
    requires within { position ≤ reads.INPUT_LIMIT }
    requires inner { innermost levels.now ≡ Some inner }
    requires room { place.passes 8 (place.room position levels.now) ≡ false }
    requires sequence { inner.container ≡ Container.Sequence }
    ensures { IfSome result (marks.IsMark inner levels.now position bytes.now) }
{
    let tag = read_tag(inner.syntax, bytes);
    if tag.is_item() {
        let HeadRead::Done(head, _) = read_tagged(inner.syntax, tag, bytes) else {
            return None;
        };
        if passes(
            with_length(SHORT_HEAD as u64, head.length),
            levels.room(position),
        ) {
            return None;
        }
        return Some(Mark::Item(head.length));
    }
    if inner.declared == Length::Undefined && tag.is_sequence_end() {
        Some(Mark::SequenceEnd)
    } else {
        None
    }
}

/// The mark that the bytes begin with in an item, where it may come. What is open, and the place, are for the contract
/// alone.
#[inline(always)]
fn mark_in_item(inner: Level, levels: &OpenLevels, position: u64, bytes: &[u8]) -> Option<Mark>
    requires eight { 8 ≤ length bytes.now }
    requires inner { innermost levels.now ≡ Some inner }
    requires room { place.passes 8 (place.room position levels.now) ≡ false }
    requires item { inner.container ≡ Container.Item }
    ensures { IfSome result (marks.IsMark inner levels.now position bytes.now) }
{
    if inner.declared == Length::Undefined && read_tag(inner.syntax, bytes).is_item_end() {
        Some(Mark::ItemEnd)
    } else {
        None
    }
}

/// The mark that the bytes begin with, where this is the innermost container.
#[inline(always)]
fn mark_in(inner: Level, levels: &OpenLevels, position: u64, bytes: &[u8]) -> Option<Mark>
    requires eight { 8 ≤ length bytes.now }
    requires within { position ≤ reads.INPUT_LIMIT }
    requires inner { innermost levels.now ≡ Some inner }
    requires room { place.passes 8 (place.room position levels.now) ≡ false }
    ensures { IfSome result (marks.IsMark inner levels.now position bytes.now) }
{
    match inner.container {
        Container::Sequence => mark_in_sequence(inner, levels, position, bytes),
        Container::Item => mark_in_item(inner, levels, position, bytes),
        Container::DataSet | Container::FragmentList => None,
    }
}

impl Cursor {
    /// Goes into an item of a sequence, with no call of its own.
    #[inline(always)]
    fn enter_item_here<S: Sink>(
        &mut self,
        syntax: Syntax,
        declared: Length,
        sink: &mut S,
    ) -> Result<(), Halt>
        requires head { self.old.head.items ≡ [] }
        requires left { self.old.left ≡ 0 }
        requires within { self.old.position ≤ reads.INPUT_LIMIT }
        requires few { length self.old.levels < 129 }
        ensures { sinks.Came S.Sink sink.old sink.new (spec.reading self.new)
            (spec.enters self.old (Opening.Item syntax declared)) result }
    {
        let level = level_at(Container::Item, syntax, declared, self.position);
        self.enter_container(
            Opening::Item(syntax, declared),
            level,
            Token::OpenItem(declared),
            sink,
        )
    }

    /// The same by a call, so that what reads heads stays small.
    #[inline(never)]
    fn enter_item_by_call<S: Sink>(
        &mut self,
        syntax: Syntax,
        declared: Length,
        sink: &mut S,
    ) -> Result<(), Halt>
        requires head { self.old.head.items ≡ [] }
        requires left { self.old.left ≡ 0 }
        requires within { self.old.position ≤ reads.INPUT_LIMIT }
        requires few { length self.old.levels < 129 }
        ensures { sinks.Came S.Sink sink.old sink.new (spec.reading self.new)
            (spec.enters self.old (Opening.Item syntax declared)) result }
    {
        self.enter_item_here(syntax, declared, sink)
    }

    /// Goes into an item of a sequence: by a call for a sink for which items are read apart, and else without one.
    #[inline(always)]
    pub fn enter_item<S: Sink>(
        &mut self,
        syntax: Syntax,
        declared: Length,
        sink: &mut S,
    ) -> Result<(), Halt>
        requires head { self.old.head.items ≡ [] }
        requires left { self.old.left ≡ 0 }
        requires within { self.old.position ≤ reads.INPUT_LIMIT }
        requires few { length self.old.levels < 129 }
        ensures { sinks.Came S.Sink sink.old sink.new (spec.reading self.new)
            (spec.enters self.old (Opening.Item syntax declared)) result }
    {
        if !sink.wants_items_apart() {
            return self.enter_item_here(syntax, declared, sink);
        }
        self.enter_item_by_call(syntax, declared, sink)
    }

    /// Goes out of an item, by a call.
    #[inline(never)]
    fn leave_item<S: Sink>(&mut self, sink: &mut S) -> Result<(), Halt>
        requires head { self.old.head.items ≡ [] }
        requires left { self.old.left ≡ 0 }
        ensures { sinks.Came S.Sink sink.old sink.new (spec.reading self.new)
            (spec.enters self.old (Opening.End Container.Item)) result }
    {
        self.leave(Opening::End(Container::Item), Token::CloseItem, sink)
    }

    /// Goes out of a sequence, by a call.
    #[inline(never)]
    fn leave_sequence<S: Sink>(&mut self, sink: &mut S) -> Result<(), Halt>
        requires head { self.old.head.items ≡ [] }
        requires left { self.old.left ≡ 0 }
        ensures { sinks.Came S.Sink sink.old sink.new (spec.reading self.new)
            (spec.enters self.old (Opening.End Container.Sequence)) result }
    {
        self.leave(Opening::End(Container::Sequence), Token::CloseSeq, sink)
    }

    /// Goes into what a mark before this place opens, or out of what it closes.
    #[inline(always)]
    fn enter_mark<S: Sink>(&mut self, syntax: Syntax, mark: Mark, sink: &mut S) -> Result<(), Halt>
        requires head { self.old.head.items ≡ [] }
        requires left { self.old.left ≡ 0 }
        requires within { self.old.position ≤ reads.INPUT_LIMIT }
        requires few { length (opened_by self.old.position self.old.levels (marks.opening_of syntax mark)).levels
            ≤ 129 }
        ensures { sinks.Came S.Sink sink.old sink.new (spec.reading self.new)
            (spec.enters self.old (marks.opening_of syntax mark)) result }
    {
        match mark {
            Mark::Item(declared) => self.enter_item(syntax, declared, sink),
            Mark::ItemEnd => self.leave_item(sink),
            Mark::SequenceEnd => self.leave_sequence(sink),
        }
    }

    /// Reads the mark that the bytes begin with, where it may come and fits, and answers how many bytes it has, or
    /// that it has none.
    #[inline(always)]
    pub fn read_mark<S: Sink>(&mut self, bytes: &[u8], sink: &mut S) -> Result<usize, Halt>
        requires stands { spec.Stands (spec.reading self.old None) }
        requires left { self.old.left ≡ 0 }
        requires head { self.old.head.items ≡ [] }
        requires eight { 8 ≤ length bytes.now }
        requires within { self.old.position + length bytes.now ≤ reads.INPUT_LIMIT }
        ensures some { IfOk result (λ n. n ≤ length bytes.now) }
        ensures fed { sinks.FedPiece S.Sink sink.old sink.new self.old self.new bytes.now result }
    {
        let Some(inner) = self.levels.innermost() else {
            return Ok(0);
        };
        let Some(mark) = mark_in(inner, &self.levels, self.position, bytes) else {
            return Ok(0);
        };
        self.position += SHORT_HEAD as u64;
        self.enter_mark(inner.syntax, mark, sink)?;
        Ok(SHORT_HEAD)
    }
}
