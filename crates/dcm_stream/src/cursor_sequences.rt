// Sequences in explicit little endian (PS3.5 7.5).
ghost use Rattle.std.specs.Prelude.{◌≡◌, ◌+◌, ◌<◌, ◌≤◌, ◌==◌, ◌&&◌, [], false, length, Some, IfSome, IfOk};
ghost use Rattle.std.specs.List.{slice_index_or};
ghost use Rattle.dcm_base.specs.Reading.Place as place;
ghost use Rattle.dcm_base.specs.Reading.Reads as reads;
ghost use Rattle.dcm_stream.specs.Judging as judging;
ghost use Rattle.dcm_stream.specs.Machine as spec;
ghost use Rattle.dcm_stream.specs.Marks as marks;
ghost use Rattle.dcm_stream.specs.Places.{innermost};
ghost use Rattle.dcm_stream.specs.Sinks as sinks;

use super::cursor::Cursor;
use super::judge::{Opening, judge_head, syntax_inside};
use super::levels::{OpenLevels, is_allowed, level_at};
use super::{Halt, Sink, Token};
use dcm_base::{Container, Level, Syntax, Vr};
use dcm_head::{Head, HeadRead, LONG_HEAD, read_tag, read_tagged};

/// Whether the bytes have the letters of a sequence after the tag.
fn has_letters(bytes: &[u8]) -> bool
    requires { 8 ≤ length bytes.now }
    ensures { result ≡ (slice_index_or bytes.now 4 0 == 83 && slice_index_or bytes.now 5 0 == 81) }
{
    bytes[4] == b'S' && bytes[5] == b'Q'
}

/// The head of a sequence in explicit little endian that the bytes begin with, and its syntax, where it may come and
/// fits, and the sink takes it.
#[inline(always)]
fn sequence_in<S: Sink>(
    inner: Level,
    levels: &OpenLevels,
    position: u64,
    bytes: &[u8],
    sink: &S,
) -> Option<(Head, Syntax)>
    requires eight { 8 ≤ length bytes.now }
    requires within { position + length bytes.now ≤ reads.INPUT_LIMIT }
    requires inner { innermost levels.now ≡ Some inner }
    requires room { place.passes 8 (place.room position levels.now) ≡ false }
    ensures { IfSome result (marks.IsSequence (judging.bars_head S.bar (S.state sink.now)) inner levels.now position
        bytes.now) }
{
    if !matches!(inner.syntax, Syntax::Little(_)) || !has_letters(bytes) {
        return None;
    }
    let tag = read_tag(inner.syntax, bytes);
    if !is_allowed(inner.container, inner.declared, tag) {
        return None;
    }
    let HeadRead::Done(head, size) = read_tagged(inner.syntax, tag, bytes) else {
        return None;
    };
    if head.vr != Vr::SQ || size != LONG_HEAD {
        return None;
    }
    match judge_head(inner, levels, position, head, size as u64, sink) {
        Ok(Opening::Sequence(head, syntax)) => Some((head, syntax)),
        _ => None,
    }
}

impl Cursor {
    /// Goes into a sequence, with no call of its own.
    #[inline(always)]
    fn enter_sequence_here<S: Sink>(
        &mut self,
        head: Head,
        syntax: Syntax,
        sink: &mut S,
    ) -> Result<(), Halt>
        requires head { self.old.head.items ≡ [] }
        requires left { self.old.left ≡ 0 }
        requires within { self.old.position ≤ reads.INPUT_LIMIT }
        requires few { length self.old.levels < 129 }
        ensures { sinks.Came S.Sink sink.old sink.new (spec.reading self.new)
            (spec.enters self.old (Opening.Sequence head syntax)) result }
    {
        let inner = syntax_inside(syntax, head.vr);
        let level = level_at(Container::Sequence, inner, head.length, self.position);
        self.enter_container(
            Opening::Sequence(head, syntax),
            level,
            Token::Open(head, syntax),
            sink,
        )
    }

    /// The same by a call, so that what reads heads stays small.
    #[inline(never)]
    fn enter_sequence_by_call<S: Sink>(
        &mut self,
        head: Head,
        syntax: Syntax,
        sink: &mut S,
    ) -> Result<(), Halt>
        requires head { self.old.head.items ≡ [] }
        requires left { self.old.left ≡ 0 }
        requires within { self.old.position ≤ reads.INPUT_LIMIT }
        requires few { length self.old.levels < 129 }
        ensures { sinks.Came S.Sink sink.old sink.new (spec.reading self.new)
            (spec.enters self.old (Opening.Sequence head syntax)) result }
    {
        self.enter_sequence_here(head, syntax, sink)
    }

    /// Goes into a sequence: by a call for a sink for which sequences are read apart, and else without one.
    #[inline(always)]
    pub fn enter_sequence<S: Sink>(
        &mut self,
        head: Head,
        syntax: Syntax,
        sink: &mut S,
    ) -> Result<(), Halt>
        requires head { self.old.head.items ≡ [] }
        requires left { self.old.left ≡ 0 }
        requires within { self.old.position ≤ reads.INPUT_LIMIT }
        requires few { length self.old.levels < 129 }
        ensures { sinks.Came S.Sink sink.old sink.new (spec.reading self.new)
            (spec.enters self.old (Opening.Sequence head syntax)) result }
    {
        if !sink.wants_items_apart() {
            return self.enter_sequence_here(head, syntax, sink);
        }
        self.enter_sequence_by_call(head, syntax, sink)
    }

    /// Reads the head of a sequence in explicit little endian that the bytes begin with, where it may come and fits
    /// and the sink takes it, and answers how many bytes it has, or that it has none.
    #[inline(always)]
    pub fn read_sequence<S: Sink>(&mut self, bytes: &[u8], sink: &mut S) -> Result<usize, Halt>
        requires stands { spec.Stands (spec.reading self.old None) }
        requires left { self.old.left ≡ 0 }
        requires head { self.old.head.items ≡ [] }
        requires eight { 8 ≤ length bytes.now }
        requires within { self.old.position + length bytes.now ≤ reads.INPUT_LIMIT }
        ensures some { IfOk result (λ n. n ≤ length bytes.now) }
        ensures fed { sinks.FedPiece S.Sink sink.old sink.new self.old self.new bytes.now result }
    {
        let Some(inner) = self.levels.innermost() else {
            return Ok(0);
        };
        let Some((head, syntax)) = sequence_in(inner, &self.levels, self.position, bytes, sink)
        else {
            return Ok(0);
        };
        self.position += LONG_HEAD as u64;
        self.enter_sequence(head, syntax, sink)?;
        Ok(LONG_HEAD)
    }
}
