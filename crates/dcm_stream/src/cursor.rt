// How far the reading of a data set has come (PS3.5 7).
ghost use Rattle.std.specs.Prelude.{◌≡◌, ◌+◌, ◌-◌, ◌<◌, ◌≤◌, [], ◌∷◌, ◌++◌, None, drop, length, IfOk};
ghost use Rattle.dcm_stream.specs.Judging as judging;
ghost use Rattle.dcm_stream.specs.Judging.{opened_by};
ghost use Rattle.dcm_stream.specs.Tokens.{IsFilled, atoms_of};
ghost use Rattle.dcm_stream.specs.Reading as steps;
ghost use Rattle.dcm_stream.specs.Machine as spec;
ghost use Rattle.dcm_stream.specs.Sinks as sinks;
ghost use Rattle.dcm_stream.specs.WholeLeaf as whole;
ghost use Rattle.dcm_base.specs.Reading.Reads as reads;

use super::close::{close_full, closing_token};
use super::judge::{Judged, Opening, judge};
use super::levels::{OpenLevels, level_at, passes};
use super::machine::INPUT_LIMIT;
use super::sign::OpenSign;
use super::whole_leaf::{WholeLeaf, whole_leaf};
use super::{Halt, Sink, Token};
use arrayvec::ArrayVec;
use dcm_base::{Container, Fault, Length, Level, Stop, Stopped, Syntax};
use dcm_head::{LONG_HEAD, SHORT_HEAD};

/// The offset up to which heads and values were read whole, the bytes of a head after it, the bytes of a value that
/// are to come, what is read of an open PixelRepresentation, and the open containers.
#[derive(Drop)]
pub struct Cursor {
    pub position: u64,
    pub head: ArrayVec<u8, LONG_HEAD>,
    pub left: u32,
    pub sign: Option<OpenSign>,
    pub levels: OpenLevels,
}

fn refused(fault: Fault, at: u64) -> Halt
    ensures { result ≡ Stopped.Refused (record { fault = fault; at = at }) }
{
    Stopped::Refused(Stop { fault, at })
}

impl Cursor {
    /// The beginning of a data set at this offset.
    pub fn new(syntax: Syntax, start: u64) -> Self
        requires { start ≤ reads.INPUT_LIMIT }
        ensures { spec.reading result None ≡ steps.start_of syntax start }
    {
        let set = level_at(Container::DataSet, syntax, Length::Undefined, start);
        Cursor {
            position: start,
            head: ArrayVec::new(),
            left: 0,
            sign: None,
            levels: OpenLevels::new(set),
        }
    }

    /// Closes what is full here. No head may come where less room is left than the shortest takes. Where there is room
    /// for a head, nothing is full: so one comparison is made, with the nearest end alone.
    #[inline(always)]
    fn settle<S: Sink>(&mut self, sink: &mut S) -> Result<(), Halt>
        requires head { self.old.head.items ≡ [] }
        requires left { self.old.left ≡ 0 }
        ensures { sinks.Came S.Sink sink.old sink.new (spec.reading self.new) (spec.settles self.old) result }
    {
        if passes(SHORT_HEAD as u64, self.levels.room(self.position)) {
            return self.settle_near_end(sink);
        }
        Ok(())
    }

    /// The same, near the end of a container.
    #[inline(never)]
    fn settle_near_end<S: Sink>(&mut self, sink: &mut S) -> Result<(), Halt>
        requires head { self.old.head.items ≡ [] }
        requires left { self.old.left ≡ 0 }
        ensures { sinks.Came S.Sink sink.old sink.new (spec.reading self.new) (spec.settles self.old) result }
    {
        close_full(&mut self.levels, self.position, sink)?;
        if passes(SHORT_HEAD as u64, self.levels.room(self.position)) {
            return Err(refused(Fault::PassesEnd, self.position));
        }
        Ok(())
    }

    /// Closes a value of which no byte is left.
    #[inline(always)]
    fn settle_value<S: Sink>(&mut self, sink: &mut S) -> Result<(), Halt>
        requires head { self.old.head.items ≡ [] }
        ensures { sinks.Came S.Sink sink.old sink.new (spec.reading self.new)
            (spec.settles_value self.old) result }
    {
        if self.left > 0 {
            return Ok(());
        }
        sink.take(Token::CloseLeaf)?;
        self.end_sign();
        self.settle(sink)
    }

    /// Reads bytes of the open value.
    #[inline(always)]
    fn read_value<S: Sink>(&mut self, value: &[u8], sink: &mut S) -> Result<(), Halt>
        requires head { self.old.head.items ≡ [] }
        requires some { 0 < length value.now }
        requires fits { length value.now ≤ self.old.left }
        requires within { self.old.position + length value.now ≤ reads.INPUT_LIMIT }
        ensures { sinks.Came S.Sink sink.old sink.new (spec.reading self.new)
            (spec.reads_value self.old value.now) result }
    {
        sink.take(Token::Bytes(value))?;
        self.position += value.len() as u64;
        self.left -= value.len() as u32;
        self.read_sign(value);
        self.settle_value(sink)
    }

    /// Goes into a value or fragment of so many bytes.
    #[inline(always)]
    fn enter_value<S: Sink>(
        &mut self,
        opening: Opening,
        size: u32,
        token: Token,
        sink: &mut S,
    ) -> Result<(), Halt>
        requires head { self.old.head.items ≡ [] }
        requires value { judging.OpensValue opening size }
        requires filled { IsFilled token }
        requires token { atoms_of token ≡ judging.opening_atom opening ∷ [] }
        ensures { sinks.Came S.Sink sink.old sink.new (spec.reading self.new)
            (spec.enters self.old opening) result }
    {
        sink.take(token)?;
        self.begin_sign(opening);
        self.left = size;
        self.settle_value(sink)
    }

    /// Goes into a container.
    #[inline(always)]
    pub fn enter_container<S: Sink>(
        &mut self,
        opening: Opening,
        inner: Level,
        token: Token,
        sink: &mut S,
    ) -> Result<(), Halt>
        requires head { self.old.head.items ≡ [] }
        requires left { self.old.left ≡ 0 }
        requires few { length self.old.levels < 129 }
        requires inside { judging.LeadsTo self.old.position self.old.levels opening (inner ∷ self.old.levels) }
        requires filled { IsFilled token }
        requires token { atoms_of token ≡ judging.opening_atom opening ∷ [] }
        ensures { sinks.Came S.Sink sink.old sink.new (spec.reading self.new)
            (spec.enters self.old opening) result }
    {
        sink.take(token)?;
        self.begin_sign(opening);
        self.levels.push(inner);
        self.settle(sink)
    }

    /// Goes out of the innermost container.
    #[inline(always)]
    pub fn leave<S: Sink>(
        &mut self,
        opening: Opening,
        token: Token,
        sink: &mut S,
    ) -> Result<(), Halt>
        requires head { self.old.head.items ≡ [] }
        requires left { self.old.left ≡ 0 }
        requires outside { judging.LeadsTo self.old.position self.old.levels opening (drop 1 self.old.levels) }
        requires filled { IsFilled token }
        requires token { atoms_of token ≡ judging.opening_atom opening ∷ [] }
        ensures { sinks.Came S.Sink sink.old sink.new (spec.reading self.new)
            (spec.enters self.old opening) result }
    {
        sink.take(token)?;
        self.begin_sign(opening);
        self.levels.pop();
        self.settle(sink)
    }

    /// Goes into what a head before this place opens, or out of what it closes. Each token is given where it is made,
    /// so that a sink's call, which is inlined, does not ask again what it is.
    #[inline(always)]
    fn enter<S: Sink>(&mut self, opening: Opening, sink: &mut S) -> Result<(), Halt>
        requires head { self.old.head.items ≡ [] }
        requires left { self.old.left ≡ 0 }
        requires within { self.old.position ≤ reads.INPUT_LIMIT }
        requires few { length (opened_by self.old.position self.old.levels opening).levels ≤ 129 }
        ensures { sinks.Came S.Sink sink.old sink.new (spec.reading self.new)
            (spec.enters self.old opening) result }
    {
        let begin = self.position;
        match opening {
            Opening::Leaf(head, syntax, size) => {
                self.enter_value(opening, size, Token::Open(head, syntax), sink)
            }
            Opening::Fragment(size) => {
                self.enter_value(opening, size, Token::OpenFragment(size), sink)
            }
            Opening::Sequence(head, syntax) => self.enter_sequence(head, syntax, sink),
            Opening::FragmentList(head, syntax) => {
                let level = level_at(Container::FragmentList, syntax, Length::Undefined, begin);
                self.enter_container(opening, level, Token::Open(head, syntax), sink)
            }
            Opening::Item(syntax, declared) => self.enter_item(syntax, declared, sink),
            Opening::End(container) => self.leave(opening, closing_token(container), sink),
        }
    }

    /// Reads bytes that end no head, and holds them.
    fn read_head_bytes(&mut self, bytes: &[u8])
        requires { length self.old.head.items + length bytes.now ≤ 12 }
        ensures { spec.reading self.new None
            ≡ record (spec.reading self.old None) { head = self.old.head.items ++ bytes.now } }
    {
        let _ = self.head.try_extend_from_slice(bytes);
    }

    /// Reads a byte that may end a head.
    #[inline(never)]
    fn read_head_byte<S: Sink>(&mut self, byte: u8, sink: &mut S) -> Result<(), Halt>
        requires stands { spec.Stands (spec.reading self.old None) }
        requires left { self.old.left ≡ 0 }
        requires long { 7 ≤ length self.old.head.items }
        requires within { self.old.position + length self.old.head.items < reads.INPUT_LIMIT }
        ensures { sinks.Fed S.Sink sink.old sink.new (spec.reading self.old None) (spec.reading self.new)
            (byte ∷ []) result }
    {
        let Some(inner) = self.levels.innermost() else {
            unreachable!()
        };
        self.head.push(byte);
        match judge(
            inner,
            &self.levels,
            self.position,
            self.head.as_slice(),
            sink,
        ) {
            Judged::More => Ok(()),
            Judged::Refused(fault) => {
                self.head.clear();
                Err(refused(fault, self.position))
            }
            Judged::Opens(opening, _) => {
                self.position += self.head.len() as u64;
                self.head.clear();
                self.enter(opening, sink)
            }
        }
    }

    /// Reads an element whose head is before this place and whose value is whole. Nearly all elements are such: a call
    /// of the sink takes head, bytes and end together, and no count of bytes to come is kept.
    #[inline(always)]
    fn read_leaf<S: Sink>(
        &mut self,
        opening: Opening,
        leaf: WholeLeaf<'_>,
        sink: &mut S,
    ) -> Result<(), Halt>
        requires head { self.old.head.items ≡ [] }
        requires left { self.old.left ≡ 0 }
        requires leaf { whole.IsWhole opening leaf }
        requires within { self.old.position + length leaf.value.now ≤ reads.INPUT_LIMIT }
        ensures { sinks.Came S.Sink sink.old sink.new (spec.reading self.new)
            (whole.reads_leaf self.old leaf.entry) result }
    {
        sink.take_whole(leaf.head, leaf.syntax, leaf.value)?;
        self.position += leaf.value.len() as u64;
        self.begin_sign(opening);
        self.settle(sink)
    }

    /// Reads the head that the bytes begin with, and its value where that is whole too, or all of the bytes where not
    /// even the head is.
    #[inline(always)]
    pub fn read_head<S: Sink>(&mut self, bytes: &[u8], sink: &mut S) -> Result<usize, Halt>
        requires stands { spec.Stands (spec.reading self.old None) }
        requires left { self.old.left ≡ 0 }
        requires head { self.old.head.items ≡ [] }
        requires eight { 8 ≤ length bytes.now }
        requires within { self.old.position + length bytes.now ≤ reads.INPUT_LIMIT }
        ensures some { IfOk result (λ n. (0 < n) × (n ≤ length bytes.now)) }
        ensures fed { sinks.FedPiece S.Sink sink.old sink.new self.old self.new bytes.now result }
    {
        let Some(inner) = self.levels.innermost() else {
            unreachable!()
        };
        match judge(inner, &self.levels, self.position, bytes, sink) {
            Judged::More => {
                self.read_head_bytes(bytes);
                Ok(bytes.len())
            }
            Judged::Refused(fault) => Err(refused(fault, self.position)),
            Judged::Opens(opening, size) => {
                self.position += size as u64;
                let (_, rest) = bytes.split_at(size);
                let Some(leaf) = whole_leaf(opening, rest) else {
                    self.enter(opening, sink)?;
                    return Ok(size);
                };
                self.read_leaf(opening, leaf, sink)?;
                Ok(size + leaf.value.len())
            }
        }
    }

    /// Reads all the bytes, up to where the data set is refused or the sink's writer fails.
    #[inline(always)]
    pub fn read_all<S: Sink>(&mut self, piece: &[u8], sink: &mut S) -> Result<(), Halt>
        requires stands { spec.Stands (spec.reading self.old None) }
        ensures fed { sinks.Fed S.Sink sink.old sink.new (spec.reading self.old None) (spec.reading self.new)
            piece.now result }
    {
        let mut rest = piece;
        while !rest.is_empty() {
            let n = self.read_some(rest, sink)?;
            let (_, after) = rest.split_at(n);
            rest = after;
        }
        Ok(())
    }

    /// Reads a beginning of the bytes, and answers how many. Fails where the data set is refused or the sink's writer
    /// fails.
    #[inline(always)]
    fn read_some<S: Sink>(&mut self, piece: &[u8], sink: &mut S) -> Result<usize, Halt>
        requires some { 0 < length piece.now }
        requires stands { spec.Stands (spec.reading self.old None) }
        ensures some { IfOk result (λ n. (0 < n) × (n ≤ length piece.now)) }
        ensures fed { sinks.FedPiece S.Sink sink.old sink.new self.old self.new piece.now result }
    {
        let read = self.position + self.head.len() as u64;
        if read >= INPUT_LIMIT {
            self.head.clear();
            return Err(refused(Fault::TooLong, INPUT_LIMIT));
        }
        let most = (INPUT_LIMIT - read).min(piece.len() as u64);
        if self.left > 0 {
            let n = most.min(u64::from(self.left)) as usize;
            let (value, _) = piece.split_at(n);
            self.read_value(value, sink)?;
            return Ok(n);
        }
        if self.head.is_empty() && most >= SHORT_HEAD as u64 {
            let (bytes, _) = piece.split_at(most as usize);
            return self.read_heads(bytes, sink);
        }
        let n = (most as usize).min((SHORT_HEAD - 1).saturating_sub(self.head.len()));
        if n > 0 {
            let (bytes, _) = piece.split_at(n);
            self.read_head_bytes(bytes);
            return Ok(n);
        }
        self.read_head_byte(piece[0], sink)?;
        Ok(1)
    }

    /// Whether the data set may end here: it alone is open, and no byte of a head comes after it.
    fn may_end(&self) -> bool
        ensures { result ≡ spec.may_end self.now }
    {
        self.left == 0 && self.levels.is_top() && self.head.is_empty()
    }

    /// The input ends here: the data set is closed where it may end, and refused elsewhere. Fails where the sink's
    /// writer fails, too.
    pub fn end<S: Sink>(&self, sink: &mut S) -> Result<(), Halt>
        requires { spec.Stands (spec.reading self.now None) }
        ensures { sinks.Ended S.Sink sink.old sink.new (steps.finish (spec.reading self.now None)) result }
    {
        if !self.may_end() {
            let end = self.position + self.head.len() as u64;
            return Err(refused(Fault::EndsEarly, end));
        }
        sink.take(Token::End)?;
        Ok(())
    }
}
