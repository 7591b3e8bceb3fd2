// The lines of a dump, as tokens come.
ghost use Rattle.std.specs.Prelude.{◌≡◌, ◌<◌, ◌≤◌, ◌++◌, OnOk, false, length, map, fold};
ghost use Rattle.std.specs.Option.{ForSome};
ghost use Rattle.dcm_base.specs.Steps.Atoms.{value_byte, closes_leaf, opens_item, closes_item, closes_sequence};
ghost use Rattle.dcm_base.specs.Steps.Atoms.{opens_fragment};
ghost use Rattle.dcm_devices.specs.Writing.{Wrote};
ghost use Rattle.dcm_stream.specs.Reading as reading;
ghost use Rattle.dcm_stream.specs.Tokens.{atoms_of};
ghost use Rattle.dcm_base.specs.Dump.Dump as dump;
ghost use Rattle.dcm_sinks.specs.DumpSink as spec;
ghost use Rattle.dcm_sinks.specs.Encoder.{opening};
ghost use Rattle.dcm_sinks.specs.Layout.{line_rest};
ghost use Rattle.dcm_value.specs.Progress as progress;
ghost use Rattle.dcm_value.specs.ValueText.{progress as text_progress};

pub mod texts;
mod whole;

use crate::dump::layout::{Line, begin_line, put_line, put_line_start, put_rest};
use crate::dump::lengths::Lengths;
use crate::dump::list_lines::{put_item_end_line, put_item_line, put_sequence_end_line};
use dcm_base::{
    DeviceOut, Dictionary, Form, Length, MOST_OPEN, Mode, Syntax, Tag, Vr, Watched, WriteFailed,
    form_of, read_as,
};
use dcm_head::Head;
use dcm_stream::Token;
use dcm_value::ValueText;

/// Whose value is shown.
#[derive(Clone, Copy, Debug, PartialEq, Eq)]
pub enum Owner {
    Element(Tag, Vr),
    Fragment,
}

impl Owner {
    fn tag(self) -> Tag
        ensures { result ≡ spec.owner_tag self }
    {
        match self {
            Owner::Element(tag, _) => tag,
            Owner::Fragment => Tag::ITEM,
        }
    }

    fn letters(self) -> [u8; 2]
        ensures { result ≡ spec.owner_letters self }
    {
        match self {
            Owner::Element(_, vr) => vr.letters(),
            Owner::Fragment => *b"pi",
        }
    }

    /// How many values there are, where the text counted so many. A fragment is one.
    fn count(self, counted: u64) -> u64
        ensures { result ≡ spec.count_of self counted }
    {
        match self {
            Owner::Element(_, _) => counted,
            Owner::Fragment => 1,
        }
    }
}

/// Where a dump is: what is open, whose value is being shown, and its text. Where no value is open the text is of
/// none. A line is put together in a buffer that stays, since a new one would be cleared each time.
#[derive(Drop)]
pub struct Lines {
    dictionary: Dictionary,
    mode: Mode,
    line: Line,
    lengths: Lengths,
    owner: Option<Owner>,
    text: ValueText,
    is_lost: bool,
    ghost begun: { ForSome owner (λ _. progress.is_unopened (text_progress text) ≡ false) },
    ghost same: { ForSome owner (λ _. (text_progress text).display.mode ≡ mode) },
}

/// The bytes of a value; a head of undefined length has none.
fn size_of(length: Length) -> u32
    ensures { result ≡ reading.size_of length }
{
    match length {
        Length::Known(size) => size,
        Length::Undefined => 0,
    }
}

fn sequence_opening(length: Length) -> &'static [u8]
    ensures { result.now ≡ dump.sequence_opening length }
{
    match length {
        Length::Known(_) => b"(Sequence with explicit length)",
        Length::Undefined => b"(Sequence with undefined length)",
    }
}

/// In full a line is begun at once.
fn put_early_start<W: DeviceOut>(
    mode: Mode,
    out: &mut Watched<W>,
    line: &mut Line,
    level: usize,
    owner: Owner,
) -> Result<(), WriteFailed>
    requires { level ≤ MOST_OPEN }
    ensures { Wrote W.DeviceOut out.old out.new (spec.early_start mode (spec.owner_start level owner)) result }
{
    match mode {
        Mode::Full => put_line_start(out, line, level, owner.tag(), owner.letters()),
        Mode::Short => Ok(()),
    }
}

/// A line that may be cut is begun where its display is known.
fn begin_late(mode: Mode, line: &mut Line, level: usize, owner: Owner)
    requires { level ≤ MOST_OPEN }
    ensures items { line.new.items ≡ spec.late_start mode (spec.owner_start level owner) }
    ensures within { length line.new.items ≤ 271 }
{
    match mode {
        Mode::Full => line.clear(),
        Mode::Short => begin_line(line, level, owner.tag(), owner.letters()),
    }
}

impl Lines {
    ghost use Rattle.dcm_sinks.specs.Lines.{state, shows, started_in, list_line};

    /// Before the first token of a data set whose elements are called as the dictionary says.
    pub fn new(dictionary: Dictionary, mode: Mode) -> Self
        ensures { state result ≡ spec.dump_start dictionary mode }
    {
        Lines {
            dictionary,
            mode,
            line: Line::new(),
            lengths: Lengths::new(),
            owner: None,
            text: ValueText::new(Vr::UN, Syntax::LITTLE, 0, mode),
            is_lost: false,
        }
    }

    /// One more sequence, fragment list or item is open.
    fn deepen(&mut self, declared: Length)
        ensures { state self.new ≡ spec.deeper (state self.old) declared }
    {
        if self.lengths.depth() < MOST_OPEN {
            self.lengths.push(declared);
        } else {
            self.is_lost = true;
        }
    }

    #[inline(always)]
    fn begin<W: DeviceOut>(
        &mut self,
        out: &mut Watched<W>,
        owner: Owner,
        vr: Vr,
        syntax: Syntax,
        size: u32,
    ) -> Result<(), WriteFailed>
        ensures state { OnOk result (state self.new
            ≡ spec.begin (state self.old) owner (started_in self.old vr syntax size)) }
        ensures wrote { Wrote W.DeviceOut out.old out.new
            (spec.begin_writes (state self.old) owner (started_in self.old vr syntax size)) result }
    {
        put_early_start(self.mode, out, &mut self.line, self.lengths.depth(), owner)?;
        self.owner = None;
        self.text = ValueText::new(vr, syntax, size, self.mode);
        self.text.open(out)?;
        self.owner = Some(owner);
        Ok(())
    }

    fn open_list<W: DeviceOut>(
        &mut self,
        out: &mut Watched<W>,
        head: Head,
        display: &[u8],
    ) -> Result<(), WriteFailed>
        requires { length display.now ≤ 66 }
        ensures state { OnOk result (state self.new ≡ spec.deeper (state self.old) head.length) }
        ensures wrote { Wrote W.DeviceOut out.old out.new
            (list_line self.old.dictionary self.old.lengths head display.now) result }
    {
        let level = self.lengths.depth();
        put_line(
            out,
            self.dictionary,
            &mut self.line,
            level,
            head.tag,
            head.vr.letters(),
            display,
            head.length,
            1,
        )?;
        self.deepen(head.length);
        Ok(())
    }

    fn open<W: DeviceOut>(
        &mut self,
        out: &mut Watched<W>,
        head: Head,
        syntax: Syntax,
    ) -> Result<(), WriteFailed>
        ensures state { OnOk result (state self.new ≡ spec.live_step (state self.old) (opening head syntax)) }
        ensures wrote { Wrote W.DeviceOut out.old out.new (spec.live_writes (state self.old) (opening head syntax))
            result }
    {
        match form_of(syntax, read_as(syntax, head.tag, head.vr), head.length) {
            Form::Value => {
                let owner = Owner::Element(head.tag, head.vr);
                self.begin(out, owner, head.vr, syntax, size_of(head.length))
            }
            Form::Sequence => self.open_list(out, head, sequence_opening(head.length)),
            Form::FragmentList => self.open_list(out, head, b"(PixelSequence)"),
            Form::Nothing => Ok(()),
        }
    }

    fn show<W: DeviceOut>(&mut self, out: &mut Watched<W>, bytes: &[u8]) -> Result<(), WriteFailed>
        requires { self.old.is_lost ≡ false }
        ensures state { OnOk result (state self.new ≡ fold spec.dump_step (state self.old) (map value_byte bytes.now)) }
        ensures wrote { Wrote W.DeviceOut out.old out.new (shows (state self.old) (map value_byte bytes.now)) result }
    {
        let Some(owner) = self.owner.take() else {
            return Ok(());
        };
        let (own, others) = bytes.split_at(bytes.len().min(self.text.missing() as usize));
        self.text.feed(own, out)?;
        self.owner = Some(owner);
        self.is_lost = !others.is_empty();
        Ok(())
    }

    fn close<W: DeviceOut>(&mut self, out: &mut Watched<W>) -> Result<(), WriteFailed>
        ensures state { OnOk result (state self.new ≡ spec.live_step (state self.old) closes_leaf) }
        ensures wrote { Wrote W.DeviceOut out.old out.new (spec.live_writes (state self.old) closes_leaf) result }
    {
        let Some(owner) = self.owner.take() else {
            return Ok(());
        };
        let length = Length::Known(self.text.size());
        begin_late(self.mode, &mut self.line, self.lengths.depth(), owner);
        let counted = self.text.finish(&mut self.line, out)?;
        let count = owner.count(counted);
        put_rest(
            out,
            self.dictionary,
            &mut self.line,
            owner.tag(),
            length,
            count,
        )
    }

    /// Writes the line of an element that is put together up to the end of its display, and what comes after that.
    #[inline(always)]
    fn put_line_rest<W: DeviceOut>(
        &mut self,
        out: &mut Watched<W>,
        head: Head,
        count: u64,
    ) -> Result<(), WriteFailed>
        requires { length self.old.line.items ≤ 337 }
        ensures state { state self.new ≡ spec.live_step (state self.old) closes_leaf }
        ensures wrote { Wrote W.DeviceOut out.old out.new
            (self.old.line.items ++ line_rest self.old.dictionary head.tag head.length count) result }
    {
        self.owner = None;
        put_rest(
            out,
            self.dictionary,
            &mut self.line,
            head.tag,
            head.length,
            count,
        )
    }

    fn open_item<W: DeviceOut>(
        &mut self,
        out: &mut Watched<W>,
        declared: Length,
    ) -> Result<(), WriteFailed>
        ensures state { OnOk result (state self.new ≡ spec.live_step (state self.old) (opens_item declared)) }
        ensures wrote { Wrote W.DeviceOut out.old out.new (spec.live_writes (state self.old) (opens_item declared))
            result }
    {
        let level = self.lengths.depth();
        put_item_line(out, self.dictionary, &mut self.line, level, declared)?;
        self.deepen(declared);
        Ok(())
    }

    fn close_item<W: DeviceOut>(&mut self, out: &mut Watched<W>) -> Result<(), WriteFailed>
        ensures state { OnOk result (state self.new ≡ spec.live_step (state self.old) closes_item) }
        ensures wrote { Wrote W.DeviceOut out.old out.new (spec.live_writes (state self.old) closes_item) result }
    {
        let declared = self.lengths.close();
        let level = self.lengths.depth();
        put_item_end_line(out, self.dictionary, &mut self.line, level, declared)
    }

    fn close_list<W: DeviceOut>(&mut self, out: &mut Watched<W>) -> Result<(), WriteFailed>
        ensures state { OnOk result (state self.new ≡ spec.live_step (state self.old) closes_sequence) }
        ensures wrote { Wrote W.DeviceOut out.old out.new (spec.live_writes (state self.old) closes_sequence) result }
    {
        let declared = self.lengths.close();
        let level = self.lengths.depth();
        put_sequence_end_line(out, self.dictionary, &mut self.line, level, declared)
    }

    fn open_fragment<W: DeviceOut>(
        &mut self,
        out: &mut Watched<W>,
        size: u32,
    ) -> Result<(), WriteFailed>
        ensures state { OnOk result (state self.new ≡ spec.live_step (state self.old) (opens_fragment size)) }
        ensures wrote { Wrote W.DeviceOut out.old out.new (spec.live_writes (state self.old) (opens_fragment size))
            result }
    {
        self.begin(out, Owner::Fragment, Vr::OB, Syntax::LITTLE, size)
    }

    /// Writes what a token shows. Fails where the writer fails, which has then taken a beginning of it.
    #[inline(always)]
    pub fn take<W: DeviceOut>(
        &mut self,
        out: &mut Watched<W>,
        token: Token,
    ) -> Result<(), WriteFailed>
        ensures state { OnOk result (state self.new ≡ fold spec.dump_step (state self.old) (atoms_of token.entry)) }
        ensures wrote { Wrote W.DeviceOut out.old out.new (shows (state self.old) (atoms_of token.entry)) result }
    {
        if self.is_lost {
            return Ok(());
        }
        match token {
            Token::Open(head, syntax) => self.open(out, head, syntax),
            Token::Bytes(bytes) => self.show(out, bytes),
            Token::CloseLeaf => self.close(out),
            Token::OpenItem(declared) => self.open_item(out, declared),
            Token::CloseItem => self.close_item(out),
            Token::CloseSeq => self.close_list(out),
            Token::OpenFragment(size) => self.open_fragment(out, size),
            Token::End => Ok(()),
        }
    }
}
