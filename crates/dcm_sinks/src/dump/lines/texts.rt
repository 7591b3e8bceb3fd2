// The lines of a dump whose texts are shown by characters.
ghost use Rattle.std.specs.Prelude.{◌≡◌, ◌≤◌, true, OnOk, false, length, map, fold};
ghost use Rattle.std.specs.Option.{ForSome};
ghost use Rattle.dcm_base.specs.Dump.Dump.{line_start};
ghost use Rattle.dcm_base.specs.Tables.Representation.{letters};
ghost use Rattle.dcm_base.specs.Steps.Atoms.{value_byte, closes_leaf};
ghost use Rattle.dcm_devices.specs.Writing.{Wrote};
ghost use Rattle.dcm_base.specs.declared.mode.Mode.TheVariants.{Full};
ghost use Rattle.dcm_stream.specs.Tokens.{atoms_of, whole_atoms, IsLeaf};
ghost use Rattle.dcm_sinks.specs.DecodedDump.{is_decoded};
ghost use Rattle.dcm_sinks.specs.DumpSink.{dump_start};
ghost use Rattle.dcm_sinks.specs.Encoder.{opening};
ghost use Rattle.dcm_sinks.specs.TextDump as spec;
ghost use Rattle.dcm_value.specs.DecodedProgress as progress;
ghost use Rattle.dcm_value.specs.DecodedText.{decoded_progress};

use super::{Lines, Owner, begin_late, put_early_start, size_of};
use crate::dump::layout::{begin_line, put_line_start, put_rest};
use dcm_base::{
    DeviceOut, Dictionary, Form, Length, Mode, Syntax, Vr, Watched, WriteFailed, form_of, read_as,
};
use dcm_head::Head;
use dcm_stream::Token;
use dcm_text::Sets;
use dcm_value::{
    DecodedText, append_decoded, append_whole_ascii, is_plain_value, put_decoded, takes_bytes,
};

/// Where a dump is whose texts are shown by characters: the lines of all else, whose text is being shown, and the text.
/// Where none is, the text is of none.
#[derive(Drop)]
pub struct TextLines {
    lines: Lines,
    owner: Option<Owner>,
    text: DecodedText,
    ghost begun: { ForSome owner (λ _. progress.is_unopened (decoded_progress text) ≡ false) },
    ghost same: { ForSome owner (λ _. (decoded_progress text).display.mode ≡ lines.mode) },
}

/// The most bytes of a text that goes right to its line. A longer one is first looked at, since plain ASCII goes out
/// faster as without Specific Character Set.
const SHORT: usize = 64;

/// Whether an element is shown as without Specific Character Set, whatever is in force: one that is no text, or of plain ASCII.
#[inline(always)]
fn is_as_before(vr: Vr, value: &[u8]) -> bool
    ensures { result ≡ spec.is_as_before vr value.now }
{
    !takes_bytes(vr) || is_plain_value(vr, value)
}

impl TextLines {
    ghost use Rattle.dcm_sinks.specs.TextLines.{state, shows};

    /// Before the first token of a data set whose elements are called as the dictionary says.
    pub fn new(dictionary: Dictionary, mode: Mode) -> Self
        ensures { state result ≡ spec.text_start dictionary mode }
    {
        TextLines {
            lines: Lines::new(dictionary, mode),
            owner: None,
            text: DecodedText::new(Vr::UN, Sets::DEFAULT, 0, mode),
        }
    }

    /// Whether an element is shown by characters.
    fn opens_text(&self, head: Head, syntax: Syntax) -> bool
        ensures { result ≡ spec.opens_text (state self.now) head.tag head.vr head.length syntax }
    {
        if self.lines.is_lost || !takes_bytes(head.vr) {
            return false;
        }
        match form_of(syntax, read_as(syntax, head.tag, head.vr), head.length) {
            Form::Value => true,
            Form::Sequence | Form::FragmentList | Form::Nothing => false,
        }
    }

    #[inline(always)]
    fn begin<W: DeviceOut>(
        &mut self,
        out: &mut Watched<W>,
        owner: Owner,
        vr: Vr,
        sets: Sets,
        size: u32,
    ) -> Result<(), WriteFailed>
        ensures state { OnOk result (state self.new ≡ spec.begin_text (state self.old) owner
            (progress.started vr sets size self.old.lines.mode)) }
        ensures wrote { Wrote W.DeviceOut out.old out.new (spec.begin_text_writes (state self.old) owner
            (progress.started vr sets size self.old.lines.mode)) result }
    {
        let mode = self.lines.mode;
        let level = self.lines.lengths.depth();
        put_early_start(mode, out, &mut self.lines.line, level, owner)?;
        self.lines.owner = None;
        self.owner = None;
        self.text = DecodedText::new(vr, sets, size, mode);
        self.text.open(out)?;
        self.owner = Some(owner);
        Ok(())
    }

    fn open<W: DeviceOut>(
        &mut self,
        out: &mut Watched<W>,
        head: Head,
        syntax: Syntax,
        sets: &Sets,
    ) -> Result<(), WriteFailed>
        ensures state { OnOk result (state self.new ≡ spec.text_step sets.now (state self.old) (opening head syntax)) }
        ensures wrote { Wrote W.DeviceOut out.old out.new (spec.text_writes sets.now (state self.old)
            (opening head syntax)) result }
    {
        if self.opens_text(head, syntax) {
            let owner = Owner::Element(head.tag, head.vr);
            return self.begin(out, owner, head.vr, *sets, size_of(head.length));
        }
        self.owner = None;
        self.lines.take(out, Token::Open(head, syntax))
    }

    /// Shows more bytes of what is open. The sets are for the contract alone.
    fn show<W: DeviceOut>(
        &mut self,
        out: &mut Watched<W>,
        bytes: &[u8],
        sets: &Sets,
    ) -> Result<(), WriteFailed>
        ensures state { OnOk result (state self.new
            ≡ fold (spec.text_step sets.now) (state self.old) (map value_byte bytes.now)) }
        ensures wrote { Wrote W.DeviceOut out.old out.new (shows sets.now (state self.old) (map value_byte bytes.now))
            result }
    {
        let Some(owner) = self.owner.take() else {
            return self.lines.take(out, Token::Bytes(bytes));
        };
        let (own, _) = bytes.split_at(bytes.len().min(self.text.missing() as usize));
        self.text.feed(own, out)?;
        self.owner = Some(owner);
        Ok(())
    }

    /// Ends the line of what is open. The sets are for the contract alone.
    fn close<W: DeviceOut>(&mut self, out: &mut Watched<W>, sets: &Sets) -> Result<(), WriteFailed>
        ensures state { OnOk result (state self.new ≡ spec.text_step sets.now (state self.old) closes_leaf) }
        ensures wrote { Wrote W.DeviceOut out.old out.new (spec.text_writes sets.now (state self.old) closes_leaf)
            result }
    {
        let Some(owner) = self.owner.take() else {
            return self.lines.take(out, Token::CloseLeaf);
        };
        let length = Length::Known(self.text.size());
        begin_late(
            self.lines.mode,
            &mut self.lines.line,
            self.lines.lengths.depth(),
            owner,
        );
        let count = self.text.finish(&mut self.lines.line, out)?;
        put_rest(
            out,
            self.lines.dictionary,
            &mut self.lines.line,
            owner.tag(),
            length,
            count,
        )
    }

    /// Writes what a token shows, where these sets are in force. Fails where the writer fails, which has then taken a
    /// beginning of it.
    #[inline(always)]
    pub fn take<W: DeviceOut>(
        &mut self,
        out: &mut Watched<W>,
        token: Token,
        sets: &Sets,
    ) -> Result<(), WriteFailed>
        ensures state { OnOk result (state self.new ≡ fold (spec.text_step sets.now) (state self.old)
            (atoms_of token.entry)) }
        ensures wrote { Wrote W.DeviceOut out.old out.new (shows sets.now (state self.old) (atoms_of token.entry))
            result }
    {
        match token {
            Token::Open(head, syntax) => self.open(out, head, syntax, sets),
            Token::Bytes(bytes) => self.show(out, bytes, sets),
            Token::CloseLeaf => self.close(out, sets),
            Token::OpenItem(_)
            | Token::CloseItem
            | Token::CloseSeq
            | Token::OpenFragment(_)
            | Token::End => {
                self.owner = None;
                self.lines.take(out, token)
            }
        }
    }

    /// Takes an element token by token.
    #[inline(never)]
    fn take_in_parts<W: DeviceOut>(
        &mut self,
        out: &mut Watched<W>,
        head: Head,
        syntax: Syntax,
        value: &[u8],
        sets: &Sets,
    ) -> Result<(), WriteFailed>
        ensures state { OnOk result (state self.new
            ≡ fold (spec.text_step sets.now) (state self.old) (whole_atoms head syntax value.now)) }
        ensures wrote { Wrote W.DeviceOut out.old out.new
            (shows sets.now (state self.old) (whole_atoms head syntax value.now)) result }
    {
        self.take(out, Token::Open(head, syntax), sets)?;
        if !value.is_empty() {
            self.take(out, Token::Bytes(value), sets)?;
        }
        self.take(out, Token::CloseLeaf, sets)
    }

    /// Writes the line of a text that is whole, of which the line has no more than its start. It is put together and
    /// goes out at once, but in full mode where it is long.
    #[inline(always)]
    fn put_characters<W: DeviceOut>(
        &mut self,
        out: &mut Watched<W>,
        head: Head,
        syntax: Syntax,
        value: &[u8],
        sets: &Sets,
    ) -> Result<(), WriteFailed>
        requires leaf { IsLeaf head syntax value.now }
        requires text { spec.opens_text (state self.old) head.tag head.vr head.length syntax ≡ true }
        requires begun { self.old.lines.line.items
            ≡ line_start (length self.old.lines.lengths) head.tag (letters head.vr) }
        requires within { length self.old.lines.line.items ≤ 271 }
        ensures state { OnOk result (state self.new
            ≡ fold (spec.text_step sets.now) (state self.old) (whole_atoms head syntax value.now)) }
        ensures wrote { Wrote W.DeviceOut out.old out.new
            (shows sets.now (state self.old) (whole_atoms head syntax value.now)) result }
    {
        let shown = append_decoded(self.lines.mode, head.vr, *sets, value, &mut self.lines.line);
        let Some(count) = shown else {
            return self.put_other(out, head, syntax, value, sets);
        };
        self.owner = None;
        self.lines.put_line_rest(out, head, count)
    }

    /// Writes the line of a text that is whole, of which the line has no more than its start.
    fn put_other<W: DeviceOut>(
        &mut self,
        out: &mut Watched<W>,
        head: Head,
        syntax: Syntax,
        value: &[u8],
        sets: &Sets,
    ) -> Result<(), WriteFailed>
        requires leaf { IsLeaf head syntax value.now }
        requires text { spec.opens_text (state self.old) head.tag head.vr head.length syntax ≡ true }
        ensures state { OnOk result (state self.new
            ≡ fold (spec.text_step sets.now) (state self.old) (whole_atoms head syntax value.now)) }
        ensures wrote { Wrote W.DeviceOut out.old out.new
            (shows sets.now (state self.old) (whole_atoms head syntax value.now)) result }
    {
        match self.lines.mode {
            Mode::Short => self.take_in_parts(out, head, syntax, value, sets),
            Mode::Full => self.put_in_full(out, head, syntax, value, sets),
        }
    }

    /// Writes the line of a text that is whole in full mode: its start, its display, of any length, and the rest. The
    /// syntax is for the contract alone.
    fn put_in_full<W: DeviceOut>(
        &mut self,
        out: &mut Watched<W>,
        head: Head,
        syntax: Syntax,
        value: &[u8],
        sets: &Sets,
    ) -> Result<(), WriteFailed>
        requires leaf { IsLeaf head syntax value.now }
        requires full { self.old.lines.mode ≡ Full }
        requires text { spec.opens_text (state self.old) head.tag head.vr head.length syntax ≡ true }
        ensures state { OnOk result (state self.new
            ≡ fold (spec.text_step sets.now) (state self.old) (whole_atoms head syntax value.now)) }
        ensures wrote { Wrote W.DeviceOut out.old out.new
            (shows sets.now (state self.old) (whole_atoms head syntax value.now)) result }
    {
        let lines = &mut self.lines;
        let level = lines.lengths.depth();
        put_line_start(out, &mut lines.line, level, head.tag, head.vr.letters())?;
        let count = put_decoded(head.vr, *sets, value, out)?;
        self.owner = None;
        lines.owner = None;
        lines.line.clear();
        put_rest(
            out,
            lines.dictionary,
            &mut lines.line,
            head.tag,
            head.length,
            count,
        )
    }

    /// Writes what a text makes that is whole, of any length. Plain ASCII is shown as without
    /// Specific Character Set.
    #[inline(never)]
    fn take_long_text<W: DeviceOut>(
        &mut self,
        out: &mut Watched<W>,
        head: Head,
        syntax: Syntax,
        value: &[u8],
        sets: &Sets,
    ) -> Result<(), WriteFailed>
        requires { IsLeaf head syntax value.now }
        ensures state { OnOk result (state self.new
            ≡ fold (spec.text_step sets.now) (state self.old) (whole_atoms head syntax value.now)) }
        ensures wrote { Wrote W.DeviceOut out.old out.new
            (shows sets.now (state self.old) (whole_atoms head syntax value.now)) result }
    {
        if is_as_before(head.vr, value) {
            self.owner = None;
            return self.lines.take_whole(out, head, syntax, value);
        }
        if self.opens_text(head, syntax) {
            let level = self.lines.lengths.depth();
            begin_line(&mut self.lines.line, level, head.tag, head.vr.letters());
            return self.put_characters(out, head, syntax, value, sets);
        }
        self.take_in_parts(out, head, syntax, value, sets)
    }

    /// Writes what a text makes that is whole. Plain ASCII of at most 64 bytes is appended right to the line, so that
    /// it is looked at once; only behind it the sets are asked.
    #[inline(never)]
    fn take_short_text<W: DeviceOut>(
        &mut self,
        out: &mut Watched<W>,
        head: Head,
        syntax: Syntax,
        value: &[u8],
        sets: &Sets,
    ) -> Result<(), WriteFailed>
        requires leaf { IsLeaf head syntax value.now }
        requires text { is_decoded head.vr ≡ true }
        ensures state { OnOk result (state self.new
            ≡ fold (spec.text_step sets.now) (state self.old) (whole_atoms head syntax value.now)) }
        ensures wrote { Wrote W.DeviceOut out.old out.new
            (shows sets.now (state self.old) (whole_atoms head syntax value.now)) result }
    {
        if self.lines.is_lost {
            return self.take_in_parts(out, head, syntax, value, sets);
        }
        let level = self.lines.lengths.depth();
        begin_line(&mut self.lines.line, level, head.tag, head.vr.letters());
        let Some(count) = append_whole_ascii(head.vr, value, &mut self.lines.line) else {
            return self.put_characters(out, head, syntax, value, sets);
        };
        self.owner = None;
        self.lines.put_line_rest(out, head, count)
    }

    /// Writes what an element makes whose value is whole, as `take` does by its head, its bytes and its end. Numbers go
    /// the way of `Lines`.
    #[inline(always)]
    pub fn take_whole<W: DeviceOut>(
        &mut self,
        out: &mut Watched<W>,
        head: Head,
        syntax: Syntax,
        value: &[u8],
        sets: &Sets,
    ) -> Result<(), WriteFailed>
        requires { IsLeaf head syntax value.now }
        ensures state { OnOk result (state self.new
            ≡ fold (spec.text_step sets.now) (state self.old) (whole_atoms head syntax value.now)) }
        ensures wrote { Wrote W.DeviceOut out.old out.new
            (shows sets.now (state self.old) (whole_atoms head syntax value.now)) result }
    {
        if !takes_bytes(head.vr) {
            self.owner = None;
            return self.lines.take_whole(out, head, syntax, value);
        }
        if value.len() <= SHORT {
            self.take_short_text(out, head, syntax, value, sets)
        } else {
            self.take_long_text(out, head, syntax, value, sets)
        }
    }
}
