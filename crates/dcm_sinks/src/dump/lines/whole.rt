// The line of an element whose value is whole.
ghost use Rattle.std.specs.Prelude.{◌≡◌, ◌<◌, ◌≤◌, ◌^◌, ◌++◌, [], length, false, fold, OnOk, IfOk, IfSome};
ghost use Rattle.dcm_devices.specs.Writing.{Wrote};
ghost use Rattle.dcm_stream.specs.Tokens.{whole_atoms, IsLeaf};
ghost use Rattle.dcm_sinks.specs.DumpSink as spec;
ghost use Rattle.dcm_value.specs.Progress.{end_writes, multiplicity};
ghost use Rattle.dcm_value.specs.Whole.{whole as whole_text, text_in, count_in};

use super::Lines;
use crate::dump::layout::{Line, begin_line, put_rest};
use dcm_base::{DeviceOut, Mode, Syntax, Vr, Watched, WriteFailed};
use dcm_head::Head;
use dcm_stream::Token;
use dcm_value::{ValueText, append_few, append_whole};

/// Appends the display of a whole value, with the spaces up to 40 bytes, and answers how many values there are. Nothing
/// is written of it, so that this never fails. In full mode only what is known at once and few numbers are appended,
/// since all else may be longer than a line.
#[inline(always)]
fn append_value<W: DeviceOut>(
    mode: Mode,
    vr: Vr,
    syntax: Syntax,
    value: &[u8],
    line: &mut Line,
    out: &mut Watched<W>,
) -> Result<Option<u64>, WriteFailed>
    requires fits { length value.now < 2 ^ 32 }
    requires room { length line.old.items ≤ 271 }
    ensures line { IfOk result (λ shown. IfSome shown (λ n. (line.new.items
        ≡ line.old.items ++ text_in mode vr syntax value.now) × (n ≡ count_in mode vr syntax value.now)
        × (length line.new.items ≤ 337))) }
    ensures wrote { Wrote W.DeviceOut out.old out.new [] result }
{
    if let Some(count) = append_whole(vr, syntax, value, line) {
        return Ok(Some(count));
    }
    if let Some(numbers) = append_few(vr, syntax, value, line) {
        return Ok(Some(numbers));
    }
    match mode {
        Mode::Short => Ok(Some(append_by_text(vr, syntax, value, line, out)?)),
        Mode::Full => Ok(None),
    }
}

/// Appends the display of any whole value in short mode. Its text lives no longer than this call, so that it is not
/// moved into the state beside the line and out of it, as that of a value that comes in pieces.
#[inline(never)]
fn append_by_text<W: DeviceOut>(
    vr: Vr,
    syntax: Syntax,
    value: &[u8],
    line: &mut Line,
    out: &mut Watched<W>,
) -> Result<u64, WriteFailed>
    requires fits { length value.now < 2 ^ 32 }
    requires room { length line.old.items ≤ 271 }
    ensures line { OnOk result (line.new.items ≡ line.old.items ++ end_writes (whole_text vr syntax value.now)) }
    ensures within { OnOk result (length line.new.items ≤ 337) }
    ensures count { IfOk result (λ n. n ≡ multiplicity (whole_text vr syntax value.now)) }
    ensures wrote { Wrote W.DeviceOut out.old out.new [] result }
{
    let mut text = ValueText::new(vr, syntax, value.len() as u32, Mode::Short);
    text.feed(value, out)?;
    text.finish(line, out)
}

impl Lines {
    ghost use Rattle.dcm_sinks.specs.Lines.{state, shows};

    /// Writes the line of an element. It is put together and goes out at once, but where its display may be longer.
    #[inline(always)]
    fn put_leaf<W: DeviceOut>(
        &mut self,
        out: &mut Watched<W>,
        head: Head,
        syntax: Syntax,
        value: &[u8],
    ) -> Result<(), WriteFailed>
        requires live { self.old.is_lost ≡ false }
        requires leaf { IsLeaf head syntax value.now }
        ensures state { OnOk result (state self.new
            ≡ fold spec.dump_step (state self.old) (whole_atoms head syntax value.now)) }
        ensures wrote { Wrote W.DeviceOut out.old out.new (shows (state self.old) (whole_atoms head syntax value.now))
            result }
    {
        let level = self.lengths.depth();
        begin_line(&mut self.line, level, head.tag, head.vr.letters());
        let shown = append_value(self.mode, head.vr, syntax, value, &mut self.line, out)?;
        let Some(count) = shown else {
            return self.take_in_parts(out, head, syntax, value);
        };
        self.owner = None;
        put_rest(
            out,
            self.dictionary,
            &mut self.line,
            head.tag,
            head.length,
            count,
        )
    }

    /// Takes an element token by token.
    #[inline(never)]
    fn take_in_parts<W: DeviceOut>(
        &mut self,
        out: &mut Watched<W>,
        head: Head,
        syntax: Syntax,
        value: &[u8],
    ) -> Result<(), WriteFailed>
        ensures state { OnOk result (state self.new
            ≡ fold spec.dump_step (state self.old) (whole_atoms head syntax value.now)) }
        ensures wrote { Wrote W.DeviceOut out.old out.new (shows (state self.old) (whole_atoms head syntax value.now))
            result }
    {
        self.take(out, Token::Open(head, syntax))?;
        if !value.is_empty() {
            self.take(out, Token::Bytes(value))?;
        }
        self.take(out, Token::CloseLeaf)
    }

    /// Writes what an element makes whose value is whole, as `take` does by its head, its bytes and its end. Most
    /// elements come so, and the text of most values is then appended right to the line.
    #[inline(never)]
    pub fn take_whole<W: DeviceOut>(
        &mut self,
        out: &mut Watched<W>,
        head: Head,
        syntax: Syntax,
        value: &[u8],
    ) -> Result<(), WriteFailed>
        requires { IsLeaf head syntax value.now }
        ensures state { OnOk result (state self.new
            ≡ fold spec.dump_step (state self.old) (whole_atoms head syntax value.now)) }
        ensures wrote { Wrote W.DeviceOut out.old out.new (shows (state self.old) (whole_atoms head syntax value.now))
            result }
    {
        if self.is_lost {
            return Ok(());
        }
        self.put_leaf(out, head, syntax, value)
    }
}
