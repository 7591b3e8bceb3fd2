// A data set in a target syntax, token by token (PS3.5 7.1, 7.5, A.4).
ghost use Rattle.std.specs.Prelude.{◌≡◌, ◌<◌, if◌then◌else◌, None, OnOk, map, false, true};
ghost use Rattle.std.specs.Int.{w32};
ghost use Rattle.dcm_base.specs.Steps.Atoms.{value_byte, closes_leaf, opens_fragment};
ghost use Rattle.dcm_base.specs.Reading.Bars.{holds_fragments as syntax_holds_fragments};
ghost use Rattle.dcm_devices.specs.Writing.{Wrote};
ghost use Rattle.dcm_base.specs.Conversion.Recode as recode;
ghost use Rattle.dcm_base.specs.Tables.Representation.{is_long as has_long_form};
ghost use Rattle.dcm_base.specs.declared.form.Form.TheVariants.{Value as a_value};
ghost use Rattle.dcm_base.specs.declared.length.Length.TheVariants as lengths;
ghost use Rattle.dcm_base.specs.declared.syntax.Syntax.{Syntax as AnySyntax};
ghost use Rattle.dcm_base.specs.declared.vr.Vr.TheVariants as representations;
ghost use Rattle.dcm_stream.specs.Skip.{depth};
ghost use Rattle.dcm_stream.specs.Tokens.{atoms_of, head_atoms, value_atoms, whole_atoms, IsLeaf};
ghost use Rattle.dcm_head.specs.HeadBytes.{FitsShort};
ghost use Rattle.dcm_sinks.specs.EncodeSink as spec;

use crate::encode::copier::{Copier, is_too_long, put_value};
use arrayvec::ArrayVec;
use dcm_base::{
    DeviceOut, Form, Length, Syntax, Tag, Vr, Watched, WriteFailed, form_of, put_array, read_as,
};
use dcm_head::{Head, LONG_HEAD, element_head, plain_head, put_element_head};
use dcm_stream::{Skip, Token, WholeFailed};

/// The number of the element that holds the length of its group (PS3.5 7.2).
const GROUP_LENGTH: u16 = 0x0000;

/// How far the writing of a data set has come.
#[derive(Drop)]
pub struct Encoder {
    target: Syntax,
    /// What is open of an element that is not written.
    skip: Skip,
    copier: Option<Copier>,
}

/// The length of a value of this size with its pad byte. The size of all ones, which no head has, wraps round.
fn even(size: u32) -> Length
    ensures bytes { (s : AnySyntax) → recode.number_bytes s w32 (recode.length_number result)
        ≡ recode.number_bytes s w32 (recode.even size) }
    ensures exact { size < 4294967295 → result ≡ lengths.Known (recode.even size) }
{
    Length::Known(size.wrapping_add(size % 2))
}

/// The representation that a value of this size is written with: where it is too long for its own, unknown.
fn written_vr(target: Syntax, vr: Vr, size: u32) -> Vr
    ensures { result ≡ (if recode.too_long target vr size then representations.UN else vr) }
{
    if is_too_long(target, vr, size) {
        Vr::UN
    } else {
        vr
    }
}

/// What the head of a value of this size says in the target.
fn written_head(target: Syntax, tag: Tag, vr: Vr, size: u32) -> Head
    ensures fits { recode.is_explicit target ≡ true → has_long_form result.vr ≡ false → FitsShort result.length }
    ensures bytes { recode.head target result.tag result.vr result.length ≡ recode.leaf_head target tag vr size }
{
    let (vr, length) = (written_vr(target, vr, size), even(size));
    Head { tag, vr, length }
}

/// The head of a value of this size (PS3.5 7.1.2, 7.1.3).
pub fn leaf_head(target: Syntax, tag: Tag, vr: Vr, size: u32) -> ArrayVec<u8, LONG_HEAD>
    ensures { result.items ≡ recode.leaf_head target tag vr size }
{
    element_head(target, &written_head(target, tag, vr, size))
}

/// Writes the head of a sequence or fragment list, whose length is undefined.
fn put_list_head<W: DeviceOut>(
    out: &mut Watched<W>,
    target: Syntax,
    tag: Tag,
    vr: Vr,
) -> Result<(), WriteFailed>
    requires { has_long_form vr ≡ true }
    ensures { Wrote W.DeviceOut out.old out.new (recode.head target tag vr lengths.Undefined) result }
{
    let length = Length::Undefined;
    put_element_head(out, target, &Head { tag, vr, length })
}

/// Writes the head of an item or fragment, or a delimiter.
#[inline(always)]
fn put_plain<W: DeviceOut>(
    out: &mut Watched<W>,
    target: Syntax,
    tag: Tag,
    length: Length,
) -> Result<(), WriteFailed>
    ensures { Wrote W.DeviceOut out.old out.new (recode.plain_head target tag length) result }
{
    put_array(out, &plain_head(target, tag, length))
}

/// Writes the head of an item of undefined length. This and both delimiters have a function each, in which tag and
/// length are known, so that their bytes are put together when this is compiled.
#[inline(never)]
fn put_item<W: DeviceOut>(out: &mut Watched<W>, target: Syntax) -> Result<(), WriteFailed>
    ensures { Wrote W.DeviceOut out.old out.new (recode.item_head target lengths.Undefined) result }
{
    put_plain(out, target, Tag::ITEM, Length::Undefined)
}

/// Writes the delimiter of an item.
#[inline(never)]
fn put_item_end<W: DeviceOut>(out: &mut Watched<W>, target: Syntax) -> Result<(), WriteFailed>
    ensures { Wrote W.DeviceOut out.old out.new (recode.item_delimiter target) result }
{
    put_plain(out, target, Tag::ITEM_END, Length::Known(0))
}

/// Writes the delimiter of a sequence or fragment list.
#[inline(never)]
fn put_sequence_end<W: DeviceOut>(out: &mut Watched<W>, target: Syntax) -> Result<(), WriteFailed>
    ensures { Wrote W.DeviceOut out.old out.new (recode.sequence_delimiter target) result }
{
    put_plain(out, target, Tag::SEQUENCE_END, Length::Known(0))
}

impl Encoder {
    ghost use Rattle.dcm_sinks.specs.Encoder.{Took, TookWhole, opened, opening, opening_writes, state};
    ghost use Rattle.dcm_sinks.specs.Wholes.{PutLeaf, without_value};

    /// The beginning of a data set in this syntax.
    pub fn new(target: Syntax) -> Encoder
        ensures { state result ≡ spec.encode_start target }
    {
        Encoder {
            target,
            skip: Skip::nothing(),
            copier: None,
        }
    }

    /// Whether the syntax that is written has fragment lists (PS3.5 A.4).
    pub fn holds_fragments(&self) -> bool
        ensures { result ≡ syntax_holds_fragments (state self.now).target }
    {
        matches!(self.target, Syntax::Little(_))
    }

    fn open_leaf<W: DeviceOut>(
        &mut self,
        out: &mut Watched<W>,
        head: Head,
        size: u32,
        syntax: Syntax,
    ) -> Result<(), WriteFailed>
        ensures state { OnOk result (state self.new
            ≡ spec.encode_opens a_value (state self.old) head.vr (lengths.Known size) syntax) }
        ensures wrote { Wrote W.DeviceOut out.old out.new (recode.leaf_head self.old.target head.tag head.vr size)
            result }
    {
        let written = written_head(self.target, head.tag, head.vr, size);
        put_element_head(out, self.target, &written)?;
        self.copier = Some(Copier::of_leaf(syntax, self.target, head.vr, size));
        Ok(())
    }

    /// An element that is written begins.
    fn open_element<W: DeviceOut>(
        &mut self,
        out: &mut Watched<W>,
        head: Head,
        syntax: Syntax,
    ) -> Result<(), WriteFailed>
        ensures state { OnOk result (state self.new ≡ opened (state self.old) head syntax) }
        ensures wrote { Wrote W.DeviceOut out.old out.new (opening_writes (state self.old) head syntax) result }
    {
        let form = form_of(syntax, read_as(syntax, head.tag, head.vr), head.length);
        match (form, head.length) {
            (Form::Value, Length::Known(size)) => self.open_leaf(out, head, size, syntax),
            (Form::Sequence, _) => put_list_head(out, self.target, head.tag, Vr::SQ),
            (Form::FragmentList, _) => put_list_head(out, self.target, head.tag, head.vr),
            (Form::Value, Length::Undefined) | (Form::Nothing, _) => Ok(()),
        }
    }

    #[inline(never)]
    fn open<W: DeviceOut>(
        &mut self,
        out: &mut Watched<W>,
        head: Head,
        syntax: Syntax,
    ) -> Result<(), WriteFailed>
        ensures state { OnOk result (state self.new ≡ spec.live_step (state self.old) (opening head syntax)) }
        ensures wrote { Wrote W.DeviceOut out.old out.new (spec.live_writes (state self.old) (opening head syntax))
            result }
    {
        if head.tag.element == GROUP_LENGTH {
            self.skip.open(true);
            return Ok(());
        }
        self.open_element(out, head, syntax)
    }

    #[inline(never)]
    fn copy<W: DeviceOut>(&mut self, out: &mut Watched<W>, bytes: &[u8]) -> Result<(), WriteFailed>
        requires { depth self.old.skip ≡ 0 }
        ensures { Took W.DeviceOut out.old out.new self.old self.new (map value_byte bytes.now) result }
    {
        let Some(copier) = &mut self.copier else {
            return Ok(());
        };
        match copier.feed(bytes, out) {
            Ok(()) => Ok(()),
            Err(failed) => {
                self.copier = None;
                Err(failed)
            }
        }
    }

    #[inline(never)]
    fn close<W: DeviceOut>(&mut self, out: &mut Watched<W>) -> Result<(), WriteFailed>
        ensures state { OnOk result (state self.new ≡ spec.live_step (state self.old) closes_leaf) }
        ensures wrote { Wrote W.DeviceOut out.old out.new (spec.live_writes (state self.old) closes_leaf) result }
    {
        let Some(copier) = &self.copier else {
            return Ok(());
        };
        let closed = copier.close(out);
        self.copier = None;
        closed
    }

    #[inline(never)]
    fn open_fragment<W: DeviceOut>(
        &mut self,
        out: &mut Watched<W>,
        size: u32,
    ) -> Result<(), WriteFailed>
        ensures state { OnOk result (state self.new ≡ spec.live_step (state self.old) (opens_fragment size)) }
        ensures wrote { Wrote W.DeviceOut out.old out.new (spec.live_writes (state self.old) (opens_fragment size))
            result }
    {
        put_plain(out, self.target, Tag::ITEM, even(size))?;
        self.copier = Some(Copier::of_fragment(size));
        Ok(())
    }

    /// Writes what a token of an element that is not dropped makes of it. It is taken apart where it is made, so that
    /// no token is stored and loaded again; the calls behind it are not inlined, so that this stays small.
    #[inline(always)]
    fn take_live<W: DeviceOut>(
        &mut self,
        out: &mut Watched<W>,
        token: Token,
    ) -> Result<(), WriteFailed>
        requires { depth self.old.skip ≡ 0 }
        ensures { Took W.DeviceOut out.old out.new self.old self.new (atoms_of token.entry) result }
    {
        match token {
            Token::Open(head, syntax) => self.open(out, head, syntax),
            Token::Bytes(bytes) => self.copy(out, bytes),
            Token::CloseLeaf => self.close(out),
            Token::OpenItem(_) => put_item(out, self.target),
            Token::CloseItem => put_item_end(out, self.target),
            Token::CloseSeq => put_sequence_end(out, self.target),
            Token::OpenFragment(size) => self.open_fragment(out, size),
            Token::End => Ok(()),
        }
    }

    /// Writes what a token shows. Fails where the writer fails, which has then taken a beginning of it.
    #[inline(always)]
    pub fn take<W: DeviceOut>(
        &mut self,
        out: &mut Watched<W>,
        token: Token,
    ) -> Result<(), WriteFailed>
        ensures { Took W.DeviceOut out.old out.new self.old self.new (atoms_of token.entry) result }
    {
        if self.skip.is_open() {
            self.skip.pass(token);
            return Ok(());
        }
        self.take_live(out, token)
    }

    /// No value is on its way. Nearly always none was, and then nothing is stored.
    #[inline(always)]
    fn end_value(&mut self)
        ensures { self.new ≡ record self.old { copier = None } }
    {
        if self.copier.is_some() {
            self.copier = None;
        }
    }

    /// Writes an element whose value is whole, of which this state then holds nothing.
    #[inline(always)]
    fn put_leaf<W: DeviceOut>(
        &mut self,
        out: &mut Watched<W>,
        head: Head,
        syntax: Syntax,
        value: &[u8],
    ) -> Result<(), WholeFailed>
        requires { IsLeaf head syntax value.now }
        ensures state { OnOk result (state self.new ≡ without_value (state self.old)) }
        ensures wrote { PutLeaf W.DeviceOut out.old out.new self.old.target head syntax value.now result }
    {
        let (target, size) = (self.target, value.len() as u32);
        let written = written_head(target, head.tag, head.vr, size);
        let Ok(()) = put_element_head(out, target, &written) else {
            return Err(WholeFailed::AtHead);
        };
        self.end_value();
        match put_value(out, syntax, target, head.vr, size, value) {
            Ok(()) => Ok(()),
            Err(_) => Err(WholeFailed::InValue),
        }
    }

    /// Writes an element whose value is whole, as `take` does by its head, its bytes and its end. Most elements come
    /// so, and by one call the form of each is not asked again, and no copier waits in this state for the next token.
    /// What is left out opens and closes at once. An `Err` says whether the head was out.
    #[inline(never)]
    pub fn take_whole_telling<W: DeviceOut>(
        &mut self,
        out: &mut Watched<W>,
        head: Head,
        syntax: Syntax,
        value: &[u8],
    ) -> Result<(), WholeFailed>
        requires { IsLeaf head syntax value.now }
        ensures { TookWhole W.DeviceOut out.old out.new self.old self.new (head_atoms head syntax)
            (value_atoms value.now) result }
    {
        if self.skip.is_open() || head.tag.element == GROUP_LENGTH {
            self.skip.open(true);
            self.skip.close();
            return Ok(());
        }
        self.put_leaf(out, head, syntax, value)
    }

    /// Writes an element whose value is whole, as `take_whole_telling` does. An `Err` does not say how far the element
    /// came.
    #[inline(always)]
    pub fn take_whole<W: DeviceOut>(
        &mut self,
        out: &mut Watched<W>,
        head: Head,
        syntax: Syntax,
        value: &[u8],
    ) -> Result<(), WriteFailed>
        requires { IsLeaf head syntax value.now }
        ensures { Took W.DeviceOut out.old out.new self.old self.new (whole_atoms head syntax value.now) result }
    {
        match self.take_whole_telling(out, head, syntax, value) {
            Ok(()) => Ok(()),
            Err(_) => Err(WriteFailed),
        }
    }
}
