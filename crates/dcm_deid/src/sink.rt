// Taking identity out, between what reads a data set and what takes it.
ghost use Rattle.std.specs.Prelude.{◌≡◌, ℕ, List, [], ◌∷◌, ◌++◌, Some, true, OnOk};
ghost use Rattle.std.specs.Borrow.{GName};
ghost use Rattle.dcm_base.specs.Reading.Bars as bars;
ghost use Rattle.dcm_base.specs.Steps.Atoms.{opens, closes_leaf, opens_item, ends};
ghost use Rattle.dcm_deid.specs.DeidentifySink as spec;
ghost use Rattle.dcm_deid.specs.DeidentifySink.{State as DeidentifyState};
ghost use Rattle.dcm_deid.specs.Deidentifying as deidentifying;
ghost use Rattle.dcm_deid.specs.Deidentifying.{IsPlain};
ghost use Rattle.dcm_deid.specs.MadeNew.{made_new};
ghost use Rattle.dcm_deid.specs.Through.{through_step, through_writes, through_bar};
ghost use Rattle.dcm_stream.specs.Sinks as sinks;
ghost use Rattle.dcm_stream.specs.Skip.{depth, is_open};
ghost use Rattle.dcm_stream.specs.Tokens.{IsFilled, IsLeaf, atoms_of, leaf_atoms, whole_atoms};

use crate::by_token::pass_on;
use crate::deidentifier::{Deidentifier, form_after, is_held};
use crate::dummy::dummy;
use crate::fate::{Depth, Fate, Options};
use crate::held::HeldValue;
use crate::key::UidKey;
use crate::said::{Gap, put_leaf, put_said};
use crate::whole::{pass_anew, pass_unheld};
use dcm_base::{Form, Length, Syntax, Tag, WriteFailed};
use dcm_head::Head;
use dcm_stream::{Bar, Sink, Token};

/// The records of a DICOMDIR, which are found by their offsets (PS3.3 F.2).
const DIRECTORY_RECORDS: Tag = Tag {
    group: 0x0004,
    element: 0x1220,
};

/// An encapsulated document (PS3.3 C.24.2).
const ENCAPSULATED_DOCUMENT: Tag = Tag {
    group: 0x0042,
    element: 0x0011,
};

/// Whether identity cannot be removed from an element of this tag.
pub fn holds_identity(tag: Tag) -> bool
    ensures { result ≡ bars.holds_identity tag }
{
    tag == DIRECTORY_RECORDS || tag == ENCAPSULATED_DOCUMENT
}

/// Passes on the elements that record the de-identification, before an element of the outermost level or at the end.
#[inline(always)]
pub fn put_gap<S: Sink>(
    options: &Options,
    place: &Deidentifier,
    next: Option<Tag>,
    sink: &mut S,
) -> Result<(), WriteFailed>
    ensures { sinks.Took S.Sink sink.old sink.new
        (spec.said_before options.now (deidentifying.place place.now) next) result }
{
    match place.depth() {
        Depth::Outermost => {
            let last = place.last;
            put_said(options, Gap { last, next }, sink)
        }
        Depth::Inside => Ok(()),
    }
}

/// Passes on the head of an element that is kept. The length of a sequence counts what is taken out of it.
#[inline(always)]
fn put_kept<S: Sink>(
    form: Form,
    head: Head,
    syntax: Syntax,
    sink: &mut S,
) -> Result<(), WriteFailed>
    ensures { sinks.Took S.Sink sink.old sink.new
        (opens head.tag head.vr (spec.kept_length form head.length) syntax ∷ []) result }
{
    let length = match form {
        Form::Sequence => Length::Undefined,
        Form::Value | Form::FragmentList | Form::Nothing => head.length,
    };
    sink.take(Token::Open(Head { length, ..head }, syntax))
}

/// Passes on a sequence without items.
#[inline(never)]
fn put_empty_sequence<S: Sink>(head: Head, sink: &mut S) -> Result<(), WriteFailed>
    ensures { sinks.Took S.Sink sink.old sink.new (spec.empty_sequence head.tag head.vr) result }
{
    let length = Length::Undefined;
    sink.take(Token::Open(Head { length, ..head }, Syntax::LITTLE))?;
    sink.take(Token::CloseSeq)
}

/// Passes on what the head of an element becomes.
#[inline(always)]
pub fn put_head<S: Sink>(
    fate: Fate,
    form: Form,
    head: Head,
    syntax: Syntax,
    sink: &mut S,
) -> Result<(), WriteFailed>
    ensures { sinks.Took S.Sink sink.old sink.new (spec.head_by fate form head.tag head.vr head.length syntax) result }
{
    match (fate, form) {
        (Fate::Keep, _) => put_kept(form, head, syntax, sink),
        (Fate::Empty | Fate::Replace | Fate::Anew(_), Form::Sequence) => put_empty_sequence(
            head, sink,
        ),
        (Fate::Empty, Form::Value) => put_leaf(head.tag, head.vr, &[], sink),
        (Fate::Replace, Form::Value) => put_leaf(head.tag, head.vr, dummy(head.vr), sink),
        _ => Ok(()),
    }
}

/// Passes on what becomes of the head of an element of this fate, of which nothing is left out so far.
#[inline(always)]
fn pass_as<S: Sink>(
    options: &Options,
    place: &Deidentifier,
    fate: Fate,
    form: Form,
    head: Head,
    syntax: Syntax,
    sink: &mut S,
) -> Result<(), WriteFailed>
    ensures { sinks.Took S.Sink sink.old sink.new (spec.said_before options.now (deidentifying.place place.now)
        (Some head.tag) ++ spec.head_by fate form head.tag head.vr head.length syntax) result }
{
    put_gap(options, place, Some(head.tag), sink)?;
    put_head(fate, form, head, syntax, sink)
}

/// Passes on what the head of an element becomes, and notes the head. The action for the element is looked up once for
/// both.
#[inline(always)]
pub fn pass_on_element<S: Sink>(
    options: &Options,
    place: &mut Deidentifier,
    head: Head,
    syntax: Syntax,
    sink: &mut S,
) -> Result<(), WriteFailed>
    ensures took { sinks.Took S.Sink sink.old sink.new (spec.passed_open options.now (deidentifying.place place.old)
        (opens head.tag head.vr head.length syntax)) result }
    ensures state { OnOk result (deidentifying.place place.new ≡ spec.with_last (spec.judged_at options.now
        (deidentifying.place place.old) head.tag head.vr head.length syntax) head.tag) }
{
    let form = form_after(head, syntax);
    let fate = place.fate(options, form, head.tag);
    pass_as(options, place, fate, form, head, syntax, sink)?;
    place.open_as(fate, form, head, syntax);
    Ok(())
}

/// Passes on a token unchanged, but not within an element that is left out.
#[inline(always)]
pub fn put_plain<S: Sink>(
    place: &Deidentifier,
    token: Token,
    sink: &mut S,
) -> Result<(), WriteFailed>
    requires plain { IsPlain token }
    requires filled { IsFilled token }
    ensures { (options : Options) (key : List ℕ) → sinks.Took S.Sink sink.old sink.new
        (deidentifying.passed_of options key place.now (atoms_of token.entry)) result }
{
    if place.skip.is_open() {
        return Ok(());
    }
    sink.take(token)
}

/// Passes on the head of an item, but not within an element that is left out. The length that the head declares still
/// counts what is removed from the item.
#[inline(always)]
pub fn put_item<S: Sink>(place: &Deidentifier, sink: &mut S) -> Result<(), WriteFailed>
    ensures { (options : Options) (key : List ℕ) (declared : Length) → sinks.Took S.Sink sink.old sink.new
        (deidentifying.passed_of options key place.now (opens_item declared ∷ [])) result }
{
    if place.skip.is_open() {
        return Ok(());
    }
    sink.take(Token::OpenItem(Length::Undefined))
}

/// Passes on the end of a data set, which ends nothing that is left out.
#[inline(never)]
fn put_open_end<S: Sink>(
    options: &Options,
    place: &Deidentifier,
    sink: &mut S,
) -> Result<(), WriteFailed>
    ensures { sinks.Took S.Sink sink.old sink.new (spec.passed_open options.now (deidentifying.place place.now) ends)
        result }
{
    put_gap(options, place, None, sink)?;
    sink.take(Token::End)
}

/// Passes on the end of a data set, but not within an element that is left out.
#[inline(always)]
pub fn put_end<S: Sink>(
    options: &Options,
    place: &Deidentifier,
    sink: &mut S,
) -> Result<(), WriteFailed>
    ensures { (key : List ℕ) → sinks.Took S.Sink sink.old sink.new
        (deidentifying.passed_of options.now key place.now (ends ∷ [])) result }
{
    if place.skip.is_open() {
        return Ok(());
    }
    put_open_end(options, place, sink)
}

/// Passes on what is made of a whole value in its place.
#[inline(never)]
fn put_new_value<S: Sink>(
    options: &Options,
    held: &HeldValue,
    key: &UidKey,
    sink: &mut S,
) -> Result<(), WriteFailed>
    ensures { sinks.Took S.Sink sink.old sink.new
        (leaf_atoms held.now.tag held.now.vr (spec.new_of (made_new options.now key.now.bytes.now)
        (deidentifying.held held.now))) result }
{
    let value = held.new_value(options, key);
    put_leaf(held.tag, held.vr, value.as_slice(), sink)
}

/// Passes on what is made of a value that is left out, where it was held.
#[inline(always)]
fn put_made<S: Sink>(
    options: &Options,
    key: &UidKey,
    place: &Deidentifier,
    sink: &mut S,
) -> Result<(), WriteFailed>
    ensures { sinks.Took S.Sink sink.old sink.new (spec.new_value_atoms (made_new options.now key.now.bytes.now)
        (deidentifying.place place.now).held) result }
{
    match &place.held {
        Some(held) => put_new_value(options, held, key, sink),
        None => Ok(()),
    }
}

/// Passes on the end of a value. For a value that is left out, passes on its new value.
#[inline(always)]
pub fn put_value_end<S: Sink>(
    options: &Options,
    key: &UidKey,
    place: &Deidentifier,
    sink: &mut S,
) -> Result<(), WriteFailed>
    ensures { sinks.Took S.Sink sink.old sink.new
        (deidentifying.passed_of options.now key.now.bytes.now place.now (closes_leaf ∷ [])) result }
{
    if place.skip.is_open() {
        return put_made(options, key, place, sink);
    }
    sink.take(Token::CloseLeaf)
}

/// A sink that passes the tokens of a data set on to another one, without identity: kept elements as they are, others
/// as PS3.15 table E.1-1 asks, and at the outermost level the elements that say what was done. It bars tags that do
/// not ascend and elements out of which identity cannot be taken, and does not ask what the other one bars.
#[derive(Drop)]
pub struct DeidentifySink<'a, S> {
    options: Options,
    key: UidKey<'a>,
    inner: &'a mut S,
    place: Deidentifier,
}

impl<'a, S: Sink> DeidentifySink<'a, S> {
    /// A sink without identity before another sink. The key is that of new UIDs and pseudonyms.
    pub fn new(options: Options, key: &'a [u8], inner: &'a mut S) -> Self
        ensures same_reference { result.inner.ghost_name ≡ inner.entry.ghost_name }
        ensures inner { result.inner.now ≡ inner.old }
        ensures state { deidentifying.state result.options result.key.bytes.now result.place
            ≡ spec.begun options key.now }
    {
        DeidentifySink {
            options,
            key: UidKey::new(key),
            inner,
            place: Deidentifier::new(),
        }
    }

    /// Whether a value that was written says that the pixels show identity.
    pub fn pixels_may_show(&self) -> bool
        ensures { result ≡ (deidentifying.place self.now.place).seen.may_show }
    {
        self.place.seen.may_show
    }

    /// How many values of shifted dates became empty. The count stops at the greatest number of 64 bits.
    pub fn dates_emptied(&self) -> u64
        ensures { result ≡ (deidentifying.place self.now.place).seen.emptied }
    {
        self.place.seen.emptied
    }

    /// Takes an element with its whole value by its tokens, one after another. It is not inlined: of few elements a
    /// value is held, and the way of the others stays small.
    #[inline(never)]
    fn take_by_token(&mut self, head: Head, syntax: Syntax, value: &[u8]) -> Result<(), WriteFailed>
        ensures { sinks.Took ⟦<DeidentifySink<'a, S> as Sink>⟧ self.old self.new
            (whole_atoms head syntax value.now) result }
    {
        self.take_by_tokens(head, syntax, value)
    }

    /// Takes an element with its whole value within what is left out. Nothing comes of it, unless a value is held.
    #[inline(always)]
    fn pass_within(&mut self, head: Head, syntax: Syntax, value: &[u8]) -> Result<(), WriteFailed>
        requires { is_open (depth self.old.place.skip) ≡ true }
        ensures { sinks.Took ⟦<DeidentifySink<'a, S> as Sink>⟧ self.old self.new
            (whole_atoms head syntax value.now) result }
    {
        if self.place.held.is_some() {
            return self.take_by_token(head, syntax, value);
        }
        self.place.pass_within(head);
        Ok(())
    }

    /// Takes an element with its whole value. What becomes of it is looked up once, and passed on by one call, but
    /// where the value has to be known. It is not inlined, so that what reads heads stays small.
    #[inline(never)]
    fn pass_whole(&mut self, head: Head, syntax: Syntax, value: &[u8]) -> Result<(), WriteFailed>
        requires { IsLeaf head syntax value.now }
        ensures { sinks.Took ⟦<DeidentifySink<'a, S> as Sink>⟧ self.old self.new
            (whole_atoms head syntax value.now) result }
    {
        if self.place.skip.is_open() {
            return self.pass_within(head, syntax, value);
        }
        let fate = self.place.fate(&self.options, Form::Value, head.tag);
        let place = &mut self.place;
        match fate {
            Fate::Anew(made) if !syntax.is_big() => pass_anew(
                &self.options,
                &self.key,
                place,
                made,
                head,
                syntax,
                value,
                self.inner,
            ),
            _ if is_held(fate, Form::Value, head.tag) => self.take_by_token(head, syntax, value),
            _ => pass_unheld(&self.options, place, fate, head, syntax, value, self.inner),
        }
    }
}

impl<'a, S: Sink> Sink for DeidentifySink<'a, S> {
    ghost State = { DeidentifyState × S.State };

    ghost state = { λ e. (deidentifying.state e.options e.key.bytes.now e.place, S.state e.inner.now) };

    ghost step = { through_step S.step };

    ghost writes = { through_writes S.step S.writes };

    ghost bar = { through_bar };

    ghost contents = { λ e. S.contents e.inner.now };

    ghost has_failed = { λ e. S.has_failed e.inner.now };

    ghost Kept = { GName × S.Kept };

    ghost kept = { λ e. (e.inner.ghost_name, S.kept e.inner.now) };

    #[inline(always)]
    fn take(&mut self, token: Token) -> Result<(), WriteFailed> {
        pass_on(&self.options, &self.key, &mut self.place, token, self.inner)
    }

    #[inline(always)]
    fn take_whole(&mut self, head: Head, syntax: Syntax, value: &[u8]) -> Result<(), WriteFailed> {
        self.pass_whole(head, syntax, value)
    }

    /// Most items are passed on as they are, at little cost.
    #[inline(always)]
    fn wants_items_apart(&self) -> bool {
        true
    }

    fn accepts(&self, head: &Head) -> Result<(), Bar> {
        match self.place.last {
            Some(last) if !last.is_below(head.tag) => Err(Bar::Order),
            _ if holds_identity(head.tag) => Err(Bar::Identity),
            _ => Ok(()),
        }
    }
}
