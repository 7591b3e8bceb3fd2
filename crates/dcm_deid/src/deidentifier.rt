// How far the taking out of identity has come along an input.
ghost use Rattle.std.specs.Prelude.{◌≡◌, ◌≤◌, ◌<◌, fold, length, None};
ghost use Rattle.dcm_base.specs.Bytes.Spelling.{form, read_as};
ghost use Rattle.dcm_deid.specs.DeidentifySink as spec;
ghost use Rattle.dcm_deid.specs.Deidentifying as deidentifying;
ghost use Rattle.dcm_deid.specs.Pixels as pixels;
ghost use Rattle.dcm_stream.specs.Skip.{depth};
ghost use Rattle.dcm_stream.specs.Tokens.{atoms_of};

use crate::fate::{Depth, Fate, Options, ReadAs, fate_of};
use crate::held::HeldValue;
use arrayvec::ArrayVec;
use dcm_base::{Form, Syntax, Tag, form_of, read_as};
use dcm_head::Head;
use dcm_stream::{Skip, Token};

/// The most data sets that are open around another.
const MOST_AROUND: usize = 64;

/// BurnedInAnnotation.
const BURNED_IN: Tag = Tag {
    group: 0x0028,
    element: 0x0301,
};

/// RecognizableVisualFeatures.
const RECOGNIZABLE: Tag = Tag {
    group: 0x0028,
    element: 0x0302,
};

/// What the values that have ended showed.
#[derive(Clone, Copy, Debug, PartialEq, Eq)]
pub struct Seen {
    /// Whether a value that was written says that the pixels may show identity.
    pub may_show: bool,
    /// How many shifted dates became empty.
    pub emptied: u64,
}

/// The last tag of each open data set, what is open of an element that is not written, the value of an open element
/// that is held until it ends, and what was seen of values that ended.
#[derive(Drop)]
pub struct Deidentifier {
    pub last: Option<Tag>,
    pub outermost_first: ArrayVec<Option<Tag>, MOST_AROUND>,
    pub skip: Skip,
    pub held: Option<HeldValue>,
    pub seen: Seen,
}

/// What follows the head of an element.
#[inline(always)]
pub fn form_after(head: Head, syntax: Syntax) -> Form
    ensures { result ≡ spec.form_after head.tag head.vr head.length syntax }
{
    form_of(syntax, read_as(syntax, head.tag, head.vr), head.length)
}

/// Whether what follows a head was read as items.
fn read_by(form: Form) -> ReadAs
    ensures { result ≡ spec.read_by form }
{
    match form {
        Form::Sequence => ReadAs::AsItems,
        Form::Value | Form::FragmentList | Form::Nothing => ReadAs::AsBytes,
    }
}

/// Whether an element of this tag says whether pixels show identity.
fn says_of_pixels(tag: Tag) -> bool
    ensures { result ≡ pixels.says_of_pixels tag }
{
    tag == BURNED_IN || tag == RECOGNIZABLE
}

/// Whether the value of an element is held until it ends.
pub fn is_held(fate: Fate, form: Form, tag: Tag) -> bool
    ensures { result ≡ spec.is_held fate form tag }
{
    match (form, fate) {
        (Form::Value, Fate::Anew(_)) => true,
        (Form::Value, Fate::Keep) => says_of_pixels(tag),
        _ => false,
    }
}

/// One more where something is counted, as far as there is room.
fn counted(is_one: bool, count: u64) -> u64
    ensures { result ≡ spec.counted is_one count }
{
    if is_one && count < u64::MAX {
        count + 1
    } else {
        count
    }
}

impl Deidentifier {
    /// Before the first token of an input.
    pub fn new() -> Deidentifier
        ensures { deidentifying.place result ≡ spec.first_place }
    {
        Deidentifier {
            last: None,
            outermost_first: ArrayVec::new(),
            skip: Skip::nothing(),
            held: None,
            seen: Seen {
                may_show: false,
                emptied: 0,
            },
        }
    }

    /// Whether the innermost data set is the file's own.
    pub fn depth(&self) -> Depth
        ensures { result ≡ spec.depth_of (deidentifying.place self.now).outer }
    {
        if self.outermost_first.is_empty() {
            Depth::Outermost
        } else {
            Depth::Inside
        }
    }

    /// What becomes of an element of the innermost data set.
    #[inline(always)]
    pub fn fate(&self, options: &Options, form: Form, tag: Tag) -> Fate
        ensures { result ≡ spec.fate_at options.now (deidentifying.place self.now) form tag }
    {
        fate_of(options, self.depth(), read_by(form), tag)
    }

    /// After the head of an element within what is left out.
    #[inline(always)]
    pub fn open_within(&mut self, head: Head)
        ensures { deidentifying.place self.new ≡ spec.head_within (deidentifying.place self.old) head.tag }
    {
        self.skip.open(true);
        self.last = Some(head.tag);
    }

    /// After an element with its whole value within what is left out, where no value is held.
    #[inline(always)]
    pub fn pass_within(&mut self, head: Head)
        ensures { deidentifying.place self.new ≡ spec.whole_within (deidentifying.place self.old) head.tag }
    {
        self.open_within(head);
        self.skip.close();
    }

    /// After the head of an element.
    #[inline(always)]
    fn open(&mut self, options: &Options, head: Head, syntax: Syntax)
        ensures { deidentifying.place self.new
            ≡ spec.after_head options.now (deidentifying.place self.old) head.tag head.vr head.length syntax }
    {
        if self.skip.is_open() {
            self.open_within(head);
        } else {
            let form = form_after(head, syntax);
            let fate = self.fate(options, form, head.tag);
            self.open_as(fate, form, head, syntax);
        }
    }

    /// What becomes of an element of this fate.
    #[inline(always)]
    fn judge_as(&mut self, fate: Fate, form: Form, head: Head, syntax: Syntax)
        ensures last { self.new.last ≡ self.old.last }
        ensures place { deidentifying.place self.new
            ≡ spec.judged (deidentifying.place self.old) fate form head.tag head.vr syntax }
    {
        self.skip.open(fate != Fate::Keep);
        if is_held(fate, form, head.tag) {
            self.held = Some(HeldValue::new(fate, head.tag, head.vr, syntax));
        } else {
            self.let_go();
        }
    }

    /// Holds no value. Most elements find none: the room of one is blanked only where one is there.
    fn let_go(&mut self)
        ensures last { self.new.last ≡ self.old.last }
        ensures place { deidentifying.place self.new ≡ spec.holding (deidentifying.place self.old) None }
    {
        if self.held.is_some() {
            self.held = None;
        }
    }

    /// After the head of an element of this fate, of which nothing is left out so far.
    #[inline(always)]
    pub fn open_as(&mut self, fate: Fate, form: Form, head: Head, syntax: Syntax)
        ensures { deidentifying.place self.new
            ≡ spec.with_last (spec.judged (deidentifying.place self.old) fate form head.tag head.vr syntax) head.tag }
    {
        self.judge_as(fate, form, head, syntax);
        self.last = Some(head.tag);
    }

    /// After an element with its whole value, which is not held.
    #[inline(always)]
    pub fn pass_by(&mut self, tag: Tag)
        ensures { deidentifying.place self.new
            ≡ spec.with_last (spec.holding (deidentifying.place self.old) None) tag }
    {
        self.let_go();
        self.last = Some(tag);
    }

    /// After bytes of a value.
    fn add(&mut self, bytes: &[u8])
        ensures { deidentifying.place self.new ≡ spec.with_bytes (deidentifying.place self.old) bytes.now }
    {
        if let Some(held) = &mut self.held {
            held.add(bytes);
        }
    }

    /// Whether the open value is written and says that pixels may show identity.
    fn shows(&self) -> bool
        ensures { result ≡ spec.says_yes (depth self.now.skip) (deidentifying.place self.now).held }
    {
        match &self.held {
            Some(held) => !self.skip.is_open() && held.is_yes(),
            None => false,
        }
    }

    /// What was seen, with the open value, which ends.
    fn seen_after(&self, options: &Options) -> Seen
        ensures { result ≡ spec.seen_after options.now (depth self.now.skip) (deidentifying.place self.now).held
            self.now.seen }
    {
        match &self.held {
            Some(held) => Seen {
                may_show: self.shows() || self.seen.may_show,
                emptied: counted(held.is_emptied(options), self.seen.emptied),
            },
            None => self.seen,
        }
    }

    /// Counts dates that became empty.
    pub fn count(&mut self, is_one: bool)
        ensures { deidentifying.place self.new ≡ spec.counting (deidentifying.place self.old) is_one }
    {
        self.seen.emptied = counted(is_one, self.seen.emptied);
    }

    /// After the end of a value.
    fn close_value(&mut self, options: &Options)
        ensures { deidentifying.place self.new ≡ spec.after_value options.now (deidentifying.place self.old) }
    {
        self.seen = self.seen_after(options);
        self.let_go();
        self.skip.close();
    }

    /// After the head of an item, where there is room for its data set.
    fn open_item(&mut self)
        ensures { deidentifying.place self.new ≡ spec.in_item (deidentifying.place self.old) }
    {
        if self.outermost_first.len() < MOST_AROUND {
            self.skip.open(false);
            self.outermost_first.push(self.last);
            self.last = None;
        }
    }

    /// After the end of an item.
    fn close_item(&mut self)
        ensures { deidentifying.place self.new
            ≡ spec.after_item (deidentifying.place self.old) (deidentifying.place self.old).outer }
    {
        self.skip.close();
        if let Some(last) = self.outermost_first.pop() {
            self.last = last;
        }
    }

    /// After a token. It is taken apart where it is made: a copy would wait for its parts to be stored.
    #[inline(always)]
    pub fn go_on(&mut self, options: &Options, token: Token)
        ensures { deidentifying.GoesOn options.now self.old self.new (atoms_of token.entry) }
    {
        match token {
            Token::Open(head, syntax) => self.open(options, head, syntax),
            Token::Bytes(bytes) => self.add(bytes),
            Token::CloseLeaf => self.close_value(options),
            Token::OpenItem(_) => self.open_item(),
            Token::CloseItem => self.close_item(),
            Token::CloseSeq => self.skip.close(),
            Token::OpenFragment(_) => self.skip.open(false),
            Token::End => {}
        }
    }
}
