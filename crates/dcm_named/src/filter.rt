// Which tokens go on to the lines.
ghost use Rattle.std.specs.Prelude.{◌≡◌, ◌||◌, ◌&&◌, not, true, fold, flat_map};
ghost use Rattle.dcm_base.specs.Bytes.Spelling as spelling;
ghost use Rattle.dcm_base.specs.Reading.Stop as stop;
ghost use Rattle.dcm_base.specs.Steps.Atoms.{closes_sequence};
ghost use Rattle.dcm_sinks.specs.Encoder.{opening};
ghost use Rattle.dcm_stream.specs.Skip.{closed, is_open, opened};
ghost use Rattle.dcm_stream.specs.Tokens.{atoms_of};
ghost use Rattle.dcm_named.specs.Filter as spec;
ghost use Rattle.dcm_named.specs.Named.{is_named};
ghost use Rattle.dcm_named.specs.Naming as naming;

use arrayvec::ArrayVec;
use dcm_base::{Form, MOST_OPEN, Mode, Syntax, Tag, form_of, read_as};
use dcm_head::Head;
use dcm_stream::{Skip, Token};

/// A sequence or fragment list around the current element, of which nothing is shown.
#[derive(Clone, Copy, Debug, PartialEq, Eq)]
pub struct Outside {
    pub tag: Tag,
}

impl Default for Outside {
    fn default() -> Self {
        Outside { tag: Tag::ITEM }
    }
}

/// The named tags, how elements are shown, the sequences around the current element, and what is open of an element
/// that is shown.
#[derive(Drop)]
pub struct Filter<'t> {
    tags: &'t [Tag],
    ways: bool,
    mode: Mode,
    outermost_first: ArrayVec<Outside, MOST_OPEN>,
    shown: Skip,
}

/// Whether a tag is among these.
fn is_among(tags: &[Tag], tag: Tag) -> bool
    ensures { result ≡ is_named tags.now tag }
{
    tags.iter().any(|named| tag == *named)
}

/// Whether an element of this form has a line of its own that begins at its head.
fn begins_at_head(form: Form, mode: Mode) -> bool
    ensures { result ≡ spec.begins_at_head form mode }
{
    match form {
        Form::Value => mode == Mode::Full,
        Form::Sequence | Form::FragmentList => true,
        Form::Nothing => false,
    }
}

/// Whether an element of this form holds items or fragments.
fn opens_list(form: Form) -> bool
    ensures { result ≡ stop.opens_list form }
{
    match form {
        Form::Sequence | Form::FragmentList => true,
        Form::Value | Form::Nothing => false,
    }
}

fn form_after(head: Head, syntax: Syntax) -> Form
    ensures { result ≡ spelling.form syntax (spelling.read_as syntax head.tag head.vr) head.length }
{
    form_of(syntax, read_as(syntax, head.tag, head.vr), head.length)
}

impl<'t> Filter<'t> {
    /// Before the first token of a data set.
    pub fn new(tags: &'t [Tag], ways: bool, mode: Mode) -> Self
        ensures { naming.place result ≡ spec.place_start tags.now ways mode }
    {
        Filter {
            tags,
            ways,
            mode,
            outermost_first: ArrayVec::new(),
            shown: Skip::nothing(),
        }
    }

    /// Whether an element of this tag goes on to the lines.
    #[inline(always)]
    pub fn shows_tag(&self, tag: Tag) -> bool
        ensures { result ≡ is_open (naming.place self.now).shown || is_named (naming.place self.now).tags tag }
    {
        self.shown.is_open() || is_among(self.tags, tag)
    }

    /// Whether a token goes on to the lines.
    #[inline(always)]
    pub fn shows(&self, token: Token) -> bool
        ensures { result ≡ naming.token_shows (naming.place self.now) token.entry }
    {
        match token {
            Token::Open(head, _) => self.shows_tag(head.tag),
            Token::Bytes(_)
            | Token::CloseLeaf
            | Token::OpenItem(_)
            | Token::CloseItem
            | Token::CloseSeq
            | Token::OpenFragment(_)
            | Token::End => self.shown.is_open(),
        }
    }

    /// Whether nothing but a named element is open.
    fn is_at_its_end(&self) -> bool
        ensures { result ≡ spec.is_one (naming.place self.now).shown }
    {
        let mut behind = self.shown;
        behind.close();
        self.shown.is_open() && !behind.is_open()
    }

    /// Whether a token begins the first line of a named element.
    fn begins(&self, token: Token) -> bool
        ensures { result ≡ naming.token_begins (naming.place self.now) token.entry }
    {
        match token {
            Token::Open(head, syntax) => {
                !self.shown.is_open()
                    && is_among(self.tags, head.tag)
                    && begins_at_head(form_after(head, syntax), self.mode)
            }
            Token::CloseLeaf => self.is_at_its_end() && self.mode == Mode::Short,
            Token::Bytes(_)
            | Token::OpenItem(_)
            | Token::CloseItem
            | Token::CloseSeq
            | Token::OpenFragment(_)
            | Token::End => false,
        }
    }

    /// The sequences around an element, from the outermost on, if a way is written before what a token shows. Otherwise
    /// none.
    pub fn way_before(&self, token: Token) -> &[Outside]
        ensures { naming.token_before (naming.place self.now) token.entry ≡ flat_map naming.outside_text result.now }
    {
        if self.begins(token) && self.ways {
            self.outermost_first.as_slice()
        } else {
            &[]
        }
    }

    /// Whether a way is written before the line of an element that begins to be shown.
    #[inline(always)]
    pub fn has_way(&self) -> bool
        ensures { result ≡ (naming.place self.now).ways && not (is_open (naming.place self.now).shown) }
    {
        self.ways && !self.shown.is_open()
    }

    /// One more sequence or fragment list lies on the way.
    fn enter(&mut self, tag: Tag)
        ensures { naming.place self.new
            ≡ record (naming.place self.old) { way = spec.entered tag (naming.place self.old).way } }
    {
        if self.outermost_first.len() < MOST_OPEN {
            self.outermost_first.push(Outside { tag });
        }
    }

    /// After the head of an element.
    fn open(&mut self, head: Head, syntax: Syntax)
        ensures { naming.place self.new ≡ spec.next (naming.place self.old) (opening head syntax) }
    {
        let is_named = is_among(self.tags, head.tag);
        if !self.shown.is_open() && !is_named && opens_list(form_after(head, syntax)) {
            self.enter(head.tag);
        }
        self.shown.open(is_named);
    }

    /// After the end of a sequence or fragment list.
    fn close_list(&mut self)
        ensures { naming.place self.new ≡ spec.next (naming.place self.old) closes_sequence }
    {
        if !self.shown.is_open() {
            self.outermost_first.pop();
        }
        self.shown.close();
    }

    /// After a token.
    #[inline(always)]
    #[tactic(auto, using(crate::proofs::Filtering::place_bytes))]
    pub fn go_on(&mut self, token: Token)
        ensures { naming.place self.new ≡ fold spec.next (naming.place self.old) (atoms_of token.entry) }
    {
        match token {
            Token::Open(head, syntax) => self.open(head, syntax),
            Token::CloseSeq => self.close_list(),
            Token::CloseLeaf | Token::CloseItem => self.shown.close(),
            Token::OpenItem(_) | Token::OpenFragment(_) => self.shown.open(false),
            Token::Bytes(_) | Token::End => {}
        }
    }

    /// After an element with its whole value, which is shown.
    #[inline(always)]
    pub fn go_on_whole(&mut self)
        ensures { naming.place self.new ≡ record (naming.place self.old) {
          shown = closed (opened (naming.place self.old).shown true);
        } }
    {
        self.shown.open(true);
        self.shown.close();
    }
}
