// Edits, between what reads a data set and what takes it.
ghost use Rattle.std.specs.Prelude.{◌≡◌, ◌≤◌, ◌<◌, ℕ, length, map, not, true, false};
ghost use Rattle.std.specs.Borrow.{GName};
ghost use Rattle.dcm_base.specs.Steps.Atoms.{opens_item};
ghost use Rattle.dcm_stream.specs.Sinks as sinks;
ghost use Rattle.dcm_stream.specs.Skip.{depth};
ghost use Rattle.dcm_stream.specs.Tokens.{IsFilled, IsLeaf, atoms_of, whole_atoms};
ghost use Rattle.dcm_editor.specs.Asking as asking;
ghost use Rattle.dcm_editor.specs.EditSink.{State as EditState, passed, begun};
ghost use Rattle.dcm_editor.specs.Sound.{IsSound, IsSoundAt, IsSoundAt-prop};
ghost use Rattle.dcm_editor.specs.Editing as editing;
ghost use Rattle.dcm_editor.specs.Noting.{NotesWhole};
ghost use Rattle.dcm_editor.specs.Indexes as indexes;
ghost use Rattle.dcm_editor.specs.Masks as masks;
ghost use Rattle.dcm_edits.specs.Meaning.{edit_of};
ghost use Rattle.dcm_editor.specs.Outputs as outputs;
ghost use Rattle.dcm_editor.specs.Through.{through_step, through_writes, through_bar};

use crate::asked::{Fate, Gap};
use crate::editor::Editor;
use crate::index::TagIndex;
use crate::mask::unset_bits;
use crate::new::{put_leaf_at, put_new};
use crate::place::Asked;
use dcm_base::{Length, Syntax, Tag, WriteFailed};
use dcm_edits::{Edit, Edits};
use dcm_head::Head;
use dcm_stream::{Bar, Sink, Token, WholeFailed};
use std::alloc::{Allocator, Global};

/// Passes on what edits put in a gap of the innermost open data set.
fn put_gap<S: Sink, A: Allocator>(
    editor: &Editor,
    edits: &[Edit<A>],
    index: &TagIndex,
    next: Option<Tag>,
    sink: &mut S,
) -> Result<(), WriteFailed>
    requires few { length edits.now ≤ 64 }
    requires index { indexes.has_all index.now 0 (map edit_of edits.now) ≡ true }
    requires short { asking.AreShort (map edit_of edits.now) }
    requires sound { IsSound (editing.meant edits.now editor.now) }
    ensures { outputs.TookTrees S.Sink sink.old sink.new (editing.missing edits.now editor.now next) result }
{
    if index.makes_nothing(editor.level.mask) {
        return Ok(());
    }
    let last = editor.level.last;
    let asked = Asked {
        edits,
        depth: editor.depth(),
        mask: editor.level.mask,
    };
    put_new(&asked, Gap { last, next }, sink)
}

/// Passes on what becomes of an element's head.
fn put_head<S: Sink, A: Allocator>(
    fate: Fate<'_, A>,
    head: Head,
    syntax: Syntax,
    sink: &mut S,
) -> Result<(), WriteFailed>
    ensures { sinks.Took S.Sink sink.old sink.new (editing.head_put (asking.fate_of fate.entry) head syntax) result }
{
    match fate {
        Fate::Stays => sink.take(Token::Open(head, syntax)),
        Fate::Becomes(element) => put_leaf_at(head.tag, element, sink),
        Fate::Goes => Ok(()),
    }
}

/// Passes on the head of an element that is not dropped already, after the new elements before it.
fn pass_element<S: Sink, A: Allocator>(
    editor: &Editor,
    edits: &[Edit<A>],
    index: &TagIndex,
    head: Head,
    syntax: Syntax,
    sink: &mut S,
) -> Result<(), WriteFailed>
    requires few { length edits.now ≤ 64 }
    requires index { indexes.has_all index.now 0 (map edit_of edits.now) ≡ true }
    requires short { asking.AreShort (map edit_of edits.now) }
    requires sound { IsSound (editing.meant edits.now editor.now) }
    requires kept { depth editor.now.skip ≡ 0 }
    ensures { sinks.Took S.Sink sink.old sink.new
        (passed (editing.meant edits.now editor.now) (editing.head_of head syntax)) result }
{
    put_gap(editor, edits, index, Some(head.tag), sink)?;
    put_head(editor.fate_of(edits, index, head.tag), head, syntax, sink)
}

/// Passes on the head of an item that is not dropped already.
fn pass_item<S: Sink, A: Allocator>(
    editor: &Editor,
    edits: &[Edit<A>],
    declared: Length,
    sink: &mut S,
) -> Result<(), WriteFailed>
    requires few { length edits.now ≤ 64 }
    requires kept { depth editor.now.skip ≡ 0 }
    ensures { sinks.Took S.Sink sink.old sink.new
        (passed (editing.meant edits.now editor.now) (opens_item declared)) result }
{
    if editor.erases_next(edits) {
        return Ok(());
    }
    sink.take(Token::OpenItem(declared))
}

/// Passes on the end of the innermost data set, after the new elements above its last one.
fn pass_end<S: Sink, A: Allocator>(
    editor: &Editor,
    edits: &[Edit<A>],
    index: &TagIndex,
    end: Token,
    sink: &mut S,
) -> Result<(), WriteFailed>
    requires few { length edits.now ≤ 64 }
    requires index { indexes.has_all index.now 0 (map edit_of edits.now) ≡ true }
    requires short { asking.AreShort (map edit_of edits.now) }
    requires sound { IsSound (editing.meant edits.now editor.now) }
    requires kept { depth editor.now.skip ≡ 0 }
    requires end { editing.IsEnd (atoms_of end) }
    requires filled { IsFilled end }
    ensures { sinks.Took S.Sink sink.old sink.new (editing.passed_of edits.now editor.now (atoms_of end.entry))
        result }
{
    put_gap(editor, edits, index, None, sink)?;
    sink.take(end)
}

/// Passes on what a token of the input becomes.
fn pass<S: Sink, A: Allocator>(
    editor: &Editor,
    edits: &[Edit<A>],
    index: &TagIndex,
    token: Token,
    sink: &mut S,
) -> Result<(), WriteFailed>
    requires few { length edits.now ≤ 64 }
    requires index { indexes.has_all index.now 0 (map edit_of edits.now) ≡ true }
    requires short { asking.AreShort (map edit_of edits.now) }
    requires sound { IsSound (editing.meant edits.now editor.now) }
    requires filled { IsFilled token }
    ensures { sinks.Took S.Sink sink.old sink.new (editing.passed_of edits.now editor.now (atoms_of token.entry))
        result }
{
    if editor.skip.is_open() {
        return Ok(());
    }
    match token {
        Token::Open(head, syntax) => pass_element(editor, edits, index, head, syntax, sink),
        Token::OpenItem(length) => pass_item(editor, edits, length, sink),
        Token::CloseItem | Token::End => pass_end(editor, edits, index, token, sink),
        Token::Bytes(_) | Token::CloseLeaf | Token::CloseSeq | Token::OpenFragment(_) => {
            sink.take(token)
        }
    }
}

/// Passes on what a token of the input becomes, and goes on after it.
#[inline(never)]
fn pass_edited<S: Sink, A: Allocator>(
    editor: &mut Editor,
    edits: &[Edit<A>],
    index: &TagIndex,
    token: Token,
    sink: &mut S,
) -> Result<(), WriteFailed>
    requires few { length edits.now ≤ 64 }
    requires index { indexes.has_all index.now 0 (map edit_of edits.now) ≡ true }
    requires short { asking.AreShort (map edit_of edits.now) }
    requires sound { IsSound (editing.meant edits.now editor.old) }
    requires filled { IsFilled token }
    ensures took { sinks.Took S.Sink sink.old sink.new
        (editing.passed_of edits.now editor.old (atoms_of token.entry)) result }
    ensures state { editing.GoesOn edits.now editor.old editor.new (atoms_of token.entry) result }
{
    pass(editor, edits, index, token, sink)?;
    editor.go_on(edits, index, token);
    Ok(())
}

/// Passes on what a token of the input becomes, and goes on after it. An element that no edit meets is passed on as it
/// is, and so is what a value, a sequence or a fragment list has beside items. So are the head of an item that no edit
/// names, and its end where no edit puts what is missing.
#[inline(always)]
fn pass_on<S: Sink, A: Allocator>(
    editor: &mut Editor,
    edits: &[Edit<A>],
    index: &TagIndex,
    token: Token,
    sink: &mut S,
) -> Result<(), WriteFailed>
    requires few { length edits.now ≤ 64 }
    requires index { indexes.has_all index.now 0 (map edit_of edits.now) ≡ true }
    requires short { asking.AreShort (map edit_of edits.now) }
    requires sound { IsSound (editing.meant edits.now editor.old) }
    requires everywhere { indexes.tells_everywhere index.now (map edit_of edits.now) }
    requires filled { IsFilled token }
    ensures took { sinks.Took S.Sink sink.old sink.new
        (editing.passed_of edits.now editor.old (atoms_of token.entry)) result }
    ensures state { editing.GoesOn edits.now editor.old editor.new (atoms_of token.entry) result }
{
    match token {
        Token::Open(head, _) if editor.leaves(edits, index, head.tag) => {
            sink.take(token)?;
            editor.pass_by(head.tag);
        }
        Token::Bytes(_) | Token::CloseLeaf | Token::CloseSeq | Token::OpenFragment(_)
            if !editor.skip.is_open() => { sink.take(token)? }
        Token::OpenItem(_) if editor.passes_item(index) => {
            sink.take(token)?;
            editor.pass_item(index.everywhere(editor.level.mask));
        }
        Token::CloseItem if editor.puts_nothing(index) => {
            sink.take(token)?;
            editor.leave_item();
        }
        _ => pass_edited(editor, edits, index, token, sink)?,
    }
    Ok(())
}

/// Passes on an element that no edit meets, with its whole value. It is noted once its head is out, also where the
/// writer then fails: so where the edits are is as by its tokens one after another.
#[inline(always)]
fn pass_whole<S: Sink>(
    editor: &mut Editor,
    head: Head,
    syntax: Syntax,
    value: &[u8],
    sink: &mut S,
) -> Result<(), WriteFailed>
    requires { IsLeaf head syntax value.now }
    ensures took { sinks.Took S.Sink sink.old sink.new (whole_atoms head syntax value.now) result }
    ensures noted { NotesWhole S.Sink sink.old sink.new editor.old editor.new head syntax value.now result }
{
    let tag = head.tag;
    match sink.take_whole_telling(head, syntax, value) {
        Ok(()) => {
            editor.pass_by(tag);
            Ok(())
        }
        Err(WholeFailed::AtHead) => Err(WriteFailed),
        Err(WholeFailed::InValue) => {
            editor.pass_by(tag);
            Err(WriteFailed)
        }
    }
}

/// A sink that passes the tokens of a data set on to another one, as edits make them. It bars tags that do not
/// ascend (DECISIONS, D-27), and does not ask what the other one bars.
#[derive(Drop)]
pub struct EditSink<'e, S, A: Allocator = Global> {
    edits: &'e Edits<A>,
    inner: &'e mut S,
    editor: Editor,
    index: TagIndex,
    ghost index_has: { indexes.has_all index 0 edits.now ≡ true },
    ghost index_tells: { indexes.tells_everywhere index edits.now },
    ghost sound: { IsSoundAt edits.now editor } by { IsSoundAt-prop edits.now editor },
}

impl<'e, S: Sink, A: Allocator> EditSink<'e, S, A> {
    /// The edits before the first token of a data set, which then goes into this sink.
    pub fn new(edits: &'e Edits<A>, inner: &'e mut S) -> Self
        ensures same_reference { result.inner.ghost_name ≡ inner.entry.ghost_name }
        ensures inner { result.inner.now ≡ inner.old }
        ensures edits { result.edits.now ≡ edits.now }
        ensures state { masks.meant edits.now (editing.state result.editor) ≡ begun edits.now }
    {
        EditSink {
            edits,
            inner,
            editor: Editor::new(edits.list()),
            index: TagIndex::of(edits.list()),
        }
    }

    /// The edits that have found no place so far: bit k for edit k, counted from 0.
    pub fn unplaced(&self) -> u64
        ensures placed { (k : ℕ) → k < length self.now.edits.now
            → masks.is_set result k ≡ not (masks.is_set self.now.editor.found k) }
        ensures few { (k : ℕ) → length self.now.edits.now ≤ k → masks.is_set result k ≡ false }
    {
        unset_bits(self.editor.found, self.edits.list().len())
    }

    /// Takes a token of which it is known that edits have to be asked.
    fn take_edited(&mut self, token: Token) -> Result<(), WriteFailed>
        requires { IsFilled token }
        ensures { sinks.Took ⟦<EditSink<'e, S, A> as Sink>⟧ self.old self.new (atoms_of token.entry) result }
    {
        pass_edited(
            &mut self.editor,
            self.edits.list(),
            &self.index,
            token,
            self.inner,
        )
    }

    /// Takes an element with its whole value by its tokens, one after another. It is not inlined: few elements are
    /// edited or dropped, and the way of the others stays small.
    #[inline(never)]
    fn take_by_token(&mut self, head: Head, syntax: Syntax, value: &[u8]) -> Result<(), WriteFailed>
        ensures { sinks.Took ⟦<EditSink<'e, S, A> as Sink>⟧ self.old self.new
            (whole_atoms head syntax value.now) result }
    {
        self.take_edited(Token::Open(head, syntax))?;
        if !value.is_empty() {
            self.take(Token::Bytes(value))?;
        }
        self.take(Token::CloseLeaf)
    }
}

impl<'e, S: Sink, A: Allocator> Sink for EditSink<'e, S, A> {
    ghost State = { EditState × S.State };

    ghost state = { λ e. (masks.meant e.edits.now (editing.state e.editor), S.state e.inner.now) };

    ghost step = { through_step S.step };

    ghost writes = { through_writes S.step S.writes };

    ghost bar = { through_bar };

    ghost contents = { λ e. S.contents e.inner.now };

    ghost has_failed = { λ e. S.has_failed e.inner.now };

    ghost Kept = { GName × S.Kept };

    ghost kept = { λ e. (e.inner.ghost_name, S.kept e.inner.now) };

    #[inline(always)]
    fn take(&mut self, token: Token) -> Result<(), WriteFailed> {
        pass_on(
            &mut self.editor,
            self.edits.list(),
            &self.index,
            token,
            self.inner,
        )
    }

    /// An element that no edit meets is passed on whole: the edits are asked once for its three tokens, and the other
    /// sink has a short way for it too. Its value and its end change nothing of where the edits are.
    #[inline(always)]
    fn take_whole(&mut self, head: Head, syntax: Syntax, value: &[u8]) -> Result<(), WriteFailed> {
        if !self.editor.leaves(self.edits.list(), &self.index, head.tag) {
            return self.take_by_token(head, syntax, value);
        }
        pass_whole(&mut self.editor, head, syntax, value, self.inner)
    }

    /// Most items are passed on as they are, at little cost.
    #[inline(always)]
    fn wants_items_apart(&self) -> bool {
        true
    }

    fn accepts(&self, head: &Head) -> Result<(), Bar> {
        match self.editor.level.last {
            Some(last) if !last.is_below(head.tag) => Err(Bar::Order),
            _ => Ok(()),
        }
    }
}
