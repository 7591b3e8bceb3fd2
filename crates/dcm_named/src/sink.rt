// The lines of named elements, between what reads a data set and what writes lines.
ghost use Rattle.std.specs.Prelude.{◌≡◌, ◌||◌, ◌&&◌, not, true, false, flat_map};
ghost use Rattle.std.specs.Borrow.{GName};
ghost use Rattle.dcm_stream.specs.Sinks as sinks;
ghost use Rattle.dcm_stream.specs.Skip.{is_open};
ghost use Rattle.dcm_stream.specs.Tokens.{IsFilled, IsLeaf, atoms_of, whole_atoms};
ghost use Rattle.dcm_named.specs.Filter.{Place, place_start};
ghost use Rattle.dcm_named.specs.Named.{is_named, step_text};
ghost use Rattle.dcm_named.specs.NamedSink.{named_step, named_writes, bars_nothing};
ghost use Rattle.dcm_named.specs.Naming as naming;

use crate::filter::{Filter, Outside};
use dcm_base::{Mode, Syntax, Tag, WriteFailed};
use dcm_head::Head;
use dcm_sinks::LineSink;
use dcm_stream::{Bar, Sink, Token};

/// Writes a sequence of a way, and a dot.
fn put_step<S: LineSink>(tag: Tag, lines: &mut S) -> Result<(), WriteFailed>
    ensures { naming.PutText S.LineSink lines.old lines.new (step_text tag) result }
{
    lines.put_before(&tag.text())?;
    lines.put_before(b".")
}

/// Writes a way.
fn put_way<S: LineSink>(way: &[Outside], lines: &mut S) -> Result<(), WriteFailed>
    ensures { naming.PutText S.LineSink lines.old lines.new (flat_map naming.outside_text way.now) result }
{
    for outside in way {
        put_step(outside.tag, lines)?;
    }
    Ok(())
}

/// Shows a token, after the way where that is due, and goes on after it.
#[inline(always)]
fn show_token<S: LineSink>(
    filter: &mut Filter,
    token: Token,
    lines: &mut S,
) -> Result<(), WriteFailed>
    requires filled { IsFilled token }
    requires shown { naming.token_shows (naming.place filter.old) token ≡ true }
    ensures { naming.Filtered S.LineSink (naming.place filter.old) (naming.place filter.new) lines.old lines.new
        (atoms_of token.entry) result }
{
    put_way(filter.way_before(token), lines)?;
    lines.show(token)?;
    filter.go_on(token);
    Ok(())
}

/// Shows a token that is shown, or passes over it; and goes on after it.
#[inline(always)]
fn pass_on<S: LineSink>(filter: &mut Filter, token: Token, lines: &mut S) -> Result<(), WriteFailed>
    requires { IsFilled token }
    ensures { naming.Filtered S.LineSink (naming.place filter.old) (naming.place filter.new) lines.old lines.new
        (atoms_of token.entry) result }
{
    if filter.shows(token) {
        return show_token(filter, token, lines);
    }
    lines.pass_over(token);
    filter.go_on(token);
    Ok(())
}

/// Shows an element with its whole value, before which no way stands.
fn pass_whole<S: LineSink>(
    filter: &mut Filter,
    head: Head,
    syntax: Syntax,
    value: &[u8],
    lines: &mut S,
) -> Result<(), WriteFailed>
    requires leaf { IsLeaf head syntax value.now }
    requires shown { (is_open (naming.place filter.old).shown || is_named (naming.place filter.old).tags head.tag) ≡ true }
    requires no_way { ((naming.place filter.old).ways && not (is_open (naming.place filter.old).shown)) ≡ false }
    ensures { naming.Filtered S.LineSink (naming.place filter.old) (naming.place filter.new) lines.old lines.new
        (whole_atoms head syntax value.now) result }
{
    lines.show_whole(head, syntax, value)?;
    filter.go_on_whole();
    Ok(())
}

/// A sink that shows the elements of a data set that are named, at any depth, with all that lies in them, by what writes
/// their lines. It passes over all else, and bars nothing.
#[derive(Drop)]
pub struct NamedSink<'a, S> {
    filter: Filter<'a>,
    lines: &'a mut S,
}

impl<'a, S: LineSink> NamedSink<'a, S> {
    /// Before the first token of a data set. The mode is that of the lines.
    pub fn new(tags: &'a [Tag], ways: bool, mode: Mode, lines: &'a mut S) -> Self
        ensures same_reference { result.lines.ghost_name ≡ lines.entry.ghost_name }
        ensures lines { result.lines.now ≡ lines.old }
        ensures state { naming.place result.filter ≡ place_start tags.now ways mode }
    {
        NamedSink {
            filter: Filter::new(tags, ways, mode),
            lines,
        }
    }

    /// Takes an element with its whole value by its tokens, one after another, so that a way stands where its line
    /// begins.
    #[inline(never)]
    fn take_by_token(&mut self, head: Head, syntax: Syntax, value: &[u8]) -> Result<(), WriteFailed>
        ensures { sinks.Took ⟦<NamedSink<'a, S> as Sink>⟧ self.old self.new
            (whole_atoms head syntax value.now) result }
    {
        self.take_by_tokens(head, syntax, value)
    }

    /// Takes an element with its whole value that is shown.
    #[inline(never)]
    fn show_whole(&mut self, head: Head, syntax: Syntax, value: &[u8]) -> Result<(), WriteFailed>
        requires leaf { IsLeaf head syntax value.now }
        requires shown { (is_open (naming.place self.old.filter).shown
            || is_named (naming.place self.old.filter).tags head.tag) ≡ true }
        ensures { sinks.Took ⟦<NamedSink<'a, S> as Sink>⟧ self.old self.new
            (whole_atoms head syntax value.now) result }
    {
        if self.filter.has_way() {
            return self.take_by_token(head, syntax, value);
        }
        pass_whole(&mut self.filter, head, syntax, value, self.lines)
    }
}

impl<'a, S: LineSink> Sink for NamedSink<'a, S> {
    ghost State = { Place × S.State };

    ghost state = { λ e. (naming.place e.filter, S.state e.lines.now) };

    ghost step = { named_step S.step S.over };

    ghost writes = { named_writes S.writes };

    ghost bar = { bars_nothing };

    ghost contents = { λ e. S.contents e.lines.now };

    ghost has_failed = { λ e. S.has_failed e.lines.now };

    ghost Kept = { GName × S.Kept };

    ghost kept = { λ e. (e.lines.ghost_name, S.kept e.lines.now) };

    #[inline(always)]
    fn take(&mut self, token: Token) -> Result<(), WriteFailed> {
        pass_on(&mut self.filter, token, self.lines)
    }

    /// An element that is not named, where nothing is shown, is passed over at once.
    #[inline(always)]
    fn take_whole(&mut self, head: Head, syntax: Syntax, value: &[u8]) -> Result<(), WriteFailed> {
        if self.filter.shows_tag(head.tag) {
            return self.show_whole(head, syntax, value);
        }
        self.lines.pass_over_whole(head, syntax, value);
        Ok(())
    }

    /// Most items are passed over, at little cost.
    #[inline(always)]
    fn wants_items_apart(&self) -> bool {
        true
    }

    fn accepts(&self, _head: &Head) -> Result<(), Bar> {
        Ok(())
    }
}
