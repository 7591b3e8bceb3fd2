// What is next in a whole text by Specific Character Set.
ghost use Rattle.std.specs.Prelude.{◌≡◌, ◌≤◌, ◌+◌, ◌++◌, [], true, ℕ, length, take, IfSome, IfNone};
ghost use Rattle.std.specs.List.{list_all};
ghost use Rattle.dcm_text.specs.First.{start_of};
ghost use Rattle.dcm_text.specs.TextPieces.{pieces_left};
ghost use Rattle.dcm_value.specs.NextPiece as spec;
ghost use Rattle.dcm_value.specs.Plain.{is_ascii_byte};

use crate::counting::backslashes;
use crate::decoded::is_backslash;
use crate::escapes::{ascii_front, is_ascii};
use crate::units::append_many;
use arrayvec::ArrayVec;
use dcm_text::{Meaning, TextPieces, append_dumped};

/// What is next.
#[derive(Drop)]
pub enum Next<'a> {
    /// Bytes of ASCII or of UTF-8 that are shown as they are.
    Plain(&'a [u8]),
    /// Some other bytes, and what they are.
    Piece(&'a [u8], Meaning),
}

impl<'a> Next<'a> {
    /// Appends what is shown of it.
    #[inline(always)]
    pub fn show<const N: usize>(&self, most: usize, shown: &mut ArrayVec<u8, N>)
        requires next { spec.IsNext most self.now }
        requires room { length shown.old.items + (12 + most) ≤ N }
        ensures items { shown.new.items ≡ shown.old.items ++ spec.shown_of self.now }
        ensures within { length shown.new.items ≤ length shown.old.items + (12 + most) }
    {
        match self {
            Next::Plain(bytes) => append_many(bytes, shown),
            Next::Piece(bytes, meaning) => append_dumped(bytes, *meaning, shown),
        }
    }

    /// How many backslashes it has.
    #[inline(always)]
    pub fn backslashes(&self) -> usize
        requires { 1 ≤ length (spec.bytes_of self.now) }
        ensures count { result ≡ spec.count_of self.now }
        ensures few { result ≤ length (spec.bytes_of self.now) }
    {
        match self {
            Next::Plain(bytes) => backslashes(bytes),
            Next::Piece(_, meaning) => usize::from(is_backslash(*meaning)),
        }
    }
}

/// Takes what is next of a whole text; nothing at its end. What is shown as it is comes many bytes at once, where the
/// text goes on as it began.
#[inline(always)]
pub fn next_of<'a>(pieces: &mut TextPieces<'a>, most: usize) -> Option<Next<'a>>
    ensures next { IfSome result (λ next. spec.Follows pieces.old pieces.new next) }
    ensures fits { IfSome result (λ next. spec.IsNext most next) }
    ensures none { IfNone result (pieces_left pieces.old ≡ []) }
    ensures ended { IfNone result (pieces.new ≡ pieces.old) }
{
    if !pieces.is_at_start() {
        return next_single(pieces);
    }
    match next_run(pieces, most) {
        Some(next) => Some(next),
        None => next_single(pieces),
    }
}

/// The same, piece by piece.
#[inline(always)]
fn next_single<'a>(pieces: &mut TextPieces<'a>) -> Option<Next<'a>>
    ensures next { IfSome result (λ next. spec.Follows pieces.old pieces.new next) }
    ensures fits { IfSome result (λ next. (most : ℕ) → spec.IsNext most next) }
    ensures none { IfNone result (pieces_left pieces.old ≡ []) }
    ensures ended { IfNone result (pieces.new ≡ pieces.old) }
{
    match pieces.next() {
        Some((bytes, meaning)) => Some(Next::Piece(bytes, meaning)),
        None => None,
    }
}

/// Takes bytes in front that are shown as they are, at most so many, and nothing where there are none. Where all of
/// them are ASCII, no character is looked at.
#[inline(always)]
fn next_run<'a>(pieces: &mut TextPieces<'a>, most: usize) -> Option<Next<'a>>
    requires start { pieces.old.halves ≡ start_of pieces.old.sets }
    ensures next { IfSome result (λ next. spec.Follows pieces.old pieces.new next) }
    ensures fits { IfSome result (λ next. spec.IsNext most next) }
    ensures none { IfNone result (pieces.new ≡ pieces.old) }
{
    let rest = pieces.rest();
    let [first, ..] = rest else {
        return None;
    };
    if !is_ascii(*first) {
        return next_shown(pieces, most);
    }
    let (window, _) = rest.split_at(rest.len().min(most));
    let size = ascii_front(window);
    if size == window.len() {
        return next_plain(pieces, size);
    }
    match next_shown(pieces, most) {
        Some(next) => Some(next),
        None => next_plain(pieces, size),
    }
}

/// Takes so many bytes of ASCII, which are shown as they are.
#[inline(always)]
fn next_plain<'a>(pieces: &mut TextPieces<'a>, size: usize) -> Option<Next<'a>>
    requires start { pieces.old.halves ≡ start_of pieces.old.sets }
    requires within { size ≤ length pieces.old.rest.now }
    requires plain { list_all is_ascii_byte (take size pieces.old.rest.now) ≡ true }
    ensures next { IfSome result (λ next. spec.Follows pieces.old pieces.new next) }
    ensures fits { IfSome result (λ next. spec.IsNext size next) }
    ensures none { IfNone result (pieces.new ≡ pieces.old) }
{
    if size > 0 {
        Some(Next::Plain(pieces.pass_plain(size)))
    } else {
        None
    }
}

/// Takes characters of UTF-8 that are shown as they are, at most so many bytes, where UTF-8 is in force.
#[inline(always)]
fn next_shown<'a>(pieces: &mut TextPieces<'a>, most: usize) -> Option<Next<'a>>
    ensures next { IfSome result (λ next. spec.Follows pieces.old pieces.new next) }
    ensures fits { IfSome result (λ next. spec.IsNext most next) }
    ensures none { IfNone result (pieces.new ≡ pieces.old) }
{
    let run = pieces.pass_shown(most);
    if run.is_empty() {
        None
    } else {
        Some(Next::Plain(run))
    }
}
