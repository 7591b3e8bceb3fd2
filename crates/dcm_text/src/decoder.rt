//! A text in pieces of any size, as characters.
ghost use Rattle.std.specs.Prelude.{◌≡◌, ◌<◌, ◌≤◌, ◌+◌, ◌∷◌, [], ◌++◌, true, false, List, ℕ, length, drop, take};
ghost use Rattle.std.specs.Prelude.{IfSome, IfNone, MatchOption, Some, None};
ghost use Rattle.dcm_text.specs.Decoding as spec;
ghost use Rattle.dcm_text.specs.Runs as runs;

use crate::first::{Found, Meaning, first_of, one_unknown, start_of};
use crate::set::{Halves, TextKind};
use crate::sets::Sets;
use arrayvec::ArrayVec;

/// The most bytes of a part.
const MOST_BYTES: usize = 4;

/// The most bytes that wait for what follows them.
const MOST_UNDECIDED: usize = 3;

/// Some bytes of a text, and what they are.
#[derive(Drop)]
pub struct Part {
    pub bytes: ArrayVec<u8, MOST_BYTES>,
    pub meaning: Meaning,
}

/// The state of reading a text in pieces: the character sets in force, what bytes mean now, and bytes that wait for
/// more.
#[derive(Drop)]
pub struct Decoder {
    sets: Sets,
    kind: TextKind,
    halves: Halves,
    held: ArrayVec<u8, MOST_UNDECIDED>,
}

/// A few bytes on their own.
fn copied<const N: usize>(bytes: &[u8]) -> ArrayVec<u8, N>
    requires { length bytes.now ≤ N }
    ensures { result.items ≡ bytes.now }
{
    let mut copy = ArrayVec::new();
    match copy.try_extend_from_slice(bytes) {
        Ok(()) => copy,
        Err(_) => unreachable!(),
    }
}

/// What a text begins with, where it ends or goes on.
#[inline(always)]
pub(crate) fn found(
    sets: &Sets,
    kind: TextKind,
    halves: Halves,
    text: &[u8],
    at_end: bool,
) -> Option<Found>
    ensures { result ≡ spec.found at_end sets.now kind halves text.now }
{
    match first_of(sets, kind, halves, text) {
        Some(found) => Some(found),
        None if at_end && !text.is_empty() => Some(one_unknown(halves)),
        None => None,
    }
}

/// Held bytes and those behind them, as many as a part may have, and the rest.
fn window_of<'a>(
    held: &ArrayVec<u8, MOST_UNDECIDED>,
    input: &'a [u8],
) -> (ArrayVec<u8, MOST_BYTES>, &'a [u8])
    ensures whole { held.now.items ++ input.now ≡ result.0.items ++ result.1.now }
    ensures all { length result.0.items < 4 → result.1.now ≡ [] }
{
    let held = held.as_slice();
    let room = (MOST_BYTES - held.len()).min(input.len());
    let (front, rest) = input.split_at(room);
    let mut window = copied(held);
    match window.try_extend_from_slice(front) {
        Ok(()) => (window, rest),
        Err(_) => unreachable!(),
    }
}

/// The input behind so many bytes of what is held and of it; what is held loses them.
fn passed<'a>(held: &mut ArrayVec<u8, MOST_UNDECIDED>, input: &'a [u8], size: usize) -> &'a [u8]
    requires { size ≤ length held.old.items + length input.now }
    ensures { held.new.items ++ result.now ≡ drop size (held.old.items ++ input.now) }
{
    let from_held = size.min(held.len());
    let (_, kept) = held.as_slice().split_at(from_held);
    let kept = copied(kept);
    *held = kept;
    let (_, rest) = input.split_at(size - from_held);
    rest
}

impl Decoder {
    /// Before a text.
    pub fn new(sets: Sets, kind: TextKind) -> Decoder
        ensures { runs.state_of result ≡ runs.begun sets kind }
    {
        Decoder {
            sets,
            kind,
            halves: start_of(&sets),
            held: ArrayVec::new(),
        }
    }

    /// Whether a text goes on as it began: nothing is held, and all bytes mean what they did at first.
    pub fn is_at_start(&self) -> bool
        ensures start { result ≡ true → runs.state_of self.now ≡ runs.begun self.now.sets self.now.kind }
        ensures other { runs.state_of self.now ≡ runs.begun self.now.sets self.now.kind → result ≡ true }
    {
        self.held.is_empty() && self.halves == start_of(&self.sets)
    }

    /// The same as `next`, where nothing is held.
    fn next_of<'a>(&mut self, input: &'a [u8], at_end: bool) -> Option<(Part, &'a [u8])>
        requires { self.old.held.items ≡ [] }
        ensures { MatchOption result (spec.Waits at_end self.old self.new input.now)
            (λ r. spec.Gives at_end self.old self.new input.now (self.new.held.items ++ r.1.now) r.0) }
    {
        match found(&self.sets, self.kind, self.halves, input, at_end) {
            Some(found) => {
                self.halves = found.halves;
                let (bytes, rest) = input.split_at(found.size);
                Some((
                    Part {
                        bytes: copied(bytes),
                        meaning: found.meaning,
                    },
                    rest,
                ))
            }
            None => {
                self.held = copied(input);
                None
            }
        }
    }
    /// The same as `next`, by a window of what is held and what follows it.
    fn next_held<'a>(&mut self, input: &'a [u8], at_end: bool) -> Option<(Part, &'a [u8])>
        ensures { let text = self.old.held.items ++ input.now in
            MatchOption result (spec.Waits at_end self.old self.new text)
            (λ r. spec.Gives at_end self.old self.new text (self.new.held.items ++ r.1.now) r.0) }
    {
        let (window, _) = window_of(&self.held, input);
        match found(
            &self.sets,
            self.kind,
            self.halves,
            window.as_slice(),
            at_end,
        ) {
            Some(found) => {
                self.halves = found.halves;
                let (bytes, _) = window.as_slice().split_at(found.size);
                let part = Part {
                    bytes: copied(bytes),
                    meaning: found.meaning,
                };
                let rest = passed(&mut self.held, input, found.size);
                Some((part, rest))
            }
            None => {
                self.held = copied(window.as_slice());
                None
            }
        }
    }

    /// The same as `next`, in one step of what a text begins with.
    fn step<'a>(&mut self, input: &'a [u8], at_end: bool) -> Option<(Part, &'a [u8])>
        ensures { let text = self.old.held.items ++ input.now in
            MatchOption result (spec.Waits at_end self.old self.new text)
            (λ r. spec.Gives at_end self.old self.new text (self.new.held.items ++ r.1.now) r.0) }
    {
        if self.held.is_empty() {
            self.next_of(input, at_end)
        } else {
            self.next_held(input, at_end)
        }
    }

    /// The next part, and the input behind it; or nothing, where all of the input is taken and nothing is decided of
    /// the bytes that wait. Then the text goes on with the next input. At its end nothing waits.
    pub fn next<'a>(&mut self, input: &'a [u8], at_end: bool) -> Option<(Part, &'a [u8])>
        // The part is the first that a run over the input gives, and the run goes on behind it.
        ensures part { IfSome result (λ r. runs.run at_end (runs.state_of self.old) input.now
            ≡ runs.onto (spec.piece_of r.0) (runs.run at_end (runs.state_of self.new) r.1.now)) }
        ensures fewer { IfSome result (λ r. runs.bytes_left self.new r.1.now < runs.bytes_left self.old input.now) }
        // Or the run is at its end.
        ensures none { IfNone result (runs.run at_end (runs.state_of self.old) input.now ≡
            ([], runs.state_of self.new)) }
    {
        self.step(input, at_end)
    }
}
