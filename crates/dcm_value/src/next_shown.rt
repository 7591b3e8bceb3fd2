// What is shown next of a text by Specific Character Set.
ghost use Rattle.std.specs.Prelude.{◌≡◌, ◌<◌, ◌≤◌, ◌+◌, [], IfSome, IfNone};
ghost use Rattle.dcm_text.specs.Runs.{run, state_of, bytes_left};
ghost use Rattle.dcm_value.specs.NextShown as spec;

use crate::counting::backslashes;
use crate::decoded::is_backslash;
use crate::escapes::ascii_front;
use arrayvec::ArrayVec;
use dcm_text::{Decoder, dumped};

/// The most bytes that are shown of a part.
const PART: usize = 12;

/// What is shown next.
#[derive(Drop)]
pub enum Next<'a> {
    /// Bytes that are shown as they are.
    Plain(&'a [u8]),
    /// What is shown of a part, and whether it is a backslash.
    Part(ArrayVec<u8, PART>, bool),
}

impl<'a> Next<'a> {
    /// What is shown.
    pub fn bytes(&self) -> &[u8]
        ensures { result.now ≡ spec.shown_next self.now }
    {
        match self {
            Next::Plain(bytes) => bytes,
            Next::Part(bytes, _) => bytes.as_slice(),
        }
    }

    /// How many backslashes it has.
    pub fn backslashes(&self) -> usize
        ensures { result ≡ spec.count_next self.now }
    {
        match self {
            Next::Plain(bytes) => backslashes(bytes),
            Next::Part(_, is_backslash) => usize::from(*is_backslash),
        }
    }
}

/// What is shown next of a text, and the input behind it; or nothing, where all of the input is taken and nothing is
/// decided of the bytes that wait. ASCII that is shown as it is comes at once, where the text goes on as it began.
pub fn next_shown<'a>(
    decoder: &mut Decoder,
    input: &'a [u8],
    at_end: bool,
) -> Option<(Next<'a>, &'a [u8])>
    ensures shown { IfSome result (λ r. spec.Shows (run at_end (state_of decoder.old) input.now)
        (run at_end (state_of decoder.new) r.1.now) r.0) }
    ensures few { IfSome result (λ r. spec.count_next r.0 + bytes_left decoder.new r.1.now
        ≤ bytes_left decoder.old input.now) }
    ensures fewer { IfSome result (λ r. bytes_left decoder.new r.1.now < bytes_left decoder.old input.now) }
    ensures none { IfNone result (run at_end (state_of decoder.old) input.now ≡ ([], state_of decoder.new)) }
{
    if decoder.is_at_start() {
        let size = ascii_front(input);
        if size > 0 {
            let (front, after) = input.split_at(size);
            return Some((Next::Plain(front), after));
        }
    }
    next_part(decoder, input, at_end)
}

/// The same, part by part.
fn next_part<'a>(
    decoder: &mut Decoder,
    input: &'a [u8],
    at_end: bool,
) -> Option<(Next<'a>, &'a [u8])>
    ensures shown { IfSome result (λ r. spec.Shows (run at_end (state_of decoder.old) input.now)
        (run at_end (state_of decoder.new) r.1.now) r.0) }
    ensures few { IfSome result (λ r. spec.count_next r.0 + bytes_left decoder.new r.1.now
        ≤ bytes_left decoder.old input.now) }
    ensures fewer { IfSome result (λ r. bytes_left decoder.new r.1.now < bytes_left decoder.old input.now) }
    ensures none { IfNone result (run at_end (state_of decoder.old) input.now ≡ ([], state_of decoder.new)) }
{
    match decoder.next(input, at_end) {
        Some((part, after)) => Some((Next::Part(dumped(&part), is_backslash(part.meaning)), after)),
        None => None,
    }
}
