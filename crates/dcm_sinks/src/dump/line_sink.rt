// Sinks of a dump's lines, before which stands what leaves lines out.
ghost use Rattle.std.specs.Prelude.{◌≡◌, ℕ, Bool, List, Option, OnOk, fold};
ghost use Rattle.dcm_devices.specs.Device.{Puts, Tells};
ghost use Rattle.dcm_base.specs.Steps.Atoms.{Atom};
ghost use Rattle.dcm_base.specs.Steps.Steps.{outputs};
ghost use Rattle.dcm_stream.specs.Tokens.{atoms_of, whole_atoms, IsFilled, IsLeaf};

use dcm_base::{Syntax, WriteFailed};
use dcm_head::Head;
use dcm_stream::Token;

/// What writes lines of a data set, of which some may be left out, and texts before others.
pub trait LineSink {
    /// What the tokens so far leave it in, apart from what was written.
    ghost State: { Type 0 };

    ghost state: { Self → State };

    /// The state after an atom that is shown.
    ghost step: { State → Atom → State };

    /// The bytes that such an atom makes it write.
    ghost writes: { State → Atom → List ℕ };

    /// The state after an atom that is not shown.
    ghost over: { State → Atom → State };

    /// What its writer holds, where that is known.
    ghost contents: { Self → Option (List ℕ) };

    /// Whether its writer has failed.
    ghost has_failed: { Self → Bool };

    /// What no call changes, as the name of a writer that it was lent.
    ghost Kept: { Type 0 };

    ghost kept: { Self → Kept };

    /// Shows a token, as a sink takes it. An `Err` is a writer that failed in this call.
    fn show(&mut self, token: Token) -> Result<(), WriteFailed>
        requires { IsFilled token }
        ensures state { OnOk result (state self.new ≡ fold step (state self.old) (atoms_of token.entry)) }
        ensures bytes { Puts (contents self.old) (contents self.new)
            (outputs step writes (state self.old) (atoms_of token.entry)) result }
        ensures failed { Tells (has_failed self.old) (has_failed self.new) result }
        ensures kept { kept self.new ≡ kept self.old };

    /// Shows an element with its whole value, as by `show` for its head, its bytes and its end.
    fn show_whole(&mut self, head: Head, syntax: Syntax, value: &[u8]) -> Result<(), WriteFailed>
        requires { IsLeaf head syntax value.now }
        ensures state { OnOk result (state self.new
            ≡ fold step (state self.old) (whole_atoms head syntax value.now)) }
        ensures bytes { Puts (contents self.old) (contents self.new)
            (outputs step writes (state self.old) (whole_atoms head syntax value.now)) result }
        ensures failed { Tells (has_failed self.old) (has_failed self.new) result }
        ensures kept { kept self.new ≡ kept self.old };

    /// Passes over a token, which is not shown: only what decides how later values are read goes on.
    fn pass_over(&mut self, token: Token)
        ensures state { state self.new ≡ fold over (state self.old) (atoms_of token.entry) }
        ensures contents { contents self.new ≡ contents self.old }
        ensures failed { has_failed self.new ≡ has_failed self.old }
        ensures kept { kept self.new ≡ kept self.old };

    /// Passes over an element with its whole value, as by `pass_over` for its head, its bytes and its end.
    fn pass_over_whole(&mut self, head: Head, syntax: Syntax, value: &[u8])
        ensures state { state self.new ≡ fold over (state self.old) (whole_atoms head syntax value.now) }
        ensures contents { contents self.new ≡ contents self.old }
        ensures failed { has_failed self.new ≡ has_failed self.old }
        ensures kept { kept self.new ≡ kept self.old };

    /// Writes a text before a line. Fails where the writer fails, which has then taken a beginning of it.
    fn put_before(&mut self, text: &[u8]) -> Result<(), WriteFailed>
        ensures state { state self.new ≡ state self.old }
        ensures bytes { Puts (contents self.old) (contents self.new) text.now result }
        ensures failed { Tells (has_failed self.old) (has_failed self.new) result }
        ensures kept { kept self.new ≡ kept self.old };
}
