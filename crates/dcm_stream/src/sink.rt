// What takes tokens.
ghost use Rattle.std.specs.Prelude.{◌≡◌, ℕ, Bool, List, Option, OnOk, fold};
ghost use Rattle.dcm_devices.specs.Device.{Puts, Tells};
ghost use Rattle.dcm_base.specs.Steps.Atoms.{Atom};
ghost use Rattle.dcm_stream.specs.declared.token.Bar.{Bar};
ghost use Rattle.dcm_head.specs.declared.head.Head.{Head};
ghost use Rattle.dcm_base.specs.Steps.Steps.{outputs};
ghost use Rattle.dcm_stream.specs.Telling.{PutsWhole};
ghost use Rattle.dcm_stream.specs.Tokens.{atoms_of, whole_atoms, head_atoms, value_atoms, Bars, IsFilled, IsLeaf};

use super::{Bar, Token, WholeFailed};
use dcm_base::{Syntax, WriteFailed};
use dcm_head::Head;

/// Takes the tokens of a data set, one after another.
pub trait Sink {
    /// What the tokens so far leave it in, apart from what was written.
    ghost State: { Type 0 };

    ghost state: { Self → State };

    /// The state after an atom.
    ghost step: { State → Atom → State };

    /// The bytes that an atom makes it write.
    ghost writes: { State → Atom → List ℕ };

    /// Why it refuses a head, where it does.
    ghost bar: { State → Head → Option Bar };

    /// What its writer holds, where that is known.
    ghost contents: { Self → Option (List ℕ) };

    /// Whether its writer has failed.
    ghost has_failed: { Self → Bool };

    /// What no call changes, as the name of a writer that it was lent.
    ghost Kept: { Type 0 };

    ghost kept: { Self → Kept };

    /// Takes a token. No sink is given empty `Bytes`: a value without bytes is opened and closed. An `Err` is a
    /// writer that failed in this call.
    fn take(&mut self, token: Token) -> Result<(), WriteFailed>
        requires { IsFilled token }
        ensures state { OnOk result (state self.new ≡ fold step (state self.old) (atoms_of token.entry)) }
        ensures bytes { Puts (contents self.old) (contents self.new)
            (outputs step writes (state self.old) (atoms_of token.entry)) result }
        ensures failed { Tells (has_failed self.old) (has_failed self.new) result }
        ensures kept { kept self.new ≡ kept self.old };

    /// Takes an element with its whole value by its tokens, one after another: its head, its bytes where it has any,
    /// and its end. So a sink takes one for which it has no shorter way; none has a body of its own for it.
    #[inline(always)]
    fn take_by_tokens(
        &mut self,
        head: Head,
        syntax: Syntax,
        value: &[u8],
    ) -> Result<(), WriteFailed>
        ensures state { OnOk result (state self.new
            ≡ fold step (state self.old) (whole_atoms head syntax value.now)) }
        ensures bytes { Puts (contents self.old) (contents self.new)
            (outputs step writes (state self.old) (whole_atoms head syntax value.now)) result }
        ensures failed { Tells (has_failed self.old) (has_failed self.new) result }
        ensures kept { kept self.new ≡ kept self.old }
    {
        self.take(Token::Open(head, syntax))?;
        if !value.is_empty() {
            self.take(Token::Bytes(value))?;
        }
        self.take(Token::CloseLeaf)
    }

    /// Takes an element whose value is whole, as long as its head says, as `take_by_tokens` does. Most elements come
    /// so. A sink whose state stays the same over one, or that needs less to be held for it, has a shorter way in a
    /// body of its own.
    #[inline(always)]
    fn take_whole(&mut self, head: Head, syntax: Syntax, value: &[u8]) -> Result<(), WriteFailed>
        requires { IsLeaf head syntax value.now }
        ensures state { OnOk result (state self.new
            ≡ fold step (state self.old) (whole_atoms head syntax value.now)) }
        ensures bytes { Puts (contents self.old) (contents self.new)
            (outputs step writes (state self.old) (whole_atoms head syntax value.now)) result }
        ensures failed { Tells (has_failed self.old) (has_failed self.new) result }
        ensures kept { kept self.new ≡ kept self.old }
    {
        self.take_by_tokens(head, syntax, value)
    }

    /// Takes such an element as `take_whole` does, and says where the writer failed whether what its head makes was
    /// out. So a sink that passes it on is then where `take` would have left it.
    #[inline(always)]
    fn take_whole_telling(
        &mut self,
        head: Head,
        syntax: Syntax,
        value: &[u8],
    ) -> Result<(), WholeFailed>
        requires { IsLeaf head syntax value.now }
        ensures state { OnOk result (state self.new
            ≡ fold step (state self.old) (whole_atoms head syntax value.now)) }
        ensures bytes { PutsWhole step writes (state self.old) (contents self.old) (contents self.new)
            (head_atoms head syntax) (value_atoms value.now) result }
        ensures failed { Tells (has_failed self.old) (has_failed self.new) result }
        ensures kept { kept self.new ≡ kept self.old }
    {
        let Ok(()) = self.take(Token::Open(head, syntax)) else {
            return Err(WholeFailed::AtHead);
        };
        if !value.is_empty() {
            let Ok(()) = self.take(Token::Bytes(value)) else {
                return Err(WholeFailed::InValue);
            };
        }
        let Ok(()) = self.take(Token::CloseLeaf) else {
            return Err(WholeFailed::InValue);
        };
        Ok(())
    }

    /// Whether items, their ends and sequences are read for it by ways of their own, and not as other heads are. No
    /// output depends on it, only the time. A sink that does little for an item gains by it, one that writes a line
    /// for each does not. It is a constant for each sink, so that what reads for one has no code of the ways that it
    /// does not take.
    #[inline(always)]
    fn wants_items_apart(&self) -> bool {
        false
    }

    /// Whether it takes an element with this head.
    fn accepts(&self, head: &Head) -> Result<(), Bar>
        ensures { Bars (bar (state self.now) head.now) result };
}
