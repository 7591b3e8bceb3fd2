// Rows of tokens.
ghost use Rattle.std.specs.Prelude.{All, flat_map};
ghost use Rattle.dcm_stream.specs.Sinks as sinks;
ghost use Rattle.dcm_stream.specs.Tokens.{IsFilled, atoms_of};

use super::{Sink, Token};
use dcm_base::WriteFailed;

/// Gives a sink tokens, one after another, up to the first at which its writer fails. Then the call fails too.
pub fn take_all<S: Sink>(tokens: &[Token<'_>], sink: &mut S) -> Result<(), WriteFailed>
    requires { All IsFilled tokens.now }
    ensures { sinks.Took S.Sink sink.old sink.new (flat_map atoms_of tokens.now) result }
{
    for token in tokens {
        sink.take(*token)?;
    }
    Ok(())
}
