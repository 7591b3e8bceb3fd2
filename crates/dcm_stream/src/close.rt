// The ends of containers.
ghost use Rattle.std.specs.Prelude.{◌≡◌, [], ◌∷◌, OnOk};
ghost use Rattle.dcm_stream.specs.Sinks as sinks;
ghost use Rattle.dcm_stream.specs.Tokens.{IsFilled, atoms_of};
ghost use Rattle.dcm_stream.specs.Places.{full_innermost};
ghost use Rattle.dcm_stream.specs.Reading.{closes, full_closed};

use super::levels::OpenLevels;
use super::{Sink, Token};
use dcm_base::{Container, WriteFailed};

/// The token that ends a container.
pub fn closing_token(container: Container) -> Token<'static>
    ensures atoms { atoms_of result ≡ closes container ∷ [] }
    ensures filled { IsFilled result }
{
    match container {
        Container::Item => Token::CloseItem,
        Container::DataSet | Container::Sequence | Container::FragmentList => Token::CloseSeq,
    }
}

/// The innermost container, where it is full at this offset.
fn full_container(levels: &OpenLevels, position: u64) -> Option<Container>
    ensures { result ≡ full_innermost position levels.now }
{
    let inner = levels.innermost()?;
    if inner.end_offset == Some(position) {
        Some(inner.container)
    } else {
        None
    }
}

/// Closes the containers that are full at this offset, the innermost first. Fails where the sink's writer fails.
pub fn close_full<S: Sink>(
    levels: &mut OpenLevels,
    position: u64,
    sink: &mut S,
) -> Result<(), WriteFailed>
    ensures levels { OnOk result (levels.new ≡ (full_closed position levels.old).0) }
    ensures took { sinks.Took S.Sink sink.old sink.new (full_closed position levels.old).1 result }
{
    while let Some(container) = full_container(levels, position) {
        sink.take(closing_token(container))?;
        levels.pop();
    }
    Ok(())
}
