// Whether the folder of the outputs tells small letters from capital ones.
ghost use Rattle.std.specs.Prelude.{◌≡◌, option_map};
ghost use Rattle.dcm_trees.specs.Letters as spec;

use crate::beginning::Refusal;
use crate::part::{NoPart, make_part};
use crate::place::{OutputPath, Unseen, look};
use arrayvec::ArrayVec;
use dcm_files::{Folders, Found, System};
use dcm_walk::PART;
use std::str;

/// What ends a part of a path.
const SLASH: u8 = b'/';

/// What the name of a part begins with, in capital letters.
const PART_IN_CAPITALS: &[u8] = b".PART.";

/// The bits of the mode of a part that is made to be looked at: its owner alone may read and write it.
const OWN_MODE: u32 = 0o600;

/// What is behind the letters of the name of a part.
fn number_in(part: &[u8]) -> &[u8]
    ensures { result.now ≡ spec.number_in part.now }
{
    let (_, number) = part.split_at(PART.len().min(part.len()));
    number
}

/// The path of a part by its name in capital letters, where it is short enough.
pub(crate) fn path_in_capitals(output: &[u8], part: &[u8]) -> Option<OutputPath>
    ensures { option_map (λ path. path.items) result ≡ spec.path_in_capitals output.now part.now }
{
    let mut path = ArrayVec::new();
    let fits = path.try_extend_from_slice(output).is_ok()
        && path.try_push(SLASH).is_ok()
        && path.try_extend_from_slice(PART_IN_CAPITALS).is_ok()
        && path.try_extend_from_slice(number_in(part)).is_ok();
    if fits { Some(path) } else { None }
}

/// Why a run is not begun whose part cannot be made.
fn refusal_of(cause: NoPart) -> Refusal
    ensures { result ≡ spec.refusal_of cause }
{
    match cause {
        NoPart::There => Refusal::AtWork,
        NoPart::Memory | NoPart::NotMade => Refusal::Output,
    }
}

/// Makes the part, and closes it.
fn make_closed<S: Folders>(part: &[u8], system: &mut S) -> Result<(), Refusal>
    ensures { spec.MakesClosed S.may_do S.folders_do part.now system.old result system.new }
{
    match make_part(part, OWN_MODE, system) {
        Ok(output) => {
            let _ = system.close(output);
            Ok(())
        }
        Err(cause) => Err(refusal_of(cause)),
    }
}

/// Removes a file that is held.
fn remove_held<S: System>(part: &str, system: &mut S) -> Result<(), Refusal>
    ensures { spec.RemovesHeld S.may_do part.now system.old result system.new }
{
    match system.remove(part) {
        Ok(()) => Ok(()),
        Err(_) => Err(Refusal::Output),
    }
}

/// Removes the part that was made. Where another file is at its path, another run is at work.
fn remove_own<S: System>(part: &str, system: &mut S) -> Result<(), Refusal>
    ensures { spec.RemovesOwn S.may_do part.now system.old result system.new }
{
    if system.holds(part) {
        remove_held(part, system)
    } else {
        Err(Refusal::AtWork)
    }
}

/// Removes the part that was made, by its path.
fn remove_made<S: System>(part: &[u8], system: &mut S) -> Result<(), Refusal>
    ensures { spec.RemovesMade S.may_do part.now system.old result system.new }
{
    let Ok(text) = str::from_utf8(part) else {
        return Err(Refusal::Output);
    };
    remove_own(text, system)
}

/// Whether one file is at two paths.
fn are_one(one: Result<Option<Found>, Unseen>, other: Result<Option<Found>, Unseen>) -> bool
    ensures { result ≡ spec.are_one one other }
{
    match (one, other) {
        (Ok(Some(one)), Ok(Some(other))) => {
            one.device == other.device && one.number == other.number
        }
        _ => false,
    }
}

/// Whether a file that is made at a path is at a path in capital letters too. None is left.
pub(crate) fn is_one_name<S: Folders>(
    part: &[u8],
    capitals: &[u8],
    system: &mut S,
) -> Result<bool, Refusal>
    ensures { spec.IsOneName S.may_do S.folders_do part.now capitals.now system.old result system.new }
{
    make_closed(part, system)?;
    let own = look(part, system);
    let other = look(capitals, system);
    remove_made(part, system)?;
    Ok(are_one(own, other))
}
