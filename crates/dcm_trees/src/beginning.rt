// The beginning of a run over a tree: what is there, before anything is made.
ghost use Rattle.std.specs.Prelude.{◌≡◌, ◌≢◌, ◌||◌, true, false, option_map};
ghost use Rattle.dcm_cli.specs.Calls as calls;
ghost use Rattle.dcm_trees.specs.Beginning as spec;
ghost use Rattle.dcm_trees.specs.Modes.{modes_as};

use crate::letters::{is_one_name, path_in_capitals};
use crate::lines::tell_text;
use crate::modes::{Modes, new_mode};
use crate::place::{OutputPath, path_in, was_there};
use arrayvec::ArrayVec;
use dcm_base::{DeviceOut, Watched};
use dcm_files::{EntryName, FileKind, Folders, Found, FoundKind, Links, System};
use dcm_tree_words::TreeOptions;
use dcm_walk::FolderNumber;
use std::str;

/// What is behind a path for the folder that it is in.
const PARENT: &[u8] = b"/..";

/// What ends a part of a name.
const SLASH: u8 = b'/';

/// The name that a folder has for itself.
pub(crate) const CURRENT: &[u8] = b".";

/// Why a run is not begun. Nothing was made then, unless it was the folder of the outputs.
#[derive(Clone, Copy, Debug, PartialEq, Eq)]
pub enum Refusal {
    /// The folder or the list that is read cannot be opened.
    Input,
    /// The folder of the outputs cannot be looked at or made, or is no folder.
    Output,
    /// It is the folder that is read.
    Same,
    /// It is within the folder that is read.
    OutputWithin,
    /// The folder that is read is within it.
    InputWithin,
    /// Another run has locked what it writes there.
    AtWork,
    /// Something is at the path at which an output is written, and is not known to be left over.
    PartThere,
    /// It has names in it.
    NotEmpty,
    /// It does not tell small letters from capital ones, and names may come from a folder that does.
    LettersAlike,
}

/// The folders that a folder is in.
#[derive(Clone, Copy, Debug, PartialEq, Eq)]
struct WayUp {
    /// The folder itself.
    first: FolderNumber,
    /// Whether another folder is among it and those that it is in.
    has_other: bool,
}

/// The number of what was found.
fn number_of(found: Found) -> FolderNumber
    ensures { result ≡ spec.number_of found }
{
    FolderNumber {
        device: found.device,
        number: found.number,
    }
}

/// What is at a path, links followed.
fn look<S: Folders>(path: &[u8], system: &mut S) -> Result<Option<Found>, Refusal>
    ensures { spec.Looks S.folders_do path.now system.old result system.new }
{
    let Ok(text) = str::from_utf8(path) else {
        return Err(Refusal::Output);
    };
    match system.find(text, Links::Followed) {
        Ok(found) => Ok(found),
        Err(_) => Err(Refusal::Output),
    }
}

/// The number of what is at a path, links followed.
fn number_at<S: Folders>(path: &[u8], system: &mut S) -> Result<FolderNumber, Refusal>
    ensures { spec.Numbers S.folders_do path.now system.old result system.new }
{
    match look(path, system) {
        Ok(Some(found)) => Ok(number_of(found)),
        Ok(None) => Err(Refusal::Output),
        Err(refusal) => Err(refusal),
    }
}

/// Whether two folders are one.
fn is_same(a: FolderNumber, b: FolderNumber) -> bool
    ensures { result ≡ spec.is_same a b }
{
    a.device == b.device && a.number == b.number
}

/// Whether another folder was among those so far, or is the last one.
fn or_same(had_other: bool, last: FolderNumber, other: FolderNumber) -> bool
    ensures { result ≡ (had_other || spec.is_same last other) }
{
    had_other || is_same(last, other)
}

/// A path that a way up begins at, where it is short enough.
fn begin_way(path: &[u8]) -> Option<OutputPath>
    ensures { option_map (λ way. way.items) result ≡ spec.short path.now }
{
    let mut way = ArrayVec::new();
    if way.try_extend_from_slice(path).is_ok() {
        Some(way)
    } else {
        None
    }
}

/// Makes a path that of the folder that it is in. Answers whether that is short enough.
fn go_up(way: &mut OutputPath) -> bool
    ensures value { result ≡ spec.is_short (spec.above way.old.items) }
    ensures items { result ≡ true → way.new.items ≡ spec.above way.old.items }
{
    way.try_extend_from_slice(PARENT).is_ok()
}

/// The numbers of a folder and of those that it is in, up to the one that is in itself: whether another is among them.
fn climb<S: Folders>(path: &[u8], other: FolderNumber, system: &mut S) -> Result<WayUp, Refusal>
    ensures { spec.Climbs S.folders_do path.now other system.old result system.new }
{
    let first = number_at(path, system)?;
    let Some(mut way) = begin_way(path) else {
        return Err(Refusal::Output);
    };
    let mut last = first;
    let mut has_other = is_same(first, other);
    while go_up(&mut way) {
        let above = number_at(way.as_slice(), system)?;
        if is_same(above, last) {
            return Ok(WayUp { first, has_other });
        }
        has_other = or_same(has_other, above, other);
        last = above;
    }
    Err(Refusal::Output)
}

/// Whether a byte is left out.
fn is_left_out(byte: u8, slashes: bool) -> bool
    ensures { result ≡ spec.is_left_out slashes byte }
{
    if slashes {
        byte == SLASH
    } else {
        byte != SLASH
    }
}

/// A path without the slashes at its end, or without what is behind its last slash.
fn without_end(path: &[u8], slashes: bool) -> &[u8]
    ensures { result.now ≡ spec.without_end slashes path.now }
{
    let mut end = path.len();
    while end > 0 {
        if !is_left_out(path[end - 1], slashes) {
            break;
        }
        end -= 1;
    }
    let (front, _) = path.split_at(end);
    front
}

/// The path of the folder that something at a path is in.
fn parent_of(path: &[u8]) -> &[u8]
    ensures { result.now ≡ spec.parent_of path.now }
{
    let parent = without_end(without_end(without_end(path, true), false), true);
    match (parent, path) {
        ([], [b'/', ..]) => b"/".as_slice(),
        ([], _) => b".".as_slice(),
        _ => parent,
    }
}

/// Whether it is a folder.
fn is_folder(found: Found) -> bool
    ensures yes { result ≡ true → found.kind ≡ FoundKind.Folder }
    ensures no { result ≡ false → found.kind ≢ FoundKind.Folder }
{
    matches!(found.kind, FoundKind::Folder)
}

/// Whether the folder of the outputs is there. Something else in its place is refused.
fn is_there<S: Folders>(output: &[u8], system: &mut S) -> Result<bool, Refusal>
    ensures { spec.IsThere S.folders_do output.now system.old result system.new }
{
    match look(output, system) {
        Ok(None) => Ok(false),
        Ok(Some(found)) if is_folder(found) => Ok(true),
        Ok(Some(_)) => Err(Refusal::Output),
        Err(refusal) => Err(refusal),
    }
}

/// Makes a folder of this mode, unless something is there.
fn make_folder<S: Folders>(path: &[u8], mode: u32, system: &mut S) -> Result<(), Refusal>
    ensures { spec.MakesFolder S.folders_do path.now mode system.old result system.new }
{
    let Ok(text) = str::from_utf8(path) else {
        return Err(Refusal::Output);
    };
    match system.make_folder(text, mode) {
        Ok(()) => Ok(()),
        Err(e) if was_there(&e) => Ok(()),
        Err(_) => Err(Refusal::Output),
    }
}

/// The number of a folder that is there.
fn folder_at<S: Folders>(path: &[u8], system: &mut S) -> Result<FolderNumber, Refusal>
    ensures { spec.NumbersFolder S.folders_do path.now system.old result system.new }
{
    match look(path, system) {
        Ok(Some(found)) if is_folder(found) => Ok(number_of(found)),
        Ok(Some(_)) => Err(Refusal::Output),
        Ok(None) => Err(Refusal::Output),
        Err(refusal) => Err(refusal),
    }
}

/// Makes the folder of the outputs, of its mode. One that was made meanwhile does.
fn make_output<S: Folders>(
    modes: Modes,
    output: &[u8],
    system: &mut S,
) -> Result<FolderNumber, Refusal>
    ensures { spec.MakesOutput S.folders_do (modes_as modes.entry) output.now system.old result system.new }
{
    let Ok(mode) = new_mode(modes, b"", system) else {
        return Err(Refusal::Output);
    };
    make_folder(output, mode, system)?;
    folder_at(output, system)
}

/// The folder that is read, but not where names of a list are.
fn folder_read(input: &[u8], is_list: bool) -> Option<&[u8]>
    ensures { option_map (λ path. path.now) result ≡ spec.folder_read input.now is_list }
{
    if is_list { None } else { Some(input) }
}

/// By which folder that of the outputs is made.
fn output_modes(input: &[u8], is_list: bool) -> Modes<'_>
    ensures { modes_as result ≡ spec.output_modes input.now is_list }
{
    Modes {
        folder: folder_read(input, is_list),
        by_name: false,
    }
}

/// Whether the folder of the outputs is within the folder that is read. Names of a list may lie around it.
fn is_within(is_list: bool, way: WayUp) -> bool
    ensures { result ≡ spec.is_within is_list way }
{
    !is_list && way.has_other
}

/// Why a folder that is there is not that of the outputs, by its way up and the folder that is read, if it is not.
fn clash(is_list: bool, read: FolderNumber, way: WayUp) -> Option<Refusal>
    ensures { result ≡ spec.clash is_list read way }
{
    if is_same(way.first, read) {
        return Some(Refusal::Same);
    }
    if is_within(is_list, way) {
        Some(Refusal::OutputWithin)
    } else {
        None
    }
}

/// Looks whether the folder of the outputs, which is there, and the folder that is read are one, or one is within the
/// other. Names of a list may lie around the folder of the outputs.
fn compare<S: Folders>(
    input: &[u8],
    is_list: bool,
    output: &[u8],
    system: &mut S,
) -> Result<FolderNumber, Refusal>
    ensures { spec.Compares S.folders_do input.now is_list output.now system.old result system.new }
{
    let read = number_at(input, system)?;
    let way = climb(output, read, system)?;
    if let Some(refusal) = clash(is_list, read, way) {
        return Err(refusal);
    }
    let back = climb(input, way.first, system)?;
    if back.has_other {
        return Err(Refusal::InputWithin);
    }
    Ok(way.first)
}

/// Makes the folder of the outputs where it is not within the folder that is read. It may be within it where that is
/// the current one and names of a list are read.
fn make_apart<S: Folders>(
    input: &[u8],
    is_list: bool,
    output: &[u8],
    system: &mut S,
) -> Result<FolderNumber, Refusal>
    ensures { spec.MakesApart S.folders_do input.now is_list output.now system.old result system.new }
{
    let read = number_at(input, system)?;
    let way = climb(parent_of(output), read, system)?;
    if is_within(is_list, way) {
        return Err(Refusal::OutputWithin);
    }
    make_output(output_modes(input, is_list), output, system)
}

/// The folder of the outputs, apart from the folder that is read.
fn have_output<S: Folders>(
    input: &[u8],
    is_list: bool,
    output: &[u8],
    system: &mut S,
) -> Result<FolderNumber, Refusal>
    ensures { spec.HasOutput S.folders_do input.now is_list output.now system.old result system.new }
{
    if is_there(output, system)? {
        compare(input, is_list, output, system)
    } else {
        make_apart(input, is_list, output, system)
    }
}

/// What a run reads beside its inputs. It is not removed, also where it is at the path of the part.
#[derive(Clone, Copy)]
pub struct Spared {
    /// What the key was read of, where there is one.
    pub key: Option<FileKind>,
    /// What the names are read of, where they are those of a list.
    pub list: Option<FileKind>,
}

/// Whether it is this file.
fn is_one(kind: Option<FileKind>, found: Found) -> bool
    ensures { result ≡ spec.is_one kind found }
{
    match kind {
        Some(FileKind::Regular { device, number, .. }) => {
            device == found.device && number == found.number
        }
        _ => false,
    }
}

/// Whether the run reads it beside its inputs.
fn is_spared(spared: Spared, found: Found) -> bool
    ensures { result ≡ spec.is_spared spared found }
{
    is_one(spared.key, found) || is_one(spared.list, found)
}

/// Whether it is a regular file.
fn is_file(kind: FoundKind) -> bool
    ensures { result ≡ spec.is_file kind }
{
    matches!(kind, FoundKind::File)
}

/// Whether what is at the path of the part may be left over.
fn may_be_left(spared: Spared, found: Found) -> bool
    ensures { result ≡ spec.may_be_left spared found }
{
    is_file(found.kind) && !is_spared(spared, found)
}

/// Removes a file that this run has locked.
fn remove_locked<S: System>(part: &str, system: &mut S) -> Result<bool, Refusal>
    ensures { spec.RemovesLocked S.may_do part.now system.old result system.new }
{
    match system.remove(part) {
        Ok(()) => Ok(true),
        Err(_) => Err(Refusal::PartThere),
    }
}

/// Removes a file that no run has locked: a run left it over.
fn remove_left<S: System>(part: &str, system: &mut S) -> Result<bool, Refusal>
    ensures { spec.RemovesLeft S.may_do part.now system.old result system.new }
{
    match system.seize(part) {
        Ok(true) => remove_locked(part, system),
        Ok(false) => Err(Refusal::AtWork),
        Err(_) => Err(Refusal::PartThere),
    }
}

/// Removes what is at the path of the part, where it may be left over and no run has locked it; else it is refused.
fn clear_found<S: System>(
    part: &str,
    spared: Spared,
    found: Found,
    system: &mut S,
) -> Result<bool, Refusal>
    ensures { spec.ClearsFound S.may_do part.now spared found system.old result system.new }
{
    if may_be_left(spared, found) {
        remove_left(part, system)
    } else {
        Err(Refusal::PartThere)
    }
}

/// Looks at the path of the part, and removes what a run left over there. Answers whether it did.
fn check_part<S: Folders>(part: &[u8], spared: Spared, system: &mut S) -> Result<bool, Refusal>
    ensures { spec.ChecksPart S.may_do S.folders_do part.now spared system.old result system.new }
{
    let Ok(text) = str::from_utf8(part) else {
        return Err(Refusal::Output);
    };
    match system.find(text, Links::Kept) {
        Ok(None) => Ok(false),
        Ok(Some(found)) => clear_found(text, spared, found, system),
        Err(_) => Err(Refusal::Output),
    }
}

/// Tells that the part of a run was left over, where it was.
fn tell_left<E: DeviceOut>(name: &[u8], was_left: bool, errors: &mut Watched<E>)
    ensures { calls.Reports E.DeviceOut errors.old errors.new (spec.left_line name.now was_left) }
{
    if was_left {
        tell_text(name, b"left over, and removed", errors);
    }
}

/// Looks at the path of the part, and removes what a run left over there, which is told by the name of the part.
fn clear_way<S: Folders, E: DeviceOut>(
    path: &[u8],
    name: &[u8],
    spared: Spared,
    system: &mut S,
    errors: &mut Watched<E>,
) -> Result<(), Refusal>
    ensures { spec.ClearsWay S.may_do S.folders_do E.DeviceOut path.now name.now spared errors.old system.old result
        errors.new system.new }
{
    let was_left = check_part(path, spared, system)?;
    tell_left(name, was_left, errors);
    Ok(())
}

/// Refuses a folder that has a name in it.
fn check_empty<S: Folders>(output: &[u8], system: &mut S) -> Result<(), Refusal>
    ensures { spec.ChecksEmpty S.folders_do output.now system.old result system.new }
{
    let Ok(text) = str::from_utf8(output) else {
        return Err(Refusal::Output);
    };
    let Ok(mut folder) = system.open_folder(text) else {
        return Err(Refusal::Output);
    };
    let mut name = EntryName::new();
    let given = system.next_name(&mut folder, &mut name);
    system.close_folder(folder);
    match given {
        Ok(false) => Ok(()),
        Ok(true) => Err(Refusal::NotEmpty),
        Err(_) => Err(Refusal::Output),
    }
}

/// Refuses a folder that has a name in it. It may be a link to one, as `open_tree` says.
fn check_new<S: Folders>(output: &[u8], system: &mut S) -> Result<(), Refusal>
    ensures { spec.ChecksNew S.folders_do output.now system.old result system.new }
{
    match path_in(output, CURRENT) {
        Some(followed) => check_empty(followed.as_slice(), system),
        None => check_empty(output, system),
    }
}

/// Whether names that are read may differ in small and capital letters alone: those of a list, and those of a folder that
/// is on another device than the folder of the outputs.
fn may_differ<S: Folders>(
    input: &[u8],
    is_list: bool,
    number: FolderNumber,
    system: &mut S,
) -> Result<bool, Refusal>
    ensures { spec.MayDiffer S.folders_do input.now is_list number system.old result system.new }
{
    if is_list {
        return Ok(true);
    }
    match number_at(input, system) {
        Ok(read) => Ok(read.device != number.device),
        Err(refusal) => Err(refusal),
    }
}

/// Refuses a folder that does not tell small letters from capital ones, by the part, which is made and removed.
fn try_letters<S: Folders>(
    output: &[u8],
    part: &[u8],
    path: &[u8],
    system: &mut S,
) -> Result<(), Refusal>
    ensures { spec.TriesLetters S.may_do S.folders_do output.now part.now path.now system.old result system.new }
{
    let Some(capitals) = path_in_capitals(output, part) else {
        return Err(Refusal::Output);
    };
    match is_one_name(path, capitals.as_slice(), system) {
        Ok(false) => Ok(()),
        Ok(true) => Err(Refusal::LettersAlike),
        Err(refusal) => Err(refusal),
    }
}

/// Refuses a folder in which names that are read would be one name.
fn check_letters<S: Folders>(
    input: &[u8],
    is_list: bool,
    output: &[u8],
    number: FolderNumber,
    part: &[u8],
    path: &[u8],
    system: &mut S,
) -> Result<(), Refusal>
    ensures { spec.ChecksLetters S.may_do S.folders_do input.now is_list output.now number part.now path.now system.old
        result system.new }
{
    match may_differ(input, is_list, number, system) {
        Ok(true) => try_letters(output, part, path, system),
        Ok(false) => Ok(()),
        Err(refusal) => Err(refusal),
    }
}

/// Refuses a folder that a run does not go on with, and that has a name in it; and one with which it goes on, where names
/// that it keeps would be one name there.
fn check_use<S: Folders>(
    input: &[u8],
    is_list: bool,
    output: &[u8],
    number: FolderNumber,
    part: &[u8],
    path: &[u8],
    options: TreeOptions,
    system: &mut S,
) -> Result<(), Refusal>
    ensures { spec.ChecksUse S.may_do S.folders_do input.now is_list output.now number part.now path.now options
        system.old result system.new }
{
    if !options.continues {
        return check_new(output, system);
    }
    if options.keeps_names {
        return check_letters(input, is_list, output, number, part, path, system);
    }
    Ok(())
}

/// What a run knows of the folder of its outputs.
#[derive(Drop)]
pub struct Begun {
    /// The folder.
    pub number: FolderNumber,
    /// The path at which an output is written.
    pub part: OutputPath,
}

/// The path of the part in the folder of the outputs.
fn part_in(output: &[u8], part: &[u8]) -> Result<OutputPath, Refusal>
    ensures { spec.IsPart output.now part.now result }
{
    match path_in(output, part) {
        Some(path) => Ok(path),
        None => Err(Refusal::Output),
    }
}

/// Looks at what is there before a run, and makes the folder of the outputs where it is not there. What a run left over
/// is removed, and that is told. The names of a list are read from the current folder.
pub fn begin<S: Folders, E: DeviceOut>(
    input: &[u8],
    is_list: bool,
    output: &[u8],
    part: &[u8],
    options: TreeOptions,
    spared: Spared,
    system: &mut S,
    errors: &mut Watched<E>,
) -> Result<Begun, Refusal>
    ensures { spec.Begins S.may_do S.folders_do E.DeviceOut input.now is_list output.now part.now options spared
        errors.old system.old result errors.new system.new }
{
    let number = have_output(input, is_list, output, system)?;
    let path = part_in(output, part)?;
    clear_way(path.as_slice(), part, spared, system, errors)?;
    check_use(
        input,
        is_list,
        output,
        number,
        part,
        path.as_slice(),
        options,
        system,
    )?;
    Ok(Begun { number, part: path })
}
