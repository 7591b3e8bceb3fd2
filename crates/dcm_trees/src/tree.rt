// A run over a tree: a folder, or a list.
ghost use Rattle.std.specs.Prelude.{◌≡◌, ◌≤◌, length, true};
ghost use Rattle.dcm_cli.specs.Status as statuses;
ghost use Rattle.dcm_trees.specs.Tree as spec;
ghost use Rattle.dcm_tree_words.specs.Plans.{source_as};
ghost use Rattle.dcm_trees.specs.World.{world};

use crate::beginning::{Begun, CURRENT, Refusal, Spared, begin};
use crate::place::path_in;
use crate::progress::Work;
use crate::run::{
    TreeRun, end_run, end_unwritten, part_name, put_first_row, shared_of, tell_refusal,
};
use dcm_base::{DeviceOut, Watched};
use dcm_cli::status::DEVICE;
use dcm_files::{FileKind, Folders, open_input};
use dcm_names::put_unopened;
use dcm_tree_words::Source;
use dcm_walk::{ListEnd, MOST_OF_PATH, Stopped, walk_folder, walk_list};
use std::str;

/// The word for standard input.
const STANDARD: &[u8] = b"-";

/// Opens a folder.
fn open_at<S: Folders>(path: &[u8], system: &mut S) -> Option<S::Folder>
    ensures { spec.OpensFolder S.folders_do path.now system.old result system.new }
{
    let Ok(text) = str::from_utf8(path) else {
        return None;
    };
    match system.open_folder(text) {
        Ok(folder) => Some(folder),
        Err(_) => None,
    }
}

/// Opens the folder whose files are done. It may be a link to one: the system opens none by the name of a link, and so
/// the name that the folder has for itself stands behind it, where there is room.
fn open_tree<S: Folders>(path: &[u8], system: &mut S) -> Option<S::Folder>
    ensures { spec.OpensTree S.folders_do path.now system.old result system.new }
{
    match path_in(path, CURRENT) {
        Some(followed) => open_at(followed.as_slice(), system),
        None => open_at(path, system),
    }
}

/// How the walk of a folder ended, as that of a list.
fn as_list(walked: Result<(), Stopped>) -> Result<ListEnd, Stopped>
    ensures { result ≡ spec.as_list walked }
{
    match walked {
        Ok(()) => Ok(ListEnd::Whole),
        Err(stopped) => Err(stopped),
    }
}

/// Visits the names in a folder that is open, and gives it back. The manifest has its first row.
fn visit_all<S: Folders, W: DeviceOut, E: DeviceOut>(
    run: TreeRun,
    path: &[u8],
    begun: Begun,
    folder: S::Folder,
    manifest: Watched<W>,
    system: &mut S,
    errors: &mut Watched<E>,
) -> (u8, Watched<W>)
    requires { length path.now ≤ 4095 }
    ensures visits { spec.VisitsAll
        (world S.may_do S.folders_do S.Input.DeviceIn S.Output.DeviceOut E.DeviceOut) W.DeviceOut run.entry path.now
        begun folder manifest errors.old system.old result.0 result.1 errors.new system.new }
    ensures within { result.0 ≤ statuses.MEMORY }
{
    let mut work = Work::new(shared_of(run, begun.part.as_slice()), manifest);
    let walked = walk_folder(path, begun.number, folder, system, errors, &mut work);
    let part = part_name(run.options.part.number);
    end_run(work, as_list(walked), b"", part.as_slice(), errors)
}

/// Writes the first row of the manifest, and visits the names in a folder that is open; gives that back.
fn visit_folder<S: Folders, W: DeviceOut, E: DeviceOut>(
    run: TreeRun,
    path: &[u8],
    begun: Begun,
    folder: S::Folder,
    manifest: Watched<W>,
    system: &mut S,
    errors: &mut Watched<E>,
) -> (u8, Watched<W>)
    requires { length path.now ≤ 4095 }
    ensures visits { spec.VisitsFolder
        (world S.may_do S.folders_do S.Input.DeviceIn S.Output.DeviceOut E.DeviceOut) W.DeviceOut run.entry path.now
        begun folder manifest errors.old system.old result.0 result.1 errors.new system.new }
    ensures within { result.0 ≤ statuses.MEMORY }
{
    let mut manifest = manifest;
    match put_first_row(run.options.has_header, &mut manifest) {
        Ok(()) => visit_all(run, path, begun, folder, manifest, system, errors),
        Err(_) => {
            system.close_folder(folder);
            (end_unwritten(run.options.counts, errors), manifest)
        }
    }
}

/// Visits the names in a list that is open. The manifest has its first row.
fn visit_listed<S: Folders, W: DeviceOut, E: DeviceOut>(
    run: TreeRun,
    list: &[u8],
    begun: Begun,
    input: &mut Watched<S::Input>,
    manifest: Watched<W>,
    system: &mut S,
    errors: &mut Watched<E>,
) -> (u8, Watched<W>)
    ensures visits { spec.VisitsListed
        (world S.may_do S.folders_do S.Input.DeviceIn S.Output.DeviceOut E.DeviceOut) W.DeviceOut run.entry list.now
        begun input.old manifest errors.old system.old result.0 result.1 errors.new system.new input.new }
    ensures within { result.0 ≤ statuses.MEMORY }
{
    let mut work = Work::new(shared_of(run, begun.part.as_slice()), manifest);
    let walked = walk_list(begun.number, input, system, errors, &mut work);
    let part = part_name(run.options.part.number);
    end_run(work, walked, list, part.as_slice(), errors)
}

/// Writes the first row of the manifest, and visits the names in a list that is open.
fn visit_list<S: Folders, W: DeviceOut, E: DeviceOut>(
    run: TreeRun,
    list: &[u8],
    begun: Begun,
    input: &mut Watched<S::Input>,
    manifest: Watched<W>,
    system: &mut S,
    errors: &mut Watched<E>,
) -> (u8, Watched<W>)
    ensures visits { spec.VisitsList
        (world S.may_do S.folders_do S.Input.DeviceIn S.Output.DeviceOut E.DeviceOut) W.DeviceOut run.entry list.now
        begun input.old manifest errors.old system.old result.0 result.1 errors.new system.new input.new }
    ensures within { result.0 ≤ statuses.MEMORY }
{
    let mut manifest = manifest;
    match put_first_row(run.options.has_header, &mut manifest) {
        Ok(()) => visit_listed(run, list, begun, input, manifest, system, errors),
        Err(_) => (end_unwritten(run.options.counts, errors), manifest),
    }
}

/// Tells why a run is not begun, and answers its status, and its manifest.
fn refuse<W: DeviceOut, E: DeviceOut>(
    run: TreeRun,
    refusal: Refusal,
    manifest: Watched<W>,
    errors: &mut Watched<E>,
) -> (u8, Watched<W>)
    ensures refuses { spec.Refuses E.DeviceOut run.entry refusal errors.old result.0 errors.new }
    ensures manifest { result.1 ≡ manifest }
    ensures within { result.0 ≤ statuses.MEMORY }
{
    let part = part_name(run.options.part.number);
    (tell_refusal(refusal, part.as_slice(), errors), manifest)
}

/// What a run over a folder reads beside its inputs.
fn spared_of(run: TreeRun) -> Spared
    ensures { result ≡ spec.spared_of run.entry }
{
    Spared {
        key: run.key,
        list: None,
    }
}

/// What a list is, where it is no standard input.
fn kind_of_list(list: &[u8], kind: FileKind) -> Option<FileKind>
    ensures { result ≡ spec.kind_of_list list.now kind }
{
    if list == STANDARD { None } else { Some(kind) }
}

/// What a run over the names of a list reads beside its inputs.
fn spared_with(run: TreeRun, list: &[u8], kind: FileKind) -> Spared
    ensures { result ≡ spec.spared_with run.entry list.now kind }
{
    Spared {
        key: run.key,
        list: kind_of_list(list, kind),
    }
}

/// Does the files of a folder that is open.
fn do_opened<S: Folders, W: DeviceOut, E: DeviceOut>(
    run: TreeRun,
    path: &[u8],
    folder: S::Folder,
    manifest: Watched<W>,
    system: &mut S,
    errors: &mut Watched<E>,
) -> (u8, Watched<W>)
    requires { length path.now ≤ 4095 }
    ensures does { spec.DoesOpened
        (world S.may_do S.folders_do S.Input.DeviceIn S.Output.DeviceOut E.DeviceOut) W.DeviceOut run.entry path.now
        folder manifest errors.old system.old result.0 result.1 errors.new system.new }
    ensures within { result.0 ≤ statuses.MEMORY }
{
    let part = part_name(run.options.part.number);
    match begin(
        path,
        false,
        run.output,
        part.as_slice(),
        run.options,
        spared_of(run),
        system,
        errors,
    ) {
        Ok(begun) => visit_folder(run, path, begun, folder, manifest, system, errors),
        Err(refusal) => {
            system.close_folder(folder);
            refuse(run, refusal, manifest, errors)
        }
    }
}

/// Does the files of a folder.
fn do_folder<S: Folders, W: DeviceOut, E: DeviceOut>(
    run: TreeRun,
    path: &[u8],
    manifest: Watched<W>,
    system: &mut S,
    errors: &mut Watched<E>,
) -> (u8, Watched<W>)
    ensures does { spec.DoesFolder
        (world S.may_do S.folders_do S.Input.DeviceIn S.Output.DeviceOut E.DeviceOut) W.DeviceOut run.entry path.now
        manifest errors.old system.old result.0 result.1 errors.new system.new }
    ensures within { result.0 ≤ statuses.MEMORY }
{
    if path.len() > MOST_OF_PATH {
        return refuse(run, Refusal::Input, manifest, errors);
    }
    match open_tree(path, system) {
        Some(folder) => do_opened(run, path, folder, manifest, system, errors),
        None => refuse(run, Refusal::Input, manifest, errors),
    }
}

/// Does the names of a list that is open.
fn do_names<S: Folders, W: DeviceOut, E: DeviceOut>(
    run: TreeRun,
    list: &[u8],
    kind: FileKind,
    input: &mut Watched<S::Input>,
    manifest: Watched<W>,
    system: &mut S,
    errors: &mut Watched<E>,
) -> (u8, Watched<W>)
    ensures does { spec.DoesNames
        (world S.may_do S.folders_do S.Input.DeviceIn S.Output.DeviceOut E.DeviceOut) W.DeviceOut run.entry list.now
        kind input.old manifest errors.old system.old result.0 result.1 errors.new system.new input.new }
    ensures within { result.0 ≤ statuses.MEMORY }
{
    let part = part_name(run.options.part.number);
    match begin(
        CURRENT,
        true,
        run.output,
        part.as_slice(),
        run.options,
        spared_with(run, list, kind),
        system,
        errors,
    ) {
        Ok(begun) => visit_list(run, list, begun, input, manifest, system, errors),
        Err(refusal) => refuse(run, refusal, manifest, errors),
    }
}

/// Does the names of a list.
fn do_list<S: Folders, W: DeviceOut, E: DeviceOut>(
    run: TreeRun,
    list: &[u8],
    manifest: Watched<W>,
    system: &mut S,
    errors: &mut Watched<E>,
) -> (u8, Watched<W>)
    ensures does { spec.DoesList
        (world S.may_do S.folders_do S.Input.DeviceIn S.Output.DeviceOut E.DeviceOut) W.DeviceOut run.entry list.now
        manifest errors.old system.old result.0 result.1 errors.new system.new }
    ensures within { result.0 ≤ statuses.MEMORY }
{
    match open_input(system, list) {
        Ok(opened) => {
            let mut input = Watched::new(opened.device);
            let done = do_names(run, list, opened.kind, &mut input, manifest, system, errors);
            system.release(input.into_device());
            done
        }
        Err(_) => {
            let _ = put_unopened(list, errors);
            (DEVICE, manifest)
        }
    }
}

/// Does the files of a tree, and answers the status, and the manifest.
pub fn do_tree<S: Folders, W: DeviceOut, E: DeviceOut>(
    run: TreeRun,
    source: Source,
    manifest: Watched<W>,
    system: &mut S,
    errors: &mut Watched<E>,
) -> (u8, Watched<W>)
    ensures does { spec.DoesTree
        (world S.may_do S.folders_do S.Input.DeviceIn S.Output.DeviceOut E.DeviceOut) W.DeviceOut run.entry
        (source_as source.entry) manifest errors.old system.old result.0 result.1 errors.new system.new }
    ensures within { result.0 ≤ statuses.MEMORY }
{
    match source {
        Source::Folder(path) => do_folder(run, path, manifest, system, errors),
        Source::List(list) => do_list(run, list, manifest, system, errors),
    }
}
