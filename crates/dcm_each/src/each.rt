// All names, one after another.
ghost use Rattle.std.specs.Prelude.{◌≤◌, ◌≡◌, IfOk, List, ℕ};
ghost use Rattle.dcm_cli.specs.Change.{change_of};
ghost use Rattle.dcm_cli.specs.Status as statuses;
ghost use Rattle.dcm_names.specs.Held.{Holds};
ghost use Rattle.dcm_table_words.specs.Plans.{name_as, names_as};
ghost use Rattle.dcm_each.specs.Each as spec;

use crate::work::{Ends, FileWork};
use dcm_base::{DeviceOut, Watched};
use dcm_cli::status::{DEVICE, DONE};
use dcm_files::{Opened, System, open_input};
use dcm_names::{ListReader, NextName, can_be_opened, put_unopened, put_unread};
use dcm_table_words::{Name, NameWords};

/// The path of standard input.
const STANDARD: &[u8] = b"-";

/// The path of a file that is called as standard input is.
const STANDARD_FILE: &[u8] = b"./-";

/// The path of a name in a list.
fn listed_path(name: &[u8]) -> &[u8]
    ensures { result.now ≡ spec.listed_path name.now }
{
    if name == STANDARD {
        STANDARD_FILE
    } else {
        name
    }
}

/// Opens what is at a path, where that may be opened.
fn open_at<S: System>(system: &mut S, is_openable: bool, path: &[u8]) -> Option<Opened<S::Input>>
    ensures { spec.OpensAt S.may_do is_openable path.now system.old result system.new }
{
    if !is_openable {
        return None;
    }
    match open_input(system, path) {
        Ok(opened) => Some(opened),
        Err(_) => None,
    }
}

/// Does the file of a name, which is at a path, and gives it back. Answers its status.
fn do_at<S: System, W: DeviceOut, E: DeviceOut, K: FileWork<S::Input, W>>(
    name: &[u8],
    path: &[u8],
    is_openable: bool,
    work: &mut K,
    system: &mut S,
    out: &mut Watched<W>,
    errors: &mut Watched<E>,
) -> Ends
    ensures does { spec.DoesAt S.may_do K.work name.now path.now is_openable
        (change_of E.DeviceOut errors.old errors.new) (work.old, out.old) (work.new, out.new) system.old result
        system.new }
    ensures within { IfOk result (λ status. status ≤ statuses.DEVICE) }
{
    let Some(opened) = open_at(system, is_openable, path) else {
        let _ = put_unopened(name, errors);
        work.pass(out);
        return Ok(DEVICE);
    };
    let mut input = Watched::new(opened.device);
    let ends = work.do_file(name, opened.kind, &mut input, out, errors);
    system.release(input.into_device());
    ends
}

/// Does the name that the reader of a list holds. Answers its status.
fn do_listed<S: System, W: DeviceOut, E: DeviceOut, K: FileWork<S::Input, W>>(
    names: &ListReader,
    work: &mut K,
    system: &mut S,
    out: &mut Watched<W>,
    errors: &mut Watched<E>,
) -> Ends
    ensures does { (name : List ℕ) → Holds names.now.line name → spec.DoesListed S.may_do K.work name
        (change_of E.DeviceOut errors.old errors.new) (work.old, out.old) (work.new, out.new) system.old result
        system.new }
    ensures within { IfOk result (λ status. status ≤ statuses.DEVICE) }
{
    let name = names.name();
    let path = listed_path(name);
    do_at(name, path, names.is_openable(), work, system, out, errors)
}

/// Does the names of a list that is open. Answers the greatest status.
fn do_names<S: System, W: DeviceOut, E: DeviceOut, K: FileWork<S::Input, W>>(
    list: &[u8],
    input: &mut Watched<S::Input>,
    work: &mut K,
    system: &mut S,
    out: &mut Watched<W>,
    errors: &mut Watched<E>,
) -> Ends
    ensures does { spec.DoesNames S.Input.DeviceIn (spec.DoesListed S.may_do K.work) list.now
        (change_of E.DeviceOut errors.old errors.new) (work.old, out.old) (work.new, out.new) input.old input.new
        system.old result system.new }
    ensures within { IfOk result (λ status. status ≤ statuses.DEVICE) }
{
    let mut names = ListReader::new();
    let mut status = DONE;
    loop {
        match names.next(input) {
            NextName::Name => {
                let ended = do_listed(&names, work, system, out, errors)?;
                status = status.max(ended);
            }
            NextName::End => return Ok(status),
            NextName::Unread(read) => {
                let _ = put_unread(list, read, errors);
                return Ok(DEVICE);
            }
        }
    }
}

/// Does the names of a list. Answers the greatest status.
fn do_list<S: System, W: DeviceOut, E: DeviceOut, K: FileWork<S::Input, W>>(
    list: &[u8],
    work: &mut K,
    system: &mut S,
    out: &mut Watched<W>,
    errors: &mut Watched<E>,
) -> Ends
    ensures does { spec.DoesList S.may_do S.Input.DeviceIn (spec.DoesListed S.may_do K.work) list.now
        (change_of E.DeviceOut errors.old errors.new) (work.old, out.old) (work.new, out.new) system.old result
        system.new }
    ensures within { IfOk result (λ status. status ≤ statuses.DEVICE) }
{
    let Some(opened) = open_at(system, can_be_opened(list), list) else {
        let _ = put_unopened(list, errors);
        return Ok(DEVICE);
    };
    let mut input = Watched::new(opened.device);
    let ends = do_names(list, &mut input, work, system, out, errors);
    system.release(input.into_device());
    ends
}

/// Does one name among the words. Answers its status.
fn do_name<S: System, W: DeviceOut, E: DeviceOut, K: FileWork<S::Input, W>>(
    name: Name,
    work: &mut K,
    system: &mut S,
    out: &mut Watched<W>,
    errors: &mut Watched<E>,
) -> Ends
    ensures does { spec.DoesName S.may_do S.Input.DeviceIn K.work (name_as name.entry)
        (change_of E.DeviceOut errors.old errors.new) (work.old, out.old) (work.new, out.new) system.old result
        system.new }
    ensures within { IfOk result (λ status. status ≤ statuses.DEVICE) }
{
    match name {
        Name::File(path) => {
            let is_openable = can_be_opened(path);
            do_at(path, path, is_openable, work, system, out, errors)
        }
        Name::List(path) => do_list(path, work, system, out, errors),
    }
}

/// Does the files of all names, and answers the greatest status. Where the output fails, no more files are opened.
pub fn do_all<S: System, W: DeviceOut, E: DeviceOut, K: FileWork<S::Input, W>>(
    names: NameWords,
    work: &mut K,
    system: &mut S,
    out: &mut Watched<W>,
    errors: &mut Watched<E>,
) -> Ends
    ensures does { spec.DoesAll (spec.DoesName S.may_do S.Input.DeviceIn K.work) (names_as names.entry)
        (change_of E.DeviceOut errors.old errors.new) (work.old, out.old) (work.new, out.new) system.old result
        system.new }
    ensures within { IfOk result (λ status. status ≤ statuses.DEVICE) }
{
    let mut status = DONE;
    let mut place = 0;
    while let Some((name, next)) = names.after(place) {
        let ended = do_name(name, work, system, out, errors)?;
        status = status.max(ended);
        place = next;
    }
    Ok(status)
}
