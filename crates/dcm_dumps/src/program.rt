// Words that ask for dumps of several files, and the exit status.
ghost use Rattle.std.specs.Prelude.{◌≡◌, ◌≤◌, map};
ghost use Rattle.dcm_cli.specs.Calls as calls;
ghost use Rattle.dcm_cli.specs.Change.{change_of};
ghost use Rattle.dcm_cli.specs.Status as statuses;
ghost use Rattle.dcm_dumps.specs.DumpsProgram as spec;
ghost use Rattle.dcm_dumps.specs.Plans.{dumps_as};

use crate::dumps::show_dumps;
use crate::plan::{DumpsPlan, DumpsUsage, dumps_plan};
use dcm_base::{DeviceOut, Watched};
use dcm_cli::status::{DEVICE, USAGE};
use dcm_cli::{tell, tell_output, tell_unopened};
use dcm_files::{FileKind, System, Unopened, unopened};
use dcm_table_words::{TableUsage, put_usage};

/// Reports why words are refused, and answers the status.
fn tell_usage<E: DeviceOut>(usage: DumpsUsage, errors: &mut Watched<E>) -> u8
    ensures line { calls.Reports E.DeviceOut errors.old errors.new (spec.usage_line usage) }
    ensures status { result ≡ spec.usage_status usage }
    ensures within { result ≤ statuses.MEMORY }
{
    match usage {
        DumpsUsage::Words(usage) => tell(&usage, errors),
        DumpsUsage::StandardTwice => {
            let _ = put_usage(TableUsage::StandardTwice, errors);
            USAGE
        }
    }
}

/// Writes dumps to an output that is open, and answers the status.
fn put_dumps<S: System, W: DeviceOut, E: DeviceOut>(
    plan: DumpsPlan,
    output: FileKind,
    system: &mut S,
    out: &mut Watched<W>,
    errors: &mut Watched<E>,
) -> u8
    ensures puts { spec.PutsDumps (spec.ShowsMeant S.may_do S.Input.DeviceIn W.DeviceOut (dumps_as plan.entry) output)
        (change_of E.DeviceOut errors.old errors.new) out.old out.new system.old result system.new }
    ensures within { result ≤ statuses.DEVICE }
{
    match show_dumps(plan, output, system, out, errors) {
        Ok(reached) => reached,
        Err(_) => {
            tell_output(errors);
            DEVICE
        }
    }
}

/// Writes the dumps of a plan to standard output, and answers the status.
fn make_dumps<S: System, E: DeviceOut>(
    plan: DumpsPlan,
    system: &mut S,
    errors: &mut Watched<E>,
) -> u8
    ensures makes { spec.MakesDumps S.may_do S.Input.DeviceIn S.Output.DeviceOut (dumps_as plan.entry)
        (change_of E.DeviceOut errors.old errors.new) system.old result system.new }
    ensures within { result ≤ statuses.MEMORY }
{
    let output = match system.stdout() {
        Ok(output) => output,
        Err(e) => return tell_unopened(unopened(&e, Unopened::Output), errors),
    };
    let mut out = Watched::new(output.device);
    let status = put_dumps(plan, output.kind, system, &mut out, errors);
    let _ = system.close(out.into_device());
    status
}

/// Shows the files that words ask for, or reports why they are refused. It answers the status.
pub fn obey_dumps<S: System, E: DeviceOut>(
    system: &mut S,
    words: &[&[u8]],
    errors: &mut Watched<E>,
) -> u8
    ensures obeys { spec.ObeysDumps S.may_do S.Input.DeviceIn S.Output.DeviceOut (map (λ w. w.now) words.now)
        (change_of E.DeviceOut errors.old errors.new) system.old result system.new }
    ensures within { result ≤ statuses.MEMORY }
{
    match dumps_plan(words) {
        Ok(plan) => make_dumps(plan, system, errors),
        Err(usage) => tell_usage(usage, errors),
    }
}
