// Words that ask for a run over a tree, and the exit status.
ghost use Rattle.std.specs.Prelude.{◌≡◌, ◌≤◌, map, Some};
ghost use Rattle.dcm_cli.specs.Status as statuses;
ghost use Rattle.dcm_tree_words.specs.Plans.{tree_as};
ghost use Rattle.dcm_tree_words.specs.Trees as words_spec;
ghost use Rattle.dcm_trees.specs.Program as spec;
ghost use Rattle.dcm_trees.specs.Task.{task_of};
ghost use Rattle.dcm_trees.specs.World.{world};

use crate::modes::modes_of;
use crate::run::TreeRun;
use crate::task::Task;
use crate::tree::do_tree;
use dcm_base::{DeviceOut, Watched};
use dcm_cli::key::take_key;
use dcm_cli::{Deidentify, Job, Usage, tell, tell_no_key, tell_unopened};
use dcm_files::{FileKind, Folders, System, Unopened, unopened};
use dcm_tree_words::{TreePlan, tree_plan, words_of_one};
use std::alloc::Global;

/// Does the run over a tree that words mean, each file by this task, with its manifest on standard output.
fn run_task<S: Folders, E: DeviceOut>(
    plan: &TreePlan,
    task: Task,
    key: Option<FileKind>,
    system: &mut S,
    errors: &mut Watched<E>,
) -> u8
    ensures runs { spec.RunsTask (world S.may_do S.folders_do S.Input.DeviceIn S.Output.DeviceOut E.DeviceOut)
        (tree_as plan.now) (task_of task.entry) key errors.old system.old result errors.new system.new }
    ensures within { result ≤ statuses.MEMORY }
{
    let output = match system.stdout() {
        Ok(output) => output,
        Err(e) => return tell_unopened(unopened(&e, Unopened::Output), errors),
    };
    let run = TreeRun {
        task,
        key,
        output: plan.planned.output,
        options: plan.options,
        modes: modes_of(plan.source, plan.options.keeps_names),
    };
    let manifest = Watched::new(output.device);
    let (status, manifest) = do_tree(run, plan.source, manifest, system, errors);
    let _ = system.close(manifest.into_device());
    status
}

/// Does the run over a tree that words mean with a key that was read.
fn run_keyed<S: Folders, E: DeviceOut>(
    plan: &TreePlan,
    what: Deidentify,
    key: FileKind,
    system: &mut S,
    errors: &mut Watched<E>,
) -> u8
    ensures runs { spec.RunsTask (world S.may_do S.folders_do S.Input.DeviceIn S.Output.DeviceOut E.DeviceOut)
        (tree_as plan.now) (spec.keyed_task plan.now.planned.days_by_key what.options what.reports what.key.items)
        (Some key) errors.old system.old result errors.new system.new }
    ensures within { result ≤ statuses.MEMORY }
{
    if plan.planned.days_by_key {
        return run_task(plan, Task::ByDays(&what), Some(key), system, errors);
    }
    let job = Job::Deidentify(what);
    run_task(plan, Task::Same(&job), Some(key), system, errors)
}

/// Reads the key of a run over a tree, where there is one, and does the run.
fn run_deidentify<S: Folders, E: DeviceOut>(
    plan: &TreePlan,
    what: &Deidentify,
    system: &mut S,
    errors: &mut Watched<E>,
) -> u8
    ensures runs { spec.Deidentifies (world S.may_do S.folders_do S.Input.DeviceIn S.Output.DeviceOut E.DeviceOut)
        (tree_as plan.now) what.now.options what.now.reports errors.old system.old result errors.new system.new }
    ensures within { result ≤ statuses.MEMORY }
{
    let Some(path) = plan.planned.key else {
        return run_task(plan, Task::Same(&plan.planned.job), None, system, errors);
    };
    match take_key(system, path) {
        Ok(read) => {
            let keyed = Deidentify {
                options: what.options,
                reports: what.reports,
                key: read.bytes,
            };
            run_keyed(plan, keyed, read.kind, system, errors)
        }
        Err(cause) => tell_no_key(cause, errors),
    }
}

/// Does the run over a tree that words mean.
fn run_plan<S: Folders, E: DeviceOut>(
    plan: &TreePlan,
    system: &mut S,
    errors: &mut Watched<E>,
) -> u8
    ensures runs { spec.RunsAs (world S.may_do S.folders_do S.Input.DeviceIn S.Output.DeviceOut E.DeviceOut)
        (tree_as plan.now) (tree_as plan.now).plan.job errors.old system.old result errors.new system.new }
    ensures within { result ≤ statuses.MEMORY }
{
    match &plan.planned.job {
        Job::Deidentify(what) => run_deidentify(plan, what, system, errors),
        _ => run_task(plan, Task::Same(&plan.planned.job), None, system, errors),
    }
}

/// Does the run over a tree that words ask for, or reports why they are refused. Those that mean the job of one file
/// are given too.
fn obey_one<S: Folders, E: DeviceOut>(
    system: &mut S,
    alloc: Global,
    words: &[&[u8]],
    one: &[&[u8]],
    errors: &mut Watched<E>,
) -> u8
    requires { map (λ w. w.now) one.now ≡ words_spec.words_of_one (map (λ w. w.now) words.now) }
    ensures obeys { spec.ObeysTree (world S.may_do S.folders_do S.Input.DeviceIn S.Output.DeviceOut E.DeviceOut)
        (map (λ w. w.now) words.now) errors.old system.old result errors.new system.new }
    ensures within { result ≤ statuses.MEMORY }
{
    match tree_plan(alloc, words, one) {
        Ok(plan) => run_plan(&plan, system, errors),
        Err(usage) => tell(&usage, errors),
    }
}

/// Does the run over a tree that words ask for, or reports why they are refused. It answers the status.
pub fn obey_tree<S: Folders, E: DeviceOut>(
    system: &mut S,
    alloc: Global,
    words: &[&[u8]],
    errors: &mut Watched<E>,
) -> u8
    ensures obeys { spec.ObeysTree (world S.may_do S.folders_do S.Input.DeviceIn S.Output.DeviceOut E.DeviceOut)
        (map (λ w. w.now) words.now) errors.old system.old result errors.new system.new }
    ensures within { result ≤ statuses.MEMORY }
{
    match words_of_one(alloc, words) {
        Ok(one) => obey_one(system, alloc, words, one.as_slice(), errors),
        Err(_) => tell(&Usage::Memory, errors),
    }
}
