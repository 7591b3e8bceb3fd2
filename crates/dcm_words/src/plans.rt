// What the words of a command line come to.
ghost use Rattle.std.specs.Prelude.{◌≡◌, ◌+◌, ◌<◌, List, ℕ, drop, length, map, option_map, false};
ghost use Rattle.dcm_words.specs.Words as spec;
ghost use Rattle.dcm_words.specs.Plans.{job_of, takes_memory, has_paths, GivesUnlessMemory, edits_between};
ghost use Rattle.dcm_words.specs.Plans.{Gives, GivesDump, PathsAre, SaidAs, planned as planned_of};

use crate::job::{Convert, Deidentify, Dump, Job, Modify, Named, Planned};
use crate::usage::{Choice, Usage};
use crate::words::{Paths, STANDARD, Tool, is_path, said_by};
use arrayvec::ArrayVec;
use dcm_base::WordFault;
use dcm_edits::{EditFault, Edits, Settings, settings_of};
use std::alloc::Allocator;

/// What the words of dcmdump after its name mean, or the first refusal.
fn plan_dump<'a, A: Allocator>(words: &'a [&'a [u8]]) -> Result<Planned<'a, A>, Usage>
    ensures { Gives result (spec.dump_plan (map (λ w. w.now) words.now)) }
{
    let said = said_by(Tool::Dump, words)?;
    let tags = said.naming.finish()?;
    let input = match said.paths {
        Paths::One(input) if !input.is_empty() => input,
        _ => return Err(Usage::Whole(WordFault::WrongPaths)),
    };
    if said.data_set != said.bare.is_some() {
        return Err(Usage::Whole(WordFault::OptionsApart));
    }
    Ok(Planned {
        input,
        output: STANDARD,
        key: None,
        overwrites: false,
        days_by_key: false,
        job: Job::Dump(Dump {
            dictionary: said.dictionary,
            mode: said.mode,
            texts: said.texts,
            bare: said.bare,
            named: Named {
                tags,
                ways: said.ways,
            },
        }),
    })
}

/// How dcmdump shows each of several files, by the options among the words after its name; none where they do not go
/// together. Or the first refusal of a word. Its other words are names, and not looked at.
pub fn dump_of_each(words: &[&[u8]]) -> Result<Option<Dump>, Usage>
    ensures { GivesDump result (spec.dump_of_each (map (λ w. w.now) words.now)) }
{
    let said = said_by(Tool::Dumps, words)?;
    let tags = said.naming.finish()?;
    if said.data_set != said.bare.is_some() {
        return Ok(None);
    }
    Ok(Some(Dump {
        dictionary: said.dictionary,
        mode: said.mode,
        texts: said.texts,
        bare: said.bare,
        named: Named {
            tags,
            ways: said.ways,
        },
    }))
}

/// A job from one path to another, unless they are the same.
fn plan_if_apart<'a, A: Allocator>(
    input: &'a [u8],
    output: &'a [u8],
    overwrites: bool,
    job: Job<A>,
) -> Result<Planned<'a, A>, Usage>
    ensures { Gives result (spec.plan_if_apart input.now output.now overwrites (job_of job)) }
{
    if input == output && input != STANDARD {
        return Err(Usage::Whole(WordFault::SamePath));
    }
    Ok(Planned {
        input,
        output,
        key: None,
        overwrites,
        days_by_key: false,
        job,
    })
}

/// A job with an input and an output.
fn plan_with_two<'a, A: Allocator>(
    paths: Paths<'a>,
    overwrites: bool,
    job: Job<A>,
) -> Result<Planned<'a, A>, Usage>
    ensures { (ps : List (List ℕ)) → PathsAre paths.entry ps
        → Gives result (spec.plan_with_two ps overwrites (job_of job)) }
{
    match paths {
        Paths::Two(input, output) if !input.is_empty() && !output.is_empty() => {
            plan_if_apart(input, output, overwrites, job)
        }
        _ => Err(Usage::Whole(WordFault::WrongPaths)),
    }
}

/// What the words of dcmconv after its name mean, or the first refusal.
fn plan_convert<'a, A: Allocator>(words: &'a [&'a [u8]]) -> Result<Planned<'a, A>, Usage>
    ensures { Gives result (spec.convert_plan (map (λ w. w.now) words.now)) }
{
    let said = said_by(Tool::Convert, words)?;
    plan_with_two(
        said.paths,
        said.overwrites,
        Job::Convert(Convert {
            dictionary: said.dictionary,
            target: said.target,
        }),
    )
}

/// What the words of dump2dcm after its name mean, or the first refusal.
fn plan_build<'a, A: Allocator>(words: &'a [&'a [u8]]) -> Result<Planned<'a, A>, Usage>
    ensures { Gives result (spec.build_plan (map (λ w. w.now) words.now)) }
{
    let said = said_by(Tool::Build, words)?;
    plan_with_two(said.paths, said.overwrites, Job::Build(said.build))
}

/// Whether the path of a key is that of the output.
fn is_same_key(key: Option<&[u8]>, output: &[u8]) -> bool
    ensures { result ≡ spec.is_same_key (option_map (λ k. k.now) key.entry) output.now }
{
    match key {
        Some(key) => key == output,
        None => false,
    }
}

/// Whether something is made by a key that tells patients apart.
fn needs_key(choice: Choice) -> bool
    ensures { result ≡ spec.needs_key choice }
{
    choice.options.pseudonyms || choice.days_by_key
}

/// A plan with the path of a key, unless the output has it, or a key is needed and there is none, or an input is to be
/// read twice that cannot be.
fn plan_with_key<'a, A: Allocator>(
    planned: Planned<'a, A>,
    key: Option<&'a [u8]>,
    choice: Choice,
) -> Result<Planned<'a, A>, Usage>
    ensures { Gives result
        (spec.plan_with_key (option_map (λ k. k.now) key.entry) choice (planned_of planned.entry)) }
{
    if is_same_key(key, planned.output) {
        return Err(Usage::Whole(WordFault::SamePath));
    }
    if needs_key(choice) && key.is_none() {
        return Err(Usage::Whole(WordFault::NoKey));
    }
    if choice.days_by_key && planned.input == STANDARD {
        return Err(Usage::Whole(WordFault::ReadTwice));
    }
    Ok(Planned {
        key,
        days_by_key: choice.days_by_key,
        ..planned
    })
}

/// What the words of dcmdeid after its name mean, or the first refusal.
fn plan_deidentify<'a, A: Allocator>(words: &'a [&'a [u8]]) -> Result<Planned<'a, A>, Usage>
    ensures { Gives result (spec.deidentify_plan (map (λ w. w.now) words.now)) }
{
    let said = said_by(Tool::Deidentify, words)?;
    let planned = plan_with_two(
        said.paths,
        said.overwrites,
        Job::Deidentify(Deidentify {
            options: said.choice.options,
            reports: !said.pixels_dealt,
            key: ArrayVec::new(),
        }),
    )?;
    plan_with_key(planned, said.key, said.choice)
}

/// The edits that words mean, by what they say of all edits, from one path to another, or the first refusal.
fn plan_edits<'a, A: Allocator + Copy>(
    alloc: A,
    settings: Settings,
    edit_words: &[&[u8]],
    input: &'a [u8],
    output: &'a [u8],
) -> Result<Planned<'a, A>, Usage>
    ensures { GivesUnlessMemory result
        (spec.modify_plan_in settings (edits_between (map (λ w. w.now) edit_words.now) input.now output.now)) }
{
    let dictionary = settings.dictionary;
    match Edits::parse_in(alloc, dictionary, edit_words) {
        Ok(edits) => plan_if_apart(
            input,
            output,
            settings.overwrites,
            Job::Modify(Modify { dictionary, edits }),
        ),
        Err(EditFault::Refused(refusal, number)) => Err(Usage::InEdit(refusal, number)),
        Err(EditFault::Memory) => Err(Usage::Memory),
    }
}

/// What the words of dcmodify after its name mean, or the first refusal.
fn plan_modify<'a, A: Allocator + Copy>(
    alloc: A,
    words: &'a [&'a [u8]],
) -> Result<Planned<'a, A>, Usage>
    ensures meant { GivesUnlessMemory result (spec.modify_plan (map (λ w. w.now) words.now)) }
    ensures memory { has_paths (map (λ w. w.now) words.now) ≡ false
        → Gives result (spec.modify_plan (map (λ w. w.now) words.now)) }
{
    let [edit_words @ .., input, output] = words else {
        return Err(Usage::Whole(WordFault::WrongPaths));
    };
    if !is_path(input) || !is_path(output) {
        return Err(Usage::Whole(WordFault::WrongPaths));
    }
    plan_edits(alloc, settings_of(edit_words), edit_words, input, output)
}

/// The job that the words after the program's name mean, with the paths borrowed from them, or the first refusal.
/// Memory is taken for the edits of dcmodify alone, once its paths are seen.
#[tactic(auto, unfolding(crate::specs::Words::meant))]
pub fn plan<'a, A: Allocator + Copy>(
    alloc: A,
    words: &'a [&'a [u8]],
) -> Result<Planned<'a, A>, Usage>
    ensures meant { GivesUnlessMemory result (spec.meant (map (λ w. w.now) words.now)) }
    ensures memory { takes_memory (map (λ w. w.now) words.now) ≡ false
        → Gives result (spec.meant (map (λ w. w.now) words.now)) }
{
    match words {
        [tool, rest @ ..] if *tool == b"dcmdump".as_slice() => plan_dump(rest),
        [tool, rest @ ..] if *tool == b"dcmconv".as_slice() => plan_convert(rest),
        [tool, rest @ ..] if *tool == b"dump2dcm".as_slice() => plan_build(rest),
        [tool, rest @ ..] if *tool == b"dcmodify".as_slice() => plan_modify(alloc, rest),
        [tool, rest @ ..] if *tool == b"dcmdeid".as_slice() => plan_deidentify(rest),
        _ => Err(Usage::AtWord(WordFault::UnknownTool, 1)),
    }
}
