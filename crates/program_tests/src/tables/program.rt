// The program around a table: the words of a command line, the other tools, and an output that cannot be opened.
use crate::runs::{Answer, Entry, Left, NAME, expect_answer, holds, left_by, load, run_over};
use dcm_base::{Std, Watched};
use dcm_tables::start;
use dcm_test_devices::{Loaded, Memory, SOUND, Start, joined};
use std::alloc::{AllocError, Global};
use std::cell::Cell;
use std::test::Fail;

/// What a run of the program over a system leaves.
fn started<'a>(alloc: Global, system: Memory<'a>, clock: &'a Cell<usize>) -> Left {
    let mut system = system;
    let mut errors = Watched::new(Std::new(SOUND.errors(alloc, clock)));
    let status = start(&mut system, alloc, &mut errors);
    let told = errors.into_device().into_inner().bytes;
    left_by(alloc, system, status, told)
}

/// The words of a table of the file `a`.
const WORDS: [&[u8]; 6] = [
    b"dcm2csv",
    b"-k",
    b"PatientName",
    b"-k",
    b"(0010,0020)",
    b"a",
];

/// Its output.
const TABLE: &[u8] = b"\"File\",\"PatientName\",\"PatientID\"\n\"a\",\"AB^CD\",\n";

/// These words, as a system has them.
fn owned(alloc: Global) -> Result<Vec<Vec<u8>>, AllocError> {
    let mut all = Vec::new(alloc);
    for word in WORDS {
        all.push(word.to_vec(alloc)?)?;
    }
    Ok(all)
}

/// The file of a name, at `a`.
fn named(alloc: Global) -> Result<Vec<Loaded>, AllocError> {
    load(alloc, &[Entry::Named(b"a")])
}

#[test]
fn words_of_a_command_line(rt: HostRuntime) -> Result<(), Fail> {
    let alloc = rt.alloc();
    let clock = Cell::new(0);
    let files = named(alloc)?;
    let system = Memory::new(alloc, files.as_slice(), SOUND, &clock);
    let left = started(alloc, system.with_words(owned(alloc)?), &clock);
    let wanted = Answer {
        status: 0,
        output: TABLE.to_vec(alloc)?,
        told: Vec::new(alloc),
    };
    expect_answer("words", &left, &wanted)
}

/// Expects a line and a status, and that nothing was opened.
pub fn expect_nothing(name: &str, left: &Left, line: &[u8], status: u8) -> Result<(), Fail> {
    holds(name, "status", left.answer.status == status)?;
    holds(name, "line", left.answer.told.as_slice() == line)?;
    holds(name, "inputs", left.counts.opened == 0)?;
    holds(name, "output", !left.is_closed)
}

#[test]
fn words_without_memory(rt: HostRuntime) -> Result<(), Fail> {
    let alloc = rt.alloc();
    let clock = Cell::new(0);
    let files = named(alloc)?;
    let system = Memory::new(alloc, files.as_slice(), SOUND, &clock);
    let left = started(alloc, system, &clock);
    expect_nothing("no memory", &left, b"dcmtools: out of memory\n", 5)
}

#[test]
fn output_that_is_not_opened(rt: HostRuntime) -> Result<(), Fail> {
    let alloc = rt.alloc();
    let clock = Cell::new(0);
    let files = named(alloc)?;
    let system = Memory::new(alloc, files.as_slice(), SOUND, &clock).without_output();
    let left = started(alloc, system.with_words(owned(alloc)?), &clock);
    let line = b"dcmtools: output cannot be opened\n";
    expect_nothing("no output", &left, line, 4)
}

const VERSION: &[u8] = b"dcmtools 0.2.0, with the data dictionary of DICOM PS3.6 2022a\n";

/// The beginning of what is shown of the tool.
const USE: &[u8] = b"dcmtools dcm2csv -k TAG.. ";

/// The output of words over the file `a`, which are done.
fn output_of(alloc: Global, words: &[&[u8]]) -> Result<Vec<u8>, Fail> {
    let files = named(alloc)?;
    let left = run_over(alloc, words, files.as_slice(), SOUND);
    holds("other words", "status", left.answer.status == 0)?;
    holds("other words", "lines", left.answer.told.is_empty())?;
    Ok(left.answer.output)
}

/// Expects that words of another tool are done by it, and texts about this one are shown.
#[test]
fn other_words(rt: HostRuntime) -> Result<(), Fail> {
    let alloc = rt.alloc();
    let converted = output_of(alloc, &[b"dcmconv", b"a", b"-"])?;
    let file = joined(alloc, Start::ExplicitLittle.bytes(), NAME)?;
    holds("other words", "a conversion", converted == file)?;
    let version = output_of(alloc, &[b"dcm2csv", b"--version"])?;
    holds("other words", "version", version.as_slice() == VERSION)?;
    let shown = output_of(alloc, &[b"dcm2csv", b"--help"])?;
    let is_shown = shown.as_slice().starts_with(USE);
    holds("other words", "help", is_shown)?;
    let short = output_of(alloc, &[b"dcm2csv", b"-h"])?;
    holds("other words", "help by -h", short == shown)?;
    let help = output_of(alloc, &[b"help", b"dcm2csv"])?;
    holds("other words", "help of a tool", help == shown)
}

/// A file named `--version` is no question about the tool where other words are there.
#[test]
fn words_that_ask_nothing(rt: HostRuntime) -> Result<(), Fail> {
    let alloc = rt.alloc();
    let words: [&[u8]; 4] = [b"dcm2csv", b"-k", b"Rows", b"--version"];
    let files = named(alloc)?;
    let left = run_over(alloc, &words, files.as_slice(), SOUND);
    let line = b"dcmtools: V2 at word 4: unknown option\n";
    expect_nothing("--version", &left, line, 1)
}
