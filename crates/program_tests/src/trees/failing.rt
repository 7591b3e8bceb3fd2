// Runs over devices that fail.
use super::bytes::{CONVERTED, GOOD, OTHER};
use super::rows::Entry::{Broken, File, Folder};
use super::rows::{Entry, HEADER, tree_of};
use super::runs::{Answer, bytes_of, expect_run};
use dcm_test_devices::split;
use dcm_test_trees::{MemoryTree, SOUND, TreeDevices};
use std::alloc::{AllocError, Global};
use std::test::Fail;

/// The words of all runs here.
const WORDS: &str = "dcmconv +r in out";

/// The status of a run in which a device failed.
const DEVICE: u8 = 4;

/// The status of a run without memory.
const MEMORY: u8 = 5;

/// What is there afterwards, and what was told of it.
#[derive(Clone, Copy)]
struct Left<'a> {
    status: u8,
    output: &'a [&'a str],
    told: &'a [u8],
    there: &'a [Entry],
}

/// Expects what a run over entries leaves, by devices that work so. Of standard output no more is wanted than fits.
fn expect_left(
    alloc: Global,
    before: &[Entry],
    devices: TreeDevices,
    left: &Left,
) -> Result<(), Fail> {
    let mut output = bytes_of(alloc, left.output)?;
    output.truncate(devices.room);
    let wanted = Answer {
        status: left.status,
        output,
        told: left.told.to_vec(alloc)?,
        tree: tree_of(alloc, left.there)?,
    };
    let words = split(alloc, WORDS)?;
    let tree = tree_of(alloc, before)?;
    let system = MemoryTree::new(alloc, tree, Vec::new(alloc), devices);
    expect_run(alloc, WORDS, words.as_slice(), system, &wanted)
}

/// The bytes of the first file, which are those of its output.
const SIZE: usize = 186;

/// No output is left where the file system takes too few bytes.
#[test]
fn full_disks(rt: HostRuntime) -> Result<(), Fail> {
    let before = [File(b"in/a", GOOD)];
    let left = Left {
        status: DEVICE,
        output: &[HEADER, "\"a\",,\"unwritten\"\n"],
        told: b"dcmtools: a: output failed\n",
        there: &[File(b"in/a", GOOD), Folder(b"out")],
    };
    for disk in 0..SIZE {
        expect_left(rt.alloc(), &before, TreeDevices { disk, ..SOUND }, &left)?;
    }
    Ok(())
}

/// Two files, and none of their outputs.
static TWO: [Entry; 2] = [File(b"in/a", GOOD), File(b"in/b", OTHER)];

/// The run ends where there is no memory for an output: those before it stay, and no other is made.
#[test]
fn memory_ends(rt: HostRuntime) -> Result<(), Fail> {
    let none = Left {
        status: MEMORY,
        output: &[HEADER],
        told: b"dcmtools: out of memory\n",
        there: &[File(b"in/a", GOOD), File(b"in/b", OTHER), Folder(b"out")],
    };
    let memory = 0;
    expect_left(rt.alloc(), &TWO, TreeDevices { memory, ..SOUND }, &none)?;
    let one = Left {
        output: &[HEADER, "\"a\",\"a\",\"written\"\n"],
        there: &[
            File(b"in/a", GOOD),
            File(b"in/b", OTHER),
            File(b"out/a", GOOD),
        ],
        ..none
    };
    let memory = 1;
    expect_left(rt.alloc(), &TWO, TreeDevices { memory, ..SOUND }, &one)
}

/// A file whose reading fails, between others.
static BEFORE: [Entry; 3] = [File(b"in/a", GOOD), Broken(b"in/b"), File(b"in/x/c", OTHER)];

/// A row of the manifest; and what is told, and there, where standard output fails within it.
#[derive(Clone, Copy)]
struct Stage {
    row: &'static str,
    told: &'static [u8],
    there: &'static [Entry],
}

static STAGES: [Stage; 4] = [
    Stage {
        row: HEADER,
        told: b"dcmtools: output failed\n",
        there: &[
            File(b"in/a", GOOD),
            Broken(b"in/b"),
            File(b"in/x/c", OTHER),
            Folder(b"out"),
        ],
    },
    Stage {
        row: "\"a\",\"a\",\"written\"\n",
        told: b"dcmtools: output failed\n",
        there: &[
            File(b"in/a", GOOD),
            Broken(b"in/b"),
            File(b"in/x/c", OTHER),
            File(b"out/a", GOOD),
        ],
    },
    Stage {
        row: "\"b\",,\"unread\"\n",
        told: b"dcmtools: b: reading failed after 0 bytes\ndcmtools: output failed\n",
        there: &[
            File(b"in/a", GOOD),
            Broken(b"in/b"),
            File(b"in/x/c", OTHER),
            File(b"out/a", GOOD),
        ],
    },
    Stage {
        row: "\"x/c\",\"x/c\",\"written\"\n",
        told: b"dcmtools: b: reading failed after 0 bytes\ndcmtools: output failed\n",
        there: &[
            File(b"in/a", GOOD),
            Broken(b"in/b"),
            File(b"in/x/c", OTHER),
            File(b"out/a", GOOD),
            File(b"out/x/c", CONVERTED),
        ],
    },
];

/// The rows of all stages.
fn all_rows(alloc: Global) -> Result<Vec<&'static str>, AllocError> {
    let mut rows = Vec::new(alloc);
    for stage in &STAGES {
        rows.push(stage.row)?;
    }
    Ok(rows)
}

/// Expects what is left where standard output fails at each byte of a row, before which it took so many.
fn expect_stage(alloc: Global, rows: &[&str], stage: &Stage, before: usize) -> Result<(), Fail> {
    let left = Left {
        status: DEVICE,
        output: rows,
        told: stage.told,
        there: stage.there,
    };
    for byte in 0..stage.row.len() {
        let room = before.saturating_add(byte);
        expect_left(alloc, &BEFORE, TreeDevices { room, ..SOUND }, &left)?;
    }
    Ok(())
}

/// The run ends where its manifest cannot be written: the output at hand stays, and no other is made.
#[test]
fn manifests_fail(rt: HostRuntime) -> Result<(), Fail> {
    let rows = all_rows(rt.alloc())?;
    let mut before: usize = 0;
    for stage in &STAGES {
        expect_stage(rt.alloc(), rows.as_slice(), stage, before)?;
        before = before.saturating_add(stage.row.len());
    }
    Ok(())
}
