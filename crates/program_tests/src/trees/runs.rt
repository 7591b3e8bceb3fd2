// Runs of rows, and what is wanted of them.
use super::rows::{Row, put_all, tree_of, tree_without};
use crate::runs::holds;
use dcm_base::{Std, Watched};
use dcm_tables::obey;
use dcm_test_devices::split;
use dcm_test_trees::{MemoryTree, Tree, TreeDevices};
use std::alloc::{AllocError, Global};
use std::test::Fail;

/// What is wanted of a run, or what it left.
#[derive(Drop)]
pub struct Answer {
    /// The exit status.
    pub status: u8,
    /// The bytes of standard output.
    pub output: Vec<u8>,
    /// The lines on standard error.
    pub told: Vec<u8>,
    /// All that is there.
    pub tree: Tree,
}

/// Expects that all of a tree is as another.
fn expect_tree(name: &str, left: &Tree, wanted: &Tree) -> Result<(), Fail> {
    if let Some(path) = left.difference(wanted)? {
        return Err(Fail::new(format_args!("{name}: left at {:?}", path.as_slice())));
    }
    match wanted.difference(left)? {
        Some(path) => Err(Fail::new(format_args!("{name}: missing at {:?}", path.as_slice()))),
        None => Ok(()),
    }
}

/// Expects the answer of a run of words over a system, and that nothing is left open.
pub fn expect_run(
    alloc: Global,
    name: &str,
    words: &[&[u8]],
    system: MemoryTree,
    wanted: &Answer,
) -> Result<(), Fail> {
    let mut system = system;
    let mut errors = Watched::new(Std::new(Vec::new(alloc)));
    let status = obey(&mut system, alloc, words, &mut errors);
    let told = errors.into_device().into_inner();
    holds(name, "left open", system.open == 0)?;
    let (tree, output) = system.into_parts();
    holds(name, "lines", told == wanted.told)?;
    holds(name, "status", status == wanted.status)?;
    holds(name, "output", output == wanted.output)?;
    expect_tree(name, &tree, &wanted.tree)
}

/// The bytes of texts.
pub fn bytes_of(alloc: Global, texts: &[&str]) -> Result<Vec<u8>, AllocError> {
    let mut bytes = Vec::new(alloc);
    for text in texts {
        bytes.extend_from_slice(text.as_bytes())?;
    }
    Ok(bytes)
}

/// What is wanted of a row.
fn wanted_of(alloc: Global, row: &Row) -> Result<Answer, AllocError> {
    let mut tree = tree_without(alloc, row.before, row.gone)?;
    put_all(alloc, &mut tree, row.made)?;
    Ok(Answer {
        status: row.status,
        output: bytes_of(alloc, row.output)?,
        told: row.told.to_vec(alloc)?,
        tree,
    })
}

/// The system of a row, by devices that work so.
fn system_of(alloc: Global, row: &Row, devices: TreeDevices) -> Result<MemoryTree, AllocError> {
    let tree = tree_of(alloc, row.before)?;
    let stdin = row.stdin.all(alloc)?;
    Ok(MemoryTree::new(alloc, tree, stdin, devices))
}

/// The bytes that a reader gives at a time.
const STEPS: [usize; 5] = [1, 2, 3, 7, 100_000];

/// A row with its words, and what is wanted of it.
#[derive(Drop)]
struct Case<'a> {
    row: &'a Row,
    words: Vec<&'static [u8]>,
    wanted: Answer,
}

impl<'a> Case<'a> {
    /// The case of a row.
    fn new(alloc: Global, row: &'a Row) -> Result<Self, AllocError> {
        Ok(Case {
            row,
            words: split(alloc, row.words)?,
            wanted: wanted_of(alloc, row)?,
        })
    }

    /// Expects the answer, by devices that work so.
    fn expect(&self, alloc: Global, devices: TreeDevices) -> Result<(), Fail> {
        let system = system_of(alloc, self.row, devices)?;
        expect_run(
            alloc,
            self.row.name,
            self.words.as_slice(),
            system,
            &self.wanted,
        )
    }
}

/// Expects the answer of a row by readers that give so many bytes at a time, and where no file has two names.
fn expect_row(alloc: Global, row: &Row) -> Result<(), Fail> {
    let case = Case::new(alloc, row)?;
    let devices = row.devices;
    for step in STEPS {
        case.expect(alloc, TreeDevices { step, ..devices })?;
    }
    let has_links = false;
    case.expect(
        alloc,
        TreeDevices {
            has_links,
            ..devices
        },
    )
}

/// Expects the answers of rows.
pub fn expect_rows(alloc: Global, rows: &[Row]) -> Result<(), Fail> {
    for row in rows {
        expect_row(alloc, row)?;
    }
    Ok(())
}
