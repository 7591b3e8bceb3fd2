// Where paths lead in a tree, as POSIX says (4.16, Pathname Resolution).
use super::bytes::GOOD;
use super::rows::Entry::{File, Folder, Link, Pipe};
use super::rows::{Entry, tree_of};
use crate::runs::holds;
use dcm_files::{Folders, FoundKind, Links, System};
use dcm_test_devices::{joined, repeated};
use dcm_test_trees::{MemoryTree, SOUND};
use std::alloc::{AllocError, Global};
use std::io::ErrorKind;
use std::test::Fail;
use std::{io, str};

/// What is there.
const THERE: &[Entry] = &[
    File(b"a/file", GOOD),
    Folder(b"a/b"),
    Link(b"to_a", b"a"),
    Link(b"a/up", b".."),
    Link(b"to_file", b"a/../a//file"),
    Link(b"root", b"/here/a"),
    Link(b"gone", b"nothing"),
    Link(b"loop", b"loop"),
    Pipe(b"pipe"),
];

/// What is found at a path.
#[derive(Clone, Copy, PartialEq, Eq)]
enum At {
    File,
    Folder,
    Other,
    Nothing,
    NoFolder,
    Loop,
    TooLong,
    Unknown,
}

/// What is at paths, links followed.
static FOLLOWED: [(&str, At); 24] = [
    ("a", At::Folder),
    ("a/", At::Folder),
    ("./a/./b/..//file", At::File),
    ("/here/a/file", At::File),
    ("//here/a", At::Folder),
    ("/", At::Folder),
    ("/..", At::Folder),
    ("/../here/..", At::Folder),
    ("..", At::Folder),
    ("../../here/a/file", At::File),
    ("to_a/file", At::File),
    ("to_a/up/a/up/to_a/b", At::Folder),
    ("to_file", At::File),
    ("root/file", At::File),
    ("pipe", At::Other),
    ("gone", At::Nothing),
    ("none", At::Nothing),
    ("none/a", At::Nothing),
    ("a/none", At::Nothing),
    ("", At::Nothing),
    ("a/file/b", At::NoFolder),
    ("a/file/", At::NoFolder),
    ("a/file/..", At::NoFolder),
    ("loop", At::Loop),
];

/// And where a link at the end is kept.
static KEPT: [(&str, At); 6] = [
    ("to_a", At::Other),
    ("to_a/", At::Folder),
    ("to_a/file", At::File),
    ("gone", At::Other),
    ("loop", At::Other),
    ("a/up/to_file", At::Other),
];

/// What a system finds at a path.
fn found_at(system: &mut MemoryTree, path: &str, links: Links) -> At {
    match system.find(path, links) {
        Ok(Some(found)) => match found.kind {
            FoundKind::File => At::File,
            FoundKind::Folder => At::Folder,
            FoundKind::Other => At::Other,
        },
        Ok(None) => At::Nothing,
        Err(e) => match e.kind() {
            ErrorKind::NotADirectory => At::NoFolder,
            ErrorKind::FilesystemLoop => At::Loop,
            ErrorKind::InvalidFilename => At::TooLong,
            _ => At::Unknown,
        },
    }
}

/// A system over what is there.
fn system(alloc: Global) -> Result<MemoryTree, AllocError> {
    let tree = tree_of(alloc, THERE)?;
    Ok(MemoryTree::new(alloc, tree, Vec::new(alloc), SOUND))
}

#[test]
fn paths_lead(rt: HostRuntime) -> Result<(), Fail> {
    let mut system = system(rt.alloc())?;
    for &(path, at) in &FOLLOWED {
        holds(
            path,
            "followed",
            found_at(&mut system, path, Links::Followed) == at,
        )?;
    }
    for &(path, at) in &KEPT {
        holds(path, "kept", found_at(&mut system, path, Links::Kept) == at)?;
    }
    Ok(())
}

/// Expects what is at a path of two parts: `a`, slashes, and what is behind them.
fn expect_long(alloc: Global, slashes: usize, behind: &[u8], at: At) -> Result<(), Fail> {
    let path = repeated(alloc, b"a", b"/", slashes, behind)?;
    let path = str::from_utf8(path.as_slice())?;
    let mut system = system(alloc)?;
    holds(
        path,
        "long",
        found_at(&mut system, path, Links::Followed) == at,
    )
}

#[test]
fn long_paths_lead_nowhere(rt: HostRuntime) -> Result<(), Fail> {
    let alloc = rt.alloc();
    expect_long(alloc, 4090, b"file", At::File)?;
    expect_long(alloc, 4091, b"file", At::TooLong)?;
    let name = repeated(alloc, b"", b"n", 255, b"")?;
    expect_long(alloc, 1, name.as_slice(), At::Nothing)?;
    expect_long(
        alloc,
        1,
        joined(alloc, name.as_slice(), b"n")?.as_slice(),
        At::TooLong,
    )
}

/// Whether an answer is an error of this kind.
fn fails<T: Drop>(answer: io::Result<T>, kind: ErrorKind) -> bool {
    match answer {
        Ok(_) => false,
        Err(e) => e.kind() == kind,
    }
}

/// Nothing is made where something is, or in what is no folder.
#[test]
fn names_are_made_once(rt: HostRuntime) -> Result<(), Fail> {
    let mut system = system(rt.alloc())?;
    for path in [
        "a", "to_a", "gone", "loop", "pipe", "a/file", ".", "..", "/",
    ] {
        let there = ErrorKind::AlreadyExists;
        holds(
            path,
            "make_folder",
            fails(system.make_folder(path, 0o777), there),
        )?;
        holds(
            path,
            "create_as",
            fails(system.create_as(path, 0o666), there),
        )?;
        holds(path, "link", fails(system.link("a/file", path), there))?;
    }
    holds(
        "a/file/x",
        "make_folder",
        fails(
            system.make_folder("a/file/x", 0o777),
            ErrorKind::NotADirectory,
        ),
    )?;
    holds(
        "x/y",
        "make_folder",
        fails(system.make_folder("x/y", 0o777), ErrorKind::NotFound),
    )
}

/// A file has its names in turn, and is gone with the last.
#[test]
fn names_of_a_file(rt: HostRuntime) -> Result<(), Fail> {
    let mut system = system(rt.alloc())?;
    system.link("to_a/file", "second")?;
    let first = system.find("a/file", Links::Kept)?;
    holds(
        "second",
        "number",
        system.find("second", Links::Kept)? == first,
    )?;
    system.remove("a/file")?;
    holds(
        "a/file",
        "removed",
        found_at(&mut system, "a/file", Links::Kept) == At::Nothing,
    )?;
    system.rename("second", "to_a/b/third")?;
    holds(
        "second",
        "renamed",
        found_at(&mut system, "second", Links::Kept) == At::Nothing,
    )?;
    holds(
        "a/b/third",
        "number",
        system.find("a/b/third", Links::Kept)? == first,
    )?;
    system.remove("a/b/third")?;
    holds(
        "a/b/third",
        "removed",
        found_at(&mut system, "a/b/third", Links::Kept) == At::Nothing,
    )?;
    holds(
        "a/b",
        "no file",
        fails(system.remove("a/b"), ErrorKind::IsADirectory),
    )
}
