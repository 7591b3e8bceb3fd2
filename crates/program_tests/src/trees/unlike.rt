// Trees that are not alike are told apart.
use super::bytes::{CUT, GOOD};
use super::rows::Entry::{Broken, File, FileOfMode, Folder, Link, Pipe};
use super::rows::{Entry, tree_of};
use crate::runs::holds;
use std::alloc::{AllocError, Global};
use std::test::Fail;

/// Trees of one entry each that are not alike, and what they differ by.
static UNLIKE: [(&str, Entry, Entry); 8] = [
    ("bytes", File(b"a/b", GOOD), File(b"a/b", CUT)),
    (
        "a mode",
        File(b"a/b", GOOD),
        FileOfMode(b"a/b", GOOD, 0o600),
    ),
    ("a name", File(b"a/b", GOOD), File(b"a/c", GOOD)),
    ("a file", Folder(b"a"), File(b"a/b", GOOD)),
    ("a folder", Folder(b"a"), Folder(b"a/b")),
    ("a kind", File(b"a/b", GOOD), Broken(b"a/b")),
    ("a link", Link(b"a", b"b"), Link(b"a", b"c")),
    ("a link or a pipe", Link(b"a", b"b"), Pipe(b"a")),
];

/// Whether trees of these entries are alike, by what the first lacks, and what the other lacks.
fn are_alike(alloc: Global, one: &Entry, other: &Entry) -> Result<bool, AllocError> {
    let one = tree_of(alloc, &[*one])?;
    let other = tree_of(alloc, &[*other])?;
    Ok(one.difference(&other)?.is_none() && other.difference(&one)?.is_none())
}

#[test]
fn trees_are_told_apart(rt: HostRuntime) -> Result<(), Fail> {
    for (what, one, other) in &UNLIKE {
        holds(what, "alike", are_alike(rt.alloc(), one, one)?)?;
        holds(what, "alike", are_alike(rt.alloc(), other, other)?)?;
        holds(what, "unlike", !are_alike(rt.alloc(), one, other)?)?;
        holds(what, "unlike", !are_alike(rt.alloc(), other, one)?)?;
    }
    Ok(())
}
