// Words that are refused: nothing is made.
use super::bytes::{CUT, GOOD, OTHER, TEXT};
use super::rows::Entry::{File, Folder};
use super::rows::{Entry, tree_of};
use super::runs::{Answer, expect_run};
use dcm_test_devices::{joined, split};
use dcm_test_trees::{MemoryTree, SOUND};
use std::alloc::Global;
use std::test::Fail;

/// What is there.
const THERE: &[Entry] = &[
    File(b"in/a", GOOD),
    File(b"in/x/b", OTHER),
    File(b"a", GOOD),
    File(b"b", CUT),
    File(b"t", TEXT),
    Folder(b"d"),
];

/// In each line words, and what is told of them.
const REFUSED: &str = "\
dcmconv +r +kn in out: V2 at word 3: unknown option
dcmconv +r +u8 in out: V2 at word 3: unknown option
dcmconv in +r +part 0/1 out: V3 at word 4: bad option value
dcmdeid +part 2/1 +q in out: V3 at word 2: bad option value
dcmconv +r in out +part: V3 at word 5: bad option value
dcmdeid +rm +r in out: V3 at word 2: bad option value
dcmodify -e Nothing +r +part 1/10000 in out: V3 at word 5: bad option value
dcmodify +r +part in out: V3 at word 3: bad option value
dcmconv +r in: V4: wrong number of paths
dcmconv +r @ out: V4: wrong number of paths
dcmodify in out +r: V4: wrong number of paths
dcmodify -e Nothing +part 2/1 +r @ out: V4: wrong number of paths
dcmconv +c @ out: V5: options do not go together
dcmconv +c in in: V5: options do not go together
dcmconv +ow +r in out: V5: options do not go together
dcmconv +r +ow in in: V5: options do not go together
dcmconv +ow +c in out: V5: options do not go together
dcmconv +ow +r @ out: V4: wrong number of paths
dcmdeid +ow +pi +r in out: V5: options do not go together
dcmodify -ep +ow +r in out: V5: options do not go together
dcmodify +r -e +ow in out: U2 in edit 1: unknown tag
dcmodify +v -ep in out: V5: options do not go together
dcmconv +r in -: V5: options do not go together
dcmodify +r -ep - out: V5: options do not go together
dcmdeid +r +k out - out: V5: options do not go together
dcmdeid +r +rm key +k key - out: V5: options do not go together
dcmdeid +c +pi in out: V5: options do not go together
dcmconv +r in in: V6: input and output are the same path
dcmdeid +r +k out in out: V6: input and output are the same path
dcmdeid +rm key +r in in: V6: input and output are the same path
dcmdeid +r +rm 7 +pi gone out: V10: a key is needed
dcmdeid +rm key +r @list out: V10: a key is needed
dcmodify -e +r -e PatientID in out: U2 in edit 1: unknown tag
dcmodify +c -e Nothing in out: U2 in edit 1: unknown tag
dcmodify +r +kn in out: U1 in edit 1: bad option or path
dcmdump a b +r: V2 at word 4: unknown option
dcmdump +F: V4: wrong number of paths
dcmdump a @: V4: wrong number of paths
dcmdump -f a a: V5: options do not go together
dcmdump - a @-: V9: standard input is named twice
";

/// Expects that the words of a line are refused as it says: status 1, and all stays as it is.
fn expect_refused(alloc: Global, line: &'static str) -> Result<(), Fail> {
    let Some((words, refusal)) = line.split_once(": ") else {
        return Err(Fail::new(format_args!("no refusal: {line}")));
    };
    let mut told = joined(alloc, b"dcmtools: ", refusal.as_bytes())?;
    told.push(b'\n')?;
    let wanted = Answer {
        status: 1,
        output: Vec::new(alloc),
        told,
        tree: tree_of(alloc, THERE)?,
    };
    let given = split(alloc, words)?;
    let system = MemoryTree::new(alloc, tree_of(alloc, THERE)?, Vec::new(alloc), SOUND);
    expect_run(alloc, words, given.as_slice(), system, &wanted)
}

#[test]
fn refuses_words(rt: HostRuntime) -> Result<(), Fail> {
    for line in REFUSED.lines() {
        expect_refused(rt.alloc(), line)?;
    }
    Ok(())
}
