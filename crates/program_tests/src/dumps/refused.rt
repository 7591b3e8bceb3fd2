// Words that are refused: nothing is opened.
use crate::runs::{holds, run_over};
use dcm_test_devices::{SOUND, joined, split};
use std::alloc::Global;
use std::test::Fail;

/// In each line words, and what is told of them.
const REFUSED: &str = "\
dcmdump a b +r: V2 at word 4: unknown option
dcmdump @ -q: V2 at word 3: unknown option
dcmdump +F -f -k a: V2 at word 4: unknown option
dcmdump +F -- a: V2 at word 3: unknown option
dcmdump +F +F: V4: wrong number of paths
dcmdump: V4: wrong number of paths
dcmdump -f +F: V4: wrong number of paths
dcmdump a @: V4: wrong number of paths
dcmdump @: V4: wrong number of paths
dcmdump -f - - @: V4: wrong number of paths
dcmdump a : V4: wrong number of paths
dcmdump -f a a: V5: options do not go together
dcmdump -te @a: V5: options do not go together
dcmdump -f +F -ti +fo a: V5: options do not go together
dcmdump -f - -: V5: options do not go together
dcmdump - a @-: V9: standard input is named twice
dcmdump - -: V9: standard input is named twice
dcmdump @- +F @-: V9: standard input is named twice
";

/// Expects that the words of a line are refused as it says: status 1, and nothing is opened.
fn expect_refused(alloc: Global, line: &'static str) -> Result<(), Fail> {
    let Some((words, refusal)) = line.split_once(": ") else {
        return Err(Fail::new(format_args!("no refusal: {line}")));
    };
    let mut told = joined(alloc, b"dcmtools: ", refusal.as_bytes())?;
    told.push(b'\n')?;
    let given = split(alloc, words)?;
    let left = run_over(alloc, given.as_slice(), &[], SOUND);
    holds(words, "status", left.answer.status == 1)?;
    holds(words, "lines", left.answer.told == told)?;
    holds(words, "an output", !left.is_closed)?;
    holds(words, "opened", left.counts.most_open == 0)
}

#[test]
fn refuses_words(rt: HostRuntime) -> Result<(), Fail> {
    for line in REFUSED.lines() {
        expect_refused(rt.alloc(), line)?;
    }
    Ok(())
}
