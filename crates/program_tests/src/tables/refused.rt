// Words that are refused: nothing is opened.
use super::program::expect_nothing;
use crate::runs::run_over;
use dcm_test_devices::{SOUND, joined, split};
use std::alloc::Global;
use std::test::Fail;

/// In each line words, and what is told of them.
const REFUSED: &str = "\
dcm2csv -q -k Rows a: V2 at word 2: unknown option
dcm2csv -k Rows -q a: V2 at word 4: unknown option
dcm2csv -k Rows a +NH: V2 at word 5: unknown option
dcm2csv -k Rows a -nh: V2 at word 5: unknown option
dcm2csv +by +nh -k Rows +bY: V2 at word 6: unknown option
dcm2csv -k Nothing +dict -k: V2 at word 4: unknown option
dcm2csv -kRows a: V2 at word 2: unknown option
dcm2csv -- -k Rows a: V2 at word 2: unknown option
dcm2csv + -k Rows a: V2 at word 2: unknown option
dcm2csv -k: V3 at word 2: bad option value
dcm2csv -k Nothing -k: V3 at word 4: bad option value
dcm2csv a -k Rows +nh -k: V3 at word 6: bad option value
dcm2csv -k -k -k (0010,001): U2 in column 1: unknown tag
dcm2csv -k Rows -k (0010,001) a: U1 in column 2: bad option or path
dcm2csv -k Rows -k (0010,0010 a: U1 in column 2: bad option or path
dcm2csv -k (0010,001g) a: U1 in column 1: bad option or path
dcm2csv -k (0010.0010) a: U1 in column 1: bad option or path
dcm2csv -k (0010,00100) a: U1 in column 1: bad option or path
dcm2csv -k ( a: U1 in column 1: bad option or path
dcm2csv -k : U1 in column 1: bad option or path
dcm2csv -k Rows -k  a: U1 in column 2: bad option or path
dcm2csv -k 0010,0010 a: U2 in column 1: unknown tag
dcm2csv -k patientname a: U2 in column 1: unknown tag
dcm2csv -k Rows -k Columns -k Row: U2 in column 3: unknown tag
dcm2csv -k Rows -k @a b: U2 in column 2: unknown tag
dcm2csv -k - a: U2 in column 1: unknown tag
dcm2csv -k +nh a: U2 in column 1: unknown tag
dcm2csv -k PatientName[0] a: U2 in column 1: unknown tag
dcm2csv -k Nothing -k ( a: U2 in column 1: unknown tag
dcm2csv -k ( -k Nothing a: U1 in column 1: bad option or path
dcm2csv: V8: not 1 to 64 columns
dcm2csv a: V8: not 1 to 64 columns
dcm2csv +nh - @-: V8: not 1 to 64 columns
dcm2csv -k Rows: V4: wrong number of paths
dcm2csv -k Rows : V4: wrong number of paths
dcm2csv -k Rows a  b: V4: wrong number of paths
dcm2csv -k Rows a @: V4: wrong number of paths
dcm2csv -k Rows - - @: V4: wrong number of paths
dcm2csv +nh +by -k Rows: V4: wrong number of paths
dcm2csv -k Rows - -: V9: standard input is named twice
dcm2csv -k Rows - gone @-: V9: standard input is named twice
dcm2csv @- @- -k Rows: V9: standard input is named twice
dcm2csv - -k Rows - -: V9: standard input is named twice
dcm2csv a -k Rows -k Rows -k Rows -k Rows -k Rows -k Rows -k Rows -k Rows -k Rows -k Rows -k Rows -k Rows -k Rows -k Rows -k Rows -k Rows -k Rows -k Rows -k Rows -k Rows -k Rows -k Rows -k Rows -k Rows -k Rows -k Rows -k Rows -k Rows -k Rows -k Rows -k Rows -k Rows -k Rows -k Rows -k Rows -k Rows -k Rows -k Rows -k Rows -k Rows -k Rows -k Rows -k Rows -k Rows -k Rows -k Rows -k Rows -k Rows -k Rows -k Rows -k Rows -k Rows -k Rows -k Rows -k Rows -k Rows -k Rows -k Rows -k Rows -k Rows -k Rows -k Rows -k Rows -k Rows -k Rows: V8: not 1 to 64 columns
dcm2csv a -k Rows -k Rows -k Rows -k Rows -k Rows -k Rows -k Rows -k Rows -k Rows -k Rows -k Rows -k Rows -k Rows -k Rows -k Rows -k Rows -k Rows -k Rows -k Rows -k Rows -k Rows -k Rows -k Rows -k Rows -k Rows -k Rows -k Rows -k Rows -k Rows -k Rows -k Rows -k Rows -k Rows -k Rows -k Rows -k Rows -k Rows -k Rows -k Rows -k Rows -k Rows -k Rows -k Rows -k Rows -k Rows -k Rows -k Rows -k Rows -k Rows -k Rows -k Rows -k Rows -k Rows -k Rows -k Rows -k Rows -k Rows -k Rows -k Rows -k Rows -k Rows -k Rows -k Rows -k Rows -k Rows -k Nothing: U2 in column 66: unknown tag
dcm2csv -k Rows -k Rows -k Rows -k Rows -k Rows -k Rows -k Rows -k Rows -k Rows -k Rows -k Rows -k Rows -k Rows -k Rows -k Rows -k Rows -k Rows -k Rows -k Rows -k Rows -k Rows -k Rows -k Rows -k Rows -k Rows -k Rows -k Rows -k Rows -k Rows -k Rows -k Rows -k Rows -k Rows -k Rows -k Rows -k Rows -k Rows -k Rows -k Rows -k Rows -k Rows -k Rows -k Rows -k Rows -k Rows -k Rows -k Rows -k Rows -k Rows -k Rows -k Rows -k Rows -k Rows -k Rows -k Rows -k Rows -k Rows -k Rows -k Rows -k Rows -k Rows -k Rows -k Rows -k Rows -k Rows: V8: not 1 to 64 columns
";

/// Expects that the words of a line are refused as it says: status 1, and nothing is opened.
fn expect_refused(alloc: Global, line: &'static str) -> Result<(), Fail> {
    let Some((words, refusal)) = line.split_once(": ") else {
        return Err(Fail::new(format_args!("no refusal: {line}")));
    };
    let mut told = joined(alloc, b"dcmtools: ", refusal.as_bytes())?;
    told.push(b'\n')?;
    let given = split(alloc, words)?;
    let left = run_over(alloc, given.as_slice(), &[], SOUND);
    expect_nothing(words, &left, told.as_slice(), 1)
}

#[test]
fn refuses_words(rt: HostRuntime) -> Result<(), Fail> {
    for line in REFUSED.lines() {
        expect_refused(rt.alloc(), line)?;
    }
    Ok(())
}
