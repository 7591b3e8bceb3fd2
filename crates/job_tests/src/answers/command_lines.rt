// Words that are refused.
use crate::runs::{Wanted, expect_answer, over_memory};
use dcm_test_devices::joined;
use std::alloc::Global;
use std::test::Fail;

/// In each line words, and what is told of them.
const REFUSED: &str = "\
dcmcopy a b: V1 at word 1: unknown tool
dcmdump +ti a: V2 at word 2: unknown option
dcmdump a b: V4: wrong number of paths
dcmdump -f a: V5: options do not go together
dcmdump -f -te +fo a: V5: options do not go together
dcmconv a -L b: V2 at word 3: unknown option
dcmconv a a -x: V2 at word 4: unknown option
dcmconv +u8 a b: V2 at word 2: unknown option
dcmdump +ow -: V2 at word 2: unknown option
dcmconv -ow - -: V2 at word 2: unknown option
dump2dcm +l +ow - -: V3 at word 2: bad option value
dcmdeid +rm +ow - -: V3 at word 2: bad option value
dcmconv +ow a a: V6: input and output are the same path
dump2dcm a b +u8: V2 at word 4: unknown option
dcmdeid +u8 a b: V2 at word 2: unknown option
dcmconv a: V4: wrong number of paths
dcmconv a b c: V4: wrong number of paths
dcmconv a a a: V4: wrong number of paths
dcmconv  : V4: wrong number of paths
dcmconv a a: V6: input and output are the same path
dcmconv +ti a +te a: V6: input and output are the same path
dump2dcm +l 79 a b: V3 at word 2: bad option value
dump2dcm a +l 16385 b: V3 at word 3: bad option value
dump2dcm a b +l: V3 at word 4: bad option value
dump2dcm +L a b: V2 at word 2: unknown option
dump2dcm +l 080 a a: V6: input and output are the same path
dump2dcm +dict a b: V2 at word 2: unknown option
dump2dcm a b -dict: V2 at word 4: unknown option
dcmdump +dict: V4: wrong number of paths
dcmdump +P Nothing +P: V3 at word 4: bad option value
dcmdump +q +P: V2 at word 2: unknown option
dcmdump +P +q +q: V2 at word 4: unknown option
dcmdump - +P PatientID +P patientid: U2 in element 2: unknown tag
dcmdump +P +P -: U2 in element 1: unknown tag
dcmdump +P (0010,001) +P No: U1 in element 1: bad option or path
dcmdump +P  -: U1 in element 1: bad option or path
dcmdump +P ContentSequence[0].CodeValue -: U2 in element 1: unknown tag
dcmdump +P PatientID: V4: wrong number of paths
dcmdump +P PatientID -f -: V5: options do not go together
dcmdump -f - +P No: U2 in element 1: unknown tag
dcmconv +P PatientID a b: V2 at word 2: unknown option
dcmconv a +dict a: V6: input and output are the same path
dcmdeid +k - -: V3 at word 2: bad option value
dcmdeid +rl +k - - -: V3 at word 3: bad option value
dcmdeid +x +k - -: V2 at word 2: unknown option
dcmdeid -dict - -: V2 at word 2: unknown option
dcmdeid a - -: V4: wrong number of paths
dcmdeid +k: V3 at word 2: bad option value
dcmdeid a a: V6: input and output are the same path
dcmdeid +k b a b: V6: input and output are the same path
dcmdeid a: V4: wrong number of paths
dcmdeid +k  - -: V3 at word 2: bad option value
dcmdeid +rm  - -: V3 at word 2: bad option value
dcmdeid +pi a a -: V4: wrong number of paths
dcmdeid +rm key - -: V10: a key is needed
dcmdeid +rm key +k b - -: V11: standard input cannot be read twice
dcmdeid +rm key +k b - b: V6: input and output are the same path
";

/// The same of edits.
const REFUSED_EDITS: &str = "\
dcmodify: V4: wrong number of paths
dcmodify a: V4: wrong number of paths
dcmodify -ep a: V4: wrong number of paths
dcmodify -ep - +ow: V4: wrong number of paths
dcmodify -e +ow - -: U2 in edit 1: unknown tag
dcmodify -i +ow - -: U2 in edit 1: unknown tag
dcmodify -e Rows a -b: V4: wrong number of paths
dcmodify -e Rows a : V4: wrong number of paths
dcmodify -e Rows a a: V6: input and output are the same path
dcmodify a a: V6: input and output are the same path
dcmodify -e a b: U1 in edit 1: bad option or path
dcmodify +x a b: U1 in edit 1: bad option or path
dcmodify +u8 a b: U1 in edit 1: bad option or path
dcmodify -e Rows c a b: U1 in edit 2: bad option or path
dcmodify -m PatientName[0]=A a b: U1 in edit 1: bad option or path
dcmodify -e ReferencedImageSequence[1234567890] a b: U1 in edit 1: bad option or path
dcmodify -ma ReferencedImageSequence[0]=A a b: U1 in edit 1: bad option or path
dcmodify -m (0009,0010)=A a b: U2 in edit 1: unknown tag
dcmodify -e Foo-Bar a b: U2 in edit 1: unknown tag
dcmodify -e -i X=1 a b: U2 in edit 1: unknown tag
dcmodify +dict -e +dict -e Rows a b: U2 in edit 1: unknown tag
dcmodify +dict -e SmallestImagePixelValue a b: U2 in edit 1: unknown tag
dcmodify +dict -ea PixelData -m (0028,3006)=00 a b: U2 in edit 2: unknown tag
dcmodify -m Rows[0].Foo=1 a b: U2 in edit 1: unknown tag
dcmodify -i Rows=70000 a b: U3 in edit 1: value does not fit
dcmodify -i (0028,0009)=(0018,106) a b: U3 in edit 1: value does not fit
dcmodify -e Rows -e Rows[0] a b: U4 in edit 2: sequence misused
dcmodify -m ReferencedImageSequence=A a b: U4 in edit 1: sequence misused
dcmodify -i (0002,0010)=1 a b: U5 in edit 1: group 0002 cannot be edited
dcmodify -m PatientID=7 -m PatientID=7 a b: U6 in edit 2: edits overlap
dcmodify -e ReferencedImageSequence[0] -e ReferencedImageSequence[1] a b: U6 in edit 2: edits overlap
dcmodify -ea PatientID -i ReferencedImageSequence[0].PatientID=7 a b: U6 in edit 2: edits overlap
dcmodify -ep -ep -ep -ep -ep -ep -ep -ep -ep -ep -ep -ep -ep -ep -ep -ep -ep -ep -ep -ep -ep -ep -ep -ep -ep -ep -ep -ep -ep -ep -ep -ep -ep -ep -ep -ep -ep -ep -ep -ep -ep -ep -ep -ep -ep -ep -ep -ep -ep -ep -ep -ep -ep -ep -ep -ep -ep -ep -ep -ep -ep -ep -ep -ep -ep a b: U7 in edit 65: too many edits
dcmodify +dict -ep -ep -ep -ep -ep -ep -ep -ep -ep -ep -ep -ep -ep -ep -ep -ep -ep -ep -ep -ep -ep -ep -ep -ep -ep -ep -ep -ep -ep -ep -ep -ep -dict -ep -ep -ep -ep -ep -ep -ep -ep -ep -ep -ep -ep -ep -ep -ep -ep -ep -ep -ep -ep -ep -ep -ep -ep -ep -ep -ep -ep -ep -ep -ep -ep -ep a b: U7 in edit 65: too many edits
dcmodify -m XRayTubeCurrent=1 a b: U2 in edit 1: unknown tag
dcmodify +dict -m XRayTubeCurrent=1 -dict a b: U2 in edit 1: unknown tag
dcmodify +dict -ep +dict -e PixelPaddingValue a b: U2 in edit 2: unknown tag
dcmodify -e +dict a b: U2 in edit 1: unknown tag
dcmodify -e XRayTubeCurrent[0] +dict a b: U4 in edit 1: sequence misused
dcmodify a b +dict: V4: wrong number of paths
dcmodify +dict a a: V6: input and output are the same path
";

/// Expects that the words of a line are refused as it says, and nothing is written.
fn expect_refused(alloc: Global, line: &'static str) -> Result<(), Fail> {
    let Some((words, refusal)) = line.split_once(": ") else {
        return Err(Fail::new(format_args!("no refusal: {line}")));
    };
    let mut told = joined(alloc, b"dcmtools: ", refusal.as_bytes())?;
    told.push(b'\n')?;
    let answer = over_memory(alloc, words, b"", 1, 10)?;
    let wanted = Wanted {
        status: 1,
        output: b"",
        told: told.as_slice(),
    };
    expect_answer(words, &answer, wanted)
}

#[test]
fn refuses_words(rt: HostRuntime) -> Result<(), Fail> {
    for line in REFUSED.lines() {
        expect_refused(rt.alloc(), line)?;
    }
    Ok(())
}

#[test]
fn refuses_edits(rt: HostRuntime) -> Result<(), Fail> {
    for line in REFUSED_EDITS.lines() {
        expect_refused(rt.alloc(), line)?;
    }
    Ok(())
}
