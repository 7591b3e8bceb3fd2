// Unknown sequences of known length: as deep as may be, one deeper, and what no sequence is until it is read back.
use crate::runs::{ENDS, OPENINGS, Wanted, expect_answer, expect_runs, letters, over_memory};
use dcm_test_devices::{Start, joined, repeated};
use std::alloc::{AllocError, Global};
use std::test::Fail;

/// The bytes of a sequence's implicit head and of the head of its item.
const IMPLICIT_HEADS: usize = 16;

/// A tag of a sequence.
const SEQUENCE_TAG: &[u8] = b"\x08\0@\x11";

const ITEM_TAG: &[u8] = b"\xfe\xff\0\xe0";

/// The head of that sequence as unknown, but for its length.
const UNKNOWN: &[u8] = b"\x08\0@\x11UN\0\0";

/// A length in four bytes.
fn length(size: usize) -> [u8; 4] {
    u32::try_from(size).unwrap_or(u32::MAX).to_le_bytes()
}

/// The bytes of so many implicit sequences, each in an item of the one before it, with these in the last item.
fn size_of(count: usize, last: &[u8]) -> usize {
    count
        .saturating_mul(IMPLICIT_HEADS)
        .saturating_add(last.len())
}

/// The known length of a sequence with an item of so many bytes, and the head of the item.
fn put_item(all: &mut Vec<u8>, size: usize) -> Result<(), AllocError> {
    all.extend_from_slice(&length(size.saturating_add(8)))?;
    all.extend_from_slice(ITEM_TAG)?;
    all.extend_from_slice(&length(size))?;
    Ok(())
}

/// A file of so many explicit sequences, an unknown one of known length in the last item, and so many implicit ones in
/// its item, each in an item of the one before it. These bytes are in the last item.
fn around(alloc: Global, before: usize, inside: usize, last: &[u8]) -> Result<Vec<u8>, AllocError> {
    let group = Start::ExplicitLittle.bytes();
    let mut all = repeated(alloc, group, OPENINGS, before, UNKNOWN)?;
    put_item(&mut all, size_of(inside, last))?;
    for left in (0..inside).rev() {
        all.extend_from_slice(SEQUENCE_TAG)?;
        put_item(&mut all, size_of(left, last))?;
    }
    all.extend_from_slice(last)?;
    repeated(alloc, all.as_slice(), ENDS, before, b"")
}

/// A file of so many sequences, each with an item that holds the next.
fn sequences(
    alloc: Global,
    start: Start,
    openings: &[u8],
    ends: &[u8],
    count: usize,
) -> Result<Vec<u8>, AllocError> {
    let opened = repeated(alloc, start.bytes(), openings, count, b"")?;
    repeated(alloc, opened.as_slice(), ends, count, b"")
}

const IMPLICIT_OPENINGS: &[u8] = b"\x08\0@\x11\xff\xff\xff\xff\xfe\xff\0\xe0\xff\xff\xff\xff";

const BIG_OPENINGS: &[u8] = b"\0\x08\x11@SQ\0\0\xff\xff\xff\xff\xff\xfe\xe0\0\xff\xff\xff\xff";

const BIG_ENDS: &[u8] = b"\xff\xfe\xe0\x0d\0\0\0\0\xff\xfe\xe0\xdd\0\0\0\0";

#[test]
fn sixty_four_unknown(rt: HostRuntime) -> Result<(), Fail> {
    let file = sequences(rt.alloc(), Start::ExplicitLittle, OPENINGS, ENDS, 64)?;
    let wanted = Wanted {
        status: 0,
        output: file.as_slice(),
        told: b"",
    };
    for (before, inside) in [(0, 63), (31, 32), (63, 0)] {
        let input = around(rt.alloc(), before, inside, b"")?;
        let words = "dcmconv +dict - -";
        expect_runs(rt.alloc(), "64 levels", words, input.as_slice(), wanted)?;
    }
    Ok(())
}

/// Expects that a file is refused for its 65th sequence.
fn expect_too_deep(alloc: Global, file: &[u8], told: &[u8]) -> Result<(), Fail> {
    let opened = repeated(alloc, Start::ExplicitLittle.bytes(), OPENINGS, 64, b"")?;
    let wanted = Wanted {
        status: 2,
        output: opened.as_slice(),
        told,
    };
    expect_runs(alloc, "65 levels", "dcmconv +dict - -", file, wanted)
}

#[test]
fn one_more_level(rt: HostRuntime) -> Result<(), Fail> {
    for (before, inside, last, told) in [
        (
            0,
            64,
            b"".as_slice(),
            b"dcmtools: R11 at byte 1200: nested too deep\n".as_slice(),
        ),
        (
            0,
            63,
            b"\x08\0@\x11\0\0\0\0".as_slice(),
            b"dcmtools: R11 at byte 1200: nested too deep\n".as_slice(),
        ),
        (
            32,
            32,
            b"".as_slice(),
            b"dcmtools: R11 at byte 1328: nested too deep\n".as_slice(),
        ),
        (
            64,
            0,
            b"".as_slice(),
            b"dcmtools: R11 at byte 1452: nested too deep\n".as_slice(),
        ),
    ] {
        let file = around(rt.alloc(), before, inside, last)?;
        expect_too_deep(rt.alloc(), file.as_slice(), told)?;
    }
    Ok(())
}

/// The last one has no bytes.
#[test]
fn one_more_unknown(rt: HostRuntime) -> Result<(), Fail> {
    let group = Start::ExplicitLittle.bytes();
    let last = b"\x08\0@\x11UN\0\0\0\0\0\0";
    let file = repeated(rt.alloc(), group, OPENINGS, 64, last)?;
    let told = b"dcmtools: R11 at byte 1452: nested too deep\n";
    expect_too_deep(rt.alloc(), file.as_slice(), told)
}

#[test]
fn sixty_four_in_other_syntaxes(rt: HostRuntime) -> Result<(), Fail> {
    let unknown = around(rt.alloc(), 0, 63, b"")?;
    let little = sequences(rt.alloc(), Start::ExplicitLittle, OPENINGS, ENDS, 64)?;
    let implicit = sequences(rt.alloc(), Start::Implicit, IMPLICIT_OPENINGS, ENDS, 64)?;
    let big = sequences(rt.alloc(), Start::Big, BIG_OPENINGS, BIG_ENDS, 64)?;
    for (words, input, output) in [
        ("dcmconv +dict +ti - -", &unknown, &implicit),
        ("dcmconv +dict +tb - -", &unknown, &big),
        ("dcmconv +dict +te - -", &implicit, &little),
        ("dcmconv +dict +te - -", &big, &little),
    ] {
        let answer = over_memory(rt.alloc(), words, input.as_slice(), 7, 5000)?;
        let wanted = Wanted {
            status: 0,
            output: output.as_slice(),
            told: b"",
        };
        expect_answer(words, &answer, wanted)?;
    }
    Ok(())
}

#[test]
fn edit_in_the_last_level(rt: HostRuntime) -> Result<(), Fail> {
    let group = Start::ExplicitLittle.bytes();
    let file = around(rt.alloc(), 0, 63, b"\x10\0 \0\x02\0\0\07 ")?;
    let opened = repeated(rt.alloc(), group, OPENINGS, 64, b"\x10\0 \0LO\x02\09 ")?;
    let output = repeated(rt.alloc(), opened.as_slice(), ENDS, 64, b"")?;
    let wanted = Wanted {
        status: 0,
        output: output.as_slice(),
        told: b"",
    };
    let words = "dcmodify +dict -ma PatientID=9 - -";
    let answer = over_memory(rt.alloc(), words, file.as_slice(), 7, 5000)?;
    expect_answer(words, &answer, wanted)
}

/// A text of 65,535 bytes has no short form with its pad byte. The tag is one of a sequence: as it is written, so it is
/// read back, as a sequence, which it is not.
#[test]
fn text_that_reads_back_as_a_sequence(rt: HostRuntime) -> Result<(), Fail> {
    let start = Start::ExplicitLittle;
    let text = letters(rt.alloc(), start, b"\x08\0@\x11LO\xff\xff", b"")?;
    let written = letters(rt.alloc(), start, b"\x08\0@\x11UN\0\0\0\0\x01\0", b" ")?;
    let opened = joined(
        rt.alloc(),
        start.bytes(),
        b"\x08\0@\x11SQ\0\0\xff\xff\xff\xff",
    )?;
    for (input, wanted) in [
        (
            &text,
            Wanted {
                status: 0,
                output: written.as_slice(),
                told: b"",
            },
        ),
        (
            &written,
            Wanted {
                status: 2,
                output: opened.as_slice(),
                told: b"dcmtools: R9 at byte 184: tag not allowed here\n",
            },
        ),
    ] {
        let answer = over_memory(
            rt.alloc(),
            "dcmconv +dict - -",
            input.as_slice(),
            1000,
            70_000,
        )?;
        expect_answer("a long text", &answer, wanted)?;
    }
    Ok(())
}
