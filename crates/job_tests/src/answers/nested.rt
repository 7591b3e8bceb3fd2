// Deep and long files.
use crate::runs::{
    DEPTH, STEPS, Wanted, expect_runs, header_of, holds, letters, nested, over_memory, sixty_four,
};
use dcm_test_devices::{Start, joined, repeated};
use std::alloc::{AllocError, Global};
use std::test::Fail;

const SEQUENCE: &[u8] = b"\x08\0@\x11SQ\0\0\xff\xff\xff\xff";

const FRAGMENTS: &[u8] = b"\xe0\x7f\x10\0OB\0\0\xff\xff\xff\xff";

const SEQUENCE_LINE: &[u8] =
    b"(0008,1140) SQ (Sequence with undefined length)         # u/l, 1 ReferencedImageSequence\n";

const ITEM_LINE: &[u8] = b"(fffe,e000) na (Item with undefined length)             # u/l, 1 Item\n";

const ITEM_END_LINE: &[u8] =
    b"(fffe,e00d) na (ItemDelimitationItem)                   #   0, 0 ItemDelimitationItem\n";

const SEQUENCE_END_LINE: &[u8] =
    b"(fffe,e0dd) na (SequenceDelimitationItem)               #   0, 0 SequenceDelimitationItem\n";

/// A line at a level.
fn indent(all: &mut Vec<u8>, level: usize, line: &[u8]) -> Result<(), AllocError> {
    for _ in 0..level {
        all.extend_from_slice(b"  ")?;
    }
    all.extend_from_slice(line)?;
    Ok(())
}

/// The lines of the openings.
fn opening_lines(alloc: Global) -> Result<Vec<u8>, AllocError> {
    let mut lines = header_of(Start::ExplicitLittle).to_vec(alloc)?;
    for level in 0..DEPTH {
        indent(&mut lines, 2 * level, SEQUENCE_LINE)?;
        indent(&mut lines, 2 * level + 1, ITEM_LINE)?;
    }
    Ok(lines)
}

#[test]
fn sixty_four_sequences(rt: HostRuntime) -> Result<(), Fail> {
    let file = sixty_four(rt.alloc())?;
    let mut lines = opening_lines(rt.alloc())?;
    for level in (0..DEPTH).rev() {
        indent(&mut lines, 2 * level + 1, ITEM_END_LINE)?;
        indent(&mut lines, 2 * level, SEQUENCE_END_LINE)?;
    }
    let wanted = Wanted {
        status: 0,
        output: lines.as_slice(),
        told: b"",
    };
    expect_runs(
        rt.alloc(),
        "64 sequences",
        "dcmdump -",
        file.as_slice(),
        wanted,
    )
}

#[test]
fn sixty_four_sequences_kept(rt: HostRuntime) -> Result<(), Fail> {
    let file = sixty_four(rt.alloc())?;
    let file = file.as_slice();
    let wanted = Wanted {
        status: 0,
        output: file,
        told: b"",
    };
    expect_runs(rt.alloc(), "64 sequences kept", "dcmconv - -", file, wanted)
}

#[test]
fn one_more(rt: HostRuntime) -> Result<(), Fail> {
    let lines = opening_lines(rt.alloc())?;
    let wanted = Wanted {
        status: 2,
        output: lines.as_slice(),
        told: b"dcmtools: R11 at byte 1452: nested too deep\n",
    };
    for behind in [SEQUENCE, FRAGMENTS] {
        let file = nested(rt.alloc(), behind)?;
        expect_runs(rt.alloc(), "one more", "dcmdump -", file.as_slice(), wanted)?;
    }
    Ok(())
}

/// The largest value of the largest meta group.
const LARGEST: usize = 16_332;

#[test]
fn largest_meta_group(rt: HostRuntime) -> Result<(), Fail> {
    let head = b"\x02\0\x02\x01OB\0\0\xcc\x3f\0\0";
    let front = joined(rt.alloc(), Start::ExplicitLittle.bytes(), head)?;
    let file = repeated(rt.alloc(), front.as_slice(), b"\0", LARGEST, b"")?;
    let wanted =
        b"(0002,0102) OB 00\\00\\00\\00\\00\\00\\00\\00\\00\\00\\00\\00\\00\\00\\00\\00\\00\\00\\00\\00\\00\\... # 16332, 1 PrivateInformation\n\n# Dicom-Data-Set\n# Used TransferSyntax: LittleEndianExplicit\n".as_slice();
    for step in STEPS {
        let answer = over_memory(rt.alloc(), "dcmdump -", file.as_slice(), step, 3000)?;
        let is_dumped = answer.status == 0 && answer.told.is_empty();
        holds("largest meta group", "status", is_dumped)?;
        let is_shown = answer.output.ends_with(wanted);
        holds("largest meta group", "output", is_shown)?;
    }
    Ok(())
}

#[test]
fn text_past_its_short_form(rt: HostRuntime) -> Result<(), Fail> {
    let file = letters(rt.alloc(), Start::Implicit, b"\x10\0\0@\xff\xff\0\0", b"")?;
    let head = b"\x10\0\0@UN\0\0\0\0\x01\0";
    let output = letters(rt.alloc(), Start::ExplicitLittle, head, b" ")?;
    let wanted = Wanted {
        status: 0,
        output: output.as_slice(),
        told: b"",
    };
    expect_runs(
        rt.alloc(),
        "a long text",
        "dcmconv +te - -",
        file.as_slice(),
        wanted,
    )
}
