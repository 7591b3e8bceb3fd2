// Lines of a dump that come to a limit.
use crate::runs::{OPENINGS, Wanted, expect_runs};
use dcm_test_devices::{Start, joined, repeated};
use std::alloc::{AllocError, Global};
use std::test::Fail;

const SYNTAX_LINE: &[u8] = b"(0002,0010) UI =LittleEndianExplicit\n";

const WORDS: &str = "dump2dcm - -";

/// The longest text of comments that a line of 4,096 bytes has room for.
const MOST_LETTERS: usize = 4079;

/// The head of comments with 4,080 bytes.
const COMMENTS: &[u8] = b"\x10\0\0@LT\xf0\x0f";

/// The lines of a file with comments of so many letters.
fn comments(alloc: Global, letters: usize) -> Result<Vec<u8>, AllocError> {
    let front = joined(alloc, SYNTAX_LINE, b"(0010,4000) LT [")?;
    repeated(alloc, front.as_slice(), b"a", letters, b"]")
}

#[test]
fn longest_line(rt: HostRuntime) -> Result<(), Fail> {
    let lines = comments(rt.alloc(), MOST_LETTERS)?;
    let front = joined(rt.alloc(), Start::ExplicitLittle.bytes(), COMMENTS)?;
    let file = repeated(rt.alloc(), front.as_slice(), b"a", MOST_LETTERS, b" ")?;
    let wanted = Wanted {
        status: 0,
        output: file.as_slice(),
        told: b"",
    };
    expect_runs(rt.alloc(), "longest line", WORDS, lines.as_slice(), wanted)
}

#[test]
fn line_too_long(rt: HostRuntime) -> Result<(), Fail> {
    let lines = comments(rt.alloc(), MOST_LETTERS + 1)?;
    let wanted = Wanted {
        status: 2,
        output: b"",
        told: b"dcmtools: B1 at byte 37, line 2: line too long\n",
    };
    expect_runs(rt.alloc(), "line too long", WORDS, lines.as_slice(), wanted)
}

#[test]
fn value_that_was_cut(rt: HostRuntime) -> Result<(), Fail> {
    let lines = joined(rt.alloc(), SYNTAX_LINE, b"(0010,0010) PN [AB...")?;
    let wanted = Wanted {
        status: 2,
        output: Start::ExplicitLittle.bytes(),
        told: b"dcmtools: B3 at byte 37, line 2: value does not fit\n",
    };
    expect_runs(
        rt.alloc(),
        "value that was cut",
        WORDS,
        lines.as_slice(),
        wanted,
    )
}

const OPENING_LINES: &[u8] =
    b"(0008,1140) SQ (Sequence with undefined length)\n(fffe,e000) na (Item with undefined length)\n";

#[test]
fn sixty_fifth_sequence(rt: HostRuntime) -> Result<(), Fail> {
    let last = b"(0008,1140) SQ (Sequence with undefined length)";
    let lines = repeated(rt.alloc(), SYNTAX_LINE, OPENING_LINES, 64, last)?;
    let group = Start::ExplicitLittle.bytes();
    let file = repeated(rt.alloc(), group, OPENINGS, 64, b"")?;
    let wanted = Wanted {
        status: 2,
        output: file.as_slice(),
        told: b"dcmtools: B8 at byte 5925, line 130: nested too deep\n",
    };
    expect_runs(rt.alloc(), "65th sequence", WORDS, lines.as_slice(), wanted)
}
