// The lines of a dump, by the bytes that they are built into.
use dcm_base::{LineFault, LineStop, MemOut, Stopped, Watched};
use dcm_build::{BuildHalt, Builder};
use std::test::Fail;

/// The line of a meta group, and what it is built into after the preamble.
const META_LINE: &[u8] = b"(0002,0010) UI [1.2.840.10008.1.2.1]\n";

const META: &[u8] =
    b"DICM\x02\x00\x00\x00UL\x04\x00\x1C\x00\x00\x00\x02\x00\x10\x00UI\x14\x001.2.840.10008.1.2.1\x00";

const PREAMBLE: usize = 128;

const MOST_LINE: usize = 200;

/// What lines are built into after the meta group, or how they are refused.
fn built(rt: HostRuntime, lines: &[u8]) -> Result<Result<Vec<u8>, BuildHalt>, Fail> {
    let mut room = Vec::new(rt.alloc());
    room.extend_from_slice(&[0; 400])?;
    let mut out = Watched::new(MemOut::new(room));
    let mut builder = Builder::new(MOST_LINE);
    if builder.feed(META_LINE, &mut out).is_err() {
        return Err(Fail::new("the meta group is refused"));
    }
    if let Err(halt) = builder.feed(lines, &mut out) {
        return Ok(Err(halt));
    }
    if let Err(halt) = builder.finish(&mut out) {
        return Ok(Err(halt));
    }
    let Some((_, rest)) = out.device().written().split_at_checked(PREAMBLE) else {
        return Err(Fail::new("no preamble"));
    };
    match rest.strip_prefix(META) {
        Some(set) => Ok(Ok(set.to_vec(rt.alloc())?)),
        None => Err(Fail::new("another meta group")),
    }
}

/// Whether a line is built into these bytes.
fn builds(rt: HostRuntime, line: &[u8], bytes: &[u8]) -> Result<bool, Fail> {
    match built(rt, line)? {
        Ok(set) => Ok(set.as_slice() == bytes),
        Err(_) => Ok(false),
    }
}

#[test]
fn skips_lines(rt: HostRuntime) -> Result<(), Fail> {
    for line in [
        b"".as_slice(),
        b"    ".as_slice(),
        b"# Dicom-Data-Set".as_slice(),
        b"  #(0010,0010) PN [AB]".as_slice(),
        b"\n\n".as_slice(),
    ] {
        assert!(rt; builds(rt, line, b"")?);
    }
    Ok(())
}

#[test]
fn shows_leaves(rt: HostRuntime) -> Result<(), Fail> {
    for (line, bytes) in [
        (
            b"(0010,0010) PN [AB^CD]              #   6, 1 PatientName".as_slice(),
            b"\x10\x00\x10\x00PN\x06\x00AB^CD ".as_slice(),
        ),
        (
            b"    (0010,0010)   PN  [A B] # x".as_slice(),
            b"\x10\x00\x10\x00PN\x04\x00A B ".as_slice(),
        ),
        (
            b"(0010,0010) PN [AB]".as_slice(),
            b"\x10\x00\x10\x00PN\x02\x00AB".as_slice(),
        ),
        (
            b"(0010,0010) PN [AB]\r".as_slice(),
            b"\x10\x00\x10\x00PN\x02\x00AB".as_slice(),
        ),
        (
            b"(0010,0010) PN [AB]#".as_slice(),
            b"\x10\x00\x10\x00PN\x02\x00AB".as_slice(),
        ),
        (
            b"(0010,0010) PN (no value available)  # 0".as_slice(),
            b"\x10\x00\x10\x00PN\x00\x00".as_slice(),
        ),
        (
            b"(7FE0,0010) OW 0201\\0403 #".as_slice(),
            b"\xE0\x7F\x10\x00OW\x00\x00\x04\x00\x00\x00\x01\x02\x03\x04".as_slice(),
        ),
        (
            b"(0008,1140) UN 41\\42".as_slice(),
            b"\x08\x00\x40\x11UN\x00\x00\x02\x00\x00\x00AB".as_slice(),
        ),
    ] {
        assert!(rt; builds(rt, line, bytes)?);
    }
    Ok(())
}

#[test]
fn shows_lists(rt: HostRuntime) -> Result<(), Fail> {
    let sequence =
        b"(0008,1140) SQ (Sequence with explicit length)  # 20, 1\n  (fffe,e000) na (Item with explicit length)  #  12, 1 Item\n(fffe,e00d) na (ItemDelimitationItem)\n(fffe,e0dd) na (SequenceDelimitationItem)";
    let set =
        b"\x08\x00\x40\x11SQ\x00\x00\xFF\xFF\xFF\xFF\xFE\xFF\x00\xE0\xFF\xFF\xFF\xFF\xFE\xFF\x0D\xE0\x00\x00\x00\x00\xFE\xFF\xDD\xE0\x00\x00\x00\x00";
    assert!(rt; builds(rt, sequence, set)?);
    Ok(())
}

#[test]
fn refuses_lines(rt: HostRuntime) -> Result<(), Fail> {
    for line in [
        b"(0010,0010)".as_slice(),
        b"(0010,0010) P".as_slice(),
        b"(0010,0010) PN".as_slice(),
        b"(0010,0010) PN   ".as_slice(),
        b"(0010,0010) PN # [AB]".as_slice(),
        b"(0010,0010)PN [AB]".as_slice(),
        b"(0010,0010) PN[AB]".as_slice(),
        b"(0010,0010) PNX [AB]".as_slice(),
        b"(0010,0010) pn [AB]".as_slice(),
        b"(0010,001) PN [AB]".as_slice(),
        b"(0010.0010) PN [AB]".as_slice(),
        b"(0010,0010) PN [A]B]".as_slice(),
        b"(0010,0010) PN AB CD".as_slice(),
        b"(0010,0010) PN (a) b)".as_slice(),
        b"(0010,0010) na (Item with".as_slice(),
        b"(fffe,e000) SQ (Sequence with".as_slice(),
        b"(fffe,e000) na (Item".as_slice(),
        b"(fffe,e000) pi 00 ff".as_slice(),
        b"(fffe,e00d) pi 00".as_slice(),
        b"(fffe,e00d) na (Item with".as_slice(),
        b"(fffe,e0dd) na (ItemDelimitationItem)".as_slice(),
        b"(fffe,e001) na (SequenceDelimitationItem)".as_slice(),
    ] {
        let answer = built(rt, line)?;
        let stop = LineStop {
            fault: LineFault::NotALine,
            offset: META_LINE.len() as u64,
            line: 2,
        };
        assert!(rt; answer.is_err());
        match answer {
            Err(Stopped::Refused(found)) => assert!(rt; found == stop),
            _ => assert!(rt; false),
        }
    }
    Ok(())
}
