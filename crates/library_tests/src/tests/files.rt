use dcm_base::{LineFault, LineStop, MemOut, Stopped, Watched};
use dcm_build::{BuildHalt, Builder};
use std::test::Fail;

/// The line of a meta group, and that of an element of the data set.
const META_LINE: &[u8] = b"(0002,0010) UI [1.2.840.10008.1.2.1]\n";

const NAME_LINE: &[u8] = b"(0010,0010) PN [A]\n";

const SEQUENCE_LINE: &[u8] = b"(0008,1140) SQ (Sequence with undefined length #=1)";

/// What is written of the meta group behind the preamble, and of the element.
const META: &[u8] =
    b"DICM\x02\x00\x00\x00UL\x04\x00\x1C\x00\x00\x00\x02\x00\x10\x00UI\x14\x001.2.840.10008.1.2.1\x00";

const NAME: &[u8] = b"\x10\x00\x10\x00PN\x02\x00A ";

const PREAMBLE: usize = 128;

/// An output that has room for so many bytes.
fn output(rt: HostRuntime, room: usize) -> Result<Watched<MemOut>, Fail> {
    let mut bytes = Vec::new(rt.alloc());
    for _ in 0..room {
        bytes.push(1)?;
    }
    Ok(Watched::new(MemOut::new(bytes)))
}

/// Feeds lines in pieces of so many bytes.
fn feed(
    builder: &mut Builder,
    lines: &[u8],
    step: usize,
    out: &mut Watched<MemOut>,
) -> Result<(), BuildHalt> {
    for piece in lines.chunks(step.max(1)) {
        builder.feed(piece, out)?;
    }
    Ok(())
}

/// Whether the preamble stands there, and then the two parts.
fn is_file(written: &[u8], meta: &[u8], set: &[u8]) -> bool {
    let Some((preamble, rest)) = written.split_at_checked(PREAMBLE) else {
        return false;
    };
    preamble == [0; PREAMBLE].as_slice() && rest.strip_prefix(meta) == Some(set)
}

fn refused(fault: LineFault, offset: u64, line: u64) -> Result<(), BuildHalt> {
    Err(Stopped::Refused(LineStop {
        fault,
        offset,
        line,
    }))
}

/// A failure where it does not hold.
fn holds(is_so: bool, what: &'static str) -> Result<(), Fail> {
    if is_so {
        return Ok(());
    }
    Err(what)?
}

/// Builds a file from lines in pieces of so many bytes. Nothing of it goes out before its meta group has ended.
fn builds(rt: HostRuntime, step: usize) -> Result<(), Fail> {
    let mut out = output(rt, 200)?;
    let mut builder = Builder::new(80);
    let is_fed = feed(&mut builder, META_LINE, step, &mut out).is_ok();
    holds(is_fed, "the meta group is refused")?;
    holds(out.device().written().is_empty(), "written too early")?;
    let is_fed = feed(&mut builder, NAME_LINE, step, &mut out).is_ok();
    holds(is_fed, "the element is refused")?;
    let is_written = is_file(out.device().written(), META, NAME);
    holds(is_written, "another file")?;
    holds(builder.finish(&mut out).is_ok(), "the end is refused")?;
    let is_written = is_file(out.device().written(), META, NAME);
    holds(is_written, "another file at the end")
}

#[test]
fn builds_whole(rt: HostRuntime) -> Result<(), Fail> {
    builds(rt, 1000)
}

#[test]
fn builds_in_pieces(rt: HostRuntime) -> Result<(), Fail> {
    builds(rt, 1)?;
    builds(rt, 2)?;
    builds(rt, 3)
}

#[test]
fn writes_at_the_newline(rt: HostRuntime) -> Result<(), Fail> {
    let mut out = output(rt, 200)?;
    let mut builder = Builder::new(80);
    assert!(rt; builder.feed(META_LINE, &mut out).is_ok());
    assert!(rt; builder.feed(b"(0010,0010) PN [A]", &mut out).is_ok());
    assert!(rt; out.device().written().is_empty());
    assert!(rt; builder.feed(b"\n", &mut out).is_ok());
    assert!(rt; is_file(out.device().written(), META, NAME));
    Ok(())
}

#[test]
fn builds_group_at_end(rt: HostRuntime) -> Result<(), Fail> {
    let mut out = output(rt, 200)?;
    let mut builder = Builder::new(80);
    let Some((_, line)) = META_LINE.split_last() else {
        return Ok(());
    };
    assert!(rt; builder.feed(line, &mut out).is_ok());
    assert!(rt; builder.finish(&mut out).is_ok());
    assert!(rt; is_file(out.device().written(), META, &[]));
    Ok(())
}

#[test]
fn answers_same_refusal(rt: HostRuntime) -> Result<(), Fail> {
    let mut out = output(rt, 200)?;
    let mut builder = Builder::new(80);
    assert!(rt; builder.feed(META_LINE, &mut out).is_ok());
    assert!(rt; builder.feed(b"# no element\nPN", &mut out).is_ok());
    let answer = refused(LineFault::NotALine, 50, 3);
    assert!(rt; builder.feed(b" [A]\n", &mut out) == answer);
    assert!(rt; builder.feed(NAME_LINE, &mut out) == answer);
    assert!(rt; builder.finish(&mut out) == answer);
    assert!(rt; out.device().written().is_empty());
    Ok(())
}

#[test]
fn refuses_long_line(rt: HostRuntime) -> Result<(), Fail> {
    let mut out = output(rt, 200)?;
    let mut builder = Builder::new(8);
    assert!(rt; builder.feed(b"# 345678\n# 34567", &mut out).is_ok());
    assert!(rt; builder.feed(b"8", &mut out).is_ok());
    assert!(rt; builder.feed(b"9", &mut out) == refused(LineFault::LineTooLong, 9, 2));
    Ok(())
}

#[test]
fn refuses_open_sequence(rt: HostRuntime) -> Result<(), Fail> {
    let mut out = output(rt, 200)?;
    let mut builder = Builder::new(80);
    assert!(rt; builder.feed(META_LINE, &mut out).is_ok());
    assert!(rt; builder.feed(SEQUENCE_LINE, &mut out).is_ok());
    let size = META_LINE.len() as u64 + SEQUENCE_LINE.len() as u64;
    assert!(rt; builder.finish(&mut out) == refused(LineFault::EndsEarly, size, 3));
    Ok(())
}

#[test]
fn tells_failed_output(rt: HostRuntime) -> Result<(), Fail> {
    let mut out = output(rt, 100)?;
    let mut builder = Builder::new(80);
    assert!(rt; builder.feed(META_LINE, &mut out).is_ok());
    assert!(rt; builder.feed(NAME_LINE, &mut out) == Err(Stopped::Output));
    assert!(rt; out.failed());
    assert!(rt; builder.feed(NAME_LINE, &mut out) == Err(Stopped::Output));
    assert!(rt; builder.finish(&mut out) == Err(Stopped::Output));
    Ok(())
}
