// The examples in the descriptions of the libraries, at the top of each `lib.rt`.
use dcm_base::{
    Coding, Length, MemOut, Mode, Syntax, Tag, Vr, Watched, dict_vr, put_all, put_decimal, tag_of,
};
use dcm_build::Builder;
use dcm_editor::{EditSink, Edits};
use dcm_head::{Head, HeadRead, read_head, write_head};
use dcm_sinks::{DumpSink, EncodeSink};
use dcm_stream::Machine;
use dcm_value::read_value;
use dcm_words::{Job, plan};
use std::test::Fail;

const NAME: &[u8] = b"\x10\x00\x10\x00PN\x06\x00AB^CD ";

const LITTLE: Coding = Coding {
    syntax: Syntax::LITTLE,
    encapsulated: false,
};

/// An output that has room for 300 bytes.
fn output(rt: HostRuntime) -> Result<Watched<MemOut>, Fail> {
    let mut room = Vec::new(rt.alloc());
    room.extend_from_slice(&[0; 300])?;
    Ok(Watched::new(MemOut::new(room)))
}

#[test]
fn devices(rt: HostRuntime) -> Result<(), Fail> {
    let mut out = output(rt)?;
    assert!(rt; put_all(&mut out, b"size ").is_ok() && put_decimal(&mut out, 512, 6).is_ok());
    assert!(rt; out.device().written() == b"size    512".as_slice());
    Ok(())
}

#[test]
fn facts(rt: HostRuntime) {
    let name = Tag {
        group: 0x0010,
        element: 0x0010,
    };
    assert!(rt; tag_of(b"PatientName") == Some(name));
    assert!(rt; dict_vr(name) == Vr::PN && Vr::PN.pad() == b' ');
}

#[test]
fn heads(rt: HostRuntime) {
    let tag = Tag {
        group: 0x0010,
        element: 0x0010,
    };
    let bytes = b"\x10\x00\x10\x00PN\x06\x00".as_slice();
    let name = Head {
        tag,
        vr: Vr::PN,
        length: Length::Known(6),
    };
    assert!(rt; read_head(Syntax::LITTLE, bytes) == HeadRead::Done(name, 8));
    assert!(rt; write_head(Syntax::LITTLE, &name).as_slice() == bytes);
}

#[test]
fn values(rt: HostRuntime) -> Result<(), Fail> {
    let Ok(value) = read_value(Vr::US, b"1\\512") else {
        return Err("no value".into());
    };
    assert!(rt; value.as_slice() == [1, 0, 0, 2].as_slice());
    Ok(())
}

#[test]
fn dumps(rt: HostRuntime) -> Result<(), Fail> {
    let mut out = output(rt)?;
    let mut sink = DumpSink::new(&mut out, Mode::Short);
    let mut machine = Machine::new(LITTLE, 0);
    assert!(rt; machine.feed(NAME, &mut sink).is_ok() && machine.finish(&mut sink).is_ok());
    assert!(rt;
        out.device()
            .written()
            .starts_with(b"(0010,0010) PN [AB^CD] ")
    );
    Ok(())
}

#[test]
fn builds(rt: HostRuntime) -> Result<(), Fail> {
    let mut out = output(rt)?;
    let mut builder = Builder::new(80);
    assert!(rt;
        builder
            .feed(b"(0002,0010) UI =LittleEndianExplicit\n", &mut out)
            .is_ok()
    );
    assert!(rt; builder.feed(b"(0010,0010) PN [AB^CD]", &mut out).is_ok());
    assert!(rt; builder.finish(&mut out).is_ok() && out.device().written().ends_with(NAME));
    Ok(())
}

#[test]
fn edits(rt: HostRuntime) -> Result<(), Fail> {
    let words = [b"-e".as_slice(), b"PatientName".as_slice()];
    let Ok(edits) = Edits::parse(rt.alloc(), &words) else {
        return Err("refused".into());
    };
    let mut out = output(rt)?;
    let mut machine = Machine::new(LITTLE, 0);
    let mut sink = EncodeSink::new(&mut out, Syntax::LITTLE);
    let mut edited = EditSink::new(&edits, &mut sink);
    assert!(rt; machine.feed(NAME, &mut edited).is_ok() && machine.finish(&mut edited).is_ok());
    assert!(rt; edited.unplaced() == 0 && out.device().written().is_empty());
    Ok(())
}

#[test]
fn words(rt: HostRuntime) -> Result<(), Fail> {
    let words = [
        b"dcmconv".as_slice(),
        b"+te".as_slice(),
        b"in".as_slice(),
        b"out".as_slice(),
    ];
    let Ok(planned) = plan(rt.alloc(), &words) else {
        return Err("refused".into());
    };
    assert!(rt; planned.input == b"in".as_slice() && matches!(planned.job, Job::Convert(_)));
    Ok(())
}
