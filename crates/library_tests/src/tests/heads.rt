ghost use Rattle.std.specs.Prelude.{◌<◌};
ghost use Rattle.dcm_head.specs.MetaReading.{IsOpen};

use arrayvec::ArrayVec;
use dcm_base::{Coding, Dictionary, Fault, Length, MemOut, Stop, Syntax, Tag, Vr, Watched};
use dcm_head::{Head, HeadRead, Meta, MetaRead, SyntaxUid, read_head, write_head, write_meta};
use std::alloc::{AllocError, Global};
use std::test::Fail;

/// The syntaxes, with the dictionary's extract.
const IMPLICIT: Syntax = Syntax::Implicit(Dictionary::Extract);

const LITTLE: Syntax = Syntax::LITTLE;

const BIG: Syntax = Syntax::Big(Dictionary::Extract);

/// The group of a file in Explicit VR Little Endian.
const GROUP: &[u8] =
    b"\x02\x00\x00\x00UL\x04\x00\x1C\x00\x00\x00\x02\x00\x10\x00UI\x14\x001.2.840.10008.1.2.1\x00";

/// The head of a meta element with room for a value of four bytes of length.
const PRIVATE: &[u8] = b"\x02\x00\x02\x01OB\x00\x00";

/// What a file's head is read as: a data set at an offset, or a refusal.
#[derive(Clone, Copy, Debug, PartialEq, Eq)]
enum Answer {
    DataSetAt(usize),
    Refused(Fault, u64),
}

fn refused(stop: Stop) -> Answer {
    Answer::Refused(stop.fault, stop.at)
}

fn file(alloc: Global, group: &[u8]) -> Result<Vec<u8>, AllocError> {
    let mut bytes = Vec::new(alloc);
    bytes.extend_from_slice(&[0; 128])?;
    bytes.extend_from_slice(b"DICM")?;
    bytes.extend_from_slice(group)?;
    Ok(bytes)
}

fn ended(meta: &mut Meta) -> Answer
    requires { IsOpen meta.old.end }
{
    match meta.finish() {
        Ok(()) => Answer::DataSetAt(132 + meta.bytes().len()),
        Err(stop) => refused(stop),
    }
}

/// Reads a file's head in pieces of this size.
fn read(file: &[u8], size: usize) -> Answer
    requires { 0 < size }
{
    let mut meta = Meta::new();
    let mut before: usize = 0;
    for piece in file.chunks(size) {
        match meta.feed(piece) {
            MetaRead::More => before = before.saturating_add(piece.len()),
            MetaRead::Refused(stop) => return refused(stop),
            MetaRead::Ended { used, ahead } => {
                let begun = usize::from(ahead.is_some());
                return Answer::DataSetAt(before.saturating_add(used).saturating_sub(begun));
            }
        }
    }
    ended(&mut meta)
}

/// Whether pieces of each size lead to this answer.
fn is_read(file: &[u8], answer: Answer) -> bool {
    read(file, 16_600) == answer
        && read(file, 1) == answer
        && read(file, 2) == answer
        && read(file, 3) == answer
        && read(file, 7) == answer
}

#[test]
fn ends_too_early(rt: HostRuntime) -> Result<(), Fail> {
    let mut cut = file(rt.alloc(), GROUP)?;
    cut.pop();
    assert!(rt; is_read(&[], Answer::Refused(Fault::EndsEarly, 0)));
    assert!(rt; is_read(&[0; 131], Answer::Refused(Fault::EndsEarly, 131)));
    assert!(rt; is_read(cut.as_slice(), Answer::Refused(Fault::EndsEarly, 171)));
    let mut one_more = file(rt.alloc(), GROUP)?;
    one_more.push(0x02)?;
    assert!(rt; is_read(one_more.as_slice(), Answer::Refused(Fault::EndsEarly, 173)));
    Ok(())
}

#[test]
fn has_no_prefix(rt: HostRuntime) -> Result<(), Fail> {
    assert!(rt; is_read(&[0; 132], Answer::Refused(Fault::NoPrefix, 128)));
    Ok(())
}

#[test]
fn is_whole(rt: HostRuntime) -> Result<(), Fail> {
    let mut whole = file(rt.alloc(), GROUP)?;
    assert!(rt; is_read(whole.as_slice(), Answer::DataSetAt(172)));
    whole.extend_from_slice(b"\x10\x00\x10\x00PN\x06\x00AB^CD ")?;
    assert!(rt; is_read(whole.as_slice(), Answer::DataSetAt(172)));
    Ok(())
}

#[test]
fn reaches_the_limit(rt: HostRuntime) -> Result<(), Fail> {
    let mut large = file(rt.alloc(), GROUP)?;
    large.extend_from_slice(PRIVATE)?;
    large.extend_from_slice(&[0xCD, 0x3F, 0, 0])?;
    assert!(rt; is_read(large.as_slice(), Answer::Refused(Fault::MetaTooLarge, 172)));
    let mut cut = file(rt.alloc(), GROUP)?;
    cut.extend_from_slice(PRIVATE)?;
    cut.extend_from_slice(&[0xCC, 0x3F, 0, 0])?;
    assert!(rt; is_read(cut.as_slice(), Answer::Refused(Fault::EndsEarly, 184)));
    cut.extend_from_slice(&[0; 16_332])?;
    assert!(rt; is_read(cut.as_slice(), Answer::DataSetAt(16_516)));
    cut.extend_from_slice(&[0x10, 0])?;
    assert!(rt; is_read(cut.as_slice(), Answer::DataSetAt(16_516)));
    Ok(())
}

#[test]
fn has_bad_elements(rt: HostRuntime) -> Result<(), Fail> {
    let bad = Answer::Refused(Fault::BadMeta, 172);
    let mut letters = file(rt.alloc(), GROUP)?;
    letters.extend_from_slice(b"\x02\x00\x02\x01ob\x00\x00")?;
    assert!(rt; is_read(letters.as_slice(), bad));
    let mut sequence = file(rt.alloc(), GROUP)?;
    sequence.extend_from_slice(b"\x02\x00\x02\x01SQ\x00\x00\x00\x00\x00\x00")?;
    assert!(rt; is_read(sequence.as_slice(), bad));
    let mut undefined = file(rt.alloc(), GROUP)?;
    undefined.extend_from_slice(PRIVATE)?;
    undefined.extend_from_slice(&[0xFF; 4])?;
    assert!(rt; is_read(undefined.as_slice(), bad));
    Ok(())
}

#[test]
fn names_no_syntax(rt: HostRuntime) -> Result<(), Fail> {
    let none = file(rt.alloc(), &[])?;
    assert!(rt;
        is_read(
            none.as_slice(),
            Answer::Refused(Fault::NoTransferSyntax, 132)
        )
    );
    let mut other = file(rt.alloc(), b"\x02\x00\x00\x00UL\x04\x00\x1C\x00\x00\x00")?;
    assert!(rt;
        is_read(
            other.as_slice(),
            Answer::Refused(Fault::NoTransferSyntax, 144)
        )
    );
    other.extend_from_slice(b"\x02\x00\x10\x00UI\x02\x00 \x00")?;
    assert!(rt;
        is_read(
            other.as_slice(),
            Answer::Refused(Fault::NoTransferSyntax, 154)
        )
    );
    Ok(())
}

#[test]
fn names_a_deflated_syntax(rt: HostRuntime) -> Result<(), Fail> {
    let deflated = file(
        rt.alloc(),
        b"\x02\x00\x00\x00UL\x04\x00\x1E\x00\x00\x00\x02\x00\x10\x00UI\x16\x001.2.840.10008.1.2.1.99",
    )?;
    assert!(rt; is_read(deflated.as_slice(), Answer::Refused(Fault::Deflated, 174)));
    Ok(())
}

#[test]
fn byte_ahead(rt: HostRuntime) -> Result<(), Fail> {
    let front = file(rt.alloc(), &[])?;
    let mut meta = Meta::new();
    let MetaRead::More = meta.feed(front.as_slice()) else {
        return Err("the prefix ended the group".into());
    };
    let MetaRead::More = meta.feed(GROUP) else {
        return Err("the group ended with its last byte".into());
    };
    let MetaRead::More = meta.feed(&[0x10]) else {
        return Err("the group ended with one byte".into());
    };
    assert!(rt;
        meta.feed(&[0x00, 0x10, 0x00])
            == MetaRead::Ended {
                used: 0,
                ahead: Some(0x10)
            }
    );
    Ok(())
}

#[test]
fn getters(rt: HostRuntime) -> Result<(), Fail> {
    let mut whole = Vec::new(rt.alloc());
    whole.extend_from_slice(&[7; 128])?;
    whole.extend_from_slice(b"DICM")?;
    whole.extend_from_slice(GROUP)?;
    whole.extend_from_slice(&[0x10, 0x00])?;
    let mut meta = Meta::new();
    let MetaRead::Ended { used, ahead } = meta.feed(whole.as_slice()) else {
        return Err("the group did not end".into());
    };
    assert!(rt; used == 172 && ahead.is_none());
    assert!(rt; meta.preamble() == [7; 128].as_slice());
    assert!(rt; meta.bytes() == GROUP);
    assert!(rt; meta.uid().as_bytes() == b"1.2.840.10008.1.2.1".as_slice());
    assert!(rt;
        meta.coding()
            == Coding {
                syntax: LITTLE,
                encapsulated: false
            }
    );
    Ok(())
}

#[test]
fn refusal_stays(rt: HostRuntime) -> Result<(), Fail> {
    let mut meta = Meta::new();
    let stop = Stop {
        fault: Fault::NoPrefix,
        at: 128,
    };
    assert!(rt; meta.feed(&[0; 140]) == MetaRead::Refused(stop));
    assert!(rt; meta.finish() == Err(stop));
    Ok(())
}

#[test]
fn heads(rt: HostRuntime) -> Result<(), Fail> {
    let tag = Tag {
        group: 0x0010,
        element: 0x0010,
    };
    let length = Length::Known(6);
    let name = Head {
        tag,
        vr: Vr::PN,
        length,
    };
    assert!(rt; read_head(LITTLE, b"\x10\x00\x10\x00PN\x06\x00AB") == HeadRead::Done(name, 8));
    assert!(rt;
        read_head(IMPLICIT, b"\x10\x00\x10\x00\x06\x00\x00\x00") == HeadRead::Done(name, 8)
    );
    assert!(rt; read_head(BIG, b"\x00\x10\x00\x10PN\x00\x06") == HeadRead::Done(name, 8));
    assert!(rt; read_head(LITTLE, b"\x10\x00\x10\x00pn\x02\x00") == HeadRead::BadVr);
    assert!(rt; read_head(LITTLE, b"\x10\x00\x10\x00PN\x06") == HeadRead::More(8));
    Ok(())
}

#[test]
fn implicit_heads_by_each_dictionary(rt: HostRuntime) {
    let tag = Tag {
        group: 0x0018,
        element: 0x1151,
    };
    let length = Length::Known(4);
    let bytes = b"\x18\x00\x51\x11\x04\x00\x00\x00".as_slice();
    for (dictionary, vr) in [
        (Dictionary::Extract, Vr::UN),
        (Dictionary::Standard, Vr::IS),
    ] {
        let head = Head { tag, vr, length };
        let syntax = Syntax::Implicit(dictionary);
        assert!(rt; read_head(syntax, bytes) == HeadRead::Done(head, 8));
        assert!(rt; write_head(syntax, &head).as_slice() == bytes);
    }
}

#[test]
fn explicit_heads_by_each_dictionary(rt: HostRuntime) {
    let tag = Tag {
        group: 0x0018,
        element: 0x1151,
    };
    let head = Head {
        tag,
        vr: Vr::LO,
        length: Length::Known(4),
    };
    let little = b"\x18\x00\x51\x11LO\x04\x00".as_slice();
    let big = b"\x00\x18\x11\x51LO\x00\x04".as_slice();
    for dictionary in [Dictionary::Extract, Dictionary::Standard] {
        assert!(rt; read_head(Syntax::Little(dictionary), little) == HeadRead::Done(head, 8));
        assert!(rt; read_head(Syntax::Big(dictionary), big) == HeadRead::Done(head, 8));
    }
}

#[test]
fn long_heads(rt: HostRuntime) -> Result<(), Fail> {
    let tag = Tag {
        group: 0x0009,
        element: 0x1001,
    };
    let length = Length::Known(2);
    let unknown = Head {
        tag,
        vr: Vr::UN,
        length,
    };
    assert!(rt; read_head(LITTLE, b"\x09\x00\x01\x10ZZ\x01\x02\x02\x00\x00") == HeadRead::More(12));
    assert!(rt;
        read_head(LITTLE, b"\x09\x00\x01\x10ZZ\x01\x02\x02\x00\x00\x00")
            == HeadRead::Done(unknown, 12)
    );
    let undefined = Head {
        tag,
        vr: Vr::UN,
        length: Length::Undefined,
    };
    assert!(rt;
        read_head(BIG, b"\x00\x09\x10\x01UN\x00\x00\xFF\xFF\xFF\xFF")
            == HeadRead::Done(undefined, 12)
    );
    Ok(())
}

#[test]
fn items(rt: HostRuntime) -> Result<(), Fail> {
    let item = Head {
        tag: Tag {
            group: 0xFFFE,
            element: 0xE000,
        },
        vr: Vr::UN,
        length: Length::Undefined,
    };
    let end = Head {
        tag: Tag {
            group: 0xFFFE,
            element: 0xE0DD,
        },
        vr: Vr::UN,
        length: Length::Known(0),
    };
    assert!(rt; read_head(LITTLE, b"\xFE\xFF\x00\xE0\xFF\xFF\xFF\xFF") == HeadRead::Done(item, 8));
    assert!(rt; read_head(BIG, b"\xFF\xFE\xE0\xDD\x00\x00\x00\x09") == HeadRead::Done(end, 8));
    Ok(())
}

#[test]
fn written_heads(rt: HostRuntime) -> Result<(), Fail> {
    let tag = Tag {
        group: 0x0010,
        element: 0x0010,
    };
    let name = Head {
        tag,
        vr: Vr::PN,
        length: Length::Known(6),
    };
    assert!(rt; write_head(LITTLE, &name).as_slice() == b"\x10\x00\x10\x00PN\x06\x00".as_slice());
    assert!(rt; write_head(BIG, &name).as_slice() == b"\x00\x10\x00\x10PN\x00\x06".as_slice());
    assert!(rt;
        write_head(IMPLICIT, &name).as_slice() == b"\x10\x00\x10\x00\x06\x00\x00\x00".as_slice()
    );
    let tag = Tag {
        group: 0x0009,
        element: 0x1001,
    };
    let unknown = Head {
        tag,
        vr: Vr::UN,
        length: Length::Undefined,
    };
    assert!(rt;
        write_head(BIG, &unknown).as_slice()
            == b"\x00\x09\x10\x01UN\x00\x00\xFF\xFF\xFF\xFF".as_slice()
    );
    let tag = Tag {
        group: 0xFFFE,
        element: 0xE00D,
    };
    let end = Head {
        tag,
        vr: Vr::UN,
        length: Length::Known(9),
    };
    assert!(rt;
        write_head(LITTLE, &end).as_slice() == b"\xFE\xFF\x0D\xE0\x00\x00\x00\x00".as_slice()
    );
    Ok(())
}

/// A group with an old length, reserved bytes, an odd value, and two transfer syntaxes.
const OLD_GROUP: &[u8] =
    b"\x02\x00\x00\x00UL\x04\x00\x63\x00\x00\x00\x02\x00\x01\x00OB\x07\x08\x01\x00\x00\x00\x05\x02\x00\x10\x00LO\x02\x001 \x02\x00\x10\x00UI\x02\x002\x00\x02\x00\x16\x00AE\x01\x00A";

const NEW_GROUP: &[u8] =
    b"\x02\x00\x00\x00UL\x04\x00\x32\x00\x00\x00\x02\x00\x01\x00OB\x00\x00\x02\x00\x00\x00\x05\x00\x02\x00\x10\x00UI\x12\x001.2.840.10008.1.2\x00\x02\x00\x16\x00AE\x02\x00A ";

#[test]
fn rewritten(rt: HostRuntime) -> Result<(), Fail> {
    let mut whole = file(rt.alloc(), OLD_GROUP)?;
    whole.extend_from_slice(&[0x10, 0x00])?;
    let mut meta = Meta::new();
    let MetaRead::Ended { .. } = meta.feed(whole.as_slice()) else {
        return Err("the group did not end".into());
    };
    let mut room = Vec::new(rt.alloc());
    room.extend_from_slice(&[0; 100])?;
    let mut out = Watched::new(MemOut::new(room));
    let uid = SyntaxUid::of(IMPLICIT);
    assert!(rt; meta.rewritten(&uid, &mut out).is_ok());
    assert!(rt; out.device().written() == NEW_GROUP);
    Ok(())
}

#[test]
fn rewritten_without_room(rt: HostRuntime) -> Result<(), Fail> {
    let mut room = Vec::new(rt.alloc());
    room.extend_from_slice(&[0; 31])?;
    let mut out = Watched::new(MemOut::new(room));
    let mut group = ArrayVec::new();
    assert!(rt; group.try_extend_from_slice(OLD_GROUP).is_ok());
    let uid = SyntaxUid::of(IMPLICIT);
    assert!(rt; write_meta(&group, &uid, &mut out).is_err());
    assert!(rt; out.failed());
    assert!(rt; NEW_GROUP.starts_with(out.device().written()));
    assert!(rt; out.device().written().len() == 31);
    Ok(())
}
