// Dumps whose texts are shown as characters.
use dcm_base::{Coding, Dictionary, MemOut, Mode, Syntax, Watched};
use dcm_sinks::DecodedDumpSink;
use dcm_stream::Machine;
use std::test::Fail;

const LITTLE: Coding = Coding {
    syntax: Syntax::LITTLE,
    encapsulated: false,
};

/// Latin-1 outside; UTF-8 in an item, where the value that names it is unknown; after the sequence Latin-1 again.
#[rattlefmt::skip]
const SETS: &[u8] = b"\x08\x00\x05\x00CS\n\x00ISO_IR 100\
    \x10\x00\x10\x00PN\x06\x00M\xFCller\
    @\x00u\x02SQ\x00\x00\xFF\xFF\xFF\xFF\xFE\xFF\x00\xE0\xFF\xFF\xFF\xFF\
    \x08\x00\x05\x00UN\x00\x00\n\x00\x00\x00ISO_IR 192\x10\x00\x10\x00PN\x02\x00\xC3\xA9\xFE\xFF\x0D\xE0\x00\x00\x00\x00\xFE\xFF\xDD\xE0\x00\x00\x00\x00\
    \x88\x00@\x01UI\x04\x001.2\xE9\x08@\x00\x03ST\x02\x00\xE9 ";

/// A unique identifier is no text that a set concerns.
#[rattlefmt::skip]
const LINES: [&[u8]; 10] = [
    b"(0008,0005) CS [ISO_IR 100]                             #  10, 1 SpecificCharacterSet\n",
    b"(0010,0010) PN [M\xC3\xBCller]                                #   6, 1 PatientName\n",
    b"(0040,0275) SQ (Sequence with undefined length)         # u/l, 1 RequestAttributesSequence\n",
    b"  (fffe,e000) na (Item with undefined length)             # u/l, 1 Item\n",
    b"    (0008,0005) UN 49\\53\\4f\\5f\\49\\52\\20\\31\\39\\32            #  10, 1 SpecificCharacterSet\n",
    b"    (0010,0010) PN [\xC3\xA9]                                     #   2, 1 PatientName\n",
    b"  (fffe,e00d) na (ItemDelimitationItem)                   #   0, 0 ItemDelimitationItem\n",
    b"(fffe,e0dd) na (SequenceDelimitationItem)               #   0, 0 SequenceDelimitationItem\n",
    b"(0088,0140) UI [1.2%E9]                                 #   4, 1 StorageMediaFileSetUID\n",
    b"(4008,0300) ST [\xC3\xA9]                                     #   2, 1 Impressions\n",
];

/// A writer that has room for these lines.
fn writer(rt: HostRuntime) -> Result<Watched<MemOut>, Fail> {
    let mut bytes = Vec::new(rt.alloc());
    for _ in 0..1024 {
        bytes.push(0)?;
    }
    Ok(Watched::new(MemOut::new(bytes)))
}

/// What a dump of these pieces is.
fn lines(rt: HostRuntime) -> Result<Vec<u8>, Fail> {
    let mut all = Vec::new(rt.alloc());
    for line in &LINES {
        all.extend_from_slice(line)?;
    }
    Ok(all)
}

#[test]
fn sets_of_items_end_with_them(rt: HostRuntime) -> Result<(), Fail> {
    for step in [1, 2, 3, 7, 200] {
        let mut out = writer(rt)?;
        let mut sink = DecodedDumpSink::new(&mut out, Dictionary::Standard, Mode::Short);
        let mut machine = Machine::new(LITTLE, 0);
        for piece in SETS.chunks(step.max(1)) {
            assert!(rt; machine.feed(piece, &mut sink).is_ok());
        }
        assert!(rt; machine.finish(&mut sink).is_ok());
        assert!(rt;
            out.device().written() == lines(rt)?.as_slice(),
            "pieces of {step}"
        );
    }
    Ok(())
}
