// What callers are told of a sink after its writer failed, of an element that came whole as of one that came by tokens.
use super::{holds, words_of};
use dcm_base::{Dictionary, Form, Length, MemOut, Syntax, Tag, Vr, Watched, form_of, read_as};
use dcm_deid::{DeidentifySink, Options};
use dcm_editor::{EditSink, Edits};
use dcm_head::Head;
use dcm_sinks::EncodeSink;
use dcm_stream::{Bar, Sink, Token, take_all};
use dcm_words::{Job, plan};
use std::test::Fail;

/// The most bytes for which an output has room.
const MOST_ROOM: usize = 160;

/// Numbers are turned round on their way to it.
const TARGET: Syntax = Syntax::Big(Dictionary::Extract);

/// An element, and what a line of the test is called.
#[derive(Clone, Copy)]
struct Leaf {
    name: &'static str,
    tag: Tag,
    vr: Vr,
    value: &'static [u8],
}

/// How a sink is given elements.
#[derive(Clone, Copy, PartialEq, Eq)]
enum Way {
    Whole,
    ByTokens,
}

/// What a caller is told: whether the writer failed, whether heads of the tag before, of this tag and of the tag after
/// are taken, and which edits found no place or whether pixels may show identity.
#[derive(Clone, Copy, Debug, PartialEq, Eq)]
struct Told {
    took: bool,
    before: Result<(), Bar>,
    same: Result<(), Bar>,
    after: Result<(), Bar>,
    rest: u64,
}

fn element(name: &'static str, group: u16, element: u16, vr: Vr, value: &'static [u8]) -> Leaf {
    Leaf {
        name,
        tag: Tag { group, element },
        vr,
        value,
    }
}

/// An element before the one that is looked at.
fn first() -> Leaf {
    element("first", 0x0008, 0x0005, Vr::CS, b"ISO_IR 6")
}

/// An output with room for so many bytes.
fn output(rt: HostRuntime, room: usize) -> Result<Watched<MemOut>, Fail> {
    let mut bytes = Vec::new(rt.alloc());
    for _byte in 0..room {
        bytes.push(0)?;
    }
    Ok(Watched::new(MemOut::new(bytes)))
}

/// Gives a sink an element.
fn took<S: Sink>(sink: &mut S, tag: Tag, vr: Vr, value: &[u8], way: Way) -> bool {
    if value.len() > MOST_ROOM {
        return false;
    }
    let length = Length::Known(value.len() as u32);
    let form = form_of(Syntax::LITTLE, read_as(Syntax::LITTLE, tag, vr), length);
    match (way, form) {
        (Way::Whole, Form::Value) => sink
            .take_whole(Head { tag, vr, length }, Syntax::LITTLE, value)
            .is_ok(),
        (Way::ByTokens, Form::Value) => {
            take_all(Token::leaf(tag, vr, value).as_slice(), sink).is_ok()
        }
        _ => false,
    }
}

/// Whether a sink takes a head of this tag.
fn accepted<S: Sink>(sink: &S, tag: Tag) -> Result<(), Bar> {
    sink.accepts(&Head {
        tag,
        vr: Vr::LO,
        length: Length::Known(0),
    })
}

/// What a sink tells after an element.
fn answers<S: Sink>(sink: &S, took: bool, tag: Tag, rest: u64) -> Told {
    let below = tag.element.saturating_sub(1);
    let above = tag.element.saturating_add(1);
    Told {
        took,
        before: accepted(
            sink,
            Tag {
                element: below,
                ..tag
            },
        ),
        same: accepted(sink, tag),
        after: accepted(
            sink,
            Tag {
                element: above,
                ..tag
            },
        ),
        rest,
    }
}

/// What is told of edits, of which an output has room for so many bytes.
fn told_of_edits(
    rt: HostRuntime,
    edits: &Edits,
    leaf: &Leaf,
    room: usize,
    way: Way,
) -> Result<Told, Fail> {
    let mut out = output(rt, room)?;
    let mut sink = EncodeSink::new(&mut out, TARGET);
    let mut edited = EditSink::new(edits, &mut sink);
    let before = first();
    let took = took(&mut edited, before.tag, before.vr, before.value, way)
        && took(&mut edited, leaf.tag, leaf.vr, leaf.value, way);
    let rest = edited.unplaced();
    Ok(answers(&edited, took, leaf.tag, rest))
}

/// The same of what takes identity out.
fn told_of_identity(
    rt: HostRuntime,
    options: Options,
    leaf: &Leaf,
    room: usize,
    way: Way,
) -> Result<Told, Fail> {
    let mut out = output(rt, room)?;
    let mut sink = EncodeSink::new(&mut out, TARGET);
    let key = [b'k', b'e', b'y'];
    let mut without = DeidentifySink::new(options, &key, &mut sink);
    let before = first();
    let took = took(&mut without, before.tag, before.vr, before.value, way)
        && took(&mut without, leaf.tag, leaf.vr, leaf.value, way);
    let rest = u64::from(without.pixels_may_show());
    Ok(answers(&without, took, leaf.tag, rest))
}

/// Elements that edits meet or leave as they are.
fn edited_leaves() -> [(&'static str, Leaf); 8] {
    [
        (
            "-e PatientID",
            element("left", 0x0010, 0x0010, Vr::PN, b"AB^CD "),
        ),
        (
            "-e PatientID",
            element("left, odd", 0x0010, 0x0010, Vr::PN, b"AB^CD"),
        ),
        (
            "-e PatientID",
            element("left, empty", 0x0010, 0x0010, Vr::PN, b""),
        ),
        (
            "-e PatientID",
            element("left, turned", 0x0028, 0x0010, Vr::US, b"\x00\x02"),
        ),
        (
            "-e PatientID",
            element("erased", 0x0010, 0x0020, Vr::LO, b"1234"),
        ),
        (
            "-m PatientID=XYZ",
            element("changed", 0x0010, 0x0020, Vr::LO, b"1234"),
        ),
        (
            "-i Modality=MR",
            element("behind a new one", 0x0010, 0x0020, Vr::LO, b"1234"),
        ),
        ("-ep", element("private", 0x0009, 0x0010, Vr::LO, b"ABCD")),
    ]
}

#[test]
fn tells_the_same_of_edited_elements(rt: HostRuntime) -> Result<(), Fail> {
    for (line, leaf) in edited_leaves() {
        let words = words_of(rt, line)?;
        let Ok(edits) = Edits::parse(rt.alloc(), words.as_slice()) else {
            return Err("refused".into());
        };
        for room in 0..MOST_ROOM {
            let whole = told_of_edits(rt, &edits, &leaf, room, Way::Whole)?;
            let by_tokens = told_of_edits(rt, &edits, &leaf, room, Way::ByTokens)?;
            holds(&rt, leaf.name, whole == by_tokens);
        }
    }
    Ok(())
}

/// Elements of each fate, with the pixels' words, and one before which it is said what was done.
fn leaves_of_each_fate() -> [Leaf; 9] {
    [
        element("kept", 0x0008, 0x0060, Vr::CS, b"MR"),
        element("kept, odd", 0x0008, 0x0070, Vr::LO, b"ABC"),
        element("kept, empty", 0x0008, 0x0060, Vr::CS, b""),
        element(
            "kept, turned, after what is said",
            0x0028,
            0x0010,
            Vr::US,
            b"\x00\x02",
        ),
        element("removed", 0x0010, 0x4000, Vr::LT, b"a comment "),
        element("emptied", 0x0010, 0x0010, Vr::PN, b"AB^CD "),
        element("replaced", 0x0008, 0x0021, Vr::DA, b"20260101"),
        element("new identifier", 0x0008, 0x0018, Vr::UI, b"1.2.3.4\0"),
        element("pixels show", 0x0028, 0x0301, Vr::CS, b"YES "),
    ]
}

/// What a plan takes out, where it does that.
fn options_of(job: &Job) -> Option<Options> {
    match job {
        Job::Deidentify(what) => Some(what.options),
        _ => None,
    }
}

/// What a line without further words takes out.
fn plain_options(rt: HostRuntime) -> Result<Options, Fail> {
    let words = words_of(rt, "dcmdeid a b")?;
    let options = match plan(rt.alloc(), words.as_slice()) {
        Ok(planned) => options_of(&planned.job),
        Err(_refused) => None,
    };
    match options {
        Some(options) => Ok(options),
        None => Err("another job".into()),
    }
}

#[test]
fn tells_the_same_of_each_fate(rt: HostRuntime) -> Result<(), Fail> {
    let options = plain_options(rt)?;
    for leaf in leaves_of_each_fate() {
        for room in 0..MOST_ROOM {
            let whole = told_of_identity(rt, options, &leaf, room, Way::Whole)?;
            let by_tokens = told_of_identity(rt, options, &leaf, room, Way::ByTokens)?;
            holds(&rt, leaf.name, whole == by_tokens);
        }
    }
    Ok(())
}

/// The bytes of the first element and of the next one's head.
const TO_VALUE: usize = 24;

#[test]
fn notes_an_edited_element_once_its_head_is_out(rt: HostRuntime) -> Result<(), Fail> {
    let name = element("name", 0x0010, 0x0010, Vr::PN, b"AB^CD ");
    let words = words_of(rt, "-e PatientID")?;
    let Ok(edits) = Edits::parse(rt.alloc(), words.as_slice()) else {
        return Err("refused".into());
    };
    for (room, same) in [
        (TO_VALUE - 1, Ok(())),
        (TO_VALUE, Err(Bar::Order)),
        (TO_VALUE + 3, Err(Bar::Order)),
    ] {
        let told = told_of_edits(rt, &edits, &name, room, Way::Whole)?;
        assert!(rt; !told.took && told.same == same && told.rest == 1);
    }
    Ok(())
}

#[test]
fn notes_a_kept_element_once_its_head_is_out(rt: HostRuntime) -> Result<(), Fail> {
    let kind = element("kind", 0x0008, 0x0060, Vr::CS, b"MR");
    let options = plain_options(rt)?;
    for (room, same) in [
        (TO_VALUE - 1, Ok(())),
        (TO_VALUE, Err(Bar::Order)),
        (TO_VALUE + 1, Err(Bar::Order)),
    ] {
        let told = told_of_identity(rt, options, &kind, room, Way::Whole)?;
        assert!(rt; !told.took && told.same == same && told.rest == 0);
    }
    Ok(())
}
