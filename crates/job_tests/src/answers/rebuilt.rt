// Files that are dumped in full, and built again of their dumps.
use crate::runs::{
    Answer, STEPS, Wanted, expect_answer, header_of, holds, letters, over_memory, over_std,
    sixty_four,
};
use dcm_test_devices::{Start, joined};
use std::alloc::{AllocError, Global};
use std::test::Fail;

/// A file, and what its dump builds: its start, and the bytes after that.
#[derive(Clone, Copy)]
struct File {
    name: &'static str,
    start: Start,
    input: &'static [u8],
    built: &'static [u8],
}

/// Files that are built as they were.
static KEPT: [File; 13] = [
    File {
        name: "no elements",
        start: Start::ExplicitLittle,
        input: b"",
        built: b"",
    },
    File {
        name: "a name",
        start: Start::ExplicitLittle,
        input: b"\x10\0\x10\0PN\x06\0AB^CD ",
        built: b"\x10\0\x10\0PN\x06\0AB^CD ",
    },
    File {
        name: "three values and an escape",
        start: Start::ExplicitLittle,
        input: b"\x08\0p\0LO\x06\0a\\b\\c\n",
        built: b"\x08\0p\0LO\x06\0a\\b\\c\n",
    },
    File {
        name: "an unknown tag in implicit",
        start: Start::Implicit,
        input: b"\x09\0\x01\x10\x02\0\0\0AB",
        built: b"\x09\0\x01\x10\x02\0\0\0AB",
    },
    File {
        name: "fragments",
        start: Start::Jpeg,
        input: b"\xe0\x7f\x10\0OB\0\0\xff\xff\xff\xff\xfe\xff\0\xe0\0\0\0\0\xfe\xff\0\xe0\x02\0\0\0\xff\xd8\xfe\xff\xdd\xe0\0\0\0\0",
        built: b"\xe0\x7f\x10\0OB\0\0\xff\xff\xff\xff\xfe\xff\0\xe0\0\0\0\0\xfe\xff\0\xe0\x02\0\0\0\xff\xd8\xfe\xff\xdd\xe0\0\0\0\0",
    },
    File {
        name: "fragments in a native syntax",
        start: Start::ExplicitLittle,
        input: b"\xe0\x7f\x10\0OB\0\0\xff\xff\xff\xff\xfe\xff\0\xe0\0\0\0\0\xfe\xff\0\xe0\x02\0\0\0\xff\xd8\xfe\xff\xdd\xe0\0\0\0\0",
        built: b"\xe0\x7f\x10\0OB\0\0\xff\xff\xff\xff\xfe\xff\0\xe0\0\0\0\0\xfe\xff\0\xe0\x02\0\0\0\xff\xd8\xfe\xff\xdd\xe0\0\0\0\0",
    },
    File {
        name: "words",
        start: Start::ExplicitLittle,
        input: b"\xe0\x7f\x10\0OW\0\0\x04\0\0\0\x01\x02\x03\x04",
        built: b"\xe0\x7f\x10\0OW\0\0\x04\0\0\0\x01\x02\x03\x04",
    },
    File {
        name: "a tag",
        start: Start::ExplicitLittle,
        input: b"(\0\x09\0AT\x04\0\x18\0c\x10",
        built: b"(\0\x09\0AT\x04\0\x18\0c\x10",
    },
    File {
        name: "a number of eight bytes",
        start: Start::ExplicitLittle,
        input: b"\x18\0\x87\x90FD\x08\0\0\0\0\0\0@\x8f@",
        built: b"\x18\0\x87\x90FD\x08\0\0\0\0\0\0@\x8f@",
    },
    File {
        name: "a signed number",
        start: Start::ExplicitLittle,
        input: b"\x09\0\x01\x10SS\x02\0\xff\xff",
        built: b"\x09\0\x01\x10SS\x02\0\xff\xff",
    },
    File {
        name: "a long number",
        start: Start::ExplicitLittle,
        input: b"\x09\0\x01\x10UV\0\0\x08\0\0\0\x02\x01\0\0\0\0\0\0",
        built: b"\x09\0\x01\x10UV\0\0\x08\0\0\0\x02\x01\0\0\0\0\0\0",
    },
    File {
        name: "a long signed number",
        start: Start::ExplicitLittle,
        input: b"\x09\0\x01\x10SV\0\0\x08\0\0\0\xff\xff\xff\xff\xff\xff\xff\xff",
        built: b"\x09\0\x01\x10SV\0\0\x08\0\0\0\xff\xff\xff\xff\xff\xff\xff\xff",
    },
    File {
        name: "very long words",
        start: Start::ExplicitLittle,
        input: b"\x09\0\x01\x10OV\0\0\x08\0\0\0\x01\x02\x03\x04\x05\x06\x07\x08",
        built: b"\x09\0\x01\x10OV\0\0\x08\0\0\0\x01\x02\x03\x04\x05\x06\x07\x08",
    },
];

fn kept() -> &'static [File] {
    &KEPT
}

/// Files that are built otherwise: with even lengths, and undefined ones.
static CHANGED: [File; 4] = [
    File {
        name: "an odd text",
        start: Start::ExplicitLittle,
        input: b"\x10\0\0@LT\x01\0 ",
        built: b"\x10\0\0@LT\x02\0  ",
    },
    File {
        name: "an empty sequence",
        start: Start::ExplicitLittle,
        input: b"\x08\0@\x11SQ\0\0\0\0\0\0",
        built: b"\x08\0@\x11SQ\0\0\xff\xff\xff\xff\xfe\xff\xdd\xe0\0\0\0\0",
    },
    File {
        name: "a sequence and an item of known length",
        start: Start::ExplicitLittle,
        input: b"\x08\0@\x11SQ\0\0\xff\xff\xff\xff\xfe\xff\0\xe0\x0c\0\0\0\x08\0U\x11UI\x04\01.2\0\xfe\xff\xdd\xe0\0\0\0\0",
        built: b"\x08\0@\x11SQ\0\0\xff\xff\xff\xff\xfe\xff\0\xe0\xff\xff\xff\xff\x08\0U\x11UI\x04\01.2\0\xfe\xff\r\xe0\0\0\0\0\xfe\xff\xdd\xe0\0\0\0\0",
    },
    File {
        name: "unknown of undefined length in big endian",
        start: Start::Big,
        input: b"\0\x09\x10\x10UN\0\0\xff\xff\xff\xff\xfe\xff\0\xe0\xff\xff\xff\xff\x10\0\x10\0\x02\0\0\0AB\xfe\xff\r\xe0\0\0\0\0\xfe\xff\xdd\xe0\0\0\0\0",
        built: b"\0\x09\x10\x10SQ\0\0\xff\xff\xff\xff\xff\xfe\xe0\0\xff\xff\xff\xff\0\x10\0\x10PN\0\x02AB\xff\xfe\xe0\r\0\0\0\0\xff\xfe\xe0\xdd\0\0\0\0",
    },
];

fn changed() -> &'static [File] {
    &CHANGED
}

/// Files that hold elements of the standard that the extract lacks: what the dump by the whole dictionary builds of
/// them.
static FILES_OF_THE_STANDARD: [File; 4] = [
    File {
        name: "a number",
        start: Start::ExplicitLittle,
        input: b"\x18\0\x51\x11IS\x04\0120 ",
        built: b"\x18\0\x51\x11IS\x04\0120 ",
    },
    File {
        name: "an implicit sequence of known length",
        start: Start::Implicit,
        input: b"\x0a\x30\x10\0\x12\0\0\0\xfe\xff\0\xe0\x0a\0\0\0\x0a\x30\x12\0\x02\0\0\01 ",
        built: b"\x0a\x30\x10\0\xff\xff\xff\xff\xfe\xff\0\xe0\xff\xff\xff\xff\x0a\x30\x12\0\x02\0\0\01 \xfe\xff\x0d\xe0\0\0\0\0\xfe\xff\xdd\xe0\0\0\0\0",
    },
    File {
        name: "an implicit number of eight bytes",
        start: Start::Implicit,
        input: b"\x18\0\x73\x90\x08\0\0\0\x01\x02\x03\x04\x05\x06\x07\x08",
        built: b"\x18\0\x73\x90\x08\0\0\0\x01\x02\x03\x04\x05\x06\x07\x08",
    },
    File {
        name: "a number within unknown of undefined length in big endian",
        start: Start::Big,
        input: b"\0\x09\x10\x10UN\0\0\xff\xff\xff\xff\xfe\xff\0\xe0\xff\xff\xff\xff\x18\0\x73\x90\x08\0\0\0\x01\x02\x03\x04\x05\x06\x07\x08\xfe\xff\x0d\xe0\0\0\0\0\xfe\xff\xdd\xe0\0\0\0\0",
        built: b"\0\x09\x10\x10SQ\0\0\xff\xff\xff\xff\xff\xfe\xe0\0\xff\xff\xff\xff\0\x18\x90\x73FD\0\x08\x08\x07\x06\x05\x04\x03\x02\x01\xff\xfe\xe0\x0d\0\0\0\0\xff\xfe\xe0\xdd\0\0\0\0",
    },
];

fn files_of_the_standard() -> &'static [File] {
    &FILES_OF_THE_STANDARD
}

/// What a run reads and writes.
#[derive(Clone, Copy)]
enum Devices {
    Memory,
    Std,
}

/// More than any of these runs writes.
const ROOM: usize = 60_000;

fn over(
    alloc: Global,
    devices: Devices,
    words: &'static str,
    input: &[u8],
    step: usize,
) -> Result<Answer, AllocError> {
    match devices {
        Devices::Memory => over_memory(alloc, words, input, step, ROOM),
        Devices::Std => over_std(alloc, words, input, step),
    }
}

/// A run without fault, and its output.
fn output_of(
    alloc: Global,
    devices: Devices,
    words: &'static str,
    input: &[u8],
    step: usize,
) -> Result<Vec<u8>, Fail> {
    let answer = over(alloc, devices, words, input, step)?;
    let is_well = answer.status == 0 && answer.told.is_empty();
    holds(words, "status", is_well)?;
    Ok(answer.output)
}

/// The words of a full dump, and of a conversion to the file's own transfer syntax.
#[derive(Clone, Copy)]
struct Words {
    dump: &'static str,
    convert: &'static str,
}

const BY_EXTRACT: Words = Words {
    dump: "dcmdump +L -",
    convert: "dcmconv - -",
};

const BY_STANDARD: Words = Words {
    dump: "dcmdump +L +dict -",
    convert: "dcmconv +dict - -",
};

const BUILD: &str = "dump2dcm +l 16384 - -";

/// A file, what its dump builds, and what a conversion to its own transfer syntax writes.
#[derive(Clone, Copy)]
struct Rebuilt<'a> {
    name: &'a str,
    words: Words,
    file: &'a [u8],
    built: &'a [u8],
    converted: &'a [u8],
}

fn expect_rebuilt_over(
    alloc: Global,
    devices: Devices,
    wanted: Rebuilt<'_>,
    step: usize,
) -> Result<(), Fail> {
    let dump = output_of(alloc, devices, wanted.words.dump, wanted.file, step)?;
    let built = output_of(alloc, devices, BUILD, dump.as_slice(), step)?;
    let is_built = built.as_slice() == wanted.built;
    holds(wanted.name, "file that is built", is_built)?;
    let converted = output_of(alloc, devices, wanted.words.convert, wanted.file, step)?;
    let is_converted = converted.as_slice() == wanted.converted;
    holds(wanted.name, "conversion", is_converted)
}

fn expect_rebuilt(alloc: Global, wanted: Rebuilt<'_>) -> Result<(), Fail> {
    for step in STEPS {
        expect_rebuilt_over(alloc, Devices::Memory, wanted, step)?;
        expect_rebuilt_over(alloc, Devices::Std, wanted, step)?;
    }
    Ok(())
}

/// Expects that files are rebuilt by a dictionary that words name.
fn expect_files(alloc: Global, words: Words, files: &[File]) -> Result<(), Fail> {
    for file in files {
        let input = joined(alloc, file.start.bytes(), file.input)?;
        let built = joined(alloc, file.start.bytes(), file.built)?;
        let wanted = Rebuilt {
            name: file.name,
            words,
            file: input.as_slice(),
            built: built.as_slice(),
            converted: built.as_slice(),
        };
        expect_rebuilt(alloc, wanted)?;
    }
    Ok(())
}

#[test]
fn files_are_rebuilt(rt: HostRuntime) -> Result<(), Fail> {
    expect_files(rt.alloc(), BY_EXTRACT, kept())?;
    expect_files(rt.alloc(), BY_EXTRACT, changed())
}

#[test]
fn files_are_rebuilt_by_the_whole_dictionary(rt: HostRuntime) -> Result<(), Fail> {
    expect_files(rt.alloc(), BY_STANDARD, files_of_the_standard())
}

/// A meta group of three elements, the preamble of which holds other bytes than zeros.
const OTHER_PREAMBLE: &[u8] =
    b"AAAAAAAAAAAAAAAAAAAAAAAAAAAAAAAAAAAAAAAAAAAAAAAAAAAAAAAAAAAAAAAAAAAAAAAAAAAAAAAAAAAAAAAAAAAAAAAAAAAAAAAAAAAAAAAAAAAAAAAAAAAAAAAA";

const ZEROS: &[u8] =
    b"\0\0\0\0\0\0\0\0\0\0\0\0\0\0\0\0\0\0\0\0\0\0\0\0\0\0\0\0\0\0\0\0\0\0\0\0\0\0\0\0\0\0\0\0\0\0\0\0\0\0\0\0\0\0\0\0\0\0\0\0\0\0\0\0\0\0\0\0\0\0\0\0\0\0\0\0\0\0\0\0\0\0\0\0\0\0\0\0\0\0\0\0\0\0\0\0\0\0\0\0\0\0\0\0\0\0\0\0\0\0\0\0\0\0\0\0\0\0\0\0\0\0\0\0\0\0\0\0";

const BEHIND_PREAMBLE: &[u8] =
    b"DICM\x02\0\0\0UL\x04\0*\0\0\0\x02\0\x01\0OB\0\0\x02\0\0\0\0\x01\x02\0\x10\0UI\x14\01.2.840.10008.1.2.1\0\x10\0\x10\0PN\x06\0AB^CD ";

#[test]
fn a_preamble_is_not_rebuilt(rt: HostRuntime) -> Result<(), Fail> {
    let file = joined(rt.alloc(), OTHER_PREAMBLE, BEHIND_PREAMBLE)?;
    let built = joined(rt.alloc(), ZEROS, BEHIND_PREAMBLE)?;
    let wanted = Rebuilt {
        name: "a preamble",
        words: BY_EXTRACT,
        file: file.as_slice(),
        built: built.as_slice(),
        converted: file.as_slice(),
    };
    expect_rebuilt(rt.alloc(), wanted)
}

#[test]
fn sixty_four_sequences_are_rebuilt(rt: HostRuntime) -> Result<(), Fail> {
    let file = sixty_four(rt.alloc())?;
    let wanted = Rebuilt {
        name: "64 sequences",
        words: BY_EXTRACT,
        file: file.as_slice(),
        built: file.as_slice(),
        converted: file.as_slice(),
    };
    expect_rebuilt(rt.alloc(), wanted)
}

/// A value that ends within a number: the dump has its whole numbers alone.
#[test]
fn a_byte_behind_numbers_is_not_rebuilt(rt: HostRuntime) -> Result<(), Fail> {
    let group = Start::Big.bytes();
    let file = joined(rt.alloc(), group, b"\0(\0\x10US\0\x05\0\x01\x02\0\x05")?;
    let built = joined(rt.alloc(), group, b"\0(\0\x10US\0\x04\0\x01\x02\0")?;
    let converted = joined(rt.alloc(), group, b"\0(\0\x10US\0\x06\0\x01\x02\0\x05\0")?;
    let wanted = Rebuilt {
        name: "a byte behind numbers",
        words: BY_EXTRACT,
        file: file.as_slice(),
        built: built.as_slice(),
        converted: converted.as_slice(),
    };
    expect_rebuilt(rt.alloc(), wanted)
}

/// Expects that the dump of a value that no line holds is refused.
fn expect_long_line(alloc: Global, file: &[u8], step: usize) -> Result<(), Fail> {
    let dump = output_of(alloc, Devices::Std, BY_EXTRACT.dump, file, step)?;
    let has_header = dump.as_slice().starts_with(header_of(Start::Implicit));
    holds("a long line", "header of the dump", has_header)?;
    let wanted = Wanted {
        status: 2,
        output: b"",
        told: b"dcmtools: B1 at byte 338, line 10: line too long\n",
    };
    let answer = over_memory(alloc, BUILD, dump.as_slice(), step, ROOM)?;
    expect_answer("a long line", &answer, wanted)?;
    let answer = over_std(alloc, BUILD, dump.as_slice(), step)?;
    expect_answer("a long line", &answer, wanted)
}

#[test]
fn a_long_line_is_refused(rt: HostRuntime) -> Result<(), Fail> {
    let file = letters(rt.alloc(), Start::Implicit, b"\x10\0\0@\xff\xff\0\0", b"")?;
    for step in STEPS {
        expect_long_line(rt.alloc(), file.as_slice(), step)?;
    }
    Ok(())
}
