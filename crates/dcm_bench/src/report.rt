// Structured reports: many small elements, in sequences up to six deep (PS3.3 C.17.3).
use crate::data_set::{DataSet, Spelling, file};
use crate::headers::put_patient;
use crate::random::Random;
use crate::texts::{decimals, numbered, uid, words};
use std::alloc::{AllocError, Global};

/// The sequences of a report.
const CONTENT: u32 = 0x0040_A730;

const CONCEPT_NAME: u32 = 0x0040_A043;

const CONCEPT_CODE: u32 = 0x0040_A168;

const MEASURED_VALUE: u32 = 0x0040_A300;

const MEASUREMENT_UNITS: u32 = 0x0040_08EA;

const REFERENCED_SOP: u32 = 0x0008_1199;

/// The findings of a group, and the groups of a section.
const FINDINGS: u32 = 6;

const GROUPS: u32 = 5;

/// The room of a section, in bytes.
const SECTION: usize = 16_384;

/// The elements of a code.
fn put_code(set: &mut DataSet, random: &mut Random) -> Result<(), AllocError> {
    let number = u64::from(random.below(900));
    set.leaf(
        0x0008_0100,
        b"SH",
        numbered(b"", 121_000 + number, b"").as_slice(),
    )?;
    set.leaf(0x0008_0102, b"SH", b"DCM")?;
    set.leaf(
        0x0008_0104,
        b"LO",
        words(random, 2 + (number % 3) as u32).as_slice(),
    )
}

/// A sequence with one code, of undefined length.
fn put_concept(set: &mut DataSet, random: &mut Random, tag: u32) -> Result<(), AllocError> {
    set.begin_sequence(tag)?;
    set.begin_item()?;
    put_code(set, random)?;
    set.end_item()?;
    set.end_sequence()
}

/// How a content item belongs to the one around it, what it is, and its name.
fn put_kind(set: &mut DataSet, random: &mut Random, kind: &[u8]) -> Result<(), AllocError> {
    set.leaf(0x0040_A010, b"CS", b"CONTAINS")?;
    set.leaf(0x0040_A040, b"CS", kind)?;
    put_concept(set, random, CONCEPT_NAME)
}

fn put_text(set: &mut DataSet, random: &mut Random) -> Result<(), AllocError> {
    put_kind(set, random, b"TEXT")?;
    let count = 4 + random.below(12);
    set.leaf(0x0040_A160, b"UT", words(random, count).as_slice())
}

/// A measured number, in a sequence of known length.
fn put_number(
    set: &mut DataSet,
    random: &mut Random,
    scratch: &mut DataSet,
) -> Result<(), AllocError> {
    put_kind(set, random, b"NUM")?;
    scratch.clear();
    put_concept(scratch, random, MEASUREMENT_UNITS)?;
    scratch.leaf(0x0040_A30A, b"DS", decimals(random, 1).as_slice())?;
    set.known_sequence(MEASURED_VALUE, scratch)
}

fn put_coded(set: &mut DataSet, random: &mut Random) -> Result<(), AllocError> {
    put_kind(set, random, b"CODE")?;
    put_concept(set, random, CONCEPT_CODE)
}

/// A reference to an image, which comes before the others by its tag.
fn put_reference(set: &mut DataSet, random: &mut Random) -> Result<(), AllocError> {
    set.begin_sequence(REFERENCED_SOP)?;
    set.begin_item()?;
    set.leaf(0x0008_1150, b"UI", b"1.2.840.10008.5.1.4.1.1.4")?;
    set.leaf(0x0008_1155, b"UI", uid(random).as_slice())?;
    set.end_item()?;
    set.end_sequence()?;
    put_kind(set, random, b"IMAGE")
}

/// A content item that holds a value.
fn put_finding(
    set: &mut DataSet,
    random: &mut Random,
    scratch: &mut DataSet,
) -> Result<(), AllocError> {
    set.begin_item()?;
    match random.below(8) {
        0..=2 => put_text(set, random)?,
        3..=5 => put_number(set, random, scratch)?,
        6 => put_coded(set, random)?,
        _ => put_reference(set, random)?,
    }
    set.end_item()
}

/// A content item that holds others.
fn put_group(
    set: &mut DataSet,
    random: &mut Random,
    scratch: &mut DataSet,
) -> Result<(), AllocError> {
    set.begin_item()?;
    put_kind(set, random, b"CONTAINER")?;
    set.begin_sequence(CONTENT)?;
    for _finding in 0..FINDINGS {
        put_finding(set, random, scratch)?;
    }
    set.end_sequence()?;
    set.end_item()
}

fn put_section(
    set: &mut DataSet,
    random: &mut Random,
    scratch: &mut DataSet,
) -> Result<(), AllocError> {
    set.begin_item()?;
    put_kind(set, random, b"CONTAINER")?;
    set.begin_sequence(CONTENT)?;
    for _group in 0..GROUPS {
        put_group(set, random, scratch)?;
    }
    set.end_sequence()?;
    set.end_item()
}

/// A report of so many sections, each of some 500 elements.
pub fn report(
    alloc: Global,
    spelling: Spelling,
    random: &mut Random,
    sections: u32,
) -> Result<DataSet, AllocError> {
    let room = SECTION.saturating_mul(sections as usize);
    let mut set = file(alloc, spelling, uid(random).as_slice(), room)?;
    let mut scratch = DataSet::new(alloc, spelling, SECTION)?;
    put_patient(&mut set, random)?;
    put_kind(&mut set, random, b"CONTAINER")?;
    set.begin_sequence(CONTENT)?;
    for _section in 0..sections {
        put_section(&mut set, random, &mut scratch)?;
    }
    set.end_sequence()?;
    Ok(set)
}
