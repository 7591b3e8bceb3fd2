// The workloads: jobs that users wait for.
use crate::arrays::{Block, compressed, empties, image, lists, long_texts};
use crate::data_set::{DataSet, Spelling};
use crate::frames::{frames, slice};
use crate::jobs::{Jobs, PIECE};
use crate::random::Random;
use crate::report::report;
use std::alloc::{AllocError, Global};
use std::io;

/// A workload.
#[derive(Clone, Copy)]
pub enum Workload {
    /// Dumps of reports, images of many frames and slices, as one looks into them; awkward: files of empty elements and
    /// items.
    Dumps,
    /// Full dumps of reports, images of many frames and slices, whose values are short.
    Lines,
    /// Full dumps of pixels, fragments, lists of numbers and long texts.
    Values,
    /// Conversions between all syntaxes, and files built of dumps; awkward: an input in small pieces.
    Rewriting,
    /// Corrections by one edit and by many.
    Edits,
    /// Identity taken out of series of slices, of images of many frames and of reports.
    Identities,
    /// Tables of many files, with few columns and with many.
    Tables,
    /// A round of each but `Lines`.
    All,
}

/// The workload of a name. Any other name stands for the first.
pub fn workload_named(name: &[u8]) -> Workload {
    match name {
        b"lines" => Workload::Lines,
        b"values" => Workload::Values,
        b"rewriting" => Workload::Rewriting,
        b"edits" => Workload::Edits,
        b"identities" => Workload::Identities,
        b"tables" => Workload::Tables,
        b"all" => Workload::All,
        _ => Workload::Dumps,
    }
}

/// Sections of a report, frames of an image, and files of a series.
const SECTIONS: u32 = 96;

const FRAMES: u32 = 2500;

const SLICES: u32 = 24;

/// Empty elements and items of a file.
const EMPTIES: u32 = 40_000;

/// Bytes of the pixels of a slice of a series, and of a file that stands in a table.
const SLICE_PIXELS: usize = 24_000;

const TABLE_PIXELS: usize = 4_000;

/// Files of a table.
const TABLE_FILES: u32 = 100;

/// The bytes of the small pieces.
const SMALL_PIECE: usize = 23;

/// Edits that take names and numbers out at all depths.
const NAMES: [&[u8]; 62] = [
    b"PatientName",
    b"PatientID",
    b"PatientBirthDate",
    b"PatientSex",
    b"PatientAge",
    b"PatientWeight",
    b"PatientAddress",
    b"OtherPatientNames",
    b"OtherPatientIDs",
    b"PatientBirthTime",
    b"PatientSize",
    b"PatientTelephoneNumbers",
    b"EthnicGroup",
    b"Occupation",
    b"AdditionalPatientHistory",
    b"PatientComments",
    b"MilitaryRank",
    b"BranchOfService",
    b"CountryOfResidence",
    b"RegionOfResidence",
    b"PatientReligiousPreference",
    b"AccessionNumber",
    b"InstitutionName",
    b"InstitutionAddress",
    b"ReferringPhysicianName",
    b"ReferringPhysicianAddress",
    b"ReferringPhysicianTelephoneNumbers",
    b"StationName",
    b"StudyDescription",
    b"SeriesDescription",
    b"InstitutionalDepartmentName",
    b"PhysiciansOfRecord",
    b"PerformingPhysicianName",
    b"NameOfPhysiciansReadingStudy",
    b"OperatorsName",
    b"AdmittingDiagnosesDescription",
    b"ManufacturerModelName",
    b"DeviceSerialNumber",
    b"SoftwareVersions",
    b"ProtocolName",
    b"PlateID",
    b"StudyID",
    b"ImageComments",
    b"RequestingPhysician",
    b"RequestingService",
    b"RequestedProcedureDescription",
    b"ScheduledPerformingPhysicianName",
    b"ScheduledProcedureStepDescription",
    b"PerformedProcedureStepDescription",
    b"PerformedStationName",
    b"PerformedLocation",
    b"NamesOfIntendedRecipientsOfResults",
    b"PersonName",
    b"PersonAddress",
    b"VerifyingObserverName",
    b"VerifyingOrganization",
    b"ContentCreatorName",
    b"TimezoneOffsetFromUTC",
    b"DetectorID",
    b"GantryID",
    b"CurrentPatientLocation",
    b"StudyTime",
];

/// Columns of tables.
const FEW: &str = "dcm2csv -k PatientID -k Modality";

const TEN: &str =
    "dcm2csv -k PatientID -k PatientName -k PatientBirthDate -k PatientSex -k StudyDate -k Modality -k StudyInstanceUID -k SeriesInstanceUID -k SeriesDescription -k AccessionNumber";

const MANY: &str =
    "dcm2csv +nh -k SOPInstanceUID -k SOPClassUID -k PatientID -k PatientName -k PatientBirthDate -k PatientSex -k PatientAge -k PatientWeight -k StudyDate -k StudyTime -k SeriesDate -k Modality -k Manufacturer -k InstitutionName -k StudyDescription -k SeriesDescription -k StudyInstanceUID -k SeriesInstanceUID -k SeriesNumber -k InstanceNumber -k AccessionNumber -k SliceThickness -k RepetitionTime -k EchoTime -k MagneticFieldStrength -k ImagePositionPatient -k PixelSpacing -k Rows -k Columns -k WindowCenter";

/// Edits of codes, each in an item of an item.
const PATHS: &str =
    "dcmodify -m ContentSequence[0].ContentSequence[0].ConceptNameCodeSequence[0].CodeMeaning=other -m ContentSequence[0].ContentSequence[1].ConceptNameCodeSequence[0].CodeMeaning=other -m ContentSequence[0].ContentSequence[2].ConceptNameCodeSequence[0].CodeMeaning=other -m ContentSequence[0].ContentSequence[3].ConceptNameCodeSequence[0].CodeMeaning=other -m ContentSequence[0].ContentSequence[4].ConceptNameCodeSequence[0].CodeMeaning=other -m ContentSequence[0].ContentSequence[5].ConceptNameCodeSequence[0].CodeMeaning=other -m ContentSequence[0].ContentSequence[6].ConceptNameCodeSequence[0].CodeMeaning=other -m ContentSequence[0].ContentSequence[7].ConceptNameCodeSequence[0].CodeMeaning=other -m ContentSequence[1].ContentSequence[0].ConceptNameCodeSequence[0].CodeMeaning=other -m ContentSequence[1].ContentSequence[1].ConceptNameCodeSequence[0].CodeMeaning=other -m ContentSequence[1].ContentSequence[2].ConceptNameCodeSequence[0].CodeMeaning=other -m ContentSequence[1].ContentSequence[3].ConceptNameCodeSequence[0].CodeMeaning=other -m ContentSequence[1].ContentSequence[4].ConceptNameCodeSequence[0].CodeMeaning=other -m ContentSequence[1].ContentSequence[5].ConceptNameCodeSequence[0].CodeMeaning=other -m ContentSequence[1].ContentSequence[6].ConceptNameCodeSequence[0].CodeMeaning=other -m ContentSequence[1].ContentSequence[7].ConceptNameCodeSequence[0].CodeMeaning=other -m ContentSequence[2].ContentSequence[0].ConceptNameCodeSequence[0].CodeMeaning=other -m ContentSequence[2].ContentSequence[1].ConceptNameCodeSequence[0].CodeMeaning=other -m ContentSequence[2].ContentSequence[2].ConceptNameCodeSequence[0].CodeMeaning=other -m ContentSequence[2].ContentSequence[3].ConceptNameCodeSequence[0].CodeMeaning=other -m ContentSequence[2].ContentSequence[4].ConceptNameCodeSequence[0].CodeMeaning=other -m ContentSequence[2].ContentSequence[5].ConceptNameCodeSequence[0].CodeMeaning=other -m ContentSequence[2].ContentSequence[6].ConceptNameCodeSequence[0].CodeMeaning=other -m ContentSequence[2].ContentSequence[7].ConceptNameCodeSequence[0].CodeMeaning=other -m ContentSequence[3].ContentSequence[0].ConceptNameCodeSequence[0].CodeMeaning=other -m ContentSequence[3].ContentSequence[1].ConceptNameCodeSequence[0].CodeMeaning=other -m ContentSequence[3].ContentSequence[2].ConceptNameCodeSequence[0].CodeMeaning=other -m ContentSequence[3].ContentSequence[3].ConceptNameCodeSequence[0].CodeMeaning=other -m ContentSequence[3].ContentSequence[4].ConceptNameCodeSequence[0].CodeMeaning=other -m ContentSequence[3].ContentSequence[5].ConceptNameCodeSequence[0].CodeMeaning=other -m ContentSequence[3].ContentSequence[6].ConceptNameCodeSequence[0].CodeMeaning=other -m ContentSequence[3].ContentSequence[7].ConceptNameCodeSequence[0].CodeMeaning=other -m ContentSequence[4].ContentSequence[0].ConceptNameCodeSequence[0].CodeMeaning=other -m ContentSequence[4].ContentSequence[1].ConceptNameCodeSequence[0].CodeMeaning=other -m ContentSequence[4].ContentSequence[2].ConceptNameCodeSequence[0].CodeMeaning=other -m ContentSequence[4].ContentSequence[3].ConceptNameCodeSequence[0].CodeMeaning=other -m ContentSequence[4].ContentSequence[4].ConceptNameCodeSequence[0].CodeMeaning=other -m ContentSequence[4].ContentSequence[5].ConceptNameCodeSequence[0].CodeMeaning=other -m ContentSequence[4].ContentSequence[6].ConceptNameCodeSequence[0].CodeMeaning=other -m ContentSequence[4].ContentSequence[7].ConceptNameCodeSequence[0].CodeMeaning=other - -";

impl Workload {
    /// The digest of all that the jobs of so many rounds leave, over the inputs of a seed.
    pub fn total(self, alloc: Global, rounds: u64, seed: u64) -> io::Result<u64> {
        let mut jobs = Jobs::new(alloc);
        for round in 0..rounds {
            let mut random = Random::new(seed, round);
            self.run_round(alloc, &mut random, &mut jobs)?;
        }
        Ok(jobs.total())
    }

    fn run_round(self, alloc: Global, random: &mut Random, jobs: &mut Jobs) -> io::Result<()> {
        match self {
            Workload::Dumps => dumps(alloc, random, jobs),
            Workload::Lines => lines(alloc, random, jobs),
            Workload::Values => values(alloc, random, jobs),
            Workload::Rewriting => rewriting(alloc, random, jobs),
            Workload::Edits => edits(alloc, random, jobs),
            Workload::Identities => identities(alloc, random, jobs),
            Workload::Tables => tables(alloc, random, jobs),
            Workload::All => all(alloc, random, jobs),
        }
    }
}

/// The slices of a series.
fn series(
    alloc: Global,
    random: &mut Random,
    count: u32,
    pixels: usize,
) -> Result<Vec<DataSet>, AllocError> {
    let block = Block::of_pixels(alloc, random)?;
    let mut files = Vec::new(alloc);
    for _file in 0..count {
        let part = block.part(random, pixels);
        files.push(slice(alloc, Spelling::Little, random, part)?)?;
    }
    Ok(files)
}

fn dumps(alloc: Global, random: &mut Random, jobs: &mut Jobs) -> io::Result<()> {
    let file = report(alloc, Spelling::Little, random, SECTIONS)?;
    jobs.run("dcmdump -", file.bytes())?;
    jobs.run("dcmdump +L +dict -", file.bytes())?;
    let file = report(alloc, Spelling::Implicit, random, SECTIONS)?;
    jobs.run("dcmdump +dict -", file.bytes())?;
    let file = frames(alloc, Spelling::Little, random, FRAMES)?;
    jobs.run("dcmdump -", file.bytes())?;
    let file = frames(alloc, Spelling::Big, random, FRAMES)?;
    jobs.run("dcmdump +dict -", file.bytes())?;
    for file in series(alloc, random, SLICES, SLICE_PIXELS)?.as_slice() {
        jobs.run("dcmdump -", file.bytes())?;
    }
    let file = empties(alloc, Spelling::Little, random, EMPTIES)?;
    jobs.run("dcmdump -", file.bytes())
}

fn lines(alloc: Global, random: &mut Random, jobs: &mut Jobs) -> io::Result<()> {
    let file = report(alloc, Spelling::Little, random, SECTIONS)?;
    jobs.run("dcmdump +L -", file.bytes())?;
    let file = frames(alloc, Spelling::Little, random, FRAMES)?;
    jobs.run("dcmdump +L -", file.bytes())?;
    for file in series(alloc, random, SLICES, SLICE_PIXELS)?.as_slice() {
        jobs.run("dcmdump +L -", file.bytes())?;
    }
    Ok(())
}

fn values(alloc: Global, random: &mut Random, jobs: &mut Jobs) -> io::Result<()> {
    let file = image(alloc, Spelling::Little, random, 64)?;
    jobs.run("dcmdump +L -", file.bytes())?;
    let file = image(alloc, Spelling::Big, random, 32)?;
    jobs.run("dcmdump +L -", file.bytes())?;
    let file = compressed(alloc, random, 32)?;
    jobs.run("dcmdump +L -", file.bytes())?;
    let file = lists(alloc, Spelling::Little, random, 12)?;
    jobs.run("dcmdump +L -", file.bytes())?;
    let file = lists(alloc, Spelling::Big, random, 6)?;
    jobs.run("dcmdump +L -", file.bytes())?;
    let file = long_texts(alloc, Spelling::Little, random, 40)?;
    jobs.run("dcmdump +L -", file.bytes())
}

fn conversions(alloc: Global, random: &mut Random, jobs: &mut Jobs) -> io::Result<()> {
    let file = report(alloc, Spelling::Little, random, SECTIONS)?;
    jobs.run("dcmconv +t= - -", file.bytes())?;
    jobs.run("dcmconv +ti - -", file.bytes())?;
    jobs.run_in_pieces("dcmconv +tb - -", file.bytes(), SMALL_PIECE)?;
    let file = report(alloc, Spelling::Implicit, random, SECTIONS)?;
    jobs.run("dcmconv +dict +te - -", file.bytes())?;
    let file = report(alloc, Spelling::Big, random, SECTIONS)?;
    jobs.run("dcmconv +te - -", file.bytes())?;
    let file = frames(alloc, Spelling::Little, random, FRAMES)?;
    jobs.run("dcmconv +dict +ti - -", file.bytes())?;
    let file = image(alloc, Spelling::Little, random, 32)?;
    jobs.run("dcmconv +tb - -", file.bytes())
}

fn rewriting(alloc: Global, random: &mut Random, jobs: &mut Jobs) -> io::Result<()> {
    conversions(alloc, random, jobs)?;
    let file = report(alloc, Spelling::Little, random, SECTIONS)?;
    jobs.run_both("dcmdump +L -", "dump2dcm - -", file.bytes())?;
    let file = frames(alloc, Spelling::Little, random, FRAMES)?;
    jobs.run_both("dcmdump +L +dict -", "dump2dcm - -", file.bytes())
}

/// Words of dcmodify with so many edits of names.
fn name_edits(
    alloc: Global,
    option: &'static [u8],
    count: usize,
) -> Result<Vec<&'static [u8]>, AllocError> {
    let mut words = Vec::new(alloc);
    words.push(b"dcmodify".as_slice())?;
    words.push(b"+dict".as_slice())?;
    for name in NAMES.iter().take(count) {
        words.push(option)?;
        words.push(*name)?;
    }
    words.push(b"-".as_slice())?;
    words.push(b"-".as_slice())?;
    Ok(words)
}

fn edits(alloc: Global, random: &mut Random, jobs: &mut Jobs) -> io::Result<()> {
    let file = report(alloc, Spelling::Little, random, SECTIONS)?;
    jobs.run("dcmodify -m PatientName=Doe^Jane - -", file.bytes())?;
    jobs.run(
        "dcmodify -i PatientID=4711 -ma CodeMeaning=other -ep - -",
        file.bytes(),
    )?;
    let words = name_edits(alloc, b"-ea", 32)?;
    jobs.obey(words.as_slice(), file.bytes(), PIECE)?;
    jobs.run(PATHS, file.bytes())?;
    let file = frames(alloc, Spelling::Little, random, FRAMES)?;
    jobs.run("dcmodify -m PatientName=Doe^Jane - -", file.bytes())?;
    let words = name_edits(alloc, b"-ea", NAMES.len())?;
    jobs.obey(words.as_slice(), file.bytes(), PIECE)
}

fn identities(alloc: Global, random: &mut Random, jobs: &mut Jobs) -> io::Result<()> {
    for file in series(alloc, random, SLICES, SLICE_PIXELS)?.as_slice() {
        jobs.run("dcmdeid +bi - -", file.bytes())?;
        jobs.run("dcmdeid +bi +ru +rl +rd - -", file.bytes())?;
    }
    let file = frames(alloc, Spelling::Little, random, FRAMES)?;
    jobs.run("dcmdeid +bi - -", file.bytes())?;
    jobs.run("dcmdeid +bi +rp +ru - -", file.bytes())?;
    let file = report(alloc, Spelling::Little, random, SECTIONS)?;
    jobs.run("dcmdeid +bi - -", file.bytes())?;
    jobs.run("dcmdeid +bi +rl +ri - -", file.bytes())
}

fn tables(alloc: Global, random: &mut Random, jobs: &mut Jobs) -> io::Result<()> {
    let block = Block::of_pixels(alloc, random)?;
    let mut files = Vec::new(alloc);
    for _file in 0..TABLE_FILES {
        let part = block.part(random, TABLE_PIXELS);
        files.push(slice(alloc, Spelling::Little, random, part)?.into_bytes())?;
    }
    jobs.tabulate(FEW, files.as_slice())?;
    jobs.tabulate(TEN, files.as_slice())?;
    jobs.tabulate(MANY, files.as_slice())
}

fn all(alloc: Global, random: &mut Random, jobs: &mut Jobs) -> io::Result<()> {
    dumps(alloc, random, jobs)?;
    values(alloc, random, jobs)?;
    rewriting(alloc, random, jobs)?;
    edits(alloc, random, jobs)?;
    identities(alloc, random, jobs)?;
    tables(alloc, random, jobs)
}
