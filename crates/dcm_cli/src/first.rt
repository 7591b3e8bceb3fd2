// The first reading of a file: by how many days its dates are moved, which a key makes of the patient whom it names.
ghost use Rattle.std.specs.Prelude.{◌≡◌, ◌≤◌, ◌<◌, ◌+◌, ◌++◌, ℕ, List, [], false, fold, length, map, option_map, Some};
ghost use Rattle.dcm_base.specs.declared.syntax.Syntax.{Syntax as AnySyntax};
ghost use Rattle.dcm_base.specs.Reading.Reads.{INPUT_LIMIT};
ghost use Rattle.dcm_deid.specs.Patient.{patient_held};
ghost use Rattle.dcm_files.specs.Pieces.{BUFFER_LIMIT};
ghost use Rattle.dcm_cli.specs.First as spec;
ghost use Rattle.dcm_cli.specs.Pass.{IsWithin, set_bytes};
ghost use Rattle.dcm_cli.specs.Searching as searching;

use crate::ending::HeadEnding;
use crate::head::{Beginning, read_head_of, set_start};
use dcm_base::{Coding, DeviceIn, Dictionary, Fault, Stop, Stopped, Watched};
use dcm_deid::{Naming, PatientSink, UpToPatient};
use dcm_files::next_piece;
use dcm_head::Meta;
use dcm_stream::{Halt, Machine, Sink};
use dcm_uid::{Key, days};

/// The bytes that are read at a time. PatientID stands near the front.
const PIECE: usize = 4096;

/// How the first reading of a file ends.
#[derive(Clone, Copy, Debug, PartialEq, Eq)]
pub enum FirstEnd {
    /// The file names a patient, whose dates are shifted by this number of days.
    Days(i32),
    /// The file is refused: it has a fault, or names nobody.
    Refused(Stop),
    /// Reading failed after this number of bytes.
    Unread(u64),
}

/// Why a machine goes no further whose sink never fails.
fn told(answer: Result<(), Halt>) -> Option<Stop>
    ensures { result ≡ searching.refusal answer }
{
    match answer {
        Ok(()) => None,
        Err(Stopped::Refused(stop)) => Some(stop),
        Err(Stopped::Output) => None,
    }
}

/// Feeds a machine whose sink never fails, and answers why it goes no further, if it does.
pub fn feed_telling<S: Sink>(piece: &[u8], machine: &mut Machine, sink: &mut S) -> Option<Stop>
    requires { machine.old.failed ≡ false }
    ensures { searching.Goes S.Sink sink.old sink.new machine.old machine.new piece.now result }
{
    told(machine.feed(piece, sink))
}

/// Ends the data set of a machine, and answers why it is refused, if it is.
fn end<S: Sink>(machine: &mut Machine, sink: &mut S) -> Option<Stop>
    requires { machine.old.failed ≡ false }
    ensures { searching.Ends S.Sink sink.old sink.new machine.old machine.new result }
{
    told(machine.finish(sink))
}

/// Nobody is named where PatientID stands at this offset, or would stand before it.
fn nobody(at: u64) -> FirstEnd
    ensures { result ≡ spec.nobody at }
{
    FirstEnd::Refused(Stop {
        fault: Fault::NoPatientId,
        at,
    })
}

/// How the first reading ends where this patient is named.
fn patient_end(key: &[u8], patient: &[u8], at: u64) -> FirstEnd
    ensures { result ≡ spec.patient_end key.now patient.now at }
{
    if patient.is_empty() {
        return nobody(at);
    }
    FirstEnd::Days(days(&Key::new(key), patient))
}

/// How it ends at PatientID, or at what comes after it, if that is decided.
fn naming_so_far(
    key: &[u8],
    patient: &PatientSink,
    whole: Option<Stop>,
    at: u64,
) -> Option<FirstEnd>
    ensures { result ≡ searching.naming_so_far key.now patient.now.naming (patient_held patient.now.held) whole at }
{
    match patient.naming() {
        Naming::Ended => Some(patient_end(key, patient.patient().as_slice(), at)),
        Naming::Nobody => Some(nobody(at)),
        Naming::Opened | Naming::NotYet => Some(FirstEnd::Refused(whole?)),
    }
}

/// How it ends by what was read so far, if that decides it.
fn so_far(
    key: &[u8],
    patient: &PatientSink,
    up_to: Option<Stop>,
    whole: Option<Stop>,
) -> Option<FirstEnd>
    ensures { result ≡ searching.so_far key.now up_to whole patient.now }
{
    let stop = up_to?;
    if stop.fault == Fault::NoPatientId {
        return naming_so_far(key, patient, whole, stop.at);
    }
    Some(FirstEnd::Refused(stop))
}

/// How it ends at PatientID, or at what comes after it, where the input has ended.
fn naming_end(key: &[u8], patient: &PatientSink, whole: Option<Stop>, at: u64) -> FirstEnd
    ensures { result ≡ spec.naming_end key.now patient.now.naming (patient_held patient.now.held) whole at }
{
    match naming_so_far(key, patient, whole, at) {
        Some(end) => end,
        None => nobody(at),
    }
}

/// How it ends where the input has ended after so many bytes.
fn first_end(
    key: &[u8],
    patient: &PatientSink,
    up_to: Option<Stop>,
    whole: Option<Stop>,
    size: u64,
) -> FirstEnd
    ensures { result ≡ spec.first_end key.now up_to whole patient.now size }
{
    match up_to {
        None => nobody(size),
        Some(stop) if stop.fault == Fault::NoPatientId => naming_end(key, patient, whole, stop.at),
        Some(stop) => FirstEnd::Refused(stop),
    }
}

/// The search of a data set for its patient: a machine that stops at PatientID, so that its place is known, and one
/// that goes on into its value. Why the one and the other go no further, if they do.
#[derive(Drop)]
struct Search {
    place: Machine,
    up_to: UpToPatient,
    stop: Option<Stop>,
    value: Machine,
    patient: PatientSink,
    whole: Option<Stop>,
}

impl Search {
    /// Before the first byte of a data set, which is at this offset.
    fn new(coding: Coding, start: u64) -> Search
        requires { start ≤ INPUT_LIMIT }
        ensures { searching.Searched coding.syntax start [] result }
    {
        Search {
            place: Machine::new(coding, start),
            up_to: UpToPatient::new(),
            stop: None,
            value: Machine::new(coding, start),
            patient: PatientSink::new(),
            whole: None,
        }
    }

    /// After more bytes.
    fn feed(&mut self, piece: &[u8])
        requires { searching.IsFine self.old }
        ensures fine { searching.IsFine self.new }
        ensures searched { (s : AnySyntax) (start : ℕ) (bytes : List ℕ) → searching.Searched s start bytes self.old
            → searching.Searched s start (bytes ++ piece.now) self.new }
    {
        self.stop = feed_telling(piece, &mut self.place, &mut self.up_to);
        self.whole = feed_telling(piece, &mut self.value, &mut self.patient);
    }

    /// After what the head of a file left of its data set.
    fn feed_beginning(&mut self, beginning: Beginning, buffer: &[u8])
        requires within { IsWithin beginning buffer.now }
        requires fine { searching.IsFine self.old }
        ensures fine { searching.IsFine self.new }
        ensures searched { (s : AnySyntax) (start : ℕ) → searching.Searched s start [] self.old
            → searching.Searched s start (set_bytes beginning buffer.now) self.new }
    {
        let rest = &buffer[beginning.used..beginning.filled];
        match beginning.ahead {
            None => self.feed(rest),
            Some(byte) => {
                self.feed(&[byte]);
                self.feed(rest);
            }
        }
    }

    /// How it ends by what was read so far, if that decides it.
    fn decided(&self, key: &[u8]) -> Option<FirstEnd>
        ensures { (s : AnySyntax) (start : ℕ) (bytes : List ℕ) → searching.Searched s start bytes self.now
            → result ≡ searching.decided key.now s start bytes }
    {
        so_far(key, &self.patient, self.stop, self.whole)
    }

    /// After the input's end, which is at this offset.
    fn end(&mut self, key: &[u8], size: u64) -> FirstEnd
        requires { searching.IsFine self.old }
        ensures { (s : AnySyntax) (start : ℕ) (bytes : List ℕ) → searching.Searched s start bytes self.old
            → size ≡ start + length bytes → result ≡ searching.ended key.now s start bytes }
    {
        let up_to = end(&mut self.place, &mut self.up_to);
        let whole = end(&mut self.value, &mut self.patient);
        first_end(key, &self.patient, up_to, whole, size)
    }
}

/// Searches the data set of a file for its patient, and reads no further once that is decided.
fn search_set<R: DeviceIn>(
    key: &[u8],
    beginning: Beginning,
    coding: Coding,
    start: u64,
    input: &mut Watched<R>,
    buffer: &mut [u8],
) -> FirstEnd
    requires start { start ≤ INPUT_LIMIT }
    requires room { 0 < length buffer.old }
    requires bound { length buffer.old ≤ BUFFER_LIMIT }
    requires within { IsWithin beginning buffer.old }
    requires count { start + length (set_bytes beginning buffer.old) ≡ beginning.read }
    ensures { searching.Searches R.DeviceIn input.old input.new key.now coding.syntax start beginning.is_over
        (set_bytes beginning buffer.old) result }
{
    let mut search = Search::new(coding, start);
    search.feed_beginning(beginning, buffer);
    if let Some(end) = search.decided(key) {
        return end;
    }
    let mut read = beginning.read;
    if beginning.is_over {
        return search.end(key, read);
    }
    loop {
        let size = match next_piece(input, buffer, &mut read) {
            Ok(Some(size)) => size,
            Ok(None) => return search.end(key, read),
            Err(_) => return FirstEnd::Unread(read),
        };
        search.feed(&buffer[..size]);
        if let Some(end) = search.decided(key) {
            return end;
        }
    }
}

/// How the first reading ends where no data set is reached.
fn end_of_head(ending: HeadEnding) -> FirstEnd
    ensures { result ≡ searching.end_of_head ending }
{
    match ending {
        HeadEnding::Refused(stop) => FirstEnd::Refused(stop),
        HeadEnding::Unread(read) => FirstEnd::Unread(read),
    }
}

/// Reads a file as far as its patient, into a buffer.
fn read_first<R: DeviceIn>(key: &[u8], input: &mut Watched<R>, buffer: &mut [u8]) -> FirstEnd
    requires room { 0 < length buffer.old }
    requires bound { length buffer.old ≤ BUFFER_LIMIT }
    ensures { spec.ReadsFirst R.DeviceIn input.old input.new key.now result }
{
    let mut meta = Meta::new();
    let beginning = match read_head_of(&mut meta, input, buffer) {
        Ok(beginning) => beginning,
        Err(ending) => return end_of_head(ending),
    };
    let coding = meta.coding().read_by(Dictionary::Standard);
    let start = set_start(&meta);
    search_set(key, beginning, coding, start, input, buffer)
}

/// Reads a file for the first time: by how many days a key shifts its dates. The reading ends once this is decided.
pub fn first_reading<R: DeviceIn>(key: &[u8], input: &mut Watched<R>) -> FirstEnd
    ensures { spec.ReadsFirst R.DeviceIn input.old input.new key.now result }
{
    let mut buffer = [0u8; PIECE];
    read_first(key, input, &mut buffer)
}
