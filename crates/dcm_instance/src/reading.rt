// The reading of a file as far as the unique identifiers of its instance.
ghost use Rattle.std.specs.Prelude.{◌≡◌, ◌≤◌, ◌<◌, ◌+◌, ◌++◌, ℕ, List, [], false, fold, length, map, option_map, Some};
ghost use Rattle.dcm_base.specs.declared.syntax.Syntax.{Syntax as AnySyntax};
ghost use Rattle.dcm_base.specs.Reading.Reads.{INPUT_LIMIT};
ghost use Rattle.dcm_cli.specs.Pass.{IsWithin, set_bytes};
ghost use Rattle.dcm_files.specs.Pieces.{BUFFER_LIMIT};
ghost use Rattle.dcm_instance.specs.ReadInstance as spec;
ghost use Rattle.dcm_instance.specs.Searching as searching;
ghost use Rattle.dcm_instance.specs.UidSink as uid_sink;
ghost use Rattle.dcm_instance.specs.Uids.{told};

use crate::names::{Instance, InstanceUid, NoInstance};
use crate::sink::UidSink;
use dcm_base::{Coding, DeviceIn, Dictionary, Stop, Watched};
use dcm_cli::ending::HeadEnding;
use dcm_cli::first::feed_telling;
use dcm_cli::head::{Beginning, read_head_of, set_start};
use dcm_files::next_piece;
use dcm_head::Meta;
use dcm_stream::Machine;

/// The bytes that are read at a time. The three stand near the front.
const PIECE: usize = 4096;

/// The search of a data set for its unique identifiers, and why it goes no further, if it does.
#[derive(Drop)]
struct Search {
    machine: Machine,
    sink: UidSink,
    stop: Option<Stop>,
}

impl Search {
    /// Before the first byte of a data set, which is at this offset.
    fn new(coding: Coding, start: u64) -> Search
        requires { start ≤ INPUT_LIMIT }
        ensures { searching.Searched coding.syntax start [] result }
    {
        Search {
            machine: Machine::new(coding, start),
            sink: UidSink::new(),
            stop: None,
        }
    }

    /// After more bytes.
    fn feed(&mut self, piece: &[u8])
        requires { self.old.machine.failed ≡ false }
        ensures fine { self.new.machine.failed ≡ false }
        ensures searched { (s : AnySyntax) (start : ℕ) (bytes : List ℕ) → searching.Searched s start bytes self.old
            → searching.Searched s start (bytes ++ piece.now) self.new }
    {
        self.stop = feed_telling(piece, &mut self.machine, &mut self.sink);
    }

    /// After what the head of a file left of its data set.
    fn feed_beginning(&mut self, beginning: Beginning, buffer: &[u8])
        requires within { IsWithin beginning buffer.now }
        requires fine { self.old.machine.failed ≡ false }
        ensures fine { self.new.machine.failed ≡ false }
        ensures searched { (s : AnySyntax) (start : ℕ) → searching.Searched s start [] self.old
            → searching.Searched s start (set_bytes beginning buffer.now) self.new }
    {
        let rest = &buffer[beginning.used..beginning.filled];
        match beginning.ahead {
            None => self.feed(rest),
            Some(byte) => {
                self.feed(&[byte]);
                self.feed(rest);
            }
        }
    }

    /// The answer by what was read so far, if that decides it.
    fn decided(&self) -> Option<Result<Instance, NoInstance>>
        ensures { (s : AnySyntax) (start : ℕ) (bytes : List ℕ) → searching.Searched s start bytes self.now
            → option_map told result ≡ searching.decided s start bytes }
    {
        if self.sink.is_decided() || self.stop.is_some() {
            Some(self.sink.outcome())
        } else {
            None
        }
    }

    /// The answer where the input has ended.
    fn end(&self) -> Result<Instance, NoInstance>
        ensures { (s : AnySyntax) (start : ℕ) (bytes : List ℕ) → searching.Searched s start bytes self.now
            → told result ≡ searching.ended s start bytes }
    {
        self.sink.outcome()
    }
}

/// Searches the data set of a file for its unique identifiers, and reads no further once they are decided.
fn search_set<R: DeviceIn>(
    beginning: Beginning,
    coding: Coding,
    start: u64,
    input: &mut Watched<R>,
    buffer: &mut [u8],
) -> Result<Instance, NoInstance>
    requires start { start ≤ INPUT_LIMIT }
    requires room { 0 < length buffer.old }
    requires bound { length buffer.old ≤ BUFFER_LIMIT }
    requires within { IsWithin beginning buffer.old }
    requires count { start + length (set_bytes beginning buffer.old) ≡ beginning.read }
    ensures { searching.Searches R.DeviceIn input.old input.new coding.syntax start beginning.is_over
        (set_bytes beginning buffer.old) (told result) }
{
    let mut search = Search::new(coding, start);
    search.feed_beginning(beginning, buffer);
    if let Some(answer) = search.decided() {
        return answer;
    }
    if beginning.is_over {
        return search.end();
    }
    let mut read = beginning.read;
    loop {
        let size = match next_piece(input, buffer, &mut read) {
            Ok(Some(size)) => size,
            Ok(None) => return search.end(),
            Err(_) => return Err(NoInstance::Unread),
        };
        search.feed(&buffer[..size]);
        if let Some(answer) = search.decided() {
            return answer;
        }
    }
}

/// The answer where no data set is reached.
fn end_of_head(ending: HeadEnding) -> Result<Instance, NoInstance>
    ensures { told result ≡ searching.end_of_head ending }
{
    match ending {
        HeadEnding::Refused(_) => Err(NoInstance::Unfit(InstanceUid::Study)),
        HeadEnding::Unread(_) => Err(NoInstance::Unread),
    }
}

/// Reads a file as far as its unique identifiers, into a buffer.
fn read_into<R: DeviceIn>(input: &mut Watched<R>, buffer: &mut [u8]) -> Result<Instance, NoInstance>
    requires room { 0 < length buffer.old }
    requires bound { length buffer.old ≤ BUFFER_LIMIT }
    ensures { spec.ReadsInstance R.DeviceIn input.old input.new (told result) }
{
    let mut meta = Meta::new();
    let beginning = match read_head_of(&mut meta, input, buffer) {
        Ok(beginning) => beginning,
        Err(ending) => return end_of_head(ending),
    };
    let coding = meta.coding().read_by(Dictionary::Standard);
    let start = set_start(&meta);
    search_set(beginning, coding, start, input, buffer)
}

/// Reads a DICOM file, a meta group and its data set, as far as the unique identifiers of its instance: the first
/// values of StudyInstanceUID, SeriesInstanceUID and SOPInstanceUID at the outermost level. It reads no further once
/// the value of SeriesInstanceUID has ended, or an element comes that belongs behind it, and at most 4096 bytes past
/// that. A file at fault before names what its data set has so far.
pub fn read_instance<R: DeviceIn>(input: &mut Watched<R>) -> Result<Instance, NoInstance>
    ensures { spec.ReadsInstance R.DeviceIn input.old input.new (told result) }
{
    let mut buffer = [0u8; PIECE];
    read_into(input, &mut buffer)
}
