// A system of files in memory.
ghost use Rattle.dcm_files.specs.Devices.{anything};
ghost use Rattle.dcm_files.specs.Folders as folders;

use super::steps::{ALL, Steps};
use super::writer::{FailWriter, Failure, tick};
use dcm_base::Std;
use dcm_files::{EntryName, FileKind, Folders, Found, Links, NoFolder, Opened, System};
use std::alloc::{AllocError, Global};
use std::cell::Cell;
use std::io;
use std::io::ErrorKind;

/// How the devices of a run work.
#[derive(Clone, Copy)]
pub struct Devices<'a> {
    /// The bytes that a reader gives at most: each one, or that which fails.
    pub step: usize,
    /// The path of the reader that fails.
    pub failing: &'a [u8],
    /// How many of its calls go well.
    pub reads: usize,
    /// A path at which nothing is found.
    pub hidden: &'a [u8],
    /// How many bytes of the output go well.
    pub writes: usize,
    /// How many bytes of lines on standard error go well.
    pub lines: usize,
    /// How the next write fails.
    pub failure: Failure,
    /// Whether a flush goes well.
    pub flush: bool,
}

/// Devices that do not fail.
pub const SOUND: Devices<'static> = Devices {
    step: ALL,
    failing: b"",
    reads: ALL,
    hidden: b"",
    writes: ALL,
    lines: ALL,
    failure: Failure::Error,
    flush: true,
};

impl<'a> Devices<'a> {
    /// The writer of an output, by this clock.
    fn output<'c>(&self, alloc: Global, clock: &'c Cell<usize>) -> FailWriter<'c> {
        FailWriter::new(alloc, self.writes, self.failure, self.flush, clock)
    }

    /// The writer of lines on standard error, by this clock.
    pub fn errors<'c>(&self, alloc: Global, clock: &'c Cell<usize>) -> FailWriter<'c> {
        FailWriter::new(alloc, self.lines, self.failure, self.flush, clock)
    }
}

/// What is at a path.
#[derive(Clone, Copy, PartialEq, Eq)]
pub enum Kind {
    /// A file.
    File,
    /// A folder.
    Folder,
    /// A file whose first read fails.
    Broken,
}

/// What is at a path, with all its bytes.
#[derive(Drop)]
pub struct Loaded {
    /// The path, `-` for standard input.
    pub path: &'static [u8],
    /// What it is.
    pub kind: Kind,
    /// Its bytes, where it is a file.
    pub bytes: Vec<u8>,
}

impl Loaded {
    /// A file at a path.
    pub fn file(path: &'static [u8], bytes: Vec<u8>) -> Self {
        Loaded {
            path,
            kind: Kind::File,
            bytes,
        }
    }
}

/// What a system opened.
#[derive(Clone, Copy)]
pub struct Counts {
    /// How many inputs.
    pub opened: usize,
    /// When the last of them was opened.
    pub opened_at: usize,
    /// How many of them are open.
    pub open: usize,
    /// How many were open at one time, at most.
    pub most_open: usize,
}

/// None.
const NO_COUNTS: Counts = Counts {
    opened: 0,
    opened_at: 0,
    open: 0,
    most_open: 0,
};

/// A system of files in memory. It counts what is opened.
#[derive(Drop)]
pub struct Memory<'a> {
    files: &'a [Loaded],
    devices: Devices<'a>,
    clock: &'a Cell<usize>,
    room: Option<FailWriter<'a>>,
    /// The words of the command line, where there is memory for them.
    words: Option<Vec<Vec<u8>>>,
    written: Option<FailWriter<'a>>,
    /// What it opened.
    pub counts: Counts,
}

impl<'a> Memory<'a> {
    /// A system of these files, by devices that work so. Its writers and those of errors have one clock.
    pub fn new(
        alloc: Global,
        files: &'a [Loaded],
        devices: Devices<'a>,
        clock: &'a Cell<usize>,
    ) -> Self {
        Memory {
            files,
            devices,
            clock,
            room: Some(devices.output(alloc, clock)),
            words: None,
            written: None,
            counts: NO_COUNTS,
        }
    }

    /// The output, once it was closed.
    pub fn into_written(self) -> Option<FailWriter<'a>> {
        let Memory { written, .. } = self;
        written
    }

    /// The system with these words of a command line.
    pub fn with_words(self, words: Vec<Vec<u8>>) -> Self {
        Memory {
            words: Some(words),
            ..self
        }
    }

    /// The system with no output that can be opened.
    pub fn without_output(self) -> Self {
        Memory { room: None, ..self }
    }

    /// What is at a path.
    fn file_at(&self, path: &[u8]) -> Option<&'a Loaded> {
        if path == self.devices.hidden {
            return None;
        }
        let files: &'a [Loaded] = self.files;
        for file in files {
            if file.path == path {
                return Some(file);
            }
        }
        None
    }

    /// The bytes that a reader of a file gives at most.
    fn step(&self, file: &Loaded) -> usize {
        let failing = self.devices.failing;
        if failing.is_empty() || file.path == failing {
            self.devices.step
        } else {
            ALL
        }
    }

    /// How many reads go well of a file.
    fn good_reads(&self, file: &Loaded) -> usize {
        if file.kind == Kind::Broken {
            0
        } else if file.path == self.devices.failing {
            self.devices.reads
        } else {
            ALL
        }
    }

    /// Counts one more input.
    fn count(&mut self) {
        let counts = self.counts;
        let open = counts.open.saturating_add(1);
        self.counts = Counts {
            opened: counts.opened.saturating_add(1),
            opened_at: tick(self.clock),
            open,
            most_open: counts.most_open.max(open),
        };
    }

    /// Opens a file.
    fn input(&mut self, file: &'a Loaded) -> Opened<Std<Steps<'a>>> {
        self.count();
        let steps = Steps {
            rest: file.bytes.as_slice(),
            step: self.step(file),
            good: self.good_reads(file),
        };
        Opened {
            device: Std::new(steps),
            kind: kind_of(file.kind),
        }
    }

    /// An input without bytes.
    fn no_input(&mut self) -> Opened<Std<Steps<'a>>> {
        self.count();
        let steps = Steps {
            rest: b"",
            step: 1,
            good: ALL,
        };
        Opened {
            device: Std::new(steps),
            kind: FileKind::Other,
        }
    }

    /// Opens the output.
    fn output(&mut self) -> io::Result<Opened<Std<FailWriter<'a>>>> {
        match self.room.take() {
            Some(room) => Ok(Opened {
                device: Std::new(room),
                kind: FileKind::Other,
            }),
            None => Err(io::Error::from(ErrorKind::StorageFull)),
        }
    }
}

/// What a file is opened as.
fn kind_of(kind: Kind) -> FileKind {
    if kind == Kind::Folder {
        FileKind::Directory
    } else {
        FileKind::Other
    }
}

impl<'a> System for Memory<'a> {
    type Input = Std<Steps<'a>>;

    type Output = Std<FailWriter<'a>>;

    ghost may_do = { anything };

    fn words(&mut self) -> Result<Vec<Vec<u8>>, AllocError> {
        match self.words.take() {
            Some(words) => Ok(words),
            None => Err(AllocError),
        }
    }

    fn stdin(&mut self) -> Opened<Std<Steps<'a>>> {
        match self.file_at(b"-") {
            Some(file) => self.input(file),
            None => self.no_input(),
        }
    }

    fn open(&mut self, path: &str) -> io::Result<Opened<Std<Steps<'a>>>> {
        match self.file_at(path.as_bytes()) {
            Some(file) => Ok(self.input(file)),
            None => Err(io::Error::from(ErrorKind::NotFound)),
        }
    }

    fn release(&mut self, _input: Std<Steps<'a>>) {
        self.counts.open = self.counts.open.saturating_sub(1);
    }

    fn stdout(&mut self) -> io::Result<Opened<Std<FailWriter<'a>>>> {
        self.output()
    }

    fn create(&mut self, _path: &str) -> io::Result<Opened<Std<FailWriter<'a>>>> {
        self.output()
    }

    fn kind_at(&mut self, _path: &str) -> io::Result<Option<FileKind>> {
        Ok(None)
    }

    fn create_new(&mut self, _path: &str) -> io::Result<Opened<Std<FailWriter<'a>>>> {
        self.output()
    }

    fn seize(&mut self, _path: &str) -> io::Result<bool> {
        Ok(true)
    }

    fn holds(&mut self, _path: &str) -> bool {
        true
    }

    fn keep_mode(&mut self, _from: &str, _to: &str) -> io::Result<()> {
        Ok(())
    }

    fn rename(&mut self, _from: &str, _to: &str) -> io::Result<()> {
        Ok(())
    }

    fn remove(&mut self, _path: &str) -> io::Result<()> {
        Ok(())
    }

    fn close(&mut self, output: Std<FailWriter<'a>>) -> io::Result<()> {
        self.written = Some(output.into_inner());
        Ok(())
    }
}

impl<'a> Folders for Memory<'a> {
    type Folder = NoFolder;

    ghost folders_do = { folders.anything };

    fn open_folder(&mut self, _path: &str) -> io::Result<NoFolder> {
        Err(io::Error::from(ErrorKind::NotFound))
    }

    fn next_name(&mut self, _folder: &mut NoFolder, _name: &mut EntryName) -> io::Result<bool> {
        Ok(false)
    }

    fn close_folder(&mut self, _folder: NoFolder) {}

    fn find(&mut self, _path: &str, _links: Links) -> io::Result<Option<Found>> {
        Ok(None)
    }

    fn mode_in(&mut self, _folder: &[u8], _name: &[u8]) -> io::Result<u32> {
        Err(io::Error::from(ErrorKind::NotFound))
    }

    fn make_folder(&mut self, _path: &str, _mode: u32) -> io::Result<()> {
        Ok(())
    }

    fn create_as(&mut self, _path: &str, _mode: u32) -> io::Result<Opened<Std<FailWriter<'a>>>> {
        self.output()
    }

    fn link(&mut self, _from: &str, _to: &str) -> io::Result<()> {
        Ok(())
    }
}
