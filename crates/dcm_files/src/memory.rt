// A system over files in memory.
ghost use Rattle.std.specs.Prelude.{◌≡◌, Some, None};
ghost use Rattle.dcm_files.specs.Memory as spec;

use crate::devices::System;
use crate::folders::{EntryName, Folders, Found, FoundKind, Links};
use crate::opened::{FileKind, Opened};
use dcm_devices::{Measured, MemIn, MemOut};
use std::alloc::AllocError;
use std::io;
use std::io::ErrorKind;

/// The bytes that an input gives at a time.
const STEP: usize = 65_536;

/// What a file is that is made where there is none.
const NEW: FileKind = FileKind::Regular {
    device: 1,
    number: 0,
    size: 0,
};

/// The mode of each file.
const MODE: u32 = 0o644;

/// A file in memory. Two names of one file have one number.
#[derive(Clone, Copy)]
pub struct MemFile<'a> {
    /// The path that it is opened by.
    pub name: &'a [u8],
    /// The number of the file.
    pub number: u64,
    /// The bytes of the file.
    pub bytes: &'a [u8],
}

impl<'a> MemFile<'a> {
    /// What is at its name.
    fn found(&self) -> Found
        ensures { result ≡ spec.found_as self.now }
    {
        Found {
            kind: FoundKind::File,
            device: 0,
            number: self.number,
            mode: MODE,
        }
    }

    /// What it is opened as.
    fn kind(&self) -> FileKind
        ensures { result ≡ spec.kind_of self.now }
    {
        FileKind::Regular {
            device: 0,
            number: self.number,
            size: self.bytes.len() as u64,
        }
    }
}

/// The first file of a name.
fn file_named<'a>(files: &[MemFile<'a>], name: &[u8]) -> Option<MemFile<'a>>
    ensures { result ≡ spec.file_named files.now name.now }
{
    for file in files {
        if file.name == name {
            return Some(*file);
        }
    }
    None
}

/// What a file of this name is written as: the one that is there, or a new one.
fn kind_written(files: &[MemFile], name: &[u8]) -> FileKind
    ensures { result ≡ spec.kind_written (spec.file_named files.now name.now) }
{
    match file_named(files, name) {
        Some(file) => file.kind(),
        None => NEW,
    }
}

/// A system of files in memory. It has room for one output, whatever its path is: the files stay as they are.
#[derive(Drop)]
pub struct MemSystem<'a> {
    files: &'a [MemFile<'a>],
    stdin: &'a [u8],
    room: Option<MemOut>,
    written: Option<MemOut>,
}

impl<'a> MemSystem<'a> {
    /// The system with these files, this standard input, and room for an output.
    pub fn new(files: &'a [MemFile<'a>], stdin: &'a [u8], room: MemOut) -> Self
        ensures files { result.files.now ≡ files.now }
        ensures stdin { result.stdin.now ≡ stdin.now }
        ensures room { result.room ≡ Some room }
        ensures written { result.written ≡ None }
    {
        MemSystem {
            files,
            stdin,
            room: Some(room),
            written: None,
        }
    }

    /// What was written, once it was closed.
    pub fn into_written(self) -> Option<MemOut>
        ensures { result ≡ self.entry.written }
    {
        let MemSystem { written, .. } = self;
        written
    }

    /// Opens the room as an output.
    fn open_room(&mut self, kind: FileKind) -> io::Result<Opened<Measured>>
        ensures gives { spec.GivesRoom self.old.room kind result }
        ensures taken { self.new ≡ record self.old { room = None } }
    {
        match self.room.take() {
            Some(room) => Ok(Opened {
                device: Measured::new(room),
                kind,
            }),
            None => Err(io::Error::from(ErrorKind::StorageFull)),
        }
    }
}

impl<'a> System for MemSystem<'a> {
    type Input = MemIn<'a>;

    type Output = Measured;

    ghost may_do = { spec.may_do };

    fn words(&mut self) -> Result<Vec<Vec<u8>>, AllocError> {
        Err(AllocError)
    }

    fn stdin(&mut self) -> Opened<MemIn<'a>> {
        Opened {
            device: MemIn::new(self.stdin, STEP),
            kind: FileKind::Other,
        }
    }

    fn open(&mut self, path: &str) -> io::Result<Opened<MemIn<'a>>> {
        match file_named(self.files, path.as_bytes()) {
            Some(file) => Ok(Opened {
                device: MemIn::new(file.bytes, STEP),
                kind: file.kind(),
            }),
            None => Err(io::Error::from(ErrorKind::NotFound)),
        }
    }

    fn release(&mut self, _input: MemIn<'a>) {}

    fn stdout(&mut self) -> io::Result<Opened<Measured>> {
        self.open_room(FileKind::Other)
    }

    fn create(&mut self, path: &str) -> io::Result<Opened<Measured>> {
        let kind = kind_written(self.files, path.as_bytes());
        self.open_room(kind)
    }

    fn kind_at(&mut self, path: &str) -> io::Result<Option<FileKind>> {
        match file_named(self.files, path.as_bytes()) {
            Some(file) => Ok(Some(file.kind())),
            None => Ok(None),
        }
    }

    fn create_new(&mut self, path: &str) -> io::Result<Opened<Measured>> {
        match file_named(self.files, path.as_bytes()) {
            Some(_) => Err(io::Error::from(ErrorKind::AlreadyExists)),
            None => self.open_room(NEW),
        }
    }

    fn seize(&mut self, path: &str) -> io::Result<bool> {
        match file_named(self.files, path.as_bytes()) {
            Some(_) => Ok(true),
            None => Err(io::Error::from(ErrorKind::NotFound)),
        }
    }

    fn holds(&mut self, path: &str) -> bool {
        file_named(self.files, path.as_bytes()).is_some()
    }

    fn keep_mode(&mut self, _from: &str, _to: &str) -> io::Result<()> {
        Ok(())
    }

    fn rename(&mut self, _from: &str, _to: &str) -> io::Result<()> {
        Ok(())
    }

    fn remove(&mut self, _path: &str) -> io::Result<()> {
        self.written = None;
        Ok(())
    }

    fn close(&mut self, output: Measured) -> io::Result<()> {
        self.written = Some(output.into_inner());
        Ok(())
    }
}

/// A folder in a system that has none.
#[derive(Drop)]
pub struct NoFolder;

impl<'a> Folders for MemSystem<'a> {
    type Folder = NoFolder;

    ghost folders_do = { spec.folders_do };

    fn open_folder(&mut self, _path: &str) -> io::Result<NoFolder> {
        Err(io::Error::from(ErrorKind::NotFound))
    }

    fn next_name(&mut self, _folder: &mut NoFolder, _name: &mut EntryName) -> io::Result<bool> {
        Ok(false)
    }

    fn close_folder(&mut self, _folder: NoFolder) {}

    fn find(&mut self, path: &str, _links: Links) -> io::Result<Option<Found>> {
        match file_named(self.files, path.as_bytes()) {
            Some(file) => Ok(Some(file.found())),
            None => Ok(None),
        }
    }

    fn mode_in(&mut self, _folder: &[u8], _name: &[u8]) -> io::Result<u32> {
        Err(io::Error::from(ErrorKind::NotFound))
    }

    fn make_folder(&mut self, _path: &str, _mode: u32) -> io::Result<()> {
        Err(io::Error::from(ErrorKind::Unsupported))
    }

    fn create_as(&mut self, path: &str, _mode: u32) -> io::Result<Opened<Measured>> {
        self.create_new(path)
    }

    fn link(&mut self, _from: &str, _to: &str) -> io::Result<()> {
        Err(io::Error::from(ErrorKind::Unsupported))
    }
}
