// The devices that the system has.
ghost use Rattle.std.specs.Prelude.{◌≡◌, [], IfOk};
ghost use Rattle.dcm_files.specs.Host.{IsNew, noted, noted_folders};

use crate::calls::Calls;
use crate::devices::System;
use crate::folders::{EntryName, Folders, Found, FoundKind, Links};
use crate::host_folder::HostFolder;
use crate::modes::{USUAL_MODE, give_mode, links_of, mode_found, mode_of, path_below};
use crate::opened::{FileKind, Opened};
use crate::output::OutputFile;
use dcm_devices::{Device, Std, StdReader};
use either::{Either, Left, Right};
use std::alloc::AllocError;
use std::env::{Env, FillError};
use std::fs::{DirBuilder, File, Files, Metadata, OpenOptions, TryLockError};
use std::io::{BufWriter, ErrorKind, Read, Stdin, Stdout, Write};
use std::os::fd::AsFd;
use std::os::unix::fs::{DirBuilderExt, MetadataExt, OpenOptionsExt};
use std::{fs, io, str};

/// What can be neither read nor written, for a standard stream that is closed.
const NOTHING: &str = "/";

/// What standard input reads from, as a path.
const STANDARD_INPUT: &str = "/proc/self/fd/0";

/// What standard output writes to, as a path.
const STANDARD_OUTPUT: &str = "/proc/self/fd/1";

/// The bytes that are written at a time.
const BUFFER: usize = 262_144;

/// The room that a word of the command line is given first. It is doubled where the word is longer.
const WORD: usize = 256;

/// How often it is doubled: no system has longer words.
const MOST_DOUBLINGS: usize = 32;

/// The numbers of standard streams that were closed when the program began.
#[derive(Drop)]
struct Reserved {
    _input: Option<File>,
    _output: Option<File>,
    _errors: Option<File>,
}

/// Takes the number of a standard stream where it is closed. The lowest number that is free is taken, so the streams
/// come in the order of their numbers.
fn reserve_if_closed<T: AsFd>(rt: HostRuntime, stream: &T) -> io::Result<Option<File>> {
    match stream.as_fd().try_clone_to_owned() {
        Ok(_open) => Ok(None),
        Err(_) => Ok(Some(File::open(&rt, NOTHING)?)),
    }
}

/// Takes the numbers of standard streams that are closed, so that no file that is opened after it gets one of them,
/// and with it what is written to the stream (DECISIONS, D-32). They are kept as long as the answer is.
fn reserve(rt: HostRuntime) -> io::Result<Reserved> {
    Ok(Reserved {
        _input: reserve_if_closed(rt, &rt.stdin())?,
        _output: reserve_if_closed(rt, &rt.stdout())?,
        _errors: reserve_if_closed(rt, &rt.stderr())?,
    })
}

/// A word of the command line by its number, where 0 is the program's name, or none after the last one. It may be any
/// bytes, and takes no more memory than they need.
fn word(rt: HostRuntime, number: usize) -> Result<Option<Vec<u8>>, AllocError> {
    for doublings in 0..MOST_DOUBLINGS {
        let mut word = vec![in rt.alloc(); 0u8; WORD << doublings]?;
        match rt.arg(number, word.as_mut_slice()) {
            Ok(length) => {
                word.truncate(length);
                word.shrink_to_fit();
                return Ok(Some(word));
            }
            Err(FillError::TooLong) => {}
            Err(FillError::NotPresent) => return Ok(None),
        }
    }
    Err(AllocError)
}

/// What a file is, by what the system says of it.
fn kind_of(file: &Metadata) -> FileKind {
    if file.is_dir() {
        return FileKind::Directory;
    }
    if file.is_file() {
        return FileKind::Regular {
            device: file.dev(),
            number: file.ino(),
            size: file.len(),
        };
    }
    FileKind::Other
}

/// What standard input is.
fn input_kind(rt: HostRuntime) -> FileKind {
    match fs::metadata(&rt, STANDARD_INPUT) {
        Ok(file) => kind_of(&file),
        Err(_) => FileKind::Unknown,
    }
}

/// What standard output is. Without /proc no path leads to it; any other error is one of opening it.
fn output_kind(rt: HostRuntime) -> io::Result<FileKind> {
    match fs::metadata(&rt, STANDARD_OUTPUT) {
        Ok(file) => Ok(kind_of(&file)),
        Err(e) if e.kind() == ErrorKind::NotFound => Ok(FileKind::Unknown),
        Err(e) => Err(e),
    }
}

/// All words of the command line after the program's name.
fn all_words(rt: HostRuntime) -> Result<Vec<Vec<u8>>, AllocError> {
    let mut words = Vec::new(rt.alloc());
    for number in 1..usize::MAX {
        match word(rt, number)? {
            Some(word) => words.push(word)?,
            None => break,
        }
    }
    Ok(words)
}

/// An input that was opened.
type HostInput = Std<Either<Stdin, File>>;

/// An output that was opened.
type HostOutput = Std<BufWriter<Either<Stdout, OutputFile<File>>>>;

/// A folder that is listed.
type HostNames = HostFolder<<HostRuntime as Files>::Dir>;

fn open_file(rt: HostRuntime, path: &str) -> io::Result<Opened<HostInput>>
    ensures { IfOk result (λ opened. IsNew opened.device) }
{
    let file = File::open(&rt, path)?;
    let kind = kind_of(&file.metadata()?);
    Ok(Opened {
        device: Std::new(Right(file)),
        kind,
    })
}

/// An output, written through a buffer (DECISIONS, D-58).
fn buffered(
    rt: HostRuntime,
    output: Either<Stdout, OutputFile<File>>,
    kind: FileKind,
) -> io::Result<Opened<HostOutput>>
    ensures { IfOk result (λ opened. IsNew opened.device) }
{
    let device = Std::new(BufWriter::with_capacity(rt.alloc(), BUFFER, output)?);
    Ok(Opened { device, kind })
}

fn buffered_stdout(rt: HostRuntime) -> io::Result<Opened<HostOutput>>
    ensures { IfOk result (λ opened. IsNew opened.device) }
{
    let kind = output_kind(rt)?;
    buffered(rt, Left(rt.stdout()), kind)
}

fn create_file(rt: HostRuntime, path: &str) -> io::Result<Opened<HostOutput>>
    ensures { IfOk result (λ opened. IsNew opened.device) }
{
    let file = OpenOptions::new().write(true).create(true).open(&rt, path)?;
    let kind = kind_of(&file.metadata()?);
    buffered(rt, Right(OutputFile::new(file)), kind)
}

fn kind_at_path(rt: HostRuntime, path: &str) -> io::Result<Option<FileKind>> {
    match fs::metadata(&rt, path) {
        Ok(file) => Ok(Some(kind_of(&file))),
        Err(e) if e.kind() == ErrorKind::NotFound => Ok(None),
        Err(e) => Err(e),
    }
}

/// Who has locked a file.
#[derive(Clone, Copy)]
enum Locking {
    /// This run.
    Ours,
    /// Another one.
    Anothers,
    /// Nobody: its file system has no locks.
    Nobodys,
}

/// Locks a file, unless another run has locked it.
fn lock(file: &File) -> Locking {
    match file.try_lock() {
        Ok(()) => Locking::Ours,
        Err(TryLockError::WouldBlock) => Locking::Anothers,
        Err(TryLockError::Error(_)) => Locking::Nobodys,
    }
}

/// A new file at a path at which nothing was, with bits of a mode, which is locked where the file system has locks.
fn new_file(rt: HostRuntime, path: &str, mode: u32) -> io::Result<File> {
    let file = OpenOptions::new()
        .write(true)
        .create_new(true)
        .mode(mode)
        .open(&rt, path)?;
    match lock(&file) {
        Locking::Anothers => Err(io::Error::from(ErrorKind::AlreadyExists)),
        Locking::Ours | Locking::Nobodys => Ok(file),
    }
}

/// What is written into a new file, and the file itself. Nobody asks what a new file is.
fn new_output(rt: HostRuntime, file: File) -> io::Result<(Opened<HostOutput>, File)>
    ensures { IfOk result (λ made. IsNew made.0.device) }
{
    let held = file.try_clone()?;
    let opened = buffered(rt, Right(OutputFile::new(file)), FileKind::Unknown)?;
    Ok((opened, held))
}

/// Opens a file to lock it.
fn open_to_lock(rt: HostRuntime, path: &str) -> io::Result<File> {
    match OpenOptions::new().write(true).open(&rt, path) {
        Ok(file) => Ok(file),
        Err(_) => File::open(&rt, path),
    }
}

/// Whether an open file is what is at a path, a link as a link.
fn is_at(rt: HostRuntime, file: &File, path: &str) -> io::Result<bool> {
    let open = file.metadata()?;
    let there = fs::symlink_metadata(&rt, path)?;
    Ok(open.dev() == there.dev() && open.ino() == there.ino())
}

/// Whether an open file is known to be what is at a path.
fn is_known_at(rt: HostRuntime, file: &File, path: &str) -> bool {
    matches!(is_at(rt, file, path), Ok(true))
}

/// The file at a path, locked, or none where another run has locked it.
fn locked_at(rt: HostRuntime, path: &str) -> io::Result<Option<File>> {
    let file = open_to_lock(rt, path)?;
    match lock(&file) {
        Locking::Anothers => Ok(None),
        Locking::Ours if is_at(rt, &file, path)? => Ok(Some(file)),
        Locking::Ours => Err(io::Error::from(ErrorKind::NotFound)),
        Locking::Nobodys => Err(io::Error::from(ErrorKind::Unsupported)),
    }
}

/// Closes an output. What one that failed still holds is not written again. Standard output stays open. The system's own
/// answer to the closing of a file is not seen: the kit has no call that gives this answer.
fn close_output(output: HostOutput) -> io::Result<()> {
    let failed = output.failed();
    let mut writer = output.into_inner();
    let flushed = if failed { Ok(()) } else { writer.flush() };
    // A writer that is dropped writes what it holds once more, and one that is taken apart does not.
    let (_closed, _unwritten) = writer.into_parts();
    flushed
}

/// What is at a path, by what the system says of it.
fn found_of(file: &Metadata) -> Found {
    let kind = if file.is_dir() {
        FoundKind::Folder
    } else if file.is_file() {
        FoundKind::File
    } else {
        FoundKind::Other
    };
    Found {
        kind,
        device: file.dev(),
        number: file.ino(),
        mode: mode_of(file),
    }
}

/// What is at a path, or none where nothing is.
fn find_at(rt: HostRuntime, path: &str, links: Links) -> io::Result<Option<Found>> {
    let looked = match links {
        Links::Followed => fs::metadata(&rt, path),
        Links::Kept => fs::symlink_metadata(&rt, path),
    };
    match looked {
        Ok(file) => Ok(Some(found_of(&file))),
        Err(e) if e.kind() == ErrorKind::NotFound => Ok(None),
        Err(e) => Err(e),
    }
}

/// The mode of the folder of a name in a folder, links not followed; of no name that of the folder itself, which may be
/// at a link.
fn mode_at(rt: HostRuntime, folder: &[u8], name: &[u8]) -> io::Result<u32> {
    let Some(path) = path_below(folder, name) else {
        return Err(io::Error::from(ErrorKind::InvalidFilename));
    };
    let Ok(text) = str::from_utf8(path.as_slice()) else {
        return Err(io::Error::from(ErrorKind::InvalidFilename));
    };
    let found = find_at(rt, text, links_of(name))?;
    match mode_found(found) {
        Some(mode) => Ok(mode),
        None => Err(io::Error::from(ErrorKind::NotADirectory)),
    }
}

/// Opens a folder, to list its names.
fn open_names(rt: HostRuntime, path: &str) -> io::Result<HostNames>
    ensures { IfOk result (λ folder. folder.pending ≡ []) }
{
    Ok(HostFolder::new(rt.open_dir(path)?))
}

/// The system that the program runs on. Proofs know the calls that were made of it.
#[derive(Drop)]
pub struct Host {
    rt: HostRuntime,
    calls: Calls,
    held: Option<File>,
    _reserved: Reserved,
}

/// That the system cannot be used. None but `Host::new` makes one, so who has one has asked for the system.
#[derive(Debug, Drop)]
pub struct NoHost {
    _cause: io::Error,
}

impl Host {
    /// The system, with the numbers of the standard streams that are closed taken. An error where they cannot be taken.
    pub fn new(rt: HostRuntime) -> Result<Self, NoHost>
        ensures runtime { IfOk result (λ host. host.rt ≡ rt) }
        ensures calls { IfOk result (λ host. host.calls.made ≡ []) }
    {
        match reserve(rt) {
            Ok(reserved) => Ok(Host {
                rt,
                calls: Calls::new(),
                held: None,
                _reserved: reserved,
            }),
            Err(cause) => Err(NoHost { _cause: cause }),
        }
    }

    /// Opens what is written at a path at which nothing was, with bits of a mode, and holds it. Where that fails after the
    /// file was made it is removed again.
    fn make_file(&mut self, path: &str, mode: u32) -> io::Result<Opened<HostOutput>>
        ensures new { IfOk result (λ opened. IsNew opened.device) }
        ensures calls { self.new.calls ≡ self.old.calls }
    {
        let file = new_file(self.rt, path, mode)?;
        match new_output(self.rt, file) {
            Ok((opened, held)) => {
                self.held = Some(held);
                Ok(opened)
            }
            Err(e) => {
                let _ = fs::remove_file(&self.rt, path);
                Err(e)
            }
        }
    }

    /// Locks the file at a path and holds it, unless another run has locked it.
    fn lock_file(&mut self, path: &str) -> io::Result<bool>
        ensures { self.new.calls ≡ self.old.calls }
    {
        let Some(file) = locked_at(self.rt, path)? else {
            return Ok(false);
        };
        self.held = Some(file);
        Ok(true)
    }
}

impl System for Host {
    type Input = HostInput;

    type Output = HostOutput;

    ghost may_do = { noted (λ host. host.calls.made) };

    fn words(&mut self) -> Result<Vec<Vec<u8>>, AllocError> {
        let words = all_words(self.rt);
        self.calls.note(b"", &words);
        words
    }

    fn stdin(&mut self) -> Opened<Self::Input> {
        let opened = Opened {
            device: Std::new(Left(self.rt.stdin())),
            kind: input_kind(self.rt),
        };
        self.calls.note(b"", &opened);
        opened
    }

    fn open(&mut self, path: &str) -> io::Result<Opened<Self::Input>> {
        let opened = open_file(self.rt, path);
        self.calls.note(path.as_bytes(), &opened);
        opened
    }

    fn release(&mut self, input: Self::Input) {
        self.calls.note(b"", &input);
    }

    fn stdout(&mut self) -> io::Result<Opened<Self::Output>> {
        let opened = buffered_stdout(self.rt);
        self.calls.note(b"", &opened);
        opened
    }

    fn create(&mut self, path: &str) -> io::Result<Opened<Self::Output>> {
        let opened = create_file(self.rt, path);
        self.calls.note(path.as_bytes(), &opened);
        opened
    }

    fn kind_at(&mut self, path: &str) -> io::Result<Option<FileKind>> {
        let kind = kind_at_path(self.rt, path);
        self.calls.note(path.as_bytes(), &kind);
        kind
    }

    fn create_new(&mut self, path: &str) -> io::Result<Opened<Self::Output>> {
        let opened = self.make_file(path, USUAL_MODE);
        self.calls.note(path.as_bytes(), &opened);
        opened
    }

    fn seize(&mut self, path: &str) -> io::Result<bool> {
        let seized = self.lock_file(path);
        self.calls.note(path.as_bytes(), &seized);
        seized
    }

    fn holds(&mut self, path: &str) -> bool {
        let is_there = match &self.held {
            Some(file) => is_known_at(self.rt, file, path),
            None => false,
        };
        self.calls.note(path.as_bytes(), &is_there);
        is_there
    }

    fn keep_mode(&mut self, from: &str, to: &str) -> io::Result<()> {
        let kept = give_mode(self.rt, from, to);
        self.calls.note(from.as_bytes(), &(to.as_bytes(), &kept));
        kept
    }

    fn rename(&mut self, from: &str, to: &str) -> io::Result<()> {
        let moved = fs::rename(&self.rt, from, to);
        self.calls.note(from.as_bytes(), &(to.as_bytes(), &moved));
        moved
    }

    fn remove(&mut self, path: &str) -> io::Result<()> {
        let removed = fs::remove_file(&self.rt, path);
        if removed.is_ok() {
            self.held = None;
        }
        self.calls.note(path.as_bytes(), &removed);
        removed
    }

    fn close(&mut self, output: Self::Output) -> io::Result<()> {
        self.calls.note(b"", &output);
        let closed = close_output(output);
        self.calls.note(b"", &closed);
        closed
    }
}

impl Folders for Host {
    type Folder = HostNames;

    ghost folders_do = { noted_folders (λ host. host.calls.made) ⟦<<HostRuntime as Files>::Dir as Read>⟧.remaining
        ⟦<<HostRuntime as Files>::Dir as StdReader>⟧.may_read };

    fn open_folder(&mut self, path: &str) -> io::Result<HostNames> {
        let opened = open_names(self.rt, path);
        self.calls.note(path.as_bytes(), &opened);
        opened
    }

    fn next_name(&mut self, folder: &mut HostNames, name: &mut EntryName) -> io::Result<bool> {
        let given = folder.next(name);
        self.calls.note(name.as_slice(), &given);
        given
    }

    fn close_folder(&mut self, folder: HostNames) {
        self.calls.note(b"", &folder);
    }

    fn find(&mut self, path: &str, links: Links) -> io::Result<Option<Found>> {
        let found = find_at(self.rt, path, links);
        self.calls.note(path.as_bytes(), &(links, &found));
        found
    }

    fn mode_in(&mut self, folder: &[u8], name: &[u8]) -> io::Result<u32> {
        let mode = mode_at(self.rt, folder, name);
        self.calls.note(folder, &(name, &mode));
        mode
    }

    fn make_folder(&mut self, path: &str, mode: u32) -> io::Result<()> {
        let made = DirBuilder::new().mode(mode).create(&self.rt, path);
        self.calls.note(path.as_bytes(), &(mode, &made));
        made
    }

    fn create_as(&mut self, path: &str, mode: u32) -> io::Result<Opened<Self::Output>> {
        let opened = self.make_file(path, mode);
        self.calls.note(path.as_bytes(), &(mode, &opened));
        opened
    }

    fn link(&mut self, from: &str, to: &str) -> io::Result<()> {
        let linked = fs::hard_link(&self.rt, from, to);
        self.calls.note(from.as_bytes(), &(to.as_bytes(), &linked));
        linked
    }
}
