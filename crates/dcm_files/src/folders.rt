// Folders: the names in them, what is at a name, and new names.
ghost use Rattle.dcm_files.specs.Folders as spec;
ghost use Rattle.dcm_files.specs.Folders.{FoldersDo};

use crate::devices::System;
use crate::opened::Opened;
use arrayvec::ArrayVec;
use std::io;

/// The most bytes that are kept of a name in a folder. Linux has none longer than 255 (NAME_MAX) but on some file
/// systems, where a name may have a few times as many.
pub const MOST_OF_ENTRY: usize = 4096;

/// A name in a folder, or its first bytes.
pub type EntryName = ArrayVec<u8, MOST_OF_ENTRY>;

/// What something at a path is.
#[derive(Clone, Copy, Debug, PartialEq, Eq)]
pub enum FoundKind {
    /// A regular file.
    File,
    /// A folder.
    Folder,
    /// A link, a pipe, a device or a socket.
    Other,
}

/// What is at a path.
#[derive(Clone, Copy, Debug, PartialEq, Eq)]
pub struct Found {
    /// What it is.
    pub kind: FoundKind,
    /// The device that it is on.
    pub device: u64,
    /// Its number there.
    pub number: u64,
    /// Who may read, write and run it: the nine lowest bits of the mode.
    pub mode: u32,
}

/// Whether what a link at the end of a path leads to is looked at, or the link.
#[derive(Clone, Copy, Debug, PartialEq, Eq)]
pub enum Links {
    Followed,
    Kept,
}

/// A system that has folders. Each call is a step of it, also where the call changes nothing.
pub trait Folders: System {
    /// A folder whose names are listed.
    type Folder: Drop;

    /// What the calls below may answer, and what they may leave of the system.
    ghost folders_do: { FoldersDo Self Self.Output Self.Folder };

    /// Opens the folder at a path, to list its names.
    fn open_folder(&mut self, path: &str) -> io::Result<Self::Folder>
        ensures { folders_do.opens_folder self.old path.now result self.new };

    /// Answers whether a folder has a next name, and gives it. The names `.` and `..` are not among them, and any bytes
    /// but 00 and `/` may be in one.
    fn next_name(&mut self, folder: &mut Self::Folder, name: &mut EntryName) -> io::Result<bool>
        ensures { folders_do.names self.old folder.old (spec.name_given name.new.items result) folder.new self.new };

    /// Takes a folder back.
    fn close_folder(&mut self, folder: Self::Folder)
        ensures { folders_do.closes_folder self.old folder self.new };

    /// What is at a path, or none where nothing is.
    fn find(&mut self, path: &str, links: Links) -> io::Result<Option<Found>>
        ensures { folders_do.finds self.old path.now links result self.new };

    /// Who may read, write and enter the folder of a name in a folder: nine bits. Of no name it is that folder, which may
    /// be at a link; the other one may not. An error where it is no folder, or cannot be looked at.
    fn mode_in(&mut self, folder: &[u8], name: &[u8]) -> io::Result<u32>
        ensures { folders_do.modes self.old folder.now name.now result self.new };

    /// Makes a folder at a path at which nothing is, with these bits of its mode that the process leaves to new ones. An
    /// error where something is.
    fn make_folder(&mut self, path: &str, mode: u32) -> io::Result<()>
        ensures { folders_do.makes_folder self.old path.now mode result self.new };

    /// What is written at a path at which nothing was, with these bits of its mode that the process leaves to new
    /// files. It is held, as by `seize`. An error where something is, or where another run has locked what was made.
    fn create_as(&mut self, path: &str, mode: u32) -> io::Result<Opened<Self::Output>>
        ensures { folders_do.makes_as self.old path.now mode result self.new };

    /// Gives a file a second name, at which nothing is. An error where something is.
    fn link(&mut self, from: &str, to: &str) -> io::Result<()>
        ensures { folders_do.links self.old from.now to.now result self.new };
}
