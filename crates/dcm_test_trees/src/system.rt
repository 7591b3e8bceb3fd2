// A system over a tree in memory.
ghost use Rattle.dcm_files.specs.Devices.{anything};
ghost use Rattle.dcm_files.specs.Folders as folders;

use super::devices::{TreeDevices, TreeReader, TreeWriter};
use super::listing::TreeFolder;
use super::node::{DEVICE, Node, OTHER_DEVICE};
use super::place::{Place, place_at};
use super::tree::Tree;
use dcm_devices::Std;
use dcm_files::{EntryName, FileKind, Folders, Found, Links, Opened, System};
use std::alloc::{AllocError, Global};
use std::io::ErrorKind;
use std::{io, mem};

/// The bits of a new file's mode where nothing else is said.
const USUAL_MODE: u32 = 0o666;

/// The bytes of an output of another process.
const OF_ANOTHER: &[u8] = b"x";

/// Who may read, write and run a file.
const MODE_BITS: u32 = 0o777;

/// A system over a tree in memory.
#[derive(Drop)]
pub struct MemoryTree {
    alloc: Global,
    tree: Tree,
    stdin: Vec<u8>,
    devices: TreeDevices,
    written: Vec<u8>,
    /// The number of the file that is held, if there is one.
    held: Option<usize>,
    /// How many inputs, outputs and folders are open.
    pub open: usize,
}

/// The error of a path at which something is.
fn taken() -> io::Error {
    io::Error::from(ErrorKind::AlreadyExists)
}

/// The error of a path at which nothing is.
fn missing() -> io::Error {
    io::Error::from(ErrorKind::NotFound)
}

/// The error of a path that cannot be opened.
fn locked() -> io::Error {
    io::Error::from(ErrorKind::PermissionDenied)
}

/// The error of a path at which a folder is.
fn folder_there() -> io::Error {
    io::Error::from(ErrorKind::IsADirectory)
}

impl MemoryTree {
    /// A system over a tree, with this standard input.
    pub fn new(alloc: Global, tree: Tree, stdin: Vec<u8>, devices: TreeDevices) -> Self {
        let mut tree = tree;
        tree.tells_letters = devices.tells_letters;
        MemoryTree {
            alloc,
            tree,
            stdin,
            devices,
            written: Vec::new(alloc),
            held: None,
            open: 0,
        }
    }

    /// The tree, and what was written to standard output, once that was closed.
    pub fn into_parts(self) -> (Tree, Vec<u8>) {
        let MemoryTree { tree, written, .. } = self;
        (tree, written)
    }

    /// Counts what was opened.
    fn count(&mut self) {
        self.open = self.open.saturating_add(1);
    }

    /// Counts what was given back.
    fn uncount(&mut self) {
        self.open = self.open.saturating_sub(1);
    }

    /// Where a path leads.
    fn place(&self, path: &str, links: Links) -> io::Result<Place> {
        place_at(&self.tree, path.as_bytes(), links)
    }

    /// Where a path leads at which nothing is.
    fn free_place(&self, path: &str) -> io::Result<Place> {
        let place = self.place(path, Links::Kept)?;
        if place.node.is_some() {
            return Err(taken());
        }
        Ok(place)
    }

    /// The number of what a path leads to that is to be opened.
    fn opened_number(&self, path: &str) -> io::Result<usize> {
        if path == self.devices.locked {
            return Err(locked());
        }
        self.number(path, Links::Followed)
    }

    /// The number of what a path leads to.
    fn number(&self, path: &str, links: Links) -> io::Result<usize> {
        self.place(path, links)?.node.ok_or_else(missing)
    }

    /// The mode of a folder at a path.
    fn folder_mode(&self, path: &[u8], links: Links) -> io::Result<u32> {
        if path == self.devices.unseen {
            return Err(locked());
        }
        let number = place_at(&self.tree, path, links)?.node.ok_or_else(missing)?;
        match self.tree.node(number) {
            Some(Node::Folder(_, mode)) => Ok(*mode & MODE_BITS),
            _ => Err(io::Error::from(ErrorKind::NotADirectory)),
        }
    }

    /// The device that what is at a path is on.
    fn device(&self, path: &str) -> u64 {
        if path == self.devices.elsewhere {
            OTHER_DEVICE
        } else {
            DEVICE
        }
    }

    /// What a file is opened as.
    fn kind(&self, number: usize) -> FileKind {
        match self.tree.node(number) {
            Some(Node::Folder(_, _)) => FileKind::Directory,
            Some(Node::File(bytes, _)) => FileKind::Regular {
                device: DEVICE,
                number: number as u64,
                size: bytes.len() as u64,
            },
            _ => FileKind::Other,
        }
    }

    /// The bytes of a file, or none.
    fn bytes(&self, number: usize) -> Result<Vec<u8>, AllocError> {
        match self.tree.node(number) {
            Some(Node::File(bytes, _)) => bytes.as_slice().to_vec(self.alloc),
            _ => Ok(Vec::new(self.alloc)),
        }
    }

    /// Opens what has a number as an input.
    fn input(&mut self, number: usize) -> io::Result<Opened<Std<TreeReader>>> {
        let bytes = self.bytes(number)?;
        let fails = matches!(self.tree.node(number), Some(Node::Broken));
        self.count();
        Ok(Opened {
            device: Std::new(TreeReader::new(bytes, self.devices.step, fails)),
            kind: self.kind(number),
        })
    }

    /// Opens what has a number as an output.
    fn output(&mut self, number: usize) -> Opened<Std<TreeWriter>> {
        self.count();
        Opened {
            device: Std::new(TreeWriter::new(self.alloc, Some(number), self.devices.disk)),
            kind: self.kind(number),
        }
    }

    /// Makes a file where nothing is, and opens it.
    fn make_file(&mut self, place: Place, mode: u32) -> io::Result<Opened<Std<TreeWriter>>> {
        if place.is_of_folder {
            return Err(folder_there());
        }
        let mode = mode & MODE_BITS & !self.devices.umask;
        let file = Node::File(Vec::new(self.alloc), mode);
        let number = self.tree.add(place.folder, place.text.as_slice(), file)?;
        self.held = Some(number);
        Ok(self.output(number))
    }

    /// Makes a file of another process.
    fn make_of_another(&mut self, path: &str, bytes: &[u8]) -> io::Result<()> {
        let place = self.free_place(path)?;
        let file = Node::file(self.alloc, bytes, USUAL_MODE & !self.devices.umask)?;
        self.tree.add(place.folder, place.text.as_slice(), file)?;
        Ok(())
    }

    /// Counts a file that is to be made. Where none more may be, another process makes it first.
    fn intrude(&mut self, path: &str) -> io::Result<()> {
        if self.devices.files > 0 {
            self.devices.files -= 1;
            return Ok(());
        }
        self.make_of_another(path, b"")
    }

    /// Counts a file that is to be made, for which there has to be memory.
    fn take_memory(&mut self) -> io::Result<()> {
        if self.devices.memory == 0 {
            return Err(io::Error::from(ErrorKind::OutOfMemory));
        }
        self.devices.memory -= 1;
        Ok(())
    }

    /// The number of a file, where no folder is there.
    fn file_number(&self, path: &str) -> io::Result<usize> {
        let number = self.number(path, Links::Kept)?;
        if self.tree.is_folder(number) {
            return Err(folder_there());
        }
        Ok(number)
    }

    /// Gives a file another name, in place of the one that it replaces.
    fn move_name(&mut self, from: &Place, to: &Place, number: usize) -> Result<(), AllocError> {
        self.tree.remove_name(to.folder, to.text.as_slice());
        self.tree.remove_name(from.folder, from.text.as_slice());
        self.tree.add_name(to.folder, to.text.as_slice(), number)
    }

    /// Puts bytes into a file.
    fn store(&mut self, number: usize, bytes: Vec<u8>) {
        if let Some(Node::File(held, _)) = self.tree.nodes.get_mut(number) {
            *held = bytes;
        }
    }

    /// Gives a file a mode.
    fn give_mode(&mut self, number: usize, mode: u32) {
        if let Some(Node::File(_, held)) = self.tree.nodes.get_mut(number) {
            *held = mode;
        }
    }
}

impl System for MemoryTree {
    type Input = Std<TreeReader>;

    type Output = Std<TreeWriter>;

    ghost may_do = { anything };

    fn words(&mut self) -> Result<Vec<Vec<u8>>, AllocError> {
        Err(AllocError)
    }

    fn stdin(&mut self) -> Opened<Std<TreeReader>> {
        self.count();
        let bytes = mem::replace(&mut self.stdin, Vec::new(self.alloc));
        Opened {
            device: Std::new(TreeReader::new(bytes, self.devices.step, false)),
            kind: FileKind::Other,
        }
    }

    fn open(&mut self, path: &str) -> io::Result<Opened<Std<TreeReader>>> {
        let number = self.opened_number(path)?;
        self.input(number)
    }

    fn release(&mut self, _input: Std<TreeReader>) {
        self.uncount();
    }

    fn stdout(&mut self) -> io::Result<Opened<Std<TreeWriter>>> {
        self.count();
        Ok(Opened {
            device: Std::new(TreeWriter::new(self.alloc, None, self.devices.room)),
            kind: FileKind::Other,
        })
    }

    fn create(&mut self, path: &str) -> io::Result<Opened<Std<TreeWriter>>> {
        let place = self.place(path, Links::Followed)?;
        match place.node {
            Some(number) if self.tree.is_folder(number) => Err(folder_there()),
            Some(number) => Ok(self.output(number)),
            None => self.make_file(place, USUAL_MODE),
        }
    }

    fn kind_at(&mut self, path: &str) -> io::Result<Option<FileKind>> {
        match self.number(path, Links::Followed) {
            Ok(number) => Ok(Some(self.kind(number))),
            Err(e) if e.kind() == ErrorKind::NotFound => Ok(None),
            Err(e) => Err(e),
        }
    }

    fn create_new(&mut self, path: &str) -> io::Result<Opened<Std<TreeWriter>>> {
        self.create_as(path, USUAL_MODE)
    }

    fn seize(&mut self, path: &str) -> io::Result<bool> {
        let number = self.opened_number(path)?;
        if !self.devices.has_locks {
            return Err(io::Error::from(ErrorKind::Unsupported));
        }
        if path == self.devices.busy {
            return Ok(false);
        }
        self.held = Some(number);
        Ok(true)
    }

    fn holds(&mut self, path: &str) -> bool {
        match self.number(path, Links::Kept) {
            Ok(number) => self.held == Some(number),
            Err(_) => false,
        }
    }

    fn keep_mode(&mut self, from: &str, to: &str) -> io::Result<()> {
        let Ok(number) = self.number(from, Links::Followed) else {
            return Ok(());
        };
        let kept = self.number(to, Links::Followed)?;
        if let Some(Node::File(_, mode)) = self.tree.node(number) {
            let mode = *mode;
            self.give_mode(kept, mode);
        }
        Ok(())
    }

    fn rename(&mut self, from: &str, to: &str) -> io::Result<()> {
        let number = self.file_number(from)?;
        let place = self.place(from, Links::Kept)?;
        let target = self.place(to, Links::Kept)?;
        if target.is_of_folder || target.holds_folder(&self.tree) {
            return Err(folder_there());
        }
        if target.node != Some(number) {
            self.move_name(&place, &target, number)?;
        }
        Ok(())
    }

    fn remove(&mut self, path: &str) -> io::Result<()> {
        self.file_number(path)?;
        let place = self.place(path, Links::Kept)?;
        self.tree.remove_name(place.folder, place.text.as_slice());
        self.held = None;
        Ok(())
    }

    fn close(&mut self, output: Std<TreeWriter>) -> io::Result<()> {
        self.uncount();
        let writer = output.into_inner();
        let Some(number) = writer.file else {
            self.written = writer.bytes;
            return Ok(());
        };
        self.store(number, writer.bytes);
        if self.devices.closings == 0 {
            return Err(io::Error::from(ErrorKind::StorageFull));
        }
        self.devices.closings -= 1;
        Ok(())
    }
}

impl Folders for MemoryTree {
    type Folder = TreeFolder;

    ghost folders_do = { folders.anything };

    fn open_folder(&mut self, path: &str) -> io::Result<TreeFolder> {
        let number = self.opened_number(path)?;
        if !self.tree.is_folder(number) {
            return Err(io::Error::from(ErrorKind::NotADirectory));
        }
        let fails = path == self.devices.unlisted;
        let folder = TreeFolder::new(&self.tree, number, fails)?;
        self.count();
        Ok(folder)
    }

    fn next_name(&mut self, folder: &mut TreeFolder, name: &mut EntryName) -> io::Result<bool> {
        folder.next(name)
    }

    fn close_folder(&mut self, _folder: TreeFolder) {
        self.uncount();
    }

    fn find(&mut self, path: &str, links: Links) -> io::Result<Option<Found>> {
        match self.number(path, links) {
            Ok(number) => Ok(
                self.tree
                    .node(number)
                    .map(|node| node.found(self.device(path), number)),
            ),
            Err(e) if e.kind() == ErrorKind::NotFound => Ok(None),
            Err(e) => Err(e),
        }
    }

    fn mode_in(&mut self, folder: &[u8], name: &[u8]) -> io::Result<u32> {
        if name.is_empty() {
            return self.folder_mode(folder, Links::Followed);
        }
        let mut path = folder.to_vec(self.alloc)?;
        path.push(b'/')?;
        path.extend_from_slice(name)?;
        self.folder_mode(path.as_slice(), Links::Kept)
    }

    fn make_folder(&mut self, path: &str, mode: u32) -> io::Result<()> {
        let place = self.free_place(path)?;
        let folder = Node::Folder(place.folder, mode & MODE_BITS & !self.devices.umask);
        self.tree.add(place.folder, place.text.as_slice(), folder)?;
        Ok(())
    }

    fn create_as(&mut self, path: &str, mode: u32) -> io::Result<Opened<Std<TreeWriter>>> {
        self.take_memory()?;
        self.intrude(path)?;
        let place = self.free_place(path)?;
        self.make_file(place, mode)
    }

    fn link(&mut self, from: &str, to: &str) -> io::Result<()> {
        let number = self.file_number(from)?;
        if to == self.devices.raced {
            self.make_of_another(to, OF_ANOTHER)?;
        }
        let place = self.free_place(to)?;
        if self.devices.says_named {
            return Err(taken());
        }
        if !self.devices.has_links {
            return Err(io::Error::from(ErrorKind::Unsupported));
        }
        self.tree
            .add_name(place.folder, place.text.as_slice(), number)?;
        Ok(())
    }
}
