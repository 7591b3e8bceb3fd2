// Runs over trees: what is there, words, and what is wanted of them.
use dcm_test_devices::Start;
use dcm_test_trees::{Node, SOUND, Tree, TreeDevices};
use std::alloc::{AllocError, Global};

/// The bytes of a file.
#[derive(Clone, Copy)]
pub struct Bytes {
    /// What it begins with.
    pub start: Start,
    /// The rest of its bytes, in pieces.
    pub rest: &'static [&'static [u8]],
}

/// What is at a path, which comes first.
#[derive(Clone, Copy)]
pub enum Entry {
    /// A file.
    File(&'static [u8], Bytes),
    /// A file of this mode.
    FileOfMode(&'static [u8], Bytes, u32),
    /// A file of explicit VR little endian, with these pieces of a data set.
    Set(&'static [u8], &'static [&'static [u8]]),
    /// The same as dcmdeid writes it.
    Deidentified(&'static [u8], &'static [&'static [u8]]),
    /// A file of these bytes alone.
    Plain(&'static [u8], &'static [u8]),
    /// A file whose first read fails.
    Broken(&'static [u8]),
    /// An empty folder.
    Folder(&'static [u8]),
    /// An empty folder of this mode.
    FolderOfMode(&'static [u8], u32),
    /// A link, and the path that it leads to.
    Link(&'static [u8], &'static [u8]),
    /// A pipe.
    Pipe(&'static [u8]),
}

/// A run. A row with `EMPTY` for its rest runs well, and leaves nothing.
#[derive(Clone, Copy)]
pub struct Row {
    /// What tests call it.
    pub name: &'static str,
    /// Its words, parted by one space each.
    pub words: &'static str,
    /// What is there before, in the order in which folders list it.
    pub before: &'static [Entry],
    /// Standard input.
    pub stdin: Bytes,
    /// How the devices of the run work.
    pub devices: TreeDevices,
    /// Standard output, in pieces.
    pub output: &'static [&'static str],
    /// The lines on standard error.
    pub told: &'static [u8],
    /// The exit status.
    pub status: u8,
    /// What is there afterwards beside what was there before.
    pub made: &'static [Entry],
    /// The paths of what was there before and is gone afterwards.
    pub gone: &'static [&'static [u8]],
}

/// No bytes.
const NO_BYTES: Bytes = Bytes {
    start: Start::Nothing,
    rest: &[],
};

/// A row without bytes.
pub const EMPTY: Row = Row {
    name: "",
    words: "",
    before: &[],
    stdin: NO_BYTES,
    devices: SOUND,
    output: &[],
    told: b"",
    status: 0,
    made: &[],
    gone: &[],
};

/// The first row of a manifest.
pub const HEADER: &str = "\"File\",\"Output\",\"Status\"\n";

/// The mode of a file where none is said.
pub const MODE: u32 = 0o644;

/// That of a folder.
const FOLDER_MODE: u32 = 0o755;

impl Bytes {
    /// Those of a file that begins so, with these pieces of a data set.
    fn of_set(start: Start, rest: &'static [&'static [u8]]) -> Self {
        Bytes { start, rest }
    }

    /// All of them.
    pub fn all(self, alloc: Global) -> Result<Vec<u8>, AllocError> {
        let mut bytes = self.start.bytes().to_vec(alloc)?;
        for piece in self.rest {
            bytes.extend_from_slice(piece)?;
        }
        Ok(bytes)
    }

    /// A file of these bytes.
    pub fn file(self, alloc: Global, mode: u32) -> Result<Node, AllocError> {
        Ok(Node::File(self.all(alloc)?, mode))
    }
}

impl Entry {
    /// Its path.
    fn path(&self) -> &'static [u8] {
        match *self {
            Entry::File(path, _) | Entry::FileOfMode(path, _, _) => path,
            Entry::Set(path, _) | Entry::Deidentified(path, _) => path,
            Entry::Plain(path, _) | Entry::Broken(path) => path,
            Entry::Folder(path) | Entry::FolderOfMode(path, _) => path,
            Entry::Link(path, _) | Entry::Pipe(path) => path,
        }
    }

    /// What is there.
    fn node(&self, alloc: Global) -> Result<Node, AllocError> {
        match *self {
            Entry::File(_, bytes) => bytes.file(alloc, MODE),
            Entry::FileOfMode(_, bytes, mode) => bytes.file(alloc, mode),
            Entry::Set(_, set) => Bytes::of_set(Start::ExplicitLittle, set).file(alloc, MODE),
            Entry::Deidentified(_, set) => Bytes::of_set(Start::WithoutIdentity, set).file(
                alloc, MODE,
            ),
            Entry::Plain(_, bytes) => Node::file(alloc, bytes, MODE),
            Entry::Broken(_) => Ok(Node::Broken),
            Entry::Folder(_) => Ok(Node::folder(FOLDER_MODE)),
            Entry::FolderOfMode(_, mode) => Ok(Node::folder(mode)),
            Entry::Link(_, path) => Node::link(alloc, path),
            Entry::Pipe(_) => Ok(Node::Pipe),
        }
    }
}

/// Puts entries into a tree.
pub fn put_all(alloc: Global, tree: &mut Tree, entries: &[Entry]) -> Result<(), AllocError> {
    for entry in entries {
        tree.put(entry.path(), entry.node(alloc)?)?;
    }
    Ok(())
}

/// A tree of those entries that are not at these paths.
pub fn tree_without(alloc: Global, entries: &[Entry], paths: &[&[u8]]) -> Result<Tree, AllocError> {
    let mut tree = Tree::new(alloc)?;
    for entry in entries {
        if !paths.contains(&entry.path()) {
            tree.put(entry.path(), entry.node(alloc)?)?;
        }
    }
    Ok(tree)
}

/// A tree of entries.
pub fn tree_of(alloc: Global, entries: &[Entry]) -> Result<Tree, AllocError> {
    let mut tree = Tree::new(alloc)?;
    put_all(alloc, &mut tree, entries)?;
    Ok(tree)
}
