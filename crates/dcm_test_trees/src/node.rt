// What is in a tree.
use super::tree::ROOT;
use dcm_files::{Found, FoundKind};
use std::alloc::{AllocError, Global};

/// The device that a tree is on.
pub(crate) const DEVICE: u64 = 1;

/// The device that a folder of a tree may be on instead.
pub(crate) const OTHER_DEVICE: u64 = 2;

/// The mode of a folder where none is said, and of what is neither a folder nor a regular file.
pub(crate) const MODE: u32 = 0o755;

/// Who may read, write and run a file.
const MODE_BITS: u32 = 0o777;

/// What a name stands for. Two names may stand for one.
#[derive(Drop)]
pub enum Node {
    /// A folder: the number of the one that it is in, and its mode.
    Folder(usize, u32),
    /// A regular file: its bytes, and its mode.
    File(Vec<u8>, u32),
    /// A regular file of which the first read fails.
    Broken,
    /// A link to a path.
    Link(Vec<u8>),
    /// A pipe.
    Pipe,
}

impl Node {
    /// A folder that is put into a tree.
    pub fn folder(mode: u32) -> Self {
        Node::Folder(ROOT, mode)
    }

    /// A file.
    pub fn file(alloc: Global, bytes: &[u8], mode: u32) -> Result<Self, AllocError> {
        Ok(Node::File(bytes.to_vec(alloc)?, mode))
    }

    /// A link.
    pub fn link(alloc: Global, path: &[u8]) -> Result<Self, AllocError> {
        Ok(Node::Link(path.to_vec(alloc)?))
    }

    /// Whether it is a folder.
    pub(crate) fn is_folder(&self) -> bool {
        matches!(self, Node::Folder(_, _))
    }

    /// What looking at it finds, by its device and its number there.
    pub(crate) fn found(&self, device: u64, number: usize) -> Found {
        Found {
            kind: self.kind(),
            device,
            number: number as u64,
            mode: self.mode() & MODE_BITS,
        }
    }

    /// What kind of thing it is.
    fn kind(&self) -> FoundKind {
        match self {
            Node::Folder(_, _) => FoundKind::Folder,
            Node::File(_, _) | Node::Broken => FoundKind::File,
            Node::Link(_) | Node::Pipe => FoundKind::Other,
        }
    }

    /// Its mode.
    fn mode(&self) -> u32 {
        match self {
            Node::Folder(_, mode) | Node::File(_, mode) => *mode,
            _ => MODE,
        }
    }

    /// Whether another is of the same kind, with the same mode and bytes, or leads to the same path.
    pub(crate) fn is_like(&self, other: &Node) -> bool {
        match (self, other) {
            (Node::Folder(_, mode), Node::Folder(_, other)) => mode == other,
            (Node::File(bytes, mode), Node::File(others, other)) => {
                bytes.as_slice() == others.as_slice() && mode == other
            }
            (Node::Link(path), Node::Link(other)) => path.as_slice() == other.as_slice(),
            (Node::Broken, Node::Broken) | (Node::Pipe, Node::Pipe) => true,
            _ => false,
        }
    }
}
