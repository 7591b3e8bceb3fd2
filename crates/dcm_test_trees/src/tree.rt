// A tree of folders.
use super::node::{MODE, Node};
use super::place::split_part;
use std::alloc::{AllocError, Global};

/// The number of the folder that is in itself.
pub(crate) const ROOT: usize = 0;

/// The number of the current folder, from which paths lead that do not begin with a slash.
pub(crate) const CURRENT: usize = 1;

/// The name of the current folder.
const CURRENT_NAME: &[u8] = b"here";

/// A name in a folder.
#[derive(Drop)]
pub(crate) struct Name {
    /// The number of the folder.
    pub(crate) folder: usize,
    /// The name there.
    pub(crate) text: Vec<u8>,
    /// The number of what it stands for.
    pub(crate) node: usize,
}

/// A tree of folders. What is in it has numbers, and each folder has its names in the order in which they came.
#[derive(Drop)]
pub struct Tree {
    pub(crate) alloc: Global,
    pub(crate) names: Vec<Name>,
    pub(crate) nodes: Vec<Node>,
    /// Whether names that differ in small and capital letters alone are two names.
    pub(crate) tells_letters: bool,
}

impl Tree {
    /// The folder that is in itself, with an empty current folder in it.
    pub fn new(alloc: Global) -> Result<Self, AllocError> {
        let mut tree = Tree {
            alloc,
            names: Vec::new(alloc),
            nodes: Vec::new(alloc),
            tells_letters: true,
        };
        tree.nodes.push(Node::folder(MODE))?;
        tree.add(ROOT, CURRENT_NAME, Node::folder(MODE))?;
        Ok(tree)
    }

    /// What has a number.
    pub(crate) fn node(&self, number: usize) -> Option<&Node> {
        self.nodes.get(number)
    }

    /// Whether a folder has a number.
    pub(crate) fn is_folder(&self, number: usize) -> bool {
        match self.nodes.get(number) {
            Some(node) => node.is_folder(),
            None => false,
        }
    }

    /// The folder that a folder is in.
    pub(crate) fn parent(&self, folder: usize) -> usize {
        match self.nodes.get(folder) {
            Some(Node::Folder(parent, _)) => *parent,
            _ => ROOT,
        }
    }

    /// Whether two names of a folder are one.
    fn is_one(&self, name: &[u8], other: &[u8]) -> bool {
        if self.tells_letters {
            return name == other;
        }
        name.eq_ignore_ascii_case(other)
    }

    /// The place of a name of a folder among all names.
    fn place_of(&self, folder: usize, text: &[u8]) -> Option<usize> {
        self.names.as_slice().iter().position(|name| name.folder == folder
            && self.is_one(name.text.as_slice(), text))
    }

    /// What a name of a folder stands for.
    pub(crate) fn child(&self, folder: usize, text: &[u8]) -> Option<usize> {
        for name in self.names.as_slice() {
            if name.folder == folder && self.is_one(name.text.as_slice(), text) {
                return Some(name.node);
            }
        }
        None
    }

    /// Adds a name for what is there.
    pub(crate) fn add_name(
        &mut self,
        folder: usize,
        text: &[u8],
        node: usize,
    ) -> Result<(), AllocError> {
        let text = text.to_vec(self.alloc)?;
        self.names.push(Name { folder, text, node })?;
        Ok(())
    }

    /// Adds something with a name, and gives its number.
    pub(crate) fn add(
        &mut self,
        folder: usize,
        text: &[u8],
        node: Node,
    ) -> Result<usize, AllocError> {
        let number = self.nodes.len();
        self.nodes.push(node)?;
        self.add_name(folder, text, number)?;
        Ok(number)
    }

    /// Removes a name of a folder, where it is there. What it stands for keeps its number.
    pub(crate) fn remove_name(&mut self, folder: usize, text: &[u8]) {
        if let Some(place) = self.place_of(folder, text) {
            if place < self.names.len() {
                let _ = self.names.remove(place);
            }
        }
    }

    /// The folder of a name of a folder, made with this mode where nothing is there.
    fn have_folder(&mut self, folder: usize, text: &[u8], mode: u32) -> Result<usize, AllocError> {
        match self.child(folder, text) {
            Some(node) => Ok(node),
            None => self.add(folder, text, Node::Folder(folder, mode)),
        }
    }

    /// Puts something at a path, and folders on its way where there are none. A folder that is there stays.
    pub fn put(&mut self, path: &[u8], node: Node) -> Result<(), AllocError> {
        let mut folder = CURRENT;
        let (mut part, mut rest) = split_part(path);
        for _ in 0..path.len() {
            if rest.is_empty() {
                break;
            }
            folder = self.have_folder(folder, part, MODE)?;
            (part, rest) = split_part(rest);
        }
        match node {
            Node::Folder(_, mode) => self.have_folder(folder, part, mode)?,
            other => self.add(folder, part, other)?,
        };
        Ok(())
    }

    /// The name of a folder.
    fn name_of(&self, folder: usize) -> Option<&Name> {
        for name in self.names.as_slice() {
            if name.node == folder {
                return Some(name);
            }
        }
        None
    }

    /// The path of a name, from the folder that is in itself.
    fn path_of(&self, name: &Name) -> Result<Vec<u8>, AllocError> {
        let mut path = name.text.as_slice().to_vec(self.alloc)?;
        let mut folder = name.folder;
        for _ in 0..self.names.len() {
            let Some(above) = self.name_of(folder) else {
                break;
            };
            let mut longer = above.text.as_slice().to_vec(self.alloc)?;
            longer.push(b'/')?;
            longer.extend_from_slice(path.as_slice())?;
            path = longer;
            folder = above.folder;
        }
        Ok(path)
    }

    /// What is at a path from the folder that is in itself. Links are not followed, and the path has any length.
    fn node_at(&self, path: &[u8]) -> Option<&Node> {
        let mut node = ROOT;
        let mut rest = path;
        for _ in 0..path.len() {
            if rest.is_empty() {
                break;
            }
            let (part, after) = split_part(rest);
            node = self.child(node, part)?;
            rest = after;
        }
        self.nodes.get(node)
    }

    /// Whether another tree has at a path what a name of this one stands for.
    fn has_like(&self, name: &Name, path: &[u8], other: &Tree) -> bool {
        match (self.nodes.get(name.node), other.node_at(path)) {
            (Some(node), Some(there)) => node.is_like(there),
            _ => false,
        }
    }

    /// The first path at which another tree has not what this one has, if there is one. Numbers, and the order of
    /// names, may differ.
    pub fn difference(&self, other: &Tree) -> Result<Option<Vec<u8>>, AllocError> {
        for name in self.names.as_slice() {
            let path = self.path_of(name)?;
            if !self.has_like(name, path.as_slice(), other) {
                return Ok(Some(path));
            }
        }
        Ok(None)
    }
}
