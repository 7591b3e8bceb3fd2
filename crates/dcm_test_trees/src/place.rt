// Where a path leads.
use super::node::Node;
use super::tree::{CURRENT, ROOT, Tree};
use dcm_files::Links;
use std::alloc::AllocError;
use std::io;
use std::io::ErrorKind;

/// What ends a part of a path.
const SLASH: u8 = b'/';

/// The most bytes of a path (PATH_MAX of Linux, which counts its byte 00).
const MOST_OF_PATH: usize = 4095;

/// The most bytes of a part of it (NAME_MAX of Linux).
const MOST_OF_NAME: usize = 255;

/// More parts than a path has, with those of the links on its way.
const MOST_PARTS: usize = 100_000;

/// The most links on the way of a path (MAXSYMLINKS of Linux).
const MOST_LINKS: usize = 40;

/// Where a path leads.
#[derive(Drop)]
pub(crate) struct Place {
    /// The number of the folder of its last part.
    pub(crate) folder: usize,
    /// The last part.
    pub(crate) text: Vec<u8>,
    /// The number of what is there, or none where nothing is.
    pub(crate) node: Option<usize>,
    /// Whether only a folder may be there, since a slash is behind the last part.
    pub(crate) is_of_folder: bool,
}

/// What is behind the slashes at the front of a path.
fn without_slashes(path: &[u8]) -> &[u8] {
    let length = path
        .iter()
        .position(|byte| *byte != SLASH)
        .unwrap_or(path.len());
    let (_, rest) = path.split_at(length);
    rest
}

/// The first part of a path, and what is behind it and its slashes.
pub(crate) fn split_part(path: &[u8]) -> (&[u8], &[u8]) {
    let length = path
        .iter()
        .position(|byte| *byte == SLASH)
        .unwrap_or(path.len());
    let (part, rest) = path.split_at(length);
    (part, without_slashes(rest))
}

/// What a part of a path in a folder leads to: `.` and `..` too.
fn lead(tree: &Tree, folder: usize, part: &[u8]) -> Option<usize> {
    match part {
        [] | b"." => Some(folder),
        b".." => Some(tree.parent(folder)),
        _ => tree.child(folder, part),
    }
}

/// A path on the way.
#[derive(Drop)]
struct Way {
    /// The folder so far.
    folder: usize,
    /// The rest of the path.
    rest: Vec<u8>,
    /// How many more links it may have.
    links: usize,
}

/// What a step on the way gives.
#[derive(Drop)]
enum Step {
    /// The end of the way.
    There(Place),
    /// The rest of it.
    Further(Way),
}

/// The folder from which a path leads, where a relative one leads from this one.
fn begin(folder: usize, path: &[u8]) -> usize {
    match path {
        [SLASH, ..] => ROOT,
        _ => folder,
    }
}

impl Way {
    /// The way of a path.
    fn new(tree: &Tree, path: &[u8]) -> Result<Self, AllocError> {
        Ok(Way {
            folder: begin(CURRENT, path),
            rest: without_slashes(path).to_vec(tree.alloc)?,
            links: MOST_LINKS,
        })
    }

    /// The way within a folder.
    fn within(&self, tree: &Tree, folder: usize, rest: &[u8]) -> Result<Way, AllocError> {
        Ok(Way {
            folder,
            rest: rest.to_vec(tree.alloc)?,
            links: self.links,
        })
    }

    /// The way along a link in the place of the first bytes of the path.
    fn along(&self, tree: &Tree, link: &[u8], replaced: usize) -> io::Result<Way> {
        if self.links == 0 {
            return Err(io::Error::from(ErrorKind::FilesystemLoop));
        }
        let mut rest = without_slashes(link).to_vec(tree.alloc)?;
        let (_, behind) = self.rest.as_slice().split_at(replaced.min(self.rest.len()));
        rest.extend_from_slice(behind)?;
        Ok(Way {
            folder: begin(self.folder, link),
            rest,
            links: self.links - 1,
        })
    }

    /// The end of the way, whose last part leads to this.
    fn end(&self, tree: &Tree, part: &[u8], node: Option<usize>) -> io::Result<Place> {
        let is_of_folder = part.len() < self.rest.len();
        let place = Place {
            folder: self.folder,
            text: part.to_vec(tree.alloc)?,
            node,
            is_of_folder,
        };
        if is_of_folder && place.node.is_some() && !place.holds_folder(tree) {
            return Err(io::Error::from(ErrorKind::NotADirectory));
        }
        Ok(place)
    }

    /// A step to what the first part leads to, which is no link that is followed.
    fn pass(&self, tree: &Tree, part: &[u8], behind: &[u8]) -> io::Result<Step> {
        let found = lead(tree, self.folder, part);
        if behind.is_empty() {
            return Ok(Step::There(self.end(tree, part, found)?));
        }
        let Some(node) = found else {
            return Err(io::Error::from(ErrorKind::NotFound));
        };
        match tree.node(node) {
            Some(Node::Folder(_, _)) => Ok(Step::Further(self.within(tree, node, behind)?)),
            _ => Err(io::Error::from(ErrorKind::NotADirectory)),
        }
    }

    /// The path of a link that the first part leads to, if it is one.
    fn link<'t>(&self, tree: &'t Tree, part: &[u8]) -> Option<&'t [u8]> {
        match tree.node(lead(tree, self.folder, part)?) {
            Some(Node::Link(path)) => Some(path.as_slice()),
            _ => None,
        }
    }

    /// A step along the first part.
    fn step(&self, tree: &Tree, links: Links) -> io::Result<Step> {
        let (part, behind) = split_part(self.rest.as_slice());
        if part.len() > MOST_OF_NAME {
            return Err(io::Error::from(ErrorKind::InvalidFilename));
        }
        let follows = links == Links::Followed || part.len() < self.rest.len();
        match self.link(tree, part) {
            Some(path) if follows => Ok(Step::Further(self.along(tree, path, part.len())?)),
            _ => self.pass(tree, part, behind),
        }
    }
}

impl Place {
    /// Whether a folder is there.
    pub(crate) fn holds_folder(&self, tree: &Tree) -> bool {
        match self.node {
            Some(node) => tree.is_folder(node),
            None => false,
        }
    }
}

/// Where a path leads. A link in its last part is followed where that is wanted, or a slash is behind it. An error
/// where a folder on its way is not there, or is none, or the path is too long.
pub(crate) fn place_at(tree: &Tree, path: &[u8], links: Links) -> io::Result<Place> {
    if path.is_empty() {
        return Err(io::Error::from(ErrorKind::NotFound));
    }
    if path.len() > MOST_OF_PATH {
        return Err(io::Error::from(ErrorKind::InvalidFilename));
    }
    let mut way = Way::new(tree, path)?;
    for _ in 0..MOST_PARTS {
        match way.step(tree, links)? {
            Step::There(place) => return Ok(place),
            Step::Further(further) => way = further,
        }
    }
    Err(io::Error::from(ErrorKind::FilesystemLoop))
}
