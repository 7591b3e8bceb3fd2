// Runs of dcm2csv: words and files, and the rows and lines that are wanted of them.
use dcm_test_devices::{Kind, Loaded, Start, joined};
use std::alloc::{AllocError, Global};

/// A data set of a PatientName alone, AB^CD.
pub const NAME: &[u8] = b"\x10\0\x10\0PN\x06\0AB^CD ";

/// The words of a table of two columns without its header.
pub const TWO_COLUMNS: &str = "dcm2csv +nh -k PatientName -k (0010,0020)";

/// What is at a path, which comes first: `-` is standard input.
#[derive(Clone, Copy)]
pub enum Entry {
    /// A file of explicit VR little endian with a PatientName alone, AB^CD.
    Named(&'static [u8]),
    /// A file that begins so, and the rest of its bytes. It has to be read to its end.
    File(&'static [u8], Start, &'static [u8]),
    /// The same, and how many of its bytes decide its row. Where reading fails after fewer, it has none.
    Decided(&'static [u8], Start, &'static [u8], usize),
    /// A list, and its bytes.
    List(&'static [u8], &'static [u8]),
    /// A folder.
    Folder(&'static [u8]),
    /// A file or a list whose first read fails.
    Broken(&'static [u8]),
}

impl Entry {
    /// Its path.
    pub fn path(&self) -> &'static [u8] {
        match *self {
            Entry::Named(path) | Entry::Folder(path) | Entry::Broken(path) => path,
            Entry::File(path, _, _) | Entry::Decided(path, _, _, _) => path,
            Entry::List(path, _) => path,
        }
    }

    /// How many of its bytes decide its row: more than there are, where it has to be read to its end.
    pub fn decided(&self) -> usize {
        match *self {
            Entry::Decided(_, _, _, decided) => decided,
            _ => usize::MAX,
        }
    }

    /// What it is.
    fn kind(&self) -> Kind {
        match *self {
            Entry::Folder(_) => Kind::Folder,
            Entry::Broken(_) => Kind::Broken,
            _ => Kind::File,
        }
    }

    /// Its bytes.
    fn bytes(&self, alloc: Global) -> Result<Vec<u8>, AllocError> {
        match *self {
            Entry::Named(_) => joined(alloc, Start::ExplicitLittle.bytes(), NAME),
            Entry::File(_, start, rest) => joined(alloc, start.bytes(), rest),
            Entry::Decided(_, start, rest, _) => joined(alloc, start.bytes(), rest),
            Entry::List(_, lines) => lines.to_vec(alloc),
            Entry::Folder(_) | Entry::Broken(_) => Ok(Vec::new(alloc)),
        }
    }
}

/// What is at the paths of entries.
pub fn load(alloc: Global, entries: &[Entry]) -> Result<Vec<Loaded>, AllocError> {
    let mut files = Vec::new(alloc);
    for entry in entries {
        files.push(Loaded {
            path: entry.path(),
            kind: entry.kind(),
            bytes: entry.bytes(alloc)?,
        })?;
    }
    Ok(files)
}

/// What comes of a name. The path that is opened for it comes first, and then the name in lines.
#[derive(Clone, Copy)]
pub enum Done {
    /// Its row.
    Whole(&'static [u8], &'static [u8], &'static [u8]),
    /// Its row, and a line that changes no status.
    Remarked(&'static [u8], &'static [u8], &'static [u8], &'static [u8]),
    /// Its row as far as a fault, and the fault. The status is 2.
    Faulty(&'static [u8], &'static [u8], &'static [u8], &'static [u8]),
    /// No row, since its first read fails. The status is 4. A list has no path here.
    Unread(&'static [u8], &'static [u8]),
    /// No row, since nothing can be opened for it: the name in lines alone. The status is 4.
    Unopened(&'static [u8]),
}

impl Done {
    /// The path that is opened for it, or none.
    pub fn path(&self) -> &'static [u8] {
        match *self {
            Done::Whole(path, _, _) | Done::Unread(path, _) => path,
            Done::Remarked(path, _, _, _) | Done::Faulty(path, _, _, _) => path,
            Done::Unopened(_) => b"",
        }
    }

    /// The name in lines.
    pub fn shown(&self) -> &'static [u8] {
        match *self {
            Done::Whole(_, shown, _) => shown,
            Done::Remarked(_, shown, _, _) | Done::Faulty(_, shown, _, _) => shown,
            Done::Unread(_, shown) | Done::Unopened(shown) => shown,
        }
    }

    /// Its row, where it has one.
    pub fn row(&self) -> &'static [u8] {
        match *self {
            Done::Whole(_, _, row) => row,
            Done::Remarked(_, _, row, _) | Done::Faulty(_, _, row, _) => row,
            Done::Unread(_, _) | Done::Unopened(_) => b"",
        }
    }

    /// What is reported of it after its name, where something is.
    pub fn report(&self) -> Option<&'static [u8]> {
        match *self {
            Done::Whole(_, _, _) => None,
            Done::Remarked(_, _, _, line) | Done::Faulty(_, _, _, line) => Some(line),
            Done::Unread(_, _) => Some(b"reading failed after 0 bytes"),
            Done::Unopened(_) => Some(NOT_OPENED),
        }
    }

    /// The status that it asks for at least.
    pub fn status(&self) -> u8 {
        match *self {
            Done::Whole(_, _, _) | Done::Remarked(_, _, _, _) => 0,
            Done::Faulty(_, _, _, _) => FAULT,
            Done::Unread(_, _) | Done::Unopened(_) => DEVICE,
        }
    }
}

/// What is reported of a name that cannot be opened.
pub const NOT_OPENED: &[u8] = b"input cannot be opened";

/// The status of a run with a fault in a file.
const FAULT: u8 = 2;

/// The status of a run in which a device failed.
pub const DEVICE: u8 = 4;

/// A run. Its status is the greatest of those that its names ask for.
#[derive(Clone, Copy)]
pub struct Row {
    /// What tests call it.
    pub name: &'static str,
    /// Its words, parted by one space each, but for those that are next.
    pub words: &'static str,
    /// The names at the end of its words.
    pub names: &'static [&'static [u8]],
    /// What is at the paths of files.
    pub files: &'static [Entry],
    /// The first row, which names the columns, or none.
    pub header: &'static [u8],
    /// What comes of each name in turn.
    pub done: &'static [Done],
}
