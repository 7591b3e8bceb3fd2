// Runs of dcmdump over several files: words, and what is wanted of each name.
use crate::runs::Entry;

/// What comes of a name.
#[derive(Clone, Copy)]
pub enum Shown {
    /// Its heading and its dump.
    Whole(&'static [u8]),
    /// These, and a line that changes no status.
    Remarked(&'static [u8], &'static [u8]),
    /// These, and a line. The status is 2.
    Faulty(&'static [u8], &'static [u8]),
    /// These, where reading fails, and a line. The status is 4.
    Unread(&'static [u8], &'static [u8]),
    /// A line alone. The status is 4.
    Unopened(&'static [u8]),
}

impl Shown {
    /// What is written.
    pub fn text(&self) -> &'static [u8] {
        match *self {
            Shown::Whole(text) | Shown::Remarked(text, _) => text,
            Shown::Faulty(text, _) | Shown::Unread(text, _) => text,
            Shown::Unopened(_) => b"",
        }
    }

    /// The line on standard error, or none.
    pub fn line(&self) -> &'static [u8] {
        match *self {
            Shown::Whole(_) => b"",
            Shown::Remarked(_, line) | Shown::Faulty(_, line) => line,
            Shown::Unread(_, line) | Shown::Unopened(line) => line,
        }
    }

    /// The status that it asks for at least.
    pub fn status(&self) -> u8 {
        match *self {
            Shown::Whole(_) | Shown::Remarked(_, _) => 0,
            Shown::Faulty(_, _) => 2,
            Shown::Unread(_, _) | Shown::Unopened(_) => 4,
        }
    }
}

/// A run. Its status is the greatest of those that its names ask for.
#[derive(Clone, Copy)]
pub struct Row {
    /// What tests call it.
    pub name: &'static str,
    /// Its words, parted by one space each, but for those that are next.
    pub words: &'static str,
    /// The names at the end of its words.
    pub names: &'static [&'static [u8]],
    /// What is at the paths of files.
    pub files: &'static [Entry],
    /// What comes of each name in turn.
    pub shown: &'static [Shown],
}
