// A folder that is listed.
use super::tree::Tree;
use dcm_files::EntryName;
use std::alloc::AllocError;
use std::io;
use std::io::ErrorKind;

/// The names that a folder had when it was opened.
#[derive(Drop)]
pub struct TreeFolder {
    names: Vec<Vec<u8>>,
    at: usize,
    fails: bool,
}

impl TreeFolder {
    /// The names of a folder, in the order in which they came. Its listing may fail behind them.
    pub(crate) fn new(tree: &Tree, folder: usize, fails: bool) -> Result<Self, AllocError> {
        let mut names = Vec::new(tree.alloc);
        for name in tree.names.as_slice() {
            if name.folder == folder {
                names.push(name.text.as_slice().to_vec(tree.alloc)?)?;
            }
        }
        Ok(TreeFolder {
            names,
            at: 0,
            fails,
        })
    }

    /// Gives the next name, and answers whether there is one.
    pub(crate) fn next(&mut self, name: &mut EntryName) -> io::Result<bool> {
        let Some(text) = self.names.get(self.at) else {
            return self.end();
        };
        name.clear();
        let _ = name.try_extend_from_slice(text.as_slice());
        self.at = self.at.saturating_add(1);
        Ok(true)
    }

    /// What comes behind the last name.
    fn end(&self) -> io::Result<bool> {
        if self.fails {
            return Err(io::Error::from(ErrorKind::Other));
        }
        Ok(false)
    }
}
