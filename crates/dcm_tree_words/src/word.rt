// The words of runs over trees.
ghost use Rattle.std.specs.Prelude.{◌≡◌, Some};
ghost use Rattle.dcm_words.specs.Words.{tool_of as tool_called};
ghost use Rattle.dcm_tree_words.specs.TreeWords as spec;

use dcm_words::takes_next as tool_takes_next;

/// The word before a part.
pub const PART: &[u8] = b"+part";

/// A tool that runs over trees.
#[derive(Clone, Copy, Debug, PartialEq, Eq)]
pub enum TreeTool {
    Convert,
    Modify,
    Deidentify,
}

/// A word of a run over a tree that stands alone.
#[derive(Clone, Copy, Debug, PartialEq, Eq)]
pub enum TreeWord {
    /// `+r`: the input is a folder or a list.
    OverTree,
    /// `+c`: the output may hold files.
    Continue,
    /// `+nh`: no header row.
    NoHeader,
    /// `+v`: counts are shown.
    Counts,
    /// `+kn`: names are kept.
    KeepNames,
}

impl TreeTool {
    /// Its name, the first word.
    pub fn name(self) -> &'static [u8]
        ensures { tool_called result.now ≡ Some (spec.tool_as self) }
    {
        match self {
            TreeTool::Convert => b"dcmconv".as_slice(),
            TreeTool::Modify => b"dcmodify".as_slice(),
            TreeTool::Deidentify => b"dcmdeid".as_slice(),
        }
    }
}

/// The tool of this name, where it runs over trees.
pub fn tree_tool(name: &[u8]) -> Option<TreeTool>
    ensures { result ≡ spec.tree_tool name.now }
{
    if name == b"dcmconv".as_slice() {
        Some(TreeTool::Convert)
    } else if name == b"dcmodify".as_slice() {
        Some(TreeTool::Modify)
    } else if name == b"dcmdeid".as_slice() {
        Some(TreeTool::Deidentify)
    } else {
        None
    }
}

/// Which word of a run over a tree a word is, where it stands as an option.
pub fn tree_word(tool: TreeTool, word: &[u8]) -> Option<TreeWord>
    ensures { result ≡ spec.tree_word tool word.now }
{
    if word == b"+r".as_slice() {
        Some(TreeWord::OverTree)
    } else if word == b"+c".as_slice() {
        Some(TreeWord::Continue)
    } else if word == b"+nh".as_slice() {
        Some(TreeWord::NoHeader)
    } else if word == b"+v".as_slice() {
        Some(TreeWord::Counts)
    } else if word == b"+kn".as_slice() && tool == TreeTool::Deidentify {
        Some(TreeWord::KeepNames)
    } else {
        None
    }
}

/// Whether the next word is this one's, whatever it is.
pub fn takes_next(tool: TreeTool, word: &[u8]) -> bool
    ensures { result ≡ spec.takes_next tool word.now }
{
    word == PART || tool_takes_next(tool.name(), word)
}
