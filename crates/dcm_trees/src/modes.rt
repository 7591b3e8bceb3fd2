// The modes of the folders that a run makes.
ghost use Rattle.std.specs.Prelude.{◌≡◌};
ghost use Rattle.dcm_tree_words.specs.Plans.{source_as};
ghost use Rattle.dcm_trees.specs.Modes as spec;

use dcm_files::Folders;
use dcm_tree_words::Source;

/// The bits of a new folder's mode where nothing else is said; the process leaves out those of its umask.
const USUAL_MODE: u32 = 0o777;

/// The bits of a mode that let the owner list, change and enter a folder.
const OWNER_BITS: u32 = 0o700;

/// Which modes new folders get.
#[derive(Clone, Copy)]
pub struct Modes<'a> {
    /// The folder that is read, whose mode they get; none where it is a list.
    pub folder: Option<&'a [u8]>,
    /// Whether each gets that of the folder of its own name in it instead.
    pub by_name: bool,
}

/// The mode of a folder cannot be looked at.
#[derive(Clone, Copy, Debug, PartialEq, Eq)]
pub struct NoMode;

/// The modes of the folders of a run over what words name.
pub(crate) fn modes_of(source: Source, keeps_names: bool) -> Modes
    ensures { spec.modes_as result ≡ spec.modes_of (source_as source.entry) keeps_names }
{
    let folder = match source {
        Source::Folder(path) => Some(path),
        Source::List(_) => None,
    };
    Modes {
        folder,
        by_name: keeps_names,
    }
}

/// The name of the folder whose mode a new one gets, where that is of this name.
fn name_like(by_name: bool, name: &[u8]) -> &[u8]
    ensures { result.now ≡ spec.name_like by_name name.now }
{
    if by_name { name } else { b"".as_slice() }
}

/// The mode of a folder that is made like one of this mode. Its owner may do all with it, since outputs are to be in it.
fn mode_like(mode: u32) -> u32
    ensures { result ≡ spec.mode_like mode }
{
    mode | OWNER_BITS
}

/// The mode of a new folder of this name in the folder of the outputs; of no name that of the folder of the outputs.
pub(crate) fn new_mode<S: Folders>(modes: Modes, name: &[u8], system: &mut S) -> Result<u32, NoMode>
    ensures { spec.FindsMode S.folders_do (spec.modes_as modes.entry) name.now system.old result system.new }
{
    let Some(folder) = modes.folder else {
        return Ok(USUAL_MODE);
    };
    match system.mode_in(folder, name_like(modes.by_name, name)) {
        Ok(mode) => Ok(mode_like(mode)),
        Err(_) => Err(NoMode),
    }
}
