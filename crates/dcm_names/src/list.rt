// The names in a list of files, one a line.
ghost use Rattle.std.specs.Prelude.{◌≡◌, ◌<◌, ◌≤◌, [], ◌++◌, List, ℕ, take, length, IfSome};
ghost use Rattle.dcm_names.specs.Names as spec;

use arrayvec::ArrayVec;

/// The most bytes of a name that can be opened.
pub const MOST_OF_NAME: usize = 4096;

/// The byte that ends a line.
const NEWLINE: u8 = 0x0A;

/// Whether a name is short enough, and has no byte 00, which no name of a file has.
pub fn can_be_opened(name: &[u8]) -> bool
    ensures { result ≡ spec.can_be_opened name.now }
{
    name.len() <= MOST_OF_NAME && !name.contains(&0)
}

/// The place of the first newline.
fn newline(bytes: &[u8]) -> Option<usize>
    ensures { spec.IsNewline bytes.now result }
{
    bytes.iter().position(|byte| *byte == NEWLINE)
}

/// The line of a list that has not ended: its first bytes, and whether it has more. Bytes past the most of a name are
/// not kept.
#[derive(Drop)]
pub struct OpenLine {
    kept: ArrayVec<u8, MOST_OF_NAME>,
    is_longer: bool,
}

impl OpenLine {
    ghost use Rattle.dcm_names.specs.Held.{Holds, TakesLine};

    /// A line without bytes.
    pub fn new() -> OpenLine
        ensures { Holds result [] }
    {
        OpenLine {
            kept: ArrayVec::new(),
            is_longer: false,
        }
    }

    /// Takes bytes that do not end the line.
    fn keep(&mut self, bytes: &[u8])
        ensures { (line : List ℕ) → Holds self.old line → Holds self.new (line ++ bytes.now) }
    {
        let room = MOST_OF_NAME - self.kept.len();
        if bytes.len() <= room {
            let _ = self.kept.try_extend_from_slice(bytes);
            return;
        }
        let (fitting, _) = bytes.split_at(room);
        let _ = self.kept.try_extend_from_slice(fitting);
        self.is_longer = true;
    }

    /// Takes bytes up to a newline. The answer is how many they were, the newline among them, or none where all were
    /// taken and the line goes on.
    pub fn take(&mut self, piece: &[u8]) -> Option<usize>
        ensures takes { (line : List ℕ) → Holds self.old line → TakesLine self.new line piece.now result }
        ensures within { IfSome result (λ n. (0 < n) × (n ≤ length piece.now)) }
    {
        match newline(piece) {
            Some(at) => {
                let (front, _) = piece.split_at(at);
                self.keep(front);
                Some(at + 1)
            }
            None => {
                self.keep(piece);
                None
            }
        }
    }

    /// The line so far, or its first bytes.
    pub fn name(&self) -> &[u8]
        ensures { (line : List ℕ) → Holds self.now line → result.now ≡ take spec.NAME_LIMIT line }
    {
        self.kept.as_slice()
    }

    /// Whether the line so far is a name that can be opened.
    pub fn is_openable(&self) -> bool
        ensures { (line : List ℕ) → Holds self.now line → result ≡ spec.can_be_opened line }
    {
        !self.is_longer && can_be_opened(self.kept.as_slice())
    }

    /// Whether the line so far has bytes: an empty one is no name.
    pub fn has_bytes(&self) -> bool
        ensures { (line : List ℕ) → Holds self.now line → result ≡ spec.has_bytes line }
    {
        !self.kept.is_empty()
    }

    /// Begins the next line.
    pub fn clear(&mut self)
        ensures { Holds self.new [] }
    {
        self.kept.clear();
        self.is_longer = false;
    }
}
