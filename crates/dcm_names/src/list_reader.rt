// The names in a list, out of a device.
ghost use Rattle.std.specs.Prelude.{◌≡◌, ◌<◌, ◌≤◌, true, false, [], List, ℕ, take};
ghost use Rattle.dcm_names.specs.Names as spec;

use crate::list::OpenLine;
use dcm_base::{DeviceIn, ReadFailed, Watched};
use dcm_files::next_piece;

/// The bytes of a list that are read at a time.
const PIECE: usize = 16_384;

/// The most bytes of a list that are read.
const READ_LIMIT: u64 = 1 << 62;

/// What a list has next.
#[derive(Clone, Copy, Debug, PartialEq, Eq)]
pub enum NextName {
    /// A name, which the reader holds until the next call.
    Name,
    /// No name: all of the list was read.
    End,
    /// No name: reading failed after so many bytes, or they are more than are read.
    Unread(u64),
}

/// The names in a list, one after another.
#[derive(Drop)]
pub struct ListReader {
    line: OpenLine,
    piece: [u8; PIECE],
    at: usize,
    filled: usize,
    read: u64,
    is_over: bool,
    ghost ordered: { at ≤ filled },
    ghost within: { filled ≤ 16384 },
}

impl ListReader {
    ghost use Rattle.dcm_names.specs.Held.{Holds};
    ghost use Rattle.dcm_names.specs.Reader.{HasRead, TakesPending, TakesName, Refills, Answers, Same, last_answer};
    ghost use Rattle.dcm_names.specs.Reader.{most_left, TellsNext, TellsRefill};

    /// A reader of a list of which nothing was read.
    pub fn new() -> ListReader
        ensures read { HasRead result [] [] }
        ensures going { result.is_over ≡ false }
    {
        ListReader {
            line: OpenLine::new(),
            piece: [0; PIECE],
            at: 0,
            filled: 0,
            read: 0,
            is_over: false,
        }
    }

    /// The name that was answered last, or its first bytes.
    pub fn name(&self) -> &[u8]
        ensures { (name : List ℕ) → Holds self.now.line name → result.now ≡ take spec.NAME_LIMIT name }
    {
        self.line.name()
    }

    /// Whether that name can be opened.
    pub fn is_openable(&self) -> bool
        ensures { (name : List ℕ) → Holds self.now.line name → result ≡ spec.can_be_opened name }
    {
        self.line.is_openable()
    }

    /// Takes the bytes that are held up to the end of a line, or all. Answers whether a line ended.
    fn take_line(&mut self) -> bool
        ensures takes { (line : List ℕ) → Holds self.old.line line → TakesPending self.old self.new line result }
        ensures later { result ≡ true → self.old.at < self.new.at }
        ensures same { Same self.old self.new }
    {
        let (held, _) = self.piece.split_at(self.filled);
        let (_, pending) = held.split_at(self.at);
        match self.line.take(pending) {
            Some(used) => {
                self.at += used;
                true
            }
            None => {
                self.at = self.filled;
                false
            }
        }
    }

    /// Takes the bytes that are held up to the end of a name, or all. Answers whether a name ended.
    fn take_name(&mut self) -> bool
        ensures takes { (line : List ℕ) → Holds self.old.line line → TakesName self.old self.new line result }
        ensures later { result ≡ true → self.old.at < self.new.at }
        ensures same { Same self.old self.new }
    {
        while self.take_line() {
            if self.line.has_bytes() {
                return true;
            }
            self.line.clear();
        }
        false
    }

    /// Reads the next piece, where all bytes that are held were taken. Answers whether there is one.
    fn refill<R: DeviceIn>(&mut self, input: &mut Watched<R>) -> Result<bool, ReadFailed>
        requires { self.old.at ≡ self.old.filled }
        ensures refills { Refills R.gets input.old input.new self.old self.new result }
        ensures failed { TellsRefill (R.has_failed input.old) (R.has_failed input.new) self.new.read result }
    {
        if self.read > READ_LIMIT {
            return Err(ReadFailed);
        }
        match next_piece(input, &mut self.piece, &mut self.read)? {
            Some(size) => {
                self.at = 0;
                self.filled = size;
                Ok(true)
            }
            None => Ok(false),
        }
    }

    /// The list has ended: its last line may be a name without a newline.
    fn end(&mut self) -> NextName
        ensures answer { (line : List ℕ) → Holds self.old.line line → result ≡ last_answer (spec.has_bytes line) }
        ensures line { self.new.line ≡ self.old.line }
        ensures over { self.new.is_over ≡ true }
    {
        self.is_over = true;
        if self.line.has_bytes() {
            NextName::Name
        } else {
            NextName::End
        }
    }

    /// Reads on to the next name. No call comes after one that failed.
    pub fn next<R: DeviceIn>(&mut self, input: &mut Watched<R>) -> NextName
        ensures answers { (given : List ℕ) (named : List (List ℕ)) → HasRead self.old given named
            → Answers R.gets input.old input.new self.old self.new given named result }
        ensures fewer { result ≡ NextName.Name → most_left self.new < most_left self.old }
        ensures failed { TellsNext (R.has_failed input.old) (R.has_failed input.new) result }
    {
        if self.is_over {
            return NextName::End;
        }
        self.line.clear();
        while !self.take_name() {
            match self.refill(input) {
                Ok(true) => {}
                Ok(false) => return self.end(),
                Err(_) => return NextName::Unread(self.read),
            }
        }
        NextName::Name
    }
}
