// The cell of a column, and the room for its value.
ghost use Rattle.std.specs.Prelude.{◌≡◌, ◌≤◌, ◌+◌, [], ◌++◌, fold, length, take, IfOk};
ghost use Rattle.dcm_base.specs.Tree.Value.{order, turned};
ghost use Rattle.dcm_stream.specs.Tokens.{atoms_of};
ghost use Rattle.dcm_table.specs.Cell as spec;
ghost use Rattle.dcm_table.specs.Slots as slots;
ghost use Rattle.dcm_table.specs.Slots.{cell_of, slot_of, value_of};
ghost use Rattle.dcm_table.specs.InForce.{EMPTY};
ghost use Rattle.dcm_table.specs.TableSink.{slot_set, slot_step};
ghost use Rattle.dcm_value.specs.Swap.{IsUnit};

use crate::slot::Slot;
use dcm_base::{Length, Syntax, Tag, Vr, vr_in};
use dcm_head::Head;
use dcm_sinks::default_sets;
use dcm_stream::Token;
use dcm_text::Sets;
use dcm_value::swap;
use std::alloc::{AllocError, Global};

/// The bytes of a value that a cell holds at most.
pub const CELL_LIMIT: usize = 16_384;

/// How far the first element of a column's tag was read.
#[derive(Clone, Copy, Debug, PartialEq, Eq)]
pub enum Progress {
    /// No element of the tag came.
    Missing,
    /// The value is open: the VR by which it is read, the VR by which it is shown, and its syntax.
    Open(Vr, Vr, Syntax),
    /// The value is open, and longer than a cell.
    OpenTooLong,
    /// The value is whole, and is shown by this VR.
    Whole(Vr),
    TooLong,
    NotShown,
}

/// The representation by which a value is shown: as read, and of UN the dictionary's (PS3.5 6.2.2).
fn shown_vr(syntax: Syntax, tag: Tag, vr: Vr) -> Vr
    ensures { result ≡ spec.shown_vr syntax tag vr }
{
    match vr {
        Vr::UN => vr_in(syntax.dictionary(), tag),
        _ => vr,
    }
}

/// Whether values of a representation are shown.
fn is_shown(vr: Vr) -> bool
    ensures { result ≡ spec.is_shown vr }
{
    match vr {
        Vr::AT | Vr::FD | Vr::FL | Vr::SL | Vr::SS | Vr::SV => true,
        Vr::UI | Vr::UL | Vr::US | Vr::UV => true,
        _ => vr.is_text(),
    }
}

/// What a cell is after the head of the first element of its tag, with no byte of its value.
fn opened(head: Head, syntax: Syntax) -> Progress
    ensures { cell_of result [] ≡ spec.opened syntax head.tag head.vr head.length }
{
    let shown = shown_vr(syntax, head.tag, head.vr);
    match head.length {
        Length::Known(_) if is_shown(shown) => Progress::Open(head.vr, shown, syntax),
        _ => Progress::NotShown,
    }
}

/// Whether a value is on its way, and not longer than a cell.
fn is_open(progress: Progress) -> bool
    ensures { result ≡ slots.is_open progress }
{
    match progress {
        Progress::Open(_, _, _) => true,
        _ => false,
    }
}

/// Puts bytes into a room at a place.
fn fill(room: &mut [u8], at: usize, bytes: &[u8])
    requires { at + length bytes.now ≤ length room.old }
    ensures front { take (at + length bytes.now) room.new ≡ take at room.old ++ bytes.now }
    ensures size { length room.new ≡ length room.old }
{
    room[at..at + bytes.len()].copy_from_slice(bytes);
}

/// Turns the units of the first bytes of a room.
fn turn_front(room: &mut [u8], size: usize, unit: usize)
    requires within { size ≤ length room.old }
    requires unit { IsUnit unit }
    ensures front { take size room.new ≡ turned unit (take size room.old) }
    ensures size { length room.new ≡ length room.old }
{
    swap(unit, &mut room[..size]);
}

/// Brings the first bytes of a room, which are a value, into little endian order.
fn order_front(room: &mut [u8], size: usize, vr: Vr, syntax: Syntax)
    requires { size ≤ length room.old }
    ensures front { take size room.new ≡ order syntax vr (take size room.old) }
    ensures size { length room.new ≡ length room.old }
{
    if syntax.is_big() {
        turn_front(room, size, vr.unit());
    }
}

impl Slot {
    /// The empty cell of a column, with room for a value. Fails where there is no memory.
    pub fn new(alloc: Global, tag: Tag) -> Result<Slot, AllocError>
        ensures { IfOk result (λ slot. slot_of slot ≡ (tag, spec.missing, EMPTY)) }
    {
        let room = vec![in alloc; 0; CELL_LIMIT]?;
        Ok(Slot {
            tag,
            progress: Progress::Missing,
            room,
            size: 0,
            sets: default_sets(),
        })
    }

    /// Empties the cell before the next file.
    pub fn clear(&mut self)
        ensures { slot_of self.new ≡ (self.old.tag, spec.missing, EMPTY) }
    {
        self.progress = Progress::Missing;
        self.sets = default_sets();
    }

    /// After the end of a value that sets what is in force: where no element of the tag came, it is read by these.
    pub fn set(&mut self, sets: Sets)
        ensures { slot_of self.new ≡ slot_set sets (slot_of self.old) }
    {
        if matches!(self.progress, Progress::Missing) {
            self.sets = sets;
        }
    }

    /// The bytes of the value that came.
    pub fn value(&self) -> &[u8]
        ensures { result.now ≡ value_of self.now }
    {
        &self.room[..self.size]
    }

    /// Whether the value is whole and longer than a cell.
    pub fn is_too_long(&self) -> bool
        ensures { result ≡ spec.is_too_long (slot_of self.now).1 }
    {
        match self.progress {
            Progress::TooLong => true,
            _ => false,
        }
    }

    /// After the head of an element of the outermost level.
    fn open(&mut self, head: Head, syntax: Syntax)
        ensures { slot_of self.new ≡ (
          self.old.tag,
          spec.with_head self.old.tag (slot_of self.old).1 syntax head.tag
              head.vr head.length,
          self.old.sets,
        ) }
    {
        if matches!(self.progress, Progress::Missing) && head.tag == self.tag {
            self.progress = opened(head, syntax);
            self.size = 0;
        }
    }

    /// After bytes of a value.
    fn add(&mut self, bytes: &[u8])
        ensures { slot_of self.new ≡ (self.old.tag, fold spec.with_byte (slot_of self.old).1 bytes.now, self.old.sets) }
    {
        if !is_open(self.progress) {
            return;
        }
        if bytes.len() > CELL_LIMIT - self.size {
            self.progress = Progress::OpenTooLong;
            return;
        }
        fill(self.room.as_mut_slice(), self.size, bytes);
        self.size += bytes.len();
    }

    /// After the end of a value.
    fn close(&mut self)
        ensures { slot_of self.new ≡ (self.old.tag, spec.ended (slot_of self.old).1, self.old.sets) }
    {
        match self.progress {
            Progress::Open(vr, shown, syntax) => {
                order_front(self.room.as_mut_slice(), self.size, vr, syntax);
                self.progress = Progress::Whole(shown);
            }
            Progress::OpenTooLong => self.progress = Progress::TooLong,
            _ => {}
        }
    }

    /// After a token, of which a head is one of the outermost level.
    pub fn take(&mut self, token: Token)
        ensures { slot_of self.new ≡ fold slot_step (slot_of self.old) (atoms_of token.entry) }
    {
        match token {
            Token::Open(head, syntax) => self.open(head, syntax),
            Token::Bytes(bytes) => self.add(bytes),
            Token::CloseLeaf => self.close(),
            Token::CloseItem
            | Token::CloseSeq
            | Token::OpenItem(_)
            | Token::OpenFragment(_)
            | Token::End => {}
        }
    }
}
