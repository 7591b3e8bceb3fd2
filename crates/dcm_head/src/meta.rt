// The head of a file: preamble, prefix and meta group (PS3.10 7.1).
ghost use Rattle.std.specs.Prelude.{◌≡◌, ◌+◌, ◌-◌, ◌≤◌, ◌<◌, None, Some, take, drop, length, fold};
ghost use Rattle.dcm_base.specs.File.MetaGroup.{META_LIMIT};
ghost use Rattle.dcm_head.specs.MetaReading as reading;
ghost use Rattle.dcm_head.specs.Rewriting.{WroteGroup, WroteRenewed};

use crate::group::{Place, place_of};
use crate::meta_read::{MetaEnd, MetaRead};
use crate::pads::size_without_pads;
use crate::renewal::Renewal;
use crate::rewriting::{renew_meta, write_group};
use crate::syntax_uid::SyntaxUid;
use arrayvec::ArrayVec;
use dcm_base::{Coding, DeviceOut, Fault, Stop, Tag, Watched, WriteFailed, coding_of};
use std::marker::Model;

/// The bytes of the preamble (PS3.10 7.1).
pub const PREAMBLE: usize = 128;

/// What comes between the preamble and the meta group (PS3.10 7.1).
pub const PREFIX: &[u8] = b"DICM";

/// The bytes of preamble and prefix, after which the group begins.
pub(crate) const GROUP_AT: usize = 132;

/// Preamble, prefix, a group, and the longest head after it.
const ROOM: usize = 16_528;

/// The reader of a file's head, which is fed in pieces of any size up to the end of the meta group (PS3.10 7.1).
#[derive(Drop)]
pub struct Meta {
    pub(crate) bytes: ArrayVec<u8, ROOM>,
    pub(crate) place: usize,
    uid_at: usize,
    uid_size: usize,
    end: Option<MetaEnd>,
}

impl Model for Meta {
    ghost use Rattle.dcm_head.specs.MetaReading.{Reading, Keeps};

    ghost Value = { Reading };

    ghost view = { λ m. record {
      bytes = m.bytes.items;
      place = m.place;
      uid_at = m.uid_at;
      uid_size = m.uid_size;
      end = m.end;
    } };

    ghost invariant = { λ m. Keeps (record {
      bytes = m.bytes.items;
      place = m.place;
      uid_at = m.uid_at;
      uid_size = m.uid_size;
      end = m.end;
    }) };
}

/// The answer where the data set begins at a place, so many bytes came before the piece and these in all.
fn begins_at(bytes: &[u8], before: usize, place: usize) -> MetaRead
    requires behind { before ≤ place + 1 }
    requires within { before ≤ length bytes.now }
    requires place { place ≤ length bytes.now }
    ensures begins { reading.EndsIn (take before bytes.now) place result }
    ensures used { reading.UsesWithin (length bytes.now - before) result }
{
    if before > place {
        MetaRead::Ended {
            used: 0,
            ahead: Some(bytes[place]),
        }
    } else {
        MetaRead::Ended {
            used: place - before,
            ahead: None,
        }
    }
}

/// So many bytes from a place on.
fn part(bytes: &[u8], at: usize, size: usize) -> &[u8]
    requires { at + size ≤ length bytes.now }
    ensures { result.now ≡ take size (drop at bytes.now) }
{
    let (_, from) = bytes.split_at(at);
    let (part, _) = from.split_at(size);
    part
}

/// How a group ends at a place.
fn group_end(place: usize, uid: &[u8]) -> MetaEnd
    ensures { result ≡ reading.group_end place uid.now }
{
    if uid.is_empty() {
        return MetaEnd::Refused(Stop {
            fault: Fault::NoTransferSyntax,
            at: place as u64,
        });
    }
    match coding_of(uid) {
        Ok(coding) => MetaEnd::Ended(coding),
        Err(_) => MetaEnd::Refused(Stop {
            fault: Fault::Deflated,
            at: place as u64,
        }),
    }
}

fn is_first_syntax(uid_at: usize, tag: Tag) -> bool
    ensures { result ≡ reading.is_first_syntax uid_at tag }
{
    uid_at == 0 && tag.names_syntax()
}

fn has_prefix(bytes: &[u8]) -> bool
    requires { length bytes.now ≡ 132 }
    ensures { result ≡ reading.has_prefix bytes.now }
{
    let (_, prefix) = bytes.split_at(PREAMBLE);
    prefix == PREFIX
}

impl Meta {
    /// A reader that was fed nothing.
    pub fn new() -> Self
        ensures { result ≡ reading.at_start }
    {
        Meta {
            bytes: ArrayVec::new(),
            place: GROUP_AT,
            uid_at: 0,
            uid_size: 0,
            end: None,
        }
    }

    /// Makes it a reader that was fed nothing. It blanks only what was held, so that it costs less than a new one.
    pub fn clear(&mut self)
        ensures { self.new ≡ reading.at_start }
    {
        self.bytes.clear();
        self.place = GROUP_AT;
        self.uid_at = 0;
        self.uid_size = 0;
        self.end = None;
    }

    /// Reads a piece of the file, of which it looks at no byte after the first two that follow the group. After a
    /// refusal it answers the same again; it is not fed once the group has ended.
    pub fn feed(&mut self, piece: &[u8]) -> MetaRead
        requires { reading.IsOpen self.old.end }
        ensures state { self.new ≡ fold reading.meta_step self.old piece.now }
        ensures answer { reading.Answers self.old.bytes self.new result }
        ensures used { reading.UsesWithin (length piece.now) result }
        ensures room { self.new.end ≡ None → length self.new.bytes < 16528 }
    {
        let before = self.len();
        self.go_over(piece);
        match self.end() {
            None => MetaRead::More,
            Some(MetaEnd::Refused(stop)) => MetaRead::Refused(stop),
            Some(MetaEnd::Ended(_)) => self.answer(before),
        }
    }

    /// Takes note of the end of the file, at which the group may end too. Fails where the head is refused, with the
    /// fault and its offset in the file.
    pub fn finish(&mut self) -> Result<(), Stop>
        ensures state { self.new ≡ reading.meta_finished self.old }
        ensures answer { reading.FinishAnswers self.new.end result }
    {
        if self.end().is_none() {
            self.finish_open();
        }
        match self.end() {
            Some(MetaEnd::Refused(stop)) => Err(stop),
            Some(MetaEnd::Ended(_)) => Ok(()),
            None => unreachable!(),
        }
    }

    /// The coding of the data set.
    pub fn coding(&self) -> Coding
        requires { reading.HasEnded self.now.end }
        ensures { self.now.end ≡ Some (MetaEnd.Ended result) }
    {
        match self.end {
            Some(MetaEnd::Ended(coding)) => coding,
            _ => unreachable!(),
        }
    }

    /// The unique identifier of the transfer syntax, without the bytes 00 and 20 at its end (PS3.10 7.1).
    pub fn uid(&self) -> SyntaxUid<'_>
        requires { reading.HasEnded self.now.end }
        ensures { result ≡ reading.uid_of self.now }
    {
        let uid = part(self.bytes.as_slice(), self.uid_at, self.uid_size);
        match SyntaxUid::new(uid) {
            Some(uid) => uid,
            None => unreachable!(),
        }
    }

    /// The first 128 bytes of the file.
    pub fn preamble(&self) -> &[u8]
        requires { reading.HasEnded self.now.end }
        ensures value { result.now ≡ take 128 self.now.bytes }
        ensures size { length result.now ≡ 128 }
    {
        part(self.bytes.as_slice(), 0, PREAMBLE)
    }

    /// The meta group: the bytes after the prefix, up to the data set.
    pub fn bytes(&self) -> &[u8]
        requires { reading.HasEnded self.now.end }
        ensures group { result.now ≡ reading.group_of self.now }
        ensures place { 132 + length result.now ≡ self.now.place }
        ensures limit { length result.now ≤ META_LIMIT }
    {
        part(self.bytes.as_slice(), GROUP_AT, self.place - GROUP_AT)
    }

    /// The elements of the meta group that are whole so far: bytes after the prefix, also where the head is refused.
    pub fn elements(&self) -> &[u8]
        ensures group { result.now ≡ reading.group_of self.now }
        ensures limit { length result.now ≤ META_LIMIT }
    {
        if self.place == GROUP_AT {
            return &[];
        }
        let size = self.place - GROUP_AT;
        part(self.bytes.as_slice(), GROUP_AT, size)
    }

    /// Writes the meta group anew, with its length and this transfer syntax (PS3.10 7.1).
    ///
    /// Fails where the writer fails, and has then written a beginning of the group.
    pub fn rewritten<W: DeviceOut>(
        &self,
        uid: &SyntaxUid<'_>,
        out: &mut Watched<W>,
    ) -> Result<(), WriteFailed>
        requires { reading.HasEnded self.now.end }
        ensures { WroteGroup W.DeviceOut out.old out.new (reading.group_of self.now) uid.now result }
    {
        write_group(self.bytes(), uid.as_bytes(), out)
    }

    /// Writes what stays of the meta group anew, with its length and this transfer syntax (PS3.10 7.1), and behind it
    /// the renewal's own elements.
    ///
    /// Fails where the writer fails, and has then written a beginning of the group.
    pub fn renewed<N: Renewal, W: DeviceOut>(
        &self,
        renewal: &N,
        uid: &SyntaxUid<'_>,
        out: &mut Watched<W>,
    ) -> Result<(), WriteFailed>
        requires { reading.HasEnded self.now.end }
        ensures { WroteRenewed W.DeviceOut out.old out.new (N.renewing renewal.now) (N.own renewal.now)
            (reading.group_of self.now) uid.now result }
    {
        renew_meta(renewal, self.bytes(), uid.as_bytes(), out)
    }

    /// Reads a byte of the preamble or the prefix.
    fn step_before(&mut self, byte: u8)
        requires going { self.old.end ≡ None }
        requires before { length self.old.bytes < 132 }
        ensures { self.new ≡ reading.meta_step self.old byte }
    {
        self.bytes.push(byte);
        if self.bytes.len() == GROUP_AT && !has_prefix(self.bytes.as_slice()) {
            self.end = Some(MetaEnd::Refused(Stop {
                fault: Fault::NoPrefix,
                at: PREAMBLE as u64,
            }));
        }
    }

    /// Reads a byte of the group.
    fn step_within(&mut self, byte: u8)
        requires going { self.old.end ≡ None }
        requires within { 132 ≤ length self.old.bytes }
        ensures { self.new ≡ reading.meta_step self.old byte }
    {
        self.bytes.push(byte);
        let (_, rest) = self.bytes.as_slice().split_at(self.place);
        match place_of(self.place - GROUP_AT, rest) {
            Place::TooFew => {}
            Place::Bad(fault) => {
                self.end = Some(MetaEnd::Refused(Stop {
                    fault,
                    at: self.place as u64,
                }))
            }
            Place::End => {
                let uid = part(self.bytes.as_slice(), self.uid_at, self.uid_size);
                self.end = Some(group_end(self.place, uid));
            }
            Place::Element(tag, _, head, size) => {
                let value = self.place + head;
                if is_first_syntax(self.uid_at, tag) {
                    self.uid_size = size_without_pads(part(self.bytes.as_slice(), value, size));
                    self.uid_at = value;
                }
                self.place = value + size;
            }
        }
    }

    pub(crate) fn end(&self) -> Option<MetaEnd>
        ensures end { result ≡ self.now.end }
        ensures room { self.now.end ≡ None → length self.now.bytes < 16528 }
    {
        self.end
    }

    /// How many bytes came, up to the end.
    fn len(&self) -> usize
        ensures { result ≡ length self.now.bytes }
    {
        self.bytes.len()
    }

    /// Reads a byte.
    pub(crate) fn step(&mut self, byte: u8)
        requires { self.old.end ≡ None }
        ensures { self.new ≡ reading.meta_step self.old byte }
    {
        if self.len() < GROUP_AT {
            self.step_before(byte);
        } else {
            self.step_within(byte);
        }
    }

    /// Where the data set begins, if so many bytes came before the piece.
    fn answer(&self, before: usize) -> MetaRead
        requires ended { reading.HasEnded self.now.end }
        requires before { before < length self.now.bytes }
        ensures begins { reading.EndsIn (take before self.now.bytes) self.now.place result }
        ensures used { reading.UsesWithin (length self.now.bytes - before) result }
    {
        begins_at(self.bytes.as_slice(), before, self.place)
    }

    /// Takes note of the end of the file, where there is no end yet.
    fn finish_open(&mut self)
        requires { self.old.end ≡ None }
        ensures { self.new ≡ reading.meta_finished self.old }
    {
        if self.bytes.len() == self.place {
            let uid = part(self.bytes.as_slice(), self.uid_at, self.uid_size);
            self.end = Some(group_end(self.place, uid));
        } else {
            self.end = Some(MetaEnd::Refused(Stop {
                fault: Fault::EndsEarly,
                at: self.bytes.len() as u64,
            }));
        }
    }
}
