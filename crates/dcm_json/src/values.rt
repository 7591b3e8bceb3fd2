//! The values of a text, as their parts come.
ghost use Rattle.std.specs.Prelude.{◌≡◌, ◌≤◌, ◌<◌, ◌^◌, ◌++◌, ◌&&◌, ◌==◌, ◌+◌, if◌then◌else◌, [], true, false, length, replicate, OnErr, OnOk, codes};
ghost use Rattle.dcm_devices.specs.Writing.{Wrote};
ghost use Rattle.json.specs.Print.{escape, quoted};
ghost use Rattle.dcm_json.specs.Values as spec;

use crate::escaped::put_escaped;
use crate::number_text::{MOST_OF_NUMBER, are_of_number, is_number_of};
use crate::shape::{Group, TextShape};
use arrayvec::ArrayVec;
use dcm_base::{DeviceOut, Watched, WriteFailed, put_all};
use std::marker::Model;

const BACKSLASH: u8 = b'\\';

const EQUALS: u8 = b'=';

const SPACE: u8 = b' ';

/// How far the values of a text are written. It is given the text part by part: of each character what is shown of it,
/// and of each byte without a character. A space is written where something of its value follows it. The array is begun
/// where a second value comes, or something of the first. What may be a number is held, at most 15 bytes.
#[derive(Drop)]
pub struct Values {
    shape: TextShape,
    begun: bool,
    group: Group,
    has_members: bool,
    digits: ArrayVec<u8, MOST_OF_NUMBER>,
    is_open: bool,
    spaces: u64,
}

impl Model for Values {
    ghost use Rattle.dcm_json.specs.Values.{Values as View};

    ghost Value = { View };

    ghost view = { λ v. record {
      shape = v.shape;
      begun = v.begun;
      group = v.group;
      has_members = v.has_members;
      digits = v.digits.items;
      is_open = v.is_open;
      spaces = v.spaces;
    } };
}

/// Whether a part is this character of ASCII.
fn is_one(character: u8, part: &[u8]) -> bool
    ensures { result ≡ spec.is_one character part.now }
{
    match part {
        [only] => *only == character,
        _ => false,
    }
}

/// What stands before a value: the beginning of the array before the first.
pub(crate) fn before(begun: bool) -> &'static [u8]
    ensures { result.now ≡ spec.before begun }
{
    if begun { b"," } else { b",\"Value\":[" }
}

/// The same, up to the quote of its string.
fn string_opening(begun: bool) -> &'static [u8]
    ensures { result.now ≡ spec.before begun ++ codes "\"" }
{
    if begun { b",\"" } else { b",\"Value\":[\"" }
}

/// The same of a group of a name, before which others stand or not.
fn name_opening(has_members: bool, begun: bool, group: Group) -> &'static [u8]
    ensures { result.now ≡ spec.name_opening has_members begun group }
{
    match (has_members, begun, group) {
        (true, _, Group::Alphabetic) => b",\"Alphabetic\":\"",
        (true, _, Group::Ideographic) => b",\"Ideographic\":\"",
        (true, _, Group::Phonetic) => b",\"Phonetic\":\"",
        (false, true, Group::Alphabetic) => b",{\"Alphabetic\":\"",
        (false, true, Group::Ideographic) => b",{\"Ideographic\":\"",
        (false, true, Group::Phonetic) => b",{\"Phonetic\":\"",
        (false, false, Group::Alphabetic) => b",\"Value\":[{\"Alphabetic\":\"",
        (false, false, Group::Ideographic) => b",\"Value\":[{\"Ideographic\":\"",
        (false, false, Group::Phonetic) => b",\"Value\":[{\"Phonetic\":\"",
    }
}

/// Writes spaces.
fn put_spaces<W: DeviceOut>(count: u64, out: &mut Watched<W>) -> Result<(), WriteFailed>
    ensures { Wrote W.DeviceOut out.old out.new (replicate count 32) result }
{
    for _space in 0..count {
        put_all(out, b" ")?;
    }
    Ok(())
}

/// Writes spaces, and then bytes of a string.
fn put_spaced<W: DeviceOut>(
    spaces: u64,
    bytes: &[u8],
    out: &mut Watched<W>,
) -> Result<(), WriteFailed>
    ensures { Wrote W.DeviceOut out.old out.new (replicate spaces 32 ++ escape bytes.now) result }
{
    put_spaces(spaces, out)?;
    put_escaped(bytes, out)
}

/// Writes some bytes, and then bytes of a string.
fn put_opened<W: DeviceOut>(
    opening: &[u8],
    bytes: &[u8],
    out: &mut Watched<W>,
) -> Result<(), WriteFailed>
    ensures { Wrote W.DeviceOut out.old out.new (opening.now ++ escape bytes.now) result }
{
    put_all(out, opening)?;
    put_escaped(bytes, out)
}

/// Writes some bytes, and then of a string bytes, spaces and more bytes.
fn put_begun<W: DeviceOut>(
    opening: &[u8],
    bytes: &[u8],
    spaces: u64,
    more: &[u8],
    out: &mut Watched<W>,
) -> Result<(), WriteFailed>
    ensures { Wrote W.DeviceOut out.old out.new
        ((opening.now ++ escape bytes.now) ++ (replicate spaces 32 ++ escape more.now)) result }
{
    put_opened(opening, bytes, out)?;
    put_spaced(spaces, more, out)
}

/// Writes two runs of bytes.
fn put_two<W: DeviceOut>(
    first: &[u8],
    second: &[u8],
    out: &mut Watched<W>,
) -> Result<(), WriteFailed>
    ensures { Wrote W.DeviceOut out.old out.new (first.now ++ second.now) result }
{
    put_all(out, first)?;
    put_all(out, second)
}

/// Writes bytes of a string, and its end.
fn put_closed<W: DeviceOut>(bytes: &[u8], out: &mut Watched<W>) -> Result<(), WriteFailed>
    ensures { Wrote W.DeviceOut out.old out.new (escape bytes.now ++ codes "\"") result }
{
    put_escaped(bytes, out)?;
    put_all(out, b"\"")
}

/// Writes a string.
pub(crate) fn put_string<W: DeviceOut>(
    bytes: &[u8],
    out: &mut Watched<W>,
) -> Result<(), WriteFailed>
    ensures { Wrote W.DeviceOut out.old out.new (quoted bytes.now) result }
{
    put_all(out, b"\"")?;
    put_closed(bytes, out)
}

/// Writes what may be a number, at its end, and `null` where there is nothing.
fn put_digits<W: DeviceOut>(
    shape: TextShape,
    digits: &[u8],
    out: &mut Watched<W>,
) -> Result<(), WriteFailed>
    ensures { Wrote W.DeviceOut out.old out.new (spec.null_or_digits shape digits.now) result }
{
    if digits.is_empty() {
        put_all(out, b"null")
    } else if is_number_of(shape, digits) {
        put_all(out, digits)
    } else {
        put_string(digits, out)
    }
}

/// Writes a value of which no string stands: what may be a number, or `null`.
fn put_unopened<W: DeviceOut>(
    begun: bool,
    shape: TextShape,
    digits: &[u8],
    out: &mut Watched<W>,
) -> Result<(), WriteFailed>
    ensures { Wrote W.DeviceOut out.old out.new (spec.before begun ++ spec.null_or_digits shape digits.now) result }
{
    put_all(out, before(begun))?;
    put_digits(shape, digits, out)
}

/// The end of a string, where it stands open.
fn string_end(is_open: bool) -> &'static [u8]
    ensures { result.now ≡ spec.string_end is_open }
{
    if is_open { b"\"" } else { b"" }
}

impl Values {
    /// Before a text.
    pub fn new(shape: TextShape) -> Values
        ensures { result ≡ spec.blank shape false }
    {
        Values {
            shape,
            begun: false,
            group: Group::Alphabetic,
            has_members: false,
            digits: ArrayVec::new(),
            is_open: false,
            spaces: 0,
        }
    }

    /// Up to the quote of a string.
    fn opening(&self) -> &'static [u8]
        ensures { result.now ≡ spec.opening self.now }
    {
        if self.shape.is_names() {
            name_opening(self.has_members, self.begun, self.group)
        } else {
            string_opening(self.begun)
        }
    }

    /// Whether what may still be a number goes on with a part.
    fn may_be_number(&self, part: &[u8]) -> bool
        ensures { result ≡ spec.may_be_number self.now part.now }
    {
        self.shape.is_numeric()
            && self.spaces == 0
            && part.len() <= MOST_OF_NUMBER - self.digits.len()
            && are_of_number(part)
    }

    /// Begins a string with a part.
    fn open<W: DeviceOut>(&mut self, part: &[u8], out: &mut Watched<W>) -> Result<(), WriteFailed>
        ensures kept { OnErr result (self.new ≡ self.old) }
        ensures state { OnOk result (self.new ≡ spec.opened self.old) }
        ensures wrote { Wrote W.DeviceOut out.old out.new ((spec.opening self.old
            ++ escape self.old.digits) ++ (replicate self.old.spaces 32 ++ escape part.now)) result }
    {
        put_begun(
            self.opening(),
            self.digits.as_slice(),
            self.spaces,
            part,
            out,
        )?;
        self.has_members = self.shape.is_names();
        self.digits = ArrayVec::new();
        self.is_open = true;
        self.spaces = 0;
        Ok(())
    }

    /// Goes on with a string by a part.
    fn go_on<W: DeviceOut>(&mut self, part: &[u8], out: &mut Watched<W>) -> Result<(), WriteFailed>
        requires { self.old.is_open ≡ true }
        ensures kept { OnErr result (self.new ≡ self.old) }
        ensures state { OnOk result (self.new ≡ record self.old { spaces = 0 }) }
        ensures wrote { Wrote W.DeviceOut out.old out.new (replicate self.old.spaces 32 ++ escape part.now) result }
    {
        put_spaced(self.spaces, part, out)?;
        self.spaces = 0;
        Ok(())
    }

    /// After a part that shows something, and separates nothing.
    fn show<W: DeviceOut>(&mut self, part: &[u8], out: &mut Watched<W>) -> Result<(), WriteFailed>
        ensures kept { OnErr result (self.new ≡ self.old) }
        ensures state { OnOk result (self.new ≡ spec.shown self.old part.now) }
        ensures wrote { Wrote W.DeviceOut out.old out.new (spec.shown_writes self.old part.now) result }
    {
        if self.is_open {
            self.go_on(part, out)
        } else if self.may_be_number(part) {
            self.hold(part);
            Ok(())
        } else {
            self.open(part, out)
        }
    }

    /// Holds what may be a number.
    fn hold(&mut self, part: &[u8])
        requires { spec.may_be_number self.old part.now ≡ true }
        ensures { self.new ≡ record self.old { digits = self.old.digits ++ part.now } }
    {
        let _ = self.digits.try_extend_from_slice(part);
    }

    /// After spaces: at the beginning of what may be a number they do not count.
    fn add_spaces(&mut self, count: u64)
        requires { self.old.spaces + count < 2 ^ 64 }
        ensures { self.new ≡ spec.spaced self.old count }
    {
        if self.is_open || !(self.shape.is_numeric() && self.digits.is_empty()) {
            self.spaces += count;
        }
    }

    /// The group that begins behind a part, where it ends one.
    fn group_behind(&self, part: &[u8]) -> Option<Group>
        ensures { result ≡ spec.group_behind self.now part.now }
    {
        if self.shape.is_names() && is_one(EQUALS, part) {
            self.group.next()
        } else {
            None
        }
    }

    /// After the end of a group.
    fn end_group<W: DeviceOut>(
        &mut self,
        behind: Group,
        out: &mut Watched<W>,
    ) -> Result<(), WriteFailed>
        ensures kept { OnErr result (self.new ≡ self.old) }
        ensures state { OnOk result (self.new ≡ spec.in_group self.old behind) }
        ensures wrote { Wrote W.DeviceOut out.old out.new (spec.string_end self.old.is_open) result }
    {
        put_all(out, string_end(self.is_open))?;
        self.group = behind;
        self.is_open = false;
        self.spaces = 0;
        Ok(())
    }

    /// Writes the end of a value.
    fn put_end<W: DeviceOut>(&self, out: &mut Watched<W>) -> Result<(), WriteFailed>
        ensures { Wrote W.DeviceOut out.old out.new (spec.value_end self.now) result }
    {
        if self.has_members {
            put_two(string_end(self.is_open), b"}", out)
        } else if self.is_open {
            put_all(out, b"\"")
        } else {
            put_unopened(self.begun, self.shape, self.digits.as_slice(), out)
        }
    }

    /// After the end of a value, where another begins.
    fn end_value<W: DeviceOut>(&mut self, out: &mut Watched<W>) -> Result<(), WriteFailed>
        ensures kept { OnErr result (self.new ≡ self.old) }
        ensures state { OnOk result (self.new ≡ spec.ended self.old) }
        ensures wrote { Wrote W.DeviceOut out.old out.new (spec.value_end self.old) result }
    {
        self.put_end(out)?;
        self.begun = true;
        self.group = Group::Alphabetic;
        self.has_members = false;
        self.digits = ArrayVec::new();
        self.is_open = false;
        self.spaces = 0;
        Ok(())
    }

    /// After a part that separates nothing.
    fn take_plain<W: DeviceOut>(
        &mut self,
        part: &[u8],
        out: &mut Watched<W>,
    ) -> Result<(), WriteFailed>
        requires { self.old.spaces + 1 < 2 ^ 64 }
        ensures kept { OnErr result (self.new ≡ self.old) }
        ensures state { OnOk result (self.new ≡ spec.plain_step self.old part.now) }
        ensures wrote { Wrote W.DeviceOut out.old out.new (spec.plain_writes self.old part.now) result }
    {
        if is_one(SPACE, part) {
            self.add_spaces(1);
            return Ok(());
        }
        if part.is_empty() {
            return Ok(());
        }
        self.show(part, out)
    }

    /// After a part: of a character what is shown of it, of a byte without a character `\xNN`, and nothing of a
    /// designation. Fails where the writer fails, which has then taken a beginning of what the part writes.
    pub fn take<W: DeviceOut>(
        &mut self,
        part: &[u8],
        out: &mut Watched<W>,
    ) -> Result<(), WriteFailed>
        requires { self.old.spaces + 1 < 2 ^ 64 }
        ensures kept { OnErr result (self.new ≡ self.old) }
        ensures state { OnOk result (self.new ≡ spec.step self.old part.now) }
        ensures wrote { Wrote W.DeviceOut out.old out.new (spec.writes self.old part.now) result }
    {
        if is_one(BACKSLASH, part) && self.shape.is_cut() {
            return self.end_value(out);
        }
        match self.group_behind(part) {
            Some(group) => self.end_group(group, out),
            None => self.take_plain(part, out),
        }
    }

    /// Whether nothing came of a value.
    fn is_blank(&self) -> bool
        ensures { result ≡ spec.is_blank self.now }
    {
        !self.is_open && !self.has_members && self.digits.is_empty()
    }

    /// Writes the end of the last value and of the array.
    fn put_array_end<W: DeviceOut>(&self, out: &mut Watched<W>) -> Result<(), WriteFailed>
        ensures { Wrote W.DeviceOut out.old out.new (spec.value_end self.now ++ codes "]") result }
    {
        self.put_end(out)?;
        put_all(out, b"]")
    }

    /// Whether there is an array: nothing is written where the only value is empty.
    fn has_array(&self) -> bool
        ensures { result ≡ spec.has_array self.now }
    {
        self.begun || !self.is_blank()
    }

    /// Writes the end of the last value and of the array, or nothing where the only value is empty. Fails where the
    /// writer fails, which has then taken a beginning.
    pub fn finish<W: DeviceOut>(self, out: &mut Watched<W>) -> Result<(), WriteFailed>
        ensures { Wrote W.DeviceOut out.old out.new (spec.finishes self) result }
    {
        if self.has_array() {
            self.put_array_end(out)
        } else {
            Ok(())
        }
    }
}
