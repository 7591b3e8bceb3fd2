// The lines of a dump.
ghost use Rattle.std.specs.Prelude.{◌≡◌, ◌<◌, ◌≤◌, ◌-◌, ◌*◌, ◌++◌, ◌∷◌, [], length, replicate, drop, decimal, Some};
ghost use Rattle.std.specs.Prelude.{IfSome};
ghost use Rattle.dcm_devices.specs.Writing.{Wrote};
ghost use Rattle.dcm_base.specs.Dump.Dump as dump;
ghost use Rattle.dcm_base.specs.Dump.ValueText.{padded};
ghost use Rattle.dcm_base.specs.Dump.ValueText.{tag_text};
ghost use Rattle.dcm_base.specs.declared.length.Length.TheVariants.{Known};
ghost use Rattle.dcm_base.specs.declared.level.TheConstants.{MOST_OPEN};
ghost use Rattle.dcm_sinks.specs.Layout.{length_digits_of, length_field, line_rest, rest_start};
ghost use Rattle.dcm_sinks.specs.Layout.{item_text, item_end_text, sequence_end_text};

use arrayvec::ArrayVec;
use dcm_base::{
    DeviceOut, Dictionary, Length, Tag, Watched, WriteFailed, keyword_in, put_all, put_parts,
};
use dcm_value::DISPLAY_WIDTH;
use itoa::Buffer;

/// The width in which a length is written at the right.
const LENGTH_WIDTH: usize = 3;

/// The bytes of a tag and letters, with a space after each.
const START: usize = 15;

/// The most bytes of a line in which few are of the length and the count: two spaces for each of 128 levels, tag
/// and letters, a display that is cut, ten bytes to the keyword, and that.
const LONGEST: usize = 412;

/// A line that is put together before it is written.
pub type Line = ArrayVec<u8, LONGEST>;

const SPACES: [u8; 256] = [b' '; 256];

fn spaces(count: usize) -> &'static [u8]
    requires { count ≤ 256 }
    ensures { result.now ≡ replicate count 32 }
{
    &SPACES[..count]
}

/// A tag and letters, with a space after each.
fn start_text(tag: Tag, letters: [u8; 2]) -> [u8; START]
    ensures { result ≡ (tag_text tag.group tag.element ++ 32 ∷ []) ++ (letters ++ 32 ∷ []) }
{
    let [a, b, c, d, e, f, g, h, i, j, k] = tag.text();
    let [first, second] = letters;
    [a, b, c, d, e, f, g, h, i, j, k, b' ', first, second, b' ']
}

/// Begins a line: two spaces a level, tag and letters.
pub fn begin_line(line: &mut Line, level: usize, tag: Tag, letters: [u8; 2])
    requires { level ≤ MOST_OPEN }
    ensures items { line.new.items ≡ dump.line_start level tag letters }
    ensures within { length line.new.items ≤ 271 }
{
    line.clear();
    let _ = line.try_extend_from_slice(spaces(2 * level));
    let _ = line.try_extend_from_slice(&start_text(tag, letters));
}

/// Writes a line up to its display.
pub fn put_line_start<W: DeviceOut>(
    out: &mut Watched<W>,
    line: &mut Line,
    level: usize,
    tag: Tag,
    letters: [u8; 2],
) -> Result<(), WriteFailed>
    requires { level ≤ MOST_OPEN }
    ensures { Wrote W.DeviceOut out.old out.new (dump.line_start level tag letters) result }
{
    begin_line(line, level, tag, letters);
    put_all(out, line.as_slice())
}

/// A declared length as a dump shows it, without the spaces before it.
fn length_digits<'a>(length: Length, digits: &'a mut Buffer) -> &'a [u8]
    ensures { result.now ≡ length_digits_of length }
{
    match length {
        Length::Known(size) => digits.format(size).as_bytes(),
        Length::Undefined => b"u/l",
    }
}

/// A number right in two places.
fn two_places(number: u8) -> (u8, u8)
    requires { number < 100 }
    ensures { 32 ∷ result.0 ∷ result.1 ∷ [] ≡ length_field (Known number) }
{
    if number < 10 {
        (b' ', b'0' + number)
    } else {
        (b'0' + number / 10, b'0' + number % 10)
    }
}

/// The three places of a declared length, where it is of one or two digits or undefined.
fn short_length(length: Length) -> Option<(u8, u8, u8)>
    ensures { IfSome result (λ t. t.0 ∷ t.1 ∷ t.2 ∷ [] ≡ length_field length) }
{
    match length {
        Length::Undefined => Some((b'u', b'/', b'l')),
        Length::Known(size) if size < 100 => {
            let (tens, ones) = two_places(size as u8);
            Some((b' ', tens, ones))
        }
        Length::Known(_) => None,
    }
}

/// What comes before the keyword of a line, where it is short.
fn short_rest(length: Length, count: u64) -> Option<[u8; 10]>
    ensures { IfSome result (λ text. text ≡ rest_start length count) }
{
    let (a, b, c) = short_length(length)?;
    if count < 10 {
        let count = b'0' + count as u8;
        Some([b' ', b'#', b' ', a, b, c, b',', b' ', count, b' '])
    } else {
        None
    }
}

/// Writes a line that is put together up to the end of its display, and what comes after that: a declared length and
/// so many values.
#[inline(always)]
pub fn put_rest<W: DeviceOut>(
    out: &mut Watched<W>,
    dictionary: Dictionary,
    line: &mut Line,
    tag: Tag,
    declared: Length,
    count: u64,
) -> Result<(), WriteFailed>
    requires { length line.old.items ≤ 337 }
    ensures { Wrote W.DeviceOut out.old out.new (line.old.items ++ line_rest dictionary tag declared count) result }
{
    let Some(start) = short_rest(declared, count) else {
        put_all(out, line.as_slice())?;
        return put_long_rest(out, dictionary, tag, declared, count);
    };
    let _ = line.try_extend_from_slice(&start);
    let _ = line.try_extend_from_slice(keyword_in(dictionary, tag));
    line.push(b'\n');
    put_all(out, line.as_slice())
}

/// Writes what comes after a display, of any length and count.
fn put_long_rest<W: DeviceOut>(
    out: &mut Watched<W>,
    dictionary: Dictionary,
    tag: Tag,
    length: Length,
    count: u64,
) -> Result<(), WriteFailed>
    ensures { Wrote W.DeviceOut out.old out.new (line_rest dictionary tag length count) result }
{
    let mut sizes = Buffer::new();
    let mut counts = Buffer::new();
    let size = length_digits(length, &mut sizes);
    put_parts(
        out,
        &[
            b" # ".as_slice(),
            spaces(LENGTH_WIDTH.saturating_sub(size.len())),
            size,
            b", ".as_slice(),
            counts.format(count).as_bytes(),
            b" ".as_slice(),
            keyword_in(dictionary, tag),
            b"\n".as_slice(),
        ],
    )
}

/// Appends a display, padded.
fn append_display(line: &mut Line, display: &[u8])
    requires display { length display.now ≤ 66 }
    requires line { length line.old.items ≤ 271 }
    ensures items { line.new.items ≡ line.old.items ++ padded display.now }
    ensures within { length line.new.items ≤ 337 }
{
    let _ = line.try_extend_from_slice(display);
    let _ = line.try_extend_from_slice(spaces(DISPLAY_WIDTH.saturating_sub(display.len())));
}

/// Writes a line with a display that is known at once: an opening or an end.
pub fn put_line<W: DeviceOut>(
    out: &mut Watched<W>,
    dictionary: Dictionary,
    line: &mut Line,
    level: usize,
    tag: Tag,
    letters: [u8; 2],
    display: &[u8],
    declared: Length,
    count: u64,
) -> Result<(), WriteFailed>
    requires level { level ≤ MOST_OPEN }
    requires display { length display.now ≤ 66 }
    ensures { Wrote W.DeviceOut out.old out.new (dump.line dictionary level tag letters display.now declared count)
        result }
{
    begin_line(line, level, tag, letters);
    append_display(line, display);
    put_rest(out, dictionary, line, tag, declared, count)
}

/// The level of the lines that are written down whole. Where less is open, they begin with fewer spaces, two for each
/// level. Deeper than 16 nearly no data set goes; there a line is put together.
pub const WRITTEN_LEVEL: usize = 16;

/// The line of an item that begins, at that level, where its length is undefined or 0.
pub fn written_item(declared: Length) -> Option<&'static [u8]>
    ensures text { IfSome result (λ text. item_text declared ≡ Some text.now) }
    ensures spaces { IfSome result (λ text. 2 * WRITTEN_LEVEL ≤ length text.now) }
{
    match declared {
        Length::Undefined => Some(
            b"                                (fffe,e000) na (Item with undefined length)             # u/l, 1 Item\n",
        ),
        Length::Known(0) => Some(
            b"                                (fffe,e000) na (Item with explicit length)              #   0, 1 Item\n",
        ),
        Length::Known(_) => None,
    }
}

/// The line of the end of an item, at that level.
pub fn written_item_end(declared: Length) -> &'static [u8]
    ensures text { result.now ≡ item_end_text declared }
    ensures spaces { 2 * WRITTEN_LEVEL ≤ length result.now }
{
    match declared {
        Length::Known(_) => {
            b"                                (fffe,e00d) na (ItemDelimitationItem for re-encoding)   #   0, 0 ItemDelimitationItem\n"
        }
        Length::Undefined => {
            b"                                (fffe,e00d) na (ItemDelimitationItem)                   #   0, 0 ItemDelimitationItem\n"
        }
    }
}

/// The line of the end of a sequence, at that level.
pub fn written_sequence_end(declared: Length) -> &'static [u8]
    ensures text { result.now ≡ sequence_end_text declared }
    ensures spaces { 2 * WRITTEN_LEVEL ≤ length result.now }
{
    match declared {
        Length::Known(_) => {
            b"                                (fffe,e0dd) na (SequenceDelimitationItem for re-encod.) #   0, 0 SequenceDelimitationItem\n"
        }
        Length::Undefined => {
            b"                                (fffe,e0dd) na (SequenceDelimitationItem)               #   0, 0 SequenceDelimitationItem\n"
        }
    }
}

/// Writes a line that is written down whole, with the spaces of this level before it. To put it together would take
/// several times as long.
pub fn put_written<W: DeviceOut>(
    out: &mut Watched<W>,
    line: &'static [u8],
    level: usize,
) -> Result<(), WriteFailed>
    requires level { level ≤ WRITTEN_LEVEL }
    requires line { 2 * WRITTEN_LEVEL ≤ length line.now }
    ensures { Wrote W.DeviceOut out.old out.new (drop (2 * (WRITTEN_LEVEL - level)) line.now) result }
{
    put_all(out, &line[2 * (WRITTEN_LEVEL - level)..])
}
