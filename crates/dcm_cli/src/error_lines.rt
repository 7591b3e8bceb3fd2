// Lines on standard error, each by one write.
ghost use Rattle.std.specs.Prelude.{◌≡◌, ◌≤◌, ◌+◌, ◌++◌, length};
ghost use Rattle.dcm_devices.specs.Writing.{Wrote};
ghost use Rattle.dcm_cli.specs.Answer as answer;
ghost use Rattle.dcm_cli.specs.Calls as calls;
ghost use Rattle.dcm_cli.specs.ErrorLines as spec;
ghost use Rattle.dcm_cli.specs.Status as statuses;

use crate::status::{DEVICE, MEMORY, USAGE};
use arrayvec::ArrayVec;
use dcm_base::{DeviceOut, LineStop, Stop, Watched, WriteFailed, put_all};
use dcm_editor::MOST_EDITS;
use dcm_words::Usage;
use itoa::Buffer;

/// The most bytes of a line.
const LONGEST: usize = 192;

/// The parts of a line, one after the other.
fn compose(parts: &[&[u8]]) -> ArrayVec<u8, LONGEST>
    requires { length (spec.joined parts.now) ≤ spec.LONGEST }
    ensures { result.items ≡ spec.joined parts.now }
{
    let mut line = ArrayVec::new();
    for part in parts {
        let _ = line.try_extend_from_slice(part);
    }
    line
}

/// Writes a line. A failing writer has a beginning of it.
fn put_line<E: DeviceOut>(errors: &mut Watched<E>, parts: &[&[u8]]) -> Result<(), WriteFailed>
    requires { length (spec.joined parts.now) ≤ spec.LONGEST }
    ensures { Wrote E.DeviceOut errors.old errors.new (spec.joined parts.now) result }
{
    let line = compose(parts);
    put_all(errors, line.as_slice())
}

/// Writes a line, after which no other comes.
fn tell_line<E: DeviceOut>(errors: &mut Watched<E>, parts: &[&[u8]])
    requires { length (spec.joined parts.now) ≤ spec.LONGEST }
    ensures { calls.Reports E.DeviceOut errors.old errors.new (spec.joined parts.now) }
{
    let _ = put_line(errors, parts);
}

/// Reports a refusal: its number, where it is, and its words.
fn tell_refusal<E: DeviceOut>(number: &str, place: &[&[u8]], text: &str, errors: &mut Watched<E>)
    requires { length number.now + length (spec.joined place.now) + length text.now + 13 ≤ spec.LONGEST }
    ensures { calls.Reports E.DeviceOut errors.old errors.new
        (spec.refusal_line number.now (spec.joined place.now) text.now) }
{
    let place = compose(place);
    tell_line(
        errors,
        &[
            b"dcmtools: ".as_slice(),
            number.as_bytes(),
            place.as_slice(),
            b": ".as_slice(),
            text.as_bytes(),
            b"\n".as_slice(),
        ],
    );
}

/// Reports why words are refused, and answers the status.
pub fn tell<E: DeviceOut>(usage: &Usage, errors: &mut Watched<E>) -> u8
    ensures line { calls.Reports E.DeviceOut errors.old errors.new (spec.usage_line usage.now) }
    ensures status { result ≡ spec.usage_status usage.now }
{
    let mut digits = Buffer::new();
    match *usage {
        Usage::AtWord(refusal, word) => {
            let place = [b" at word ".as_slice(), digits.format(word).as_bytes()];
            tell_refusal(refusal.number(), &place, refusal.text(), errors);
        }
        Usage::Whole(refusal) => tell_refusal(refusal.number(), &[], refusal.text(), errors),
        Usage::InEdit(refusal, edit) => {
            let place = [b" in edit ".as_slice(), digits.format(edit).as_bytes()];
            tell_refusal(refusal.number(), &place, refusal.text(), errors);
        }
        Usage::InElement(refusal, element) => {
            let place = [
                b" in element ".as_slice(),
                digits.format(element).as_bytes(),
            ];
            tell_refusal(refusal.number(), &place, refusal.text(), errors);
        }
        Usage::TooManyElements => tell_refusal("V12", &[], "more than 64 elements", errors),
        Usage::Memory => {
            tell_line(errors, &[b"dcmtools: out of memory\n".as_slice()]);
            return MEMORY;
        }
    }
    USAGE
}

/// Reports that the input or the output cannot be opened, and answers the status.
pub fn tell_open<E: DeviceOut>(output: bool, errors: &mut Watched<E>) -> u8
    ensures line { calls.Reports E.DeviceOut errors.old errors.new (spec.open_line output) }
    ensures status { result ≡ statuses.DEVICE }
{
    if output {
        tell_line(errors, &[b"dcmtools: output cannot be opened\n".as_slice()]);
    } else {
        tell_line(errors, &[b"dcmtools: input cannot be opened\n".as_slice()]);
    }
    DEVICE
}

/// Reports that the input is no regular file, and answers the status.
pub fn tell_irregular<E: DeviceOut>(errors: &mut Watched<E>) -> u8
    ensures line { calls.Reports E.DeviceOut errors.old errors.new spec.irregular_line }
    ensures status { result ≡ statuses.DEVICE }
{
    tell_line(
        errors,
        &[b"dcmtools: input is no regular file\n".as_slice()],
    );
    DEVICE
}

/// Reports that the output is the input, and answers the status.
pub fn tell_same<E: DeviceOut>(errors: &mut Watched<E>) -> u8
    ensures line { calls.Reports E.DeviceOut errors.old errors.new spec.same_line }
    ensures status { result ≡ statuses.DEVICE }
{
    tell_line(errors, &[b"dcmtools: output is the input\n".as_slice()]);
    DEVICE
}

/// Reports that the output exists and is not changed, and answers the status.
pub fn tell_there<E: DeviceOut>(errors: &mut Watched<E>) -> u8
    ensures line { calls.Reports E.DeviceOut errors.old errors.new spec.there_line }
    ensures status { result ≡ statuses.DEVICE }
{
    tell_line(errors, &[b"dcmtools: output is there already\n".as_slice()]);
    DEVICE
}

/// Reports that the temporary file of the output exists, and answers the status.
pub fn tell_part<E: DeviceOut>(errors: &mut Watched<E>) -> u8
    ensures line { calls.Reports E.DeviceOut errors.old errors.new spec.part_line }
    ensures status { result ≡ statuses.DEVICE }
{
    tell_line(
        errors,
        &[b"dcmtools: output part is there: another run is at work, or was cut off\n".as_slice()],
    );
    DEVICE
}

/// Reports a fault of the input.
pub fn tell_fault<E: DeviceOut>(stop: Stop, errors: &mut Watched<E>)
    ensures { calls.Reports E.DeviceOut errors.old errors.new (spec.fault_line stop) }
{
    let mut digits = Buffer::new();
    let place = [b" at byte ".as_slice(), digits.format(stop.at).as_bytes()];
    tell_refusal(stop.fault.number(), &place, stop.fault.text(), errors);
}

/// Which line a fault is of, where it is one's: what is before its number, and that.
fn line_place(line: u64, digits: &mut Buffer) -> (&'static [u8], &[u8])
    ensures bytes { result.0.now ++ result.1.now ≡ answer.line_place line }
    ensures within { length result.0.now + length result.1.now ≤ 27 }
{
    if line == 0 {
        return (b"".as_slice(), b"".as_slice());
    }
    (b", line ".as_slice(), digits.format(line).as_bytes())
}

/// Reports why lines that were to be built are refused.
pub fn tell_line_fault<E: DeviceOut>(stop: LineStop, errors: &mut Watched<E>)
    ensures { calls.Reports E.DeviceOut errors.old errors.new (answer.building_line stop) }
{
    let mut digits = Buffer::new();
    let mut line_digits = Buffer::new();
    let (before_number, number) = line_place(stop.line, &mut line_digits);
    let place = [
        b" at byte ".as_slice(),
        digits.format(stop.offset).as_bytes(),
        before_number,
        number,
    ];
    tell_refusal(stop.fault.number(), &place, stop.fault.text(), errors);
}

/// Reports that reading failed after so many bytes.
pub fn tell_unread<E: DeviceOut>(read: u64, errors: &mut Watched<E>)
    ensures { calls.Reports E.DeviceOut errors.old errors.new (spec.unread_line read) }
{
    let mut digits = Buffer::new();
    tell_line(
        errors,
        &[
            b"dcmtools: ".as_slice(),
            b"reading failed after ".as_slice(),
            digits.format(read).as_bytes(),
            b" bytes".as_slice(),
            b"\n".as_slice(),
        ],
    );
}

/// Reports that the output failed.
pub fn tell_output<E: DeviceOut>(errors: &mut Watched<E>)
    ensures { calls.Reports E.DeviceOut errors.old errors.new spec.output_line }
{
    tell_line(errors, &[b"dcmtools: output failed\n".as_slice()]);
}

/// Reports that pixels may show identity.
pub fn tell_pixels<E: DeviceOut>(errors: &mut Watched<E>)
    ensures { calls.Reports E.DeviceOut errors.old errors.new spec.pixels_line }
{
    tell_line(
        errors,
        &[b"dcmtools: pixels may show identity\n".as_slice()],
    );
}

/// Writes that there is no pseudonym where PatientID names nobody.
pub fn put_nobody<E: DeviceOut>(unnamed: bool, errors: &mut Watched<E>) -> Result<(), WriteFailed>
    ensures { Wrote E.DeviceOut errors.old errors.new (spec.nobody_lines unnamed) result }
{
    if !unnamed {
        return Ok(());
    }
    put_line(
        errors,
        &[b"dcmtools: no pseudonym: PatientID names nobody\n".as_slice()],
    )
}

/// Writes how many shifted dates became empty, if there are any.
pub fn put_emptied<E: DeviceOut>(count: u64, errors: &mut Watched<E>) -> Result<(), WriteFailed>
    ensures { Wrote E.DeviceOut errors.old errors.new (spec.emptied_lines count) result }
{
    if count == 0 {
        return Ok(());
    }
    let mut digits = Buffer::new();
    put_line(
        errors,
        &[
            b"dcmtools: ".as_slice(),
            digits.format(count).as_bytes(),
            b" dates are emptied\n".as_slice(),
        ],
    )
}

/// Writes that a value of Specific Character Set names what is not known, where that is so.
pub fn put_unknown<E: DeviceOut>(unknown: bool, errors: &mut Watched<E>) -> Result<(), WriteFailed>
    ensures { Wrote E.DeviceOut errors.old errors.new (spec.unknown_lines unknown) result }
{
    if !unknown {
        return Ok(());
    }
    put_line(
        errors,
        &[b"dcmtools: character set is not known\n".as_slice()],
    )
}

/// Reports that the key cannot be opened or read, and answers the status.
pub fn tell_key<E: DeviceOut>(was_opened: bool, errors: &mut Watched<E>) -> u8
    ensures line { calls.Reports E.DeviceOut errors.old errors.new (spec.key_line was_opened) }
    ensures status { result ≡ statuses.DEVICE }
{
    if was_opened {
        tell_line(errors, &[b"dcmtools: reading the key failed\n".as_slice()]);
    } else {
        tell_line(errors, &[b"dcmtools: key cannot be opened\n".as_slice()]);
    }
    DEVICE
}

/// Writes the line of an edit that found no place; it is counted from 1. Of another edit nothing is written.
fn put_unplaced<E: DeviceOut>(
    is_unplaced: bool,
    number: usize,
    errors: &mut Watched<E>,
) -> Result<(), WriteFailed>
    ensures { Wrote E.DeviceOut errors.old errors.new (spec.line_where is_unplaced number) result }
{
    if !is_unplaced {
        return Ok(());
    }
    let mut digits = Buffer::new();
    put_line(
        errors,
        &[
            b"dcmtools: edit ".as_slice(),
            digits.format(number).as_bytes(),
            b" found no place\n".as_slice(),
        ],
    )
}

/// Reports which edits found no place, each on a line: bit k is set for edit k, counted from 0. After a line that
/// failed no other is tried.
pub fn tell_unplaced<E: DeviceOut>(unplaced: u64, errors: &mut Watched<E>)
    ensures { calls.Reports E.DeviceOut errors.old errors.new (spec.mask_lines 64 1 unplaced) }
{
    let mut rest = unplaced;
    for number in 1..=MOST_EDITS {
        if put_unplaced(rest % 2 == 1, number, errors).is_err() {
            return;
        }
        rest /= 2;
    }
}
