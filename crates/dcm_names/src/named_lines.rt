// Lines on standard error that name a file, each by one write.
ghost use Rattle.std.specs.Prelude.{◌≡◌, ◌≤◌, ◌+◌, ◌++◌, length, flat_map};
ghost use Rattle.dcm_devices.specs.Writing.{Wrote};
ghost use Rattle.dcm_names.specs.NamedLines as spec;

use crate::shown::{MOST_SHOWN, shown_name};
use arrayvec::ArrayVec;
use dcm_base::{DeviceOut, Stop, Tag, Watched, WriteFailed, put_all};
use dcm_files::Unopened;
use itoa::Buffer;

/// The most bytes of a line without its name.
const MOST_WITHOUT_NAME: usize = 192;

/// The most bytes of a line.
const LONGEST: usize = MOST_SHOWN + MOST_WITHOUT_NAME;

/// The parts of a line, one after the other.
fn compose(parts: &[&[u8]]) -> ArrayVec<u8, LONGEST>
    requires { length (flat_map (λ part. part.now) parts.now) ≤ 12480 }
    ensures { result.items ≡ flat_map (λ part. part.now) parts.now }
{
    let mut line = ArrayVec::new();
    for part in parts {
        let _ = line.try_extend_from_slice(part);
    }
    line
}

/// Writes the parts of a line by one write. Fails where the writer fails.
pub fn put_at_once<E: DeviceOut>(
    parts: &[&[u8]],
    errors: &mut Watched<E>,
) -> Result<(), WriteFailed>
    requires { length (flat_map (λ part. part.now) parts.now) ≤ 12480 }
    ensures { Wrote E.DeviceOut errors.old errors.new (flat_map (λ part. part.now) parts.now) result }
{
    let line = compose(parts);
    put_all(errors, line.as_slice())
}

/// Writes a line of a name: the parts of a text come after it.
fn put_named<E: DeviceOut>(
    name: &[u8],
    parts: &[&[u8]],
    errors: &mut Watched<E>,
) -> Result<(), WriteFailed>
    requires { length (flat_map (λ part. part.now) parts.now) ≤ 176 }
    ensures { Wrote E.DeviceOut errors.old errors.new (spec.named_line name.now (flat_map (λ part. part.now) parts.now))
        result }
{
    let shown = shown_name(name);
    let text = compose(parts);
    let line = compose(&[
        b"dcmtools: ".as_slice(),
        shown.as_slice(),
        b": ".as_slice(),
        text.as_slice(),
        b"\n".as_slice(),
    ]);
    put_all(errors, line.as_slice())
}

/// Writes a line that names no file: a refusal of words by its number, where it is, and its words. Fails where the
/// writer fails.
pub fn put_refusal<E: DeviceOut>(
    number: &str,
    place: &[&[u8]],
    text: &str,
    errors: &mut Watched<E>,
) -> Result<(), WriteFailed>
    requires { length number.now + length (flat_map (λ part. part.now) place.now) + length text.now ≤ 176 }
    ensures { Wrote E.DeviceOut errors.old errors.new (spec.refusal_line number.now
        (flat_map (λ part. part.now) place.now) text.now) result }
{
    let place = compose(place);
    let line = compose(&[
        b"dcmtools: ".as_slice(),
        number.as_bytes(),
        place.as_slice(),
        b": ".as_slice(),
        text.as_bytes(),
        b"\n".as_slice(),
    ]);
    put_all(errors, line.as_slice())
}

/// Reports what a text says of a name. Fails where the writer fails.
pub fn put_text<E: DeviceOut>(
    name: &[u8],
    text: &[u8],
    errors: &mut Watched<E>,
) -> Result<(), WriteFailed>
    requires { length text.now ≤ 176 }
    ensures { Wrote E.DeviceOut errors.old errors.new (spec.named_line name.now text.now) result }
{
    put_named(name, &[text], errors)
}

/// Reports that a file cannot be opened. Fails where the writer fails.
pub fn put_unopened<E: DeviceOut>(name: &[u8], errors: &mut Watched<E>) -> Result<(), WriteFailed>
    ensures { Wrote E.DeviceOut errors.old errors.new (spec.unopened_line name.now) result }
{
    put_named(name, &[b"input cannot be opened".as_slice()], errors)
}

/// Why a file is not read into an output.
fn clash_text(cause: Unopened) -> &'static [u8]
    ensures value { result.now ≡ spec.clash_text cause }
    ensures within { length result.now ≤ 32 }
{
    match cause {
        Unopened::Same => b"output is the input".as_slice(),
        _ => b"output cannot be opened".as_slice(),
    }
}

/// Reports that a file is the output, or may be. Fails where the writer fails.
pub fn put_clash<E: DeviceOut>(
    name: &[u8],
    cause: Unopened,
    errors: &mut Watched<E>,
) -> Result<(), WriteFailed>
    ensures { Wrote E.DeviceOut errors.old errors.new (spec.clash_line name.now cause) result }
{
    put_named(name, &[clash_text(cause)], errors)
}

/// Reports that reading a file failed after so many bytes. Fails where the writer fails.
pub fn put_unread<E: DeviceOut>(
    name: &[u8],
    read: u64,
    errors: &mut Watched<E>,
) -> Result<(), WriteFailed>
    ensures { Wrote E.DeviceOut errors.old errors.new (spec.unread_line name.now read) result }
{
    let mut digits = Buffer::new();
    let text = [
        b"reading failed after ".as_slice(),
        digits.format(read).as_bytes(),
        b" bytes".as_slice(),
    ];
    put_named(name, &text, errors)
}

/// Reports a fault of a file. Fails where the writer fails.
pub fn put_fault<E: DeviceOut>(
    name: &[u8],
    stop: Stop,
    errors: &mut Watched<E>,
) -> Result<(), WriteFailed>
    ensures { Wrote E.DeviceOut errors.old errors.new (spec.fault_line name.now stop) result }
{
    let mut digits = Buffer::new();
    let text = [
        stop.fault.number().as_bytes(),
        b" at byte ".as_slice(),
        digits.format(stop.at).as_bytes(),
        b": ".as_slice(),
        stop.fault.text().as_bytes(),
    ];
    put_named(name, &text, errors)
}

/// Reports that a value of a file is too long for a cell. Fails where the writer fails.
pub fn put_too_long<E: DeviceOut>(
    name: &[u8],
    tag: Tag,
    errors: &mut Watched<E>,
) -> Result<(), WriteFailed>
    ensures { Wrote E.DeviceOut errors.old errors.new (spec.too_long_line name.now tag) result }
{
    let number = tag.text();
    let text = [
        b"value of ".as_slice(),
        number.as_slice(),
        b" is longer than 16384 bytes".as_slice(),
    ];
    put_named(name, &text, errors)
}

/// Reports that an edit, counted from 1, found no place in a file. Fails where the writer fails.
pub fn put_unplaced<E: DeviceOut>(
    name: &[u8],
    edit: usize,
    errors: &mut Watched<E>,
) -> Result<(), WriteFailed>
    ensures { Wrote E.DeviceOut errors.old errors.new (spec.unplaced_line name.now edit) result }
{
    let mut digits = Buffer::new();
    let text = [
        b"edit ".as_slice(),
        digits.format(edit).as_bytes(),
        b" found no place".as_slice(),
    ];
    put_named(name, &text, errors)
}

/// Reports how many dates of a file, some, were moved and have nothing left. Fails where the writer fails.
fn put_some_emptied<E: DeviceOut>(
    name: &[u8],
    count: u64,
    errors: &mut Watched<E>,
) -> Result<(), WriteFailed>
    ensures { Wrote E.DeviceOut errors.old errors.new (spec.emptied_line name.now count) result }
{
    let mut digits = Buffer::new();
    let text = [
        digits.format(count).as_bytes(),
        b" dates are emptied".as_slice(),
    ];
    put_named(name, &text, errors)
}

/// Reports how many shifted dates of a file became empty, if there are any. Fails where the writer fails.
pub fn put_emptied<E: DeviceOut>(
    name: &[u8],
    count: u64,
    errors: &mut Watched<E>,
) -> Result<(), WriteFailed>
    ensures { Wrote E.DeviceOut errors.old errors.new (spec.emptied_lines name.now count) result }
{
    if count == 0 {
        return Ok(());
    }
    put_some_emptied(name, count, errors)
}

/// Reports that PatientID of a file names nobody, of whom a pseudonym could be made. Fails where the writer fails.
fn put_no_pseudonym<E: DeviceOut>(name: &[u8], errors: &mut Watched<E>) -> Result<(), WriteFailed>
    ensures { Wrote E.DeviceOut errors.old errors.new (spec.nobody_line name.now) result }
{
    let text = [b"no pseudonym: PatientID names nobody".as_slice()];
    put_named(name, &text, errors)
}

/// The same where that is so, and else nothing.
pub fn put_nobody<E: DeviceOut>(
    name: &[u8],
    unnamed: bool,
    errors: &mut Watched<E>,
) -> Result<(), WriteFailed>
    ensures { Wrote E.DeviceOut errors.old errors.new (spec.nobody_lines name.now unnamed) result }
{
    if !unnamed {
        return Ok(());
    }
    put_no_pseudonym(name, errors)
}

/// Reports that a value of Specific Character Set in a file names what is not known. Fails where the writer fails.
fn put_unknown_set<E: DeviceOut>(name: &[u8], errors: &mut Watched<E>) -> Result<(), WriteFailed>
    ensures { Wrote E.DeviceOut errors.old errors.new (spec.unknown_line name.now) result }
{
    put_named(name, &[b"character set is not known".as_slice()], errors)
}

/// Reports that a value of Specific Character Set in a file names what is not known, where that is so. Fails where the
/// writer fails.
pub fn put_unknown<E: DeviceOut>(
    name: &[u8],
    unknown: bool,
    errors: &mut Watched<E>,
) -> Result<(), WriteFailed>
    ensures { Wrote E.DeviceOut errors.old errors.new (spec.unknown_lines name.now unknown) result }
{
    if !unknown {
        return Ok(());
    }
    put_unknown_set(name, errors)
}
