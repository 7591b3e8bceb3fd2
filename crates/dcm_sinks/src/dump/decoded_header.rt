// What comes before the lines of a data set whose texts are shown as characters.
ghost use Rattle.std.specs.Prelude.{◌≤◌, ◌<◌, ◌^◌, ◌≡◌, length};
ghost use Rattle.dcm_devices.specs.Writing.{Wrote};
ghost use Rattle.dcm_base.specs.File.MetaGroup.{META_LIMIT};
ghost use Rattle.dcm_head.specs.MetaReading.{HasEnded};
ghost use Rattle.dcm_head.specs.Rewriting.{WroteElements};
ghost use Rattle.dcm_sinks.specs.DecodedDump.{decoded_set};
ghost use Rattle.dcm_sinks.specs.DecodedHeader as spec;
ghost use Rattle.dcm_sinks.specs.InForce.{EMPTY};
ghost use Rattle.dcm_text.specs.declared.set.TextKind.TheVariants.{OneValue};
ghost use Rattle.dcm_text.specs.Shown.{dumped as shown_text};

use crate::character_set::default_sets;
use crate::dump::decoded::DecodedDumpSink;
use dcm_base::{DeviceOut, Dictionary, Mode, Watched, WriteFailed, put_all, uid_name};
use dcm_head::{Meta, MetaElement, first_element};
use dcm_stream::{Token, take_all};
use dcm_text::{Decoder, TextKind, dumped};

/// Writes bytes of a text, as characters of ASCII.
fn put_characters<W: DeviceOut>(text: &[u8], out: &mut Watched<W>) -> Result<(), WriteFailed>
    ensures { Wrote W.DeviceOut out.old out.new (shown_text EMPTY OneValue text.now) result }
{
    let mut decoder = Decoder::new(default_sets(), TextKind::OneValue);
    let mut rest = text;
    while let Some((part, after)) = decoder.next(rest, true) {
        put_all(out, dumped(&part).as_slice())?;
        rest = after;
    }
    Ok(())
}

/// Writes the name of a transfer syntax, or its unique identifier.
fn put_decoded_syntax<W: DeviceOut>(uid: &[u8], out: &mut Watched<W>) -> Result<(), WriteFailed>
    ensures { Wrote W.DeviceOut out.old out.new (spec.decoded_syntax_name uid.now) result }
{
    match uid_name(uid) {
        Some(name) => put_all(out, name.as_bytes()),
        None => put_characters(uid, out),
    }
}

/// Writes the line of a transfer syntax, which is given without its pad.
fn put_used_syntax<W: DeviceOut>(uid: &[u8], out: &mut Watched<W>) -> Result<(), WriteFailed>
    ensures { Wrote W.DeviceOut out.old out.new (spec.used_syntax uid.now) result }
{
    put_all(out, b"# Used TransferSyntax: ")?;
    put_decoded_syntax(uid, out)?;
    put_all(out, b"\n")
}

/// Writes what comes before the lines of a file's data set.
fn put_set_header<W: DeviceOut>(uid: &[u8], out: &mut Watched<W>) -> Result<(), WriteFailed>
    ensures { Wrote W.DeviceOut out.old out.new (spec.decoded_set_header uid.now) result }
{
    put_all(out, b"# Dicom-Data-Set\n")?;
    put_used_syntax(uid, out)
}

/// Writes what comes before the lines of a data set alone in this transfer syntax, which is given without its pad. Its
/// first line says that texts are shown as characters. Fails where the writer fails, which has then taken a beginning
/// of it.
pub fn decoded_alone_header<W: DeviceOut>(
    uid: &[u8],
    out: &mut Watched<W>,
) -> Result<(), WriteFailed>
    ensures { Wrote W.DeviceOut out.old out.new (spec.decoded_alone_header uid.now) result }
{
    put_all(out, b"# Dicom-Data-Set (texts in UTF-8)\n")?;
    put_used_syntax(uid, out)
}

/// Writes the line of an element of a meta group.
fn put_decoded_element<W: DeviceOut>(
    element: MetaElement,
    dictionary: Dictionary,
    mode: Mode,
    out: &mut Watched<W>,
) -> Result<(), WriteFailed>
    requires { length element.value.now < 2 ^ 32 }
    ensures { spec.WroteDecodedLine W.DeviceOut out.old out.new dictionary mode element.entry result }
{
    let tokens = Token::leaf(element.tag, element.vr, element.value);
    let mut sink = DecodedDumpSink::new(out, dictionary, mode);
    take_all(tokens.as_slice(), &mut sink)
}

/// Writes the lines of a meta group.
fn put_decoded_elements<W: DeviceOut>(
    group: &[u8],
    dictionary: Dictionary,
    mode: Mode,
    out: &mut Watched<W>,
) -> Result<(), WriteFailed>
    requires { length group.now ≤ META_LIMIT }
    ensures { WroteElements W.DeviceOut out.old out.new group.now (decoded_set dictionary mode EMPTY 0) result }
{
    let mut rest = group;
    'elements: while let Some(element) = first_element(rest) {
        put_decoded_element(element, dictionary, mode, out)?;
        rest = element.after;
    }
    Ok(())
}

/// Writes what comes before the lines of a file's data set: a line that says that texts are shown as characters, the
/// lines of the meta group, whose elements are called as the dictionary says, and the transfer syntax. Bytes of texts
/// from 80 on are shown by their numbers there, since a meta group has no Specific Character Set (PS3.10 7.1). Fails
/// where the writer fails, which has then taken a beginning of it.
pub fn decoded_dump_header<W: DeviceOut>(
    meta: &Meta,
    dictionary: Dictionary,
    mode: Mode,
    out: &mut Watched<W>,
) -> Result<(), WriteFailed>
    requires { HasEnded meta.now.end }
    ensures { spec.WroteDecodedHeader W.DeviceOut out.old out.new dictionary mode meta.now result }
{
    put_all(
        out,
        b"# Dicom-File-Format (texts in UTF-8)\n\n\
# Dicom-Meta-Information-Header\n# Used TransferSyntax: LittleEndianExplicit\n",
    )?;
    put_decoded_elements(meta.bytes(), dictionary, mode, out)?;
    put_all(out, b"\n")?;
    put_set_header(meta.uid().as_bytes(), out)
}
