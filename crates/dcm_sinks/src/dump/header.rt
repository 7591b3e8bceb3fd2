// What comes before the lines of a data set.
ghost use Rattle.std.specs.Prelude.{◌≤◌, ◌<◌, ◌^◌, flat_map, length};
ghost use Rattle.dcm_devices.specs.Writing.{Wrote};
ghost use Rattle.dcm_base.specs.Dump.Dump.{dump_set};
ghost use Rattle.dcm_base.specs.Dump.Header as spec;
ghost use Rattle.dcm_base.specs.File.MetaGroup.{META_LIMIT};
ghost use Rattle.dcm_base.specs.declared.dictionary.Dictionary.TheVariants.{Extract};
ghost use Rattle.dcm_head.specs.MetaReading.{HasEnded};
ghost use Rattle.dcm_head.specs.Rewriting.{WroteElements};
ghost use Rattle.dcm_sinks.specs.MetaLines.{WroteHeader, WroteLine};

use crate::dump::DumpSink;
use dcm_base::{DeviceOut, Dictionary, Mode, Watched, WriteFailed, put_all, uid_name};
use dcm_head::{Meta, MetaElement, first_element};
use dcm_stream::{Token, take_all};
use dcm_value::escape;

/// Writes a byte of a unique identifier, escaped. A closing parenthesis, which none has (PS3.5 9.1), is escaped too, so
/// that no line of a header says that texts are shown as characters.
fn put_identifier_byte<W: DeviceOut>(out: &mut Watched<W>, byte: u8) -> Result<(), WriteFailed>
    ensures { Wrote W.DeviceOut out.old out.new (spec.identifier_byte byte) result }
{
    if byte == b')' {
        return put_all(out, b"%29");
    }
    put_all(out, escape(byte).as_slice())
}

/// Writes a unique identifier.
fn put_identifier<W: DeviceOut>(out: &mut Watched<W>, uid: &[u8]) -> Result<(), WriteFailed>
    ensures { Wrote W.DeviceOut out.old out.new (flat_map spec.identifier_byte uid.now) result }
{
    for byte in uid {
        put_identifier_byte(out, *byte)?;
    }
    Ok(())
}

/// Writes the name of a transfer syntax, or its unique identifier.
fn put_syntax<W: DeviceOut>(uid: &[u8], out: &mut Watched<W>) -> Result<(), WriteFailed>
    ensures { Wrote W.DeviceOut out.old out.new (spec.syntax_name uid.now) result }
{
    match uid_name(uid) {
        Some(name) => put_all(out, name.as_bytes()),
        None => put_identifier(out, uid),
    }
}

/// Writes what comes before the lines of a data set in this transfer syntax, which is given without its pad. Fails
/// where the writer fails, which has then taken a beginning of it.
pub fn set_header<W: DeviceOut>(uid: &[u8], out: &mut Watched<W>) -> Result<(), WriteFailed>
    ensures { Wrote W.DeviceOut out.old out.new (spec.set_header uid.now) result }
{
    put_all(out, b"# Dicom-Data-Set\n# Used TransferSyntax: ")?;
    put_syntax(uid, out)?;
    put_all(out, b"\n")
}

/// Writes the line of an element of a meta group.
fn put_element<W: DeviceOut>(
    element: MetaElement,
    dictionary: Dictionary,
    mode: Mode,
    out: &mut Watched<W>,
) -> Result<(), WriteFailed>
    requires { length element.value.now < 2 ^ 32 }
    ensures { WroteLine W.DeviceOut out.old out.new dictionary mode element.entry result }
{
    let tokens = Token::leaf(element.tag, element.vr, element.value);
    let mut sink = DumpSink::with_dictionary(out, dictionary, mode);
    take_all(tokens.as_slice(), &mut sink)
}

/// Writes the lines of a meta group.
fn put_elements<W: DeviceOut>(
    group: &[u8],
    dictionary: Dictionary,
    mode: Mode,
    out: &mut Watched<W>,
) -> Result<(), WriteFailed>
    requires { length group.now ≤ META_LIMIT }
    ensures { WroteElements W.DeviceOut out.old out.new group.now (dump_set dictionary mode 0) result }
{
    let mut rest = group;
    'elements: while let Some(element) = first_element(rest) {
        put_element(element, dictionary, mode, out)?;
        rest = element.after;
    }
    Ok(())
}

/// Writes what comes before the lines of a file's data set: the lines of the meta group, whose elements are called
/// as the extract says, and the transfer syntax. Fails where the writer fails, which has then taken a beginning of it.
pub fn dump_header<W: DeviceOut>(
    meta: &Meta,
    mode: Mode,
    out: &mut Watched<W>,
) -> Result<(), WriteFailed>
    requires { HasEnded meta.now.end }
    ensures { WroteHeader W.DeviceOut out.old out.new Extract mode meta.now result }
{
    dump_header_with(meta, Dictionary::Extract, mode, out)
}

/// Writes what `dump_header` writes, with the keywords of a dictionary. Fails as `dump_header` does.
pub fn dump_header_with<W: DeviceOut>(
    meta: &Meta,
    dictionary: Dictionary,
    mode: Mode,
    out: &mut Watched<W>,
) -> Result<(), WriteFailed>
    requires { HasEnded meta.now.end }
    ensures { WroteHeader W.DeviceOut out.old out.new dictionary mode meta.now result }
{
    put_all(
        out,
        b"# Dicom-File-Format\n\n# Dicom-Meta-Information-Header\n# Used TransferSyntax: LittleEndianExplicit\n",
    )?;
    put_elements(meta.bytes(), dictionary, mode, out)?;
    put_all(out, b"\n")?;
    set_header(meta.uid().as_bytes(), out)
}
