// The lines of named elements of a meta group.
ghost use Rattle.std.specs.Prelude.{◌≤◌, [], length};
ghost use Rattle.dcm_base.specs.File.MetaGroup.{META_LIMIT};
ghost use Rattle.dcm_head.specs.MetaReading.{HasEnded, group_of};
ghost use Rattle.dcm_head.specs.Rewriting.{WroteElements};
ghost use Rattle.dcm_sinks.specs.InForce.{EMPTY};
ghost use Rattle.dcm_named.specs.Filter.{place_start};
ghost use Rattle.dcm_named.specs.Laws.{asked};
ghost use Rattle.dcm_named.specs.Meta as spec;
ghost use Rattle.dcm_named.specs.Named.{by_bytes, by_characters, named_set};

use crate::sink::NamedSink;
use dcm_base::{DeviceOut, Dictionary, Mode, Tag, Watched, WriteFailed};
use dcm_head::{Meta, first_element};
use dcm_sinks::{DecodedDumpSink, DumpSink, LineSink};
use dcm_stream::{Sink, Token, take_all};

/// Gives a sink the elements of a meta group, one after another, up to the first at which its writer fails.
fn take_elements<S: Sink>(group: &[u8], sink: &mut S) -> Result<(), WriteFailed>
    requires { length group.now ≤ META_LIMIT }
    ensures { spec.TookElements S.Sink sink.old sink.new group.now result }
{
    let mut rest = group;
    'elements: while let Some(element) = first_element(rest) {
        let tokens = Token::leaf(element.tag, element.vr, element.value);
        take_all(tokens.as_slice(), sink)?;
        rest = element.after;
    }
    Ok(())
}

/// Shows the elements of a meta group that are named, and passes over the others.
fn show_elements<S: LineSink>(
    group: &[u8],
    tags: &[Tag],
    ways: bool,
    mode: Mode,
    lines: &mut S,
) -> Result<(), WriteFailed>
    requires { length group.now ≤ META_LIMIT }
    ensures { spec.ShowedElements S.LineSink lines.old lines.new (place_start tags.now ways mode) group.now result }
{
    let mut sink = NamedSink::new(tags, ways, mode, lines);
    take_elements(group, &mut sink)
}

/// Writes the lines of the elements of a meta group that are named, and nothing else. Fails where the writer fails,
/// which has then taken a beginning of them.
pub fn named_meta<W: DeviceOut>(
    meta: &Meta,
    tags: &[Tag],
    ways: bool,
    dictionary: Dictionary,
    mode: Mode,
    out: &mut Watched<W>,
) -> Result<(), WriteFailed>
    requires { HasEnded meta.now.end }
    ensures { WroteElements W.DeviceOut out.old out.new (group_of meta.now)
        (named_set (asked by_bytes tags.now ways dictionary mode) EMPTY []) result }
{
    let mut lines = DumpSink::with_dictionary(out, dictionary, mode);
    show_elements(meta.bytes(), tags, ways, mode, &mut lines)
}

/// Writes the lines of named elements of a meta group, with texts shown by characters. Bytes from 80 on are shown as
/// numbers, since a meta group has no Specific Character Set (PS3.10 7.1). Fails as `named_meta` does.
pub fn named_decoded_meta<W: DeviceOut>(
    meta: &Meta,
    tags: &[Tag],
    ways: bool,
    dictionary: Dictionary,
    mode: Mode,
    out: &mut Watched<W>,
) -> Result<(), WriteFailed>
    requires { HasEnded meta.now.end }
    ensures { WroteElements W.DeviceOut out.old out.new (group_of meta.now)
        (named_set (asked by_characters tags.now ways dictionary mode) EMPTY []) result }
{
    let mut lines = DecodedDumpSink::new(out, dictionary, mode);
    show_elements(meta.bytes(), tags, ways, mode, &mut lines)
}
