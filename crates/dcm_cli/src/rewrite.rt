// A file that is written again: what comes before its data set.
ghost use Rattle.std.specs.Prelude.{◌≡◌, ◌≤◌, ◌<◌, ◌+◌, length, Option, IfOk};
ghost use Rattle.dcm_base.specs.declared.syntax.Syntax.{Syntax};
ghost use Rattle.dcm_base.specs.File.MetaReads.{Meta as FileMeta};
ghost use Rattle.dcm_words.specs.Words.{convert as convert_job};
ghost use Rattle.dcm_head.specs.MetaReading.{HasEnded, uid_of};
ghost use Rattle.dcm_base.specs.Reading.Reads.{INPUT_LIMIT};
ghost use Rattle.dcm_files.specs.Pieces.{BUFFER_LIMIT};
ghost use Rattle.dcm_cli.specs.Answer as answer;
ghost use Rattle.dcm_cli.specs.Calls as calls;
ghost use Rattle.dcm_cli.specs.Opening as opening;
ghost use Rattle.dcm_cli.specs.Pass as spec;
ghost use Rattle.dcm_cli.specs.declared.rewrite.NewHead.TheVariants.{WithoutIdentity};

use crate::ending::{Ending, Verdict, ending_of_head};
use crate::head::{Beginning, read_head_of, set_start};
use dcm_base::{
    Coding, DeviceIn, DeviceOut, Dictionary, Fault, Stop, Syntax, Watched, WriteFailed, put_parts,
};
use dcm_deid::{MetaWithoutIdentity, NO_PREAMBLE};
use dcm_head::{Meta, PREFIX, SyntaxUid};

/// The bytes that are read at a time of a file that is written again. Most of them are, each piece by one call.
pub(crate) const PIECE: usize = 262_144;

/// A file whose data set is to be written again: the coding and the offset of the data set, and what was read of it.
#[derive(Clone, Copy, Debug, PartialEq, Eq)]
pub struct Opened {
    /// Where the data set begins in what was read.
    pub beginning: Beginning,
    /// The coding of the data set.
    pub coding: Coding,
    /// The offset of the data set in the file.
    pub start: u64,
}

/// How the head of a file is written again.
#[derive(Drop)]
pub enum NewHead<'a> {
    /// All elements are kept, but the transfer syntax may be another one.
    AsItIs,
    /// The elements without identity are kept.
    WithoutIdentity(MetaWithoutIdentity<'a>),
}

/// Whether a file in this coding keeps its transfer syntax, and another is wanted.
fn refuses_change(target: Option<Syntax>, coding: Coding) -> bool
    ensures { (d : Dictionary) → result ≡ answer.refuses_change (convert_job d target) coding }
{
    coding.encapsulated && target.is_some()
}

/// The syntax that is written, read by the dictionary of the input.
pub fn target_syntax(target: Option<Syntax>, coding: Coding) -> Syntax
    ensures { result ≡ answer.target_syntax target coding }
{
    match target {
        None => coding.syntax,
        Some(syntax) => syntax.read_by(coding.syntax.dictionary()),
    }
}

/// The unique identifier of the transfer syntax that is written.
fn target_uid<'m>(target: Option<Syntax>, meta: &'m Meta) -> SyntaxUid<'m>
    requires { HasEnded meta.now.end }
    ensures { (m : FileMeta) → uid_of meta.now ≡ m.uid → result ≡ answer.target_uid target m }
{
    if let Some(syntax) = target {
        return SyntaxUid::of(syntax);
    }
    meta.uid()
}

/// Writes what is before the data set as it is: the preamble, the prefix, and the meta group with this transfer syntax.
fn write_same<W: DeviceOut>(
    meta: &Meta,
    uid: &SyntaxUid<'_>,
    out: &mut Watched<W>,
) -> Result<(), WriteFailed>
    requires { HasEnded meta.now.end }
    ensures { calls.WritesHead W.DeviceOut out.old out.new opening.unchanged meta.now uid.now result }
{
    put_parts(out, &[meta.preamble(), PREFIX])?;
    meta.rewritten(uid, out)
}

/// Writes what is before the data set without identity: zeros, the prefix, and what stays of the meta group.
fn write_without_identity<W: DeviceOut>(
    what: &MetaWithoutIdentity,
    meta: &Meta,
    uid: &SyntaxUid<'_>,
    out: &mut Watched<W>,
) -> Result<(), WriteFailed>
    requires { HasEnded meta.now.end }
    ensures { calls.WritesHead W.DeviceOut out.old out.new (opening.change_by (WithoutIdentity what.now)) meta.now
        uid.now result }
{
    put_parts(out, &[NO_PREAMBLE.as_slice(), PREFIX])?;
    meta.renewed(what, uid, out)
}

/// Writes what is before the data set: the preamble, the prefix, and the meta group with this transfer syntax.
fn write_head<W: DeviceOut>(
    head: &NewHead,
    meta: &Meta,
    uid: &SyntaxUid<'_>,
    out: &mut Watched<W>,
) -> Result<(), WriteFailed>
    requires { HasEnded meta.now.end }
    ensures { calls.WritesHead W.DeviceOut out.old out.new (opening.change_by head.now) meta.now uid.now result }
{
    match head {
        NewHead::AsItIs => write_same(meta, uid, out),
        NewHead::WithoutIdentity(what) => write_without_identity(what, meta, uid, out),
    }
}

/// Reads the head of a file, and writes it again with the transfer syntax of the target. The coding is read by the
/// dictionary.
pub fn open_file<R: DeviceIn, W: DeviceOut>(
    dictionary: Dictionary,
    target: Option<Syntax>,
    head: &NewHead,
    input: &mut Watched<R>,
    out: &mut Watched<W>,
    buffer: &mut [u8],
) -> Result<Opened, Ending>
    requires room { 0 < length buffer.old }
    requires bound { length buffer.old ≤ BUFFER_LIMIT }
    ensures opens { calls.Opens R.DeviceIn W.DeviceOut dictionary target (opening.change_by head.now) input.old
        input.new out.old out.new buffer.old buffer.new result }
    ensures start { IfOk result (λ o. o.start ≤ INPUT_LIMIT) }
    ensures within { IfOk result (λ o. spec.IsWithin o.beginning buffer.new) }
    ensures count { IfOk result (λ o. o.start + length (spec.set_bytes o.beginning buffer.new) ≡ o.beginning.read) }
{
    let mut meta = Meta::new();
    let beginning = match read_head_of(&mut meta, input, buffer) {
        Ok(beginning) => beginning,
        Err(ending) => return Err(ending_of_head(ending)),
    };
    let coding = meta.coding().read_by(dictionary);
    let start = set_start(&meta);
    if refuses_change(target, coding) {
        return Err(Ending::Worked(Verdict::Refused(Stop {
            fault: Fault::CannotChange,
            at: start,
        })));
    }
    let uid = target_uid(target, &meta);
    if write_head(head, &meta, &uid, out).is_err() {
        return Err(Ending::Output);
    }
    Ok(Opened {
        beginning,
        coding,
        start,
    })
}
