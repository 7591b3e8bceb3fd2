// An element with its whole value, by one call.
ghost use Rattle.std.specs.Prelude.{◌≡◌, ◌++◌, ◌<◌, ◌^◌, ℕ, List, Some, None, length, false, OnOk, OnErr};
ghost use Rattle.dcm_base.specs.declared.form.Form.TheVariants.{Value as a_value};
ghost use Rattle.dcm_base.specs.Tables.Syntax.{is_big};
ghost use Rattle.dcm_deid.specs.declared.fate.Fate.TheVariants.{Anew};
ghost use Rattle.dcm_deid.specs.DeidentifySink as spec;
ghost use Rattle.dcm_deid.specs.Deidentifying as deidentifying;
ghost use Rattle.dcm_deid.specs.Emptied as emptied;
ghost use Rattle.dcm_stream.specs.Sinks as sinks;
ghost use Rattle.dcm_stream.specs.Skip.{depth};
ghost use Rattle.dcm_deid.specs.Noting.{NotesFailed, Told, head_put, value_put};
ghost use Rattle.dcm_stream.specs.Tokens.{IsLeaf, leaf_atoms, whole_atoms};

use crate::deidentifier::Deidentifier;
use crate::fate::{Fate, NewValue, Options};
use crate::key::UidKey;
use crate::said::put_leaf;
use crate::sink::{put_gap, put_head};
use dcm_base::{Form, Syntax, WriteFailed};
use dcm_head::{Head, without_pads};
use dcm_stream::{Sink, WholeFailed};

/// Passes on what becomes of an element of this fate, whose value nobody has to know. All that comes of one that is not
/// kept is put at its head.
#[inline(always)]
fn put_whole<S: Sink>(
    fate: Fate,
    head: Head,
    syntax: Syntax,
    value: &[u8],
    sink: &mut S,
) -> Result<(), WholeFailed>
    requires { IsLeaf head syntax value.now }
    ensures took { sinks.Took S.Sink sink.old sink.new (deidentifying.whole_by fate head syntax value.now) result }
    ensures told { Told S.Sink sink.old sink.new (head_put fate head syntax) (value_put fate value.now) result }
{
    if let Fate::Keep = fate {
        return sink.take_whole_telling(head, syntax, value);
    }
    match put_head(fate, Form::Value, head, syntax, sink) {
        Ok(()) => Ok(()),
        Err(_) => Err(WholeFailed::AtHead),
    }
}

/// Passes on what becomes of an element of this fate with its whole value, of which nothing is left out so far, and
/// goes on after it. One call does for its three tokens: nobody has to know its value, so neither its bytes nor its end
/// make anything of their own, and what its head opens is closed by its end. The element is noted once its head is out,
/// also where the writer then fails.
#[inline(always)]
pub fn pass_unheld<S: Sink>(
    options: &Options,
    place: &mut Deidentifier,
    fate: Fate,
    head: Head,
    syntax: Syntax,
    value: &[u8],
    sink: &mut S,
) -> Result<(), WriteFailed>
    requires leaf { IsLeaf head syntax value.now }
    requires shown { depth place.old.skip ≡ 0 }
    requires fate { fate ≡ spec.fate_at options.now (deidentifying.place place.old) a_value head.tag }
    requires unheld { spec.is_held fate a_value head.tag ≡ false }
    ensures took { (key : List ℕ) → sinks.Took S.Sink sink.old sink.new
        (deidentifying.passed_of options.now key place.old (whole_atoms head syntax value.now)) result }
    ensures state { OnOk result
        (deidentifying.GoesOn options.now place.old place.new (whole_atoms head syntax value.now)) }
    ensures noted { OnErr result (NotesFailed S.Sink sink.old sink.new options.now place.old place.new fate head syntax
        value.now) }
{
    put_gap(options, place, Some(head.tag), sink)?;
    let tag = head.tag;
    match put_whole(fate, head, syntax, value, sink) {
        Ok(()) => {
            place.pass_by(tag);
            Ok(())
        }
        Err(WholeFailed::AtHead) => Err(WriteFailed),
        Err(WholeFailed::InValue) => {
            place.pass_by(tag);
            Err(WriteFailed)
        }
    }
}

/// Passes on a new value in the place of an element, and goes on after it. The element is noted before anything of it
/// is put, as it is by its tokens, also where the writer then fails.
#[inline(always)]
fn put_in_place<S: Sink>(
    options: &Options,
    place: &mut Deidentifier,
    head: Head,
    new: &[u8],
    sink: &mut S,
) -> Result<(), WriteFailed>
    requires { length new.now < 2 ^ 32 }
    ensures took { sinks.Took S.Sink sink.old sink.new (spec.said_before options.now (deidentifying.place place.old)
        (Some head.tag) ++ leaf_atoms head.tag head.vr new.now) result }
    ensures state { OnOk result (deidentifying.place place.new
        ≡ spec.with_last (spec.holding (deidentifying.place place.old) None) head.tag) }
{
    let tag = head.tag;
    put_gap(options, place, Some(tag), sink)?;
    place.pass_by(tag);
    put_leaf(tag, head.vr, new, sink)
}

/// Whether a value is of dates that are moved, has more than padding, and this is nothing, which is written of it.
fn is_emptied(made: NewValue, value: &[u8], written: &[u8]) -> bool
    ensures { result ≡ emptied.is_emptied made value.now written.now }
{
    made.is_moved() && !without_pads(value).is_empty() && written.is_empty()
}

/// Passes on what is made of the whole value of an element in little endian, and goes on after it. It is read where it
/// is: by its tokens it would be copied, held until its end, and copied again. It is not inlined, as few elements are
/// made anew. The syntax is for the contract alone.
#[inline(never)]
pub fn pass_anew<S: Sink>(
    options: &Options,
    key: &UidKey,
    place: &mut Deidentifier,
    made: NewValue,
    head: Head,
    syntax: Syntax,
    value: &[u8],
    sink: &mut S,
) -> Result<(), WriteFailed>
    requires leaf { IsLeaf head syntax value.now }
    requires shown { depth place.old.skip ≡ 0 }
    requires fate { Anew made ≡ spec.fate_at options.now (deidentifying.place place.old) a_value head.tag }
    requires little { is_big syntax ≡ false }
    ensures took { sinks.Took S.Sink sink.old sink.new
        (deidentifying.passed_of options.now key.now.bytes.now place.old (whole_atoms head syntax value.now)) result }
    ensures state { OnOk result
        (deidentifying.GoesOn options.now place.old place.new (whole_atoms head syntax value.now)) }
{
    let new = key.made_whole(options, made, head.vr, value);
    place.count(is_emptied(made, value, new.as_slice()));
    put_in_place(options, place, head, new.as_slice(), sink)
}
