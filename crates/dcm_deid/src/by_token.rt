// What becomes of each kind of token, and where the sink is after it.
ghost use Rattle.std.specs.Prelude.{◌≡◌, ◌<◌, ℕ, List, [], ◌∷◌, length, map, OnOk};
ghost use Rattle.dcm_base.specs.Steps.Atoms.{opens, value_byte, closes_leaf, opens_item, closes_item, closes_sequence};
ghost use Rattle.dcm_base.specs.Steps.Atoms.{opens_fragment, ends};
ghost use Rattle.dcm_deid.specs.Deidentifying as deidentifying;
ghost use Rattle.dcm_stream.specs.Sinks as sinks;
ghost use Rattle.dcm_stream.specs.Tokens.{IsFilled, atoms_of};

use crate::deidentifier::Deidentifier;
use crate::fate::Options;
use crate::key::UidKey;
use crate::sink::{pass_on_element, put_end, put_item, put_plain, put_value_end};
use dcm_base::{Length, Syntax, WriteFailed};
use dcm_head::Head;
use dcm_stream::{Sink, Token};

/// Passes on what the head of an element becomes, and goes on after it.
#[inline(never)]
fn pass_on_head<S: Sink>(
    options: &Options,
    place: &mut Deidentifier,
    head: Head,
    syntax: Syntax,
    sink: &mut S,
) -> Result<(), WriteFailed>
    ensures took { (key : List ℕ) → sinks.Took S.Sink sink.old sink.new
        (deidentifying.passed_of options.now key place.old (opens head.tag head.vr head.length syntax ∷ [])) result }
    ensures state { OnOk result (deidentifying.GoesOn options.now place.old place.new
        (opens head.tag head.vr head.length syntax ∷ [])) }
{
    if place.skip.is_open() {
        place.open_within(head);
        return Ok(());
    }
    pass_on_element(options, place, head, syntax, sink)
}

/// Passes on what bytes of a value become, and goes on after them.
#[inline(never)]
fn pass_on_bytes<S: Sink>(
    options: &Options,
    place: &mut Deidentifier,
    bytes: &[u8],
    sink: &mut S,
) -> Result<(), WriteFailed>
    requires { 0 < length bytes.now }
    ensures took { (key : List ℕ) → sinks.Took S.Sink sink.old sink.new
        (deidentifying.passed_of options.now key place.old (map value_byte bytes.now)) result }
    ensures state { OnOk result (deidentifying.GoesOn options.now place.old place.new (map value_byte bytes.now)) }
{
    put_plain(place, Token::Bytes(bytes), sink)?;
    place.go_on(options, Token::Bytes(bytes));
    Ok(())
}

/// Passes on what the end of a value becomes, and goes on after it.
#[inline(never)]
fn pass_on_value_end<S: Sink>(
    options: &Options,
    key: &UidKey,
    place: &mut Deidentifier,
    sink: &mut S,
) -> Result<(), WriteFailed>
    ensures took { sinks.Took S.Sink sink.old sink.new
        (deidentifying.passed_of options.now key.now.bytes.now place.old (closes_leaf ∷ [])) result }
    ensures state { OnOk result (deidentifying.GoesOn options.now place.old place.new (closes_leaf ∷ [])) }
{
    put_value_end(options, key, place, sink)?;
    place.go_on(options, Token::CloseLeaf);
    Ok(())
}

/// Passes on what the head of an item becomes, and goes on after it.
#[inline(never)]
fn pass_on_item<S: Sink>(
    options: &Options,
    place: &mut Deidentifier,
    length: Length,
    sink: &mut S,
) -> Result<(), WriteFailed>
    ensures took { (key : List ℕ) → sinks.Took S.Sink sink.old sink.new
        (deidentifying.passed_of options.now key place.old (opens_item length ∷ [])) result }
    ensures state { OnOk result (deidentifying.GoesOn options.now place.old place.new (opens_item length ∷ [])) }
{
    put_item(place, sink)?;
    place.go_on(options, Token::OpenItem(length));
    Ok(())
}

/// Passes on what the end of an item becomes, and goes on after it.
#[inline(never)]
fn pass_on_item_end<S: Sink>(
    options: &Options,
    place: &mut Deidentifier,
    sink: &mut S,
) -> Result<(), WriteFailed>
    ensures took { (key : List ℕ) → sinks.Took S.Sink sink.old sink.new
        (deidentifying.passed_of options.now key place.old (closes_item ∷ [])) result }
    ensures state { OnOk result (deidentifying.GoesOn options.now place.old place.new (closes_item ∷ [])) }
{
    put_plain(place, Token::CloseItem, sink)?;
    place.go_on(options, Token::CloseItem);
    Ok(())
}

/// Passes on what the end of a sequence or a fragment list becomes, and goes on after it.
#[inline(never)]
fn pass_on_sequence_end<S: Sink>(
    options: &Options,
    place: &mut Deidentifier,
    sink: &mut S,
) -> Result<(), WriteFailed>
    ensures took { (key : List ℕ) → sinks.Took S.Sink sink.old sink.new
        (deidentifying.passed_of options.now key place.old (closes_sequence ∷ [])) result }
    ensures state { OnOk result (deidentifying.GoesOn options.now place.old place.new (closes_sequence ∷ [])) }
{
    put_plain(place, Token::CloseSeq, sink)?;
    place.go_on(options, Token::CloseSeq);
    Ok(())
}

/// Passes on what the head of a fragment becomes, and goes on after it.
#[inline(never)]
fn pass_on_fragment<S: Sink>(
    options: &Options,
    place: &mut Deidentifier,
    size: u32,
    sink: &mut S,
) -> Result<(), WriteFailed>
    ensures took { (key : List ℕ) → sinks.Took S.Sink sink.old sink.new
        (deidentifying.passed_of options.now key place.old (opens_fragment size ∷ [])) result }
    ensures state { OnOk result (deidentifying.GoesOn options.now place.old place.new (opens_fragment size ∷ [])) }
{
    put_plain(place, Token::OpenFragment(size), sink)?;
    place.go_on(options, Token::OpenFragment(size));
    Ok(())
}

/// Passes on what the end of a data set becomes, and goes on after it.
#[inline(never)]
fn pass_on_end<S: Sink>(
    options: &Options,
    place: &mut Deidentifier,
    sink: &mut S,
) -> Result<(), WriteFailed>
    ensures took { (key : List ℕ) → sinks.Took S.Sink sink.old sink.new
        (deidentifying.passed_of options.now key place.old (ends ∷ [])) result }
    ensures state { OnOk result (deidentifying.GoesOn options.now place.old place.new (ends ∷ [])) }
{
    put_end(options, place, sink)?;
    place.go_on(options, Token::End);
    Ok(())
}

/// Passes on what a token becomes, and goes on after it. It is taken apart where it is made, so that no token is stored
/// and loaded again, and each kind has a short way of its own. The calls are not inlined: what is around stays small.
#[inline(always)]
pub fn pass_on<S: Sink>(
    options: &Options,
    key: &UidKey,
    place: &mut Deidentifier,
    token: Token,
    sink: &mut S,
) -> Result<(), WriteFailed>
    requires filled { IsFilled token }
    ensures took { sinks.Took S.Sink sink.old sink.new
        (deidentifying.passed_of options.now key.now.bytes.now place.old (atoms_of token.entry)) result }
    ensures state { OnOk result (deidentifying.GoesOn options.now place.old place.new (atoms_of token.entry)) }
{
    match token {
        Token::Open(head, syntax) => pass_on_head(options, place, head, syntax, sink),
        Token::Bytes(bytes) => pass_on_bytes(options, place, bytes, sink),
        Token::CloseLeaf => pass_on_value_end(options, key, place, sink),
        Token::OpenItem(length) => pass_on_item(options, place, length, sink),
        Token::CloseItem => pass_on_item_end(options, place, sink),
        Token::CloseSeq => pass_on_sequence_end(options, place, sink),
        Token::OpenFragment(size) => pass_on_fragment(options, place, size, sink),
        Token::End => pass_on_end(options, place, sink),
    }
}
