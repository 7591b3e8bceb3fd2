// What a head leads to: a fault, the want of more bytes, or what it opens or closes.
ghost use Rattle.std.specs.Prelude.{◌≡◌, ◌+◌, ◌≤◌, ◌∷◌, [], length, false, option_map, IfSome, IfOk};
ghost use Rattle.dcm_stream.specs.Places.{innermost};
ghost use Rattle.dcm_base.specs.Reading.Place as place;
ghost use Rattle.dcm_base.specs.Reading.Reads.{INPUT_LIMIT};
ghost use Rattle.dcm_base.specs.Bytes.Spelling as spelling;
ghost use Rattle.dcm_stream.specs.Judging as spec;

use super::levels::{OpenLevels, is_allowed, opens_list, passes, with_length};
use super::sign::says_sign;
use super::{Bar, Sink};
use dcm_base::{
    Container, Fault, Form, ITEM_GROUP, Length, Level, MOST_LISTS, Syntax, Vr, form_of, read_as,
};
use dcm_head::{Head, HeadRead, SHORT_HEAD, read_tag, read_tagged};

/// What a whole head opens or closes.
#[derive(Clone, Copy, Debug, PartialEq, Eq)]
pub enum Opening {
    /// An element with a value of so many bytes.
    Leaf(Head, Syntax, u32),
    /// An element with items.
    Sequence(Head, Syntax),
    /// An element with fragments.
    FragmentList(Head, Syntax),
    /// An item of a sequence, with elements in this syntax.
    Item(Syntax, Length),
    /// An item of a fragment list, of so many bytes.
    Fragment(u32),
    /// The end of the innermost container.
    End(Container),
}

/// What bytes lead to where a head is to come.
#[derive(Clone, Copy, Debug, PartialEq, Eq)]
pub enum Judged {
    /// More bytes are wanted.
    More,
    /// They begin with a head of so many bytes.
    Opens(Opening, usize),
    /// The head is refused.
    Refused(Fault),
}

/// The representation of PixelRepresentation where it opens that.
#[inline(always)]
pub fn opening_sign(opening: Opening) -> Option<Vr>
    ensures { option_map (λ vr. record { vr = vr; first = [] }) result ≡ spec.opened_sign opening }
{
    match opening {
        Opening::Leaf(head, _, _) if says_sign(head.tag) => Some(head.vr),
        _ => None,
    }
}

/// The syntax of what a sequence holds: one that is spelled as UN holds implicit heads, read by the same dictionary
/// (PS3.5 6.2.2).
#[tactic(auto, unfolding(dcm_base::specs::Bytes::Spelling::inside))]
pub fn syntax_inside(syntax: Syntax, vr: Vr) -> Syntax
    ensures { result ≡ spelling.inside syntax vr }
{
    if vr == Vr::UN {
        Syntax::Implicit(syntax.dictionary())
    } else {
        syntax
    }
}

/// What an element opens, or nothing where its length may not be undefined.
fn element_opening(form: Form, syntax: Syntax, head: Head) -> Option<Opening>
    requires { form ≡ spec.head_form syntax head }
    ensures opens { spec.OpensElement form syntax head result }
    ensures sized { IfSome result spec.IsSized }
{
    match (form, head.length) {
        (Form::Value, Length::Known(size)) => Some(Opening::Leaf(head, syntax, size)),
        (Form::Sequence, _) => Some(Opening::Sequence(head, syntax)),
        (Form::FragmentList, _) => Some(Opening::FragmentList(head, syntax)),
        (Form::Value, Length::Undefined) | (Form::Nothing, _) => None,
    }
}

/// What an element with this head of so many bytes opens, or why it is refused, but for the sink's bars.
#[inline(always)]
fn judge_shape(
    syntax: Syntax,
    head: Head,
    size: u64,
    position: u64,
    levels: &OpenLevels,
) -> Result<Opening, Fault>
    requires { size ≤ INPUT_LIMIT }
    ensures judges { spec.JudgesShape syntax head size (place.room position levels.now) (place.depth levels.now)
        result }
    ensures sized { IfOk result spec.IsSized }
{
    let room = levels.room(position);
    if passes(size, room) {
        return Err(Fault::PassesEnd);
    }
    let form = form_of(syntax, read_as(syntax, head.tag, head.vr), head.length);
    let Some(opening) = element_opening(form, syntax, head) else {
        return Err(Fault::UndefinedLength);
    };
    if passes(with_length(size, head.length), room) {
        return Err(Fault::PassesEnd);
    }
    if opens_list(form) && levels.depth() >= MOST_LISTS {
        return Err(Fault::TooDeep);
    }
    Ok(opening)
}

fn barred(bar: Bar) -> Fault
    ensures { result ≡ spec.fault_of bar }
{
    match bar {
        Bar::Order => Fault::NotAscending,
        Bar::Fragments => Fault::FragmentsBarred,
        Bar::Identity => Fault::IdentityStays,
        Bar::Patient => Fault::NoPatientId,
    }
}

/// What an element with this head of so many bytes opens, or why it is refused.
#[inline(always)]
fn judge_element<S: Sink>(
    syntax: Syntax,
    levels: &OpenLevels,
    position: u64,
    head: Head,
    size: u64,
    sink: &S,
) -> Result<Opening, Fault>
    requires { size ≤ INPUT_LIMIT }
    ensures judges { spec.JudgesElement (spec.bars_head S.bar (S.state sink.now)) syntax levels.now position head size
        result }
    ensures sized { IfOk result spec.IsSized }
{
    let opening = judge_shape(syntax, head, size, position, levels)?;
    if let Err(bar) = sink.accepts(&head) {
        return Err(barred(bar));
    }
    Ok(opening)
}

/// What an item in this container opens, or nothing where its length may not be undefined.
fn item_opening(inner: Level, declared: Length) -> Option<Opening>
    ensures opens { spec.OpensItem inner declared result }
    ensures sized { IfSome result spec.IsSized }
{
    if inner.container != Container::FragmentList {
        return Some(Opening::Item(inner.syntax, declared));
    }
    match declared {
        Length::Known(size) => Some(Opening::Fragment(size)),
        Length::Undefined => None,
    }
}

/// What an item of this length opens, or why it is refused.
fn judge_item(inner: Level, declared: Length, room: Option<u64>) -> Result<Opening, Fault>
    ensures judges { spec.JudgesItem inner declared room result }
    ensures sized { IfOk result spec.IsSized }
{
    let Some(opening) = item_opening(inner, declared) else {
        return Err(Fault::UndefinedLength);
    };
    if passes(with_length(SHORT_HEAD as u64, declared), room) {
        return Err(Fault::PassesEnd);
    }
    Ok(opening)
}

/// What a head of so many bytes opens or closes, or why it is refused, where this is the innermost container.
#[inline(always)]
pub fn judge_head<S: Sink>(
    inner: Level,
    levels: &OpenLevels,
    position: u64,
    head: Head,
    size: u64,
    sink: &S,
) -> Result<Opening, Fault>
    requires { size ≤ INPUT_LIMIT }
    ensures judges { spec.JudgesHead (spec.bars_head S.bar (S.state sink.now)) inner levels.now position head size
        result }
    ensures sized { IfOk result spec.IsSized }
{
    if head.tag.group != ITEM_GROUP {
        return judge_element(inner.syntax, levels, position, head, size, sink);
    }
    if head.tag.is_item() {
        return judge_item(inner, head.length, levels.room(position));
    }
    Ok(Opening::End(inner.container))
}

/// What the bytes mean at a place where a head may come. There is room for the shortest head, and the innermost
/// container is given.
#[inline(always)]
pub fn judge<S: Sink>(
    inner: Level,
    levels: &OpenLevels,
    position: u64,
    bytes: &[u8],
    sink: &S,
) -> Judged
    requires eight { 8 ≤ length bytes.now }
    requires within { position + length bytes.now ≤ INPUT_LIMIT }
    requires inner { innermost levels.now ≡ Some inner }
    requires room { place.passes 8 (place.room position levels.now) ≡ false }
    ensures judges { spec.Judges (spec.bars_head S.bar (S.state sink.now)) inner levels.now position bytes.now result }
    ensures sized { spec.OpensSized result }
{
    let tag = read_tag(inner.syntax, bytes);
    if !is_allowed(inner.container, inner.declared, tag) {
        return Judged::Refused(Fault::TagNotAllowed);
    }
    let (head, size) = match read_tagged(inner.syntax, tag, bytes) {
        HeadRead::BadVr => return Judged::Refused(Fault::UnknownRepresentation),
        HeadRead::More(size) if passes(size as u64, levels.room(position)) => {
            return Judged::Refused(Fault::PassesEnd);
        }
        HeadRead::More(_) => return Judged::More,
        HeadRead::Done(head, size) => (head, size),
    };
    match judge_head(inner, levels, position, head, size as u64, sink) {
        Ok(opening) => Judged::Opens(opening, size),
        Err(fault) => Judged::Refused(fault),
    }
}
