// The elements that say what was done, put where they belong.
ghost use Rattle.std.specs.Prelude.{◌≡◌, ◌<◌, ◌^◌, length};
ghost use Rattle.dcm_deid.specs.DeidentifySink as spec;
ghost use Rattle.dcm_deid.specs.Fate.{are_left};
ghost use Rattle.dcm_deid.specs.Saying as saying;
ghost use Rattle.dcm_stream.specs.Sinks as sinks;
ghost use Rattle.dcm_stream.specs.Tokens.{leaf_atoms};

use crate::fate::{Options, Temporal};
use dcm_base::{Length, Syntax, Tag, Vr, WriteFailed};
use dcm_head::Head;
use dcm_stream::{Sink, Token, take_all};

/// PatientIdentityRemoved.
pub const IS_REMOVED: Tag = Tag {
    group: 0x0012,
    element: 0x0062,
};

/// DeidentificationMethod.
pub const METHOD: Tag = Tag {
    group: 0x0012,
    element: 0x0063,
};

/// DeidentificationMethodCodeSequence.
pub const METHOD_CODES: Tag = Tag {
    group: 0x0012,
    element: 0x0064,
};

/// LongitudinalTemporalInformationModified.
pub const DATES: Tag = Tag {
    group: 0x0028,
    element: 0x0303,
};

/// CodeValue.
const CODE_VALUE: Tag = Tag {
    group: 0x0008,
    element: 0x0100,
};

/// CodingSchemeDesignator.
const CODE_SCHEME: Tag = Tag {
    group: 0x0008,
    element: 0x0102,
};

/// CodeMeaning.
const CODE_MEANING: Tag = Tag {
    group: 0x0008,
    element: 0x0104,
};

/// A place in the outermost data set: behind the element of one tag and before that of another, if there are such
/// elements.
#[derive(Clone, Copy)]
pub struct Gap {
    pub last: Option<Tag>,
    pub next: Option<Tag>,
}

/// Whether the element that says what became of dates was there, and stays.
fn is_there(options: &Options, last: Tag, tag: Tag) -> bool
    ensures { result ≡ spec.is_there options.now last tag }
{
    options.dates.are_full() && tag == DATES && last == DATES
}

/// Whether an element of this tag, which the data set lacks, is put in a gap.
fn is_due(options: &Options, gap: Gap, tag: Tag) -> bool
    ensures { result ≡ spec.is_due options.now gap.last gap.next tag }
{
    let is_after = match gap.last {
        Some(last) => !tag.is_below(last) && !is_there(options, last, tag),
        None => true,
    };
    let is_before = match gap.next {
        Some(next) => tag.is_below(next),
        None => true,
    };
    is_after && is_before
}

/// Passes on an element with a whole value.
#[inline(never)]
pub fn put_leaf<S: Sink>(tag: Tag, vr: Vr, value: &[u8], sink: &mut S) -> Result<(), WriteFailed>
    requires { length value.now < 2 ^ 32 }
    ensures { sinks.Took S.Sink sink.old sink.new (leaf_atoms tag vr value.now) result }
{
    let tokens = Token::leaf(tag, vr, value);
    take_all(tokens.as_slice(), sink)
}

/// Passes on an item with a code and its meaning.
fn put_code<S: Sink>(code: &[u8], meaning: &[u8], sink: &mut S) -> Result<(), WriteFailed>
    requires code { length code.now < 2 ^ 32 }
    requires meaning { length meaning.now < 2 ^ 32 }
    ensures { sinks.Took S.Sink sink.old sink.new (spec.code_atoms code.now meaning.now) result }
{
    sink.take(Token::OpenItem(Length::Undefined))?;
    put_leaf(CODE_VALUE, Vr::SH, code, sink)?;
    put_leaf(CODE_SCHEME, Vr::SH, b"DCM", sink)?;
    put_leaf(CODE_MEANING, Vr::LO, meaning, sink)?;
    sink.take(Token::CloseItem)
}

/// The same of an option that is given.
fn put_code_if<S: Sink>(
    is_given: bool,
    code: &[u8],
    meaning: &[u8],
    sink: &mut S,
) -> Result<(), WriteFailed>
    requires code { length code.now < 2 ^ 32 }
    requires meaning { length meaning.now < 2 ^ 32 }
    ensures { sinks.Took S.Sink sink.old sink.new (spec.code_atoms_if is_given code.now meaning.now) result }
{
    if is_given {
        return put_code(code, meaning, sink);
    }
    Ok(())
}

/// The code of the option that keeps dates as they are, or moves them.
fn dates_code(dates: Temporal) -> &'static [u8]
    ensures code { result.now ≡ saying.dates_code dates }
    ensures short { length result.now < 2 ^ 32 }
{
    match dates {
        Temporal::Modified(_) => b"113107",
        Temporal::Removed | Temporal::Full => b"113106",
    }
}

/// Its meaning.
fn dates_meaning(dates: Temporal) -> &'static [u8]
    ensures meaning { result.now ≡ saying.dates_meaning dates }
    ensures short { length result.now < 2 ^ 32 }
{
    match dates {
        Temporal::Modified(_) => b"Retain Longitudinal Temporal Information Modified Dates Option",
        Temporal::Removed | Temporal::Full => {
            b"Retain Longitudinal Temporal Information Full Dates Option"
        }
    }
}

/// What became of dates.
fn dates_became(dates: Temporal) -> &'static [u8]
    ensures became { result.now ≡ saying.dates_became dates }
    ensures short { length result.now < 2 ^ 32 }
{
    match dates {
        Temporal::Removed => b"REMOVED",
        Temporal::Full => b"UNMODIFIED",
        Temporal::Modified(_) => b"MODIFIED",
    }
}

/// Passes on the item of the option that keeps dates as they are, or moves them, where one is given.
fn put_dates_code<S: Sink>(dates: Temporal, sink: &mut S) -> Result<(), WriteFailed>
    ensures { sinks.Took S.Sink sink.old sink.new
        (spec.code_atoms_if (are_left dates) (saying.dates_code dates) (saying.dates_meaning dates)) result }
{
    let is_given = dates.are_left();
    put_code_if(is_given, dates_code(dates), dates_meaning(dates), sink)
}

/// Passes on the items of the profile and of the options that are given.
fn put_codes<S: Sink>(options: &Options, sink: &mut S) -> Result<(), WriteFailed>
    ensures { sinks.Took S.Sink sink.old sink.new (spec.method_atoms options.now) result }
{
    put_code(
        b"113100",
        b"Basic Application Confidentiality Profile",
        sink,
    )?;
    put_dates_code(options.dates, sink)?;
    put_code_if(
        options.patient,
        b"113108",
        b"Retain Patient Characteristics Option",
        sink,
    )?;
    put_code_if(
        options.device,
        b"113109",
        b"Retain Device Identity Option",
        sink,
    )?;
    put_code_if(options.uids, b"113110", b"Retain UIDs Option", sink)?;
    put_code_if(
        options.institution,
        b"113112",
        b"Retain Institution Identity Option",
        sink,
    )
}

/// Passes on the sequence of the codes.
fn put_methods<S: Sink>(options: &Options, sink: &mut S) -> Result<(), WriteFailed>
    ensures { sinks.Took S.Sink sink.old sink.new (spec.methods_said options.now) result }
{
    let head = Head {
        tag: METHOD_CODES,
        vr: Vr::SQ,
        length: Length::Undefined,
    };
    sink.take(Token::Open(head, Syntax::LITTLE))?;
    put_codes(options, sink)?;
    sink.take(Token::CloseSeq)
}

/// Passes on what says that the dates stayed, were moved, or went.
fn put_dates<S: Sink>(options: &Options, sink: &mut S) -> Result<(), WriteFailed>
    ensures { sinks.Took S.Sink sink.old sink.new (spec.dates_said options.now) result }
{
    put_leaf(DATES, Vr::CS, dates_became(options.dates), sink)
}

/// Passes on that identity was removed, where that is due.
fn put_removed_due<S: Sink>(options: &Options, gap: Gap, sink: &mut S) -> Result<(), WriteFailed>
    ensures { sinks.Took S.Sink sink.old sink.new (spec.removed_due options.now gap.last gap.next) result }
{
    if is_due(options, gap, IS_REMOVED) {
        return put_leaf(IS_REMOVED, Vr::CS, b"YES", sink);
    }
    Ok(())
}

/// Passes on by which method, where that is due.
fn put_method_due<S: Sink>(options: &Options, gap: Gap, sink: &mut S) -> Result<(), WriteFailed>
    ensures { sinks.Took S.Sink sink.old sink.new (spec.method_due options.now gap.last gap.next) result }
{
    if is_due(options, gap, METHOD) {
        return put_leaf(METHOD, Vr::LO, b"dcmtools dcmdeid, PS3.15 2021b", sink);
    }
    Ok(())
}

/// Passes on the codes of the method, where they are due.
fn put_codes_due<S: Sink>(options: &Options, gap: Gap, sink: &mut S) -> Result<(), WriteFailed>
    ensures { sinks.Took S.Sink sink.old sink.new (spec.codes_due options.now gap.last gap.next) result }
{
    if is_due(options, gap, METHOD_CODES) {
        return put_methods(options, sink);
    }
    Ok(())
}

/// Passes on what became of dates, where that is due.
fn put_dates_due<S: Sink>(options: &Options, gap: Gap, sink: &mut S) -> Result<(), WriteFailed>
    ensures { sinks.Took S.Sink sink.old sink.new (spec.dates_due options.now gap.last gap.next) result }
{
    if is_due(options, gap, DATES) {
        return put_dates(options, sink);
    }
    Ok(())
}

/// Passes on the elements that record the de-identification and belong into a gap of the outermost data set.
#[inline(never)]
pub fn put_said<S: Sink>(options: &Options, gap: Gap, sink: &mut S) -> Result<(), WriteFailed>
    ensures { sinks.Took S.Sink sink.old sink.new (spec.said_between options.now gap.last gap.next) result }
{
    put_removed_due(options, gap, sink)?;
    put_method_due(options, gap, sink)?;
    put_codes_due(options, gap, sink)?;
    put_dates_due(options, gap, sink)
}
