//! What the clauses of this crate come to together. The functions do nothing.
ghost use Rattle.dcm_value.specs.DecodedLaws.{DecodedInPieces, DecodedWhole, DecodedCounts, DecodedSoFar};
ghost use Rattle.dcm_value.specs.DecodedLaws.{AsciiAsBefore, DecodedAsBefore, DecodedIsUtf8, SoFarIsUtf8};
ghost use Rattle.dcm_value.specs.Laws.{InPieces, ReadsBack, WholeText, WholeCount, TextSoFar};

/// A value that comes in pieces is shown and counted as the whole value.
pub fn text_steps()
    ensures pieces { InPieces }
    ensures whole { WholeText }
    ensures count { WholeCount }
    ensures so_far { TextSoFar }
{}

/// The text that shows a value is read as that value.
///
/// - The value has whole units. Its pad byte is not shown. SQ has no such text.
pub fn value_reads_back()
    ensures { ReadsBack }
{}

/// A value that comes in pieces is shown by characters, and counted, as the whole value.
pub fn decoded_text_steps()
    ensures pieces { DecodedInPieces }
    ensures whole { DecodedWhole }
    ensures count { DecodedCounts }
    ensures so_far { DecodedSoFar }
{}

/// A text of ASCII is shown and counted by characters as without them, whatever its pad byte.
///
/// - The text has no escape sequence that designates a character set.
pub fn ascii_as_before()
    ensures all { AsciiAsBefore }
    ensures unpadded { DecodedAsBefore }
{}

/// What is shown by characters is valid UTF-8, also of a value that is cut off or still open.
pub fn decoded_is_utf8()
    ensures whole { DecodedIsUtf8 }
    ensures so_far { SoFarIsUtf8 }
{}
