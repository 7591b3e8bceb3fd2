//! Laws of the definitions. Each function takes nothing and makes no call: its contract is the law.
ghost use Rattle.std.specs.Prelude.{ℕ, List};
ghost use Rattle.dcm_base.specs.Reading.Bars.{target_bar};
ghost use Rattle.dcm_base.specs.declared.syntax.Coding.{Coding};
ghost use Rattle.dcm_base.specs.File.MetaReads.{Meta};
ghost use Rattle.dcm_base.specs.declared.syntax.Syntax.{Syntax};
ghost use Rattle.dcm_stream.specs.Driven.{bars_by};
ghost use Rattle.dcm_stream.specs.Follows.{BarsAs};
ghost use Rattle.dcm_sinks.specs.DecodedLaws.{DecodedDumpsShown, DecodedDumpsWhole, DecodedDumpsSoFar};
ghost use Rattle.dcm_sinks.specs.DecodedLaws.{DecodedOfAscii, DecodedOfLow, UnknownShown, UnknownWhole, UnknownSoFar};
ghost use Rattle.dcm_sinks.specs.EncodeSink.{encode_bar, encode_start, encode_step};
ghost use Rattle.dcm_sinks.specs.Laws.{DumpsShown, DumpsWhole, DumpsSoFar, EncodesShown, EncodesWhole, EncodesSoFar};
ghost use Rattle.dcm_sinks.specs.Laws.{ReadsBack, ChangesNothingAgain, NewMetaReads};
ghost use Rattle.dcm_sinks.specs.MetaAgain.{ReadsRenewed, Renews};

/// The dump sink writes the dump of the data set, also where reading stops at a fault.
///
/// - No more than 64 sequences and fragment lists are open at a time.
pub fn dump_steps()
    ensures { DumpsShown }
{}

/// dcmdump writes the dump of the bytes that are read, also while the input still comes.
pub fn dump_reads()
    ensures whole { DumpsWhole }
    ensures so_far { DumpsSoFar }
{}

/// The sink of `+u8` writes the dump with the texts decoded by Specific Character Set, also where reading stops at a
/// fault.
///
/// - No more than 64 sequences and fragment lists are open at a time.
pub fn decoded_dump_steps()
    ensures { DecodedDumpsShown }
{}

/// `dcmdump +u8` writes the decoded dump of the bytes that are read, also while the input still comes.
pub fn decoded_dump_reads()
    ensures whole { DecodedDumpsWhole }
    ensures so_far { DecodedDumpsSoFar }
{}

/// The sink of `+u8` knows whether a whole value of Specific Character Set, at any depth, names an unknown character
/// set.
///
/// - This holds after a whole input, after a part of an input, and where reading stops at a fault.
pub fn unknown_told()
    ensures shown { UnknownShown }
    ensures whole { UnknownWhole }
    ensures so_far { UnknownSoFar }
{}

/// With `+u8` a data set of ASCII texts has the same dump as without `+u8`.
///
/// - No text has an ESC, or none where Specific Character Set allows code extensions.
pub fn decoded_dump_of_ascii()
    ensures by_sets { DecodedOfAscii }
    ensures without_esc { DecodedOfLow }
{}

/// The sink of a conversion writes the data set in the target syntax, also where reading stops at a fault.
///
/// - No more than 64 sequences and fragment lists are open at a time.
pub fn encode_steps()
    ensures { EncodesShown }
{}

/// dcmconv writes the data set of the bytes that are read in the target syntax, also while the input still comes.
pub fn encode_reads()
    ensures whole { EncodesWhole }
    ensures so_far { EncodesSoFar }
{}

/// A conversion refuses exactly the fragment lists for which the target syntax has no place.
pub fn encode_bars()
    ensures { (target : Syntax) → BarsAs (bars_by encode_bar encode_step (encode_start target)) (target_bar target) }
{}

/// A converted data set is read again without fault, as its normal form.
///
/// - The data set was read without fault, and ends within the limit of an input.
/// - The dictionary of the target tells its values from its sequences.
pub fn recode_reads()
    ensures { ReadsBack }
{}

/// Converting a converted data set to the same syntax again changes nothing.
///
/// - The conditions are those of `recode_reads`.
pub fn recode_twice()
    ensures { ChangesNothingAgain }
{}

/// A new meta group is read again without fault: the same preamble, and the old elements with the new length and
/// transfer syntax.
///
/// - The meta group has at most 16,384 bytes.
/// - The bytes behind it do not continue the group.
/// - If the transfer syntax is the old one, the data set is read as before.
pub fn new_meta_reads()
    ensures any { NewMetaReads }
    ensures own { (file set : List ℕ) (m : Meta) (coding : Coding) → Renews file m coding m.uid set
        → ReadsRenewed m m.uid set coding }
{}
