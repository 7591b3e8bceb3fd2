//! Laws of the definitions. Each function takes nothing and makes no call: its contract is the law.
ghost use Rattle.dcm_deid_laws.specs.Laws.{DeidentifiedReads, DeidentifiedTwice, ReadsForDcmdeid, TakenIsGone};
ghost use Rattle.dcm_deid_laws.specs.Laws.{ThereAndBack};

/// The data set that dcmdeid writes is read again without fault, as its normal form, with either dictionary and by
/// dcmdeid itself.
///
/// - The input was read without fault.
/// - The output ends within the limit of an input.
pub fn deidentified_reads()
    ensures by_each { DeidentifiedReads }
    ensures for_dcmdeid { ReadsForDcmdeid }
{}

/// Whoever reads the output of dcmdeid finds nothing of what was removed, at any depth.
///
/// - Each element that is not kept has no value, a fixed value, or a new value, perhaps with a pad byte.
/// - Each element has a tag of the dictionary.
/// - The elements that record the de-identification are set aside.
pub fn written_is_clean()
    ensures { TakenIsGone }
{}

/// dcmdeid writes the same bytes again, if it runs on its own output with the same options.
///
/// - No new values are asked for: UIDs are retained, without pseudonyms and shifted dates.
pub fn deidentified_twice()
    ensures { DeidentifiedTwice }
{}

/// Dates that are shifted, shifted back and shifted again are written as they were after the first shift.
///
/// - No other new values are asked for.
/// - Each run reads what the run before wrote.
pub fn there_and_back()
    ensures { ThereAndBack }
{}
