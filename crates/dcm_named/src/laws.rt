//! Laws of the definitions. Each function takes nothing and makes no call: its contract is the law.
ghost use Rattle.dcm_named.specs.Found.{AllAreFound, NoOtherLine, AsInTheDump, AllOfTheDump, AllOfTheFile};
ghost use Rattle.dcm_named.specs.Laws.{NamedShown, NamedWhole, NamedSoFar};

/// The filter of named elements writes the lines of what is named in the data set, also where reading stops at a fault.
///
/// - No more than 64 sequences and fragment lists are open at a time.
pub fn named_steps()
    ensures { NamedShown }
{}

/// `+P` writes the lines of what is named in the bytes that are read, also while the input still comes.
pub fn named_reads()
    ensures whole { NamedWhole }
    ensures so_far { NamedSoFar }
{}

/// Each element that is named is in a line of the output, at whatever depth the element stands.
///
/// - This holds of data sets that are cut off too.
pub fn all_are_found()
    ensures { AllAreFound }
{}

/// Each line of the output belongs to an element that is named, or to something within it, in the order of the data
/// set.
///
/// - With `+p` the way to the element stands before its first line.
/// - An element within a named sequence has no lines of its own besides those of the sequence.
pub fn no_other_line()
    ensures { NoOtherLine }
{}

/// The lines of a named element are those of the whole dump, with less indentation.
pub fn as_in_the_dump()
    ensures { AsInTheDump }
{}

/// If all outermost elements are named, the whole dump of the data set is written.
///
/// - Ways are not asked for.
pub fn all_of_the_dump()
    ensures { AllOfTheDump }
{}

/// If all elements of a file are named, the dump of the file is written without its header.
///
/// - The header is the lines that begin with `#`, and the empty lines.
/// - The outermost elements and those of the meta group are named, and ways are not asked for.
pub fn all_of_the_file()
    ensures { AllOfTheFile }
{}
