//! Laws of the definitions. Each function takes nothing and makes no call: its contract is the law.
ghost use Rattle.dcm_sound.specs.Laws.{BuildsSound, ConvertsSound, DoneIsSound, DumpsSetAlone, DumpsSound, EditsSound};

/// dcmdump shows a sound file as a whole, reports nothing, and ends with status 0.
///
/// - The same holds of a data set alone.
pub fn dumps_sound()
    ensures file { DumpsSound }
    ensures alone { DumpsSetAlone }
{}

/// If dcmdump ends with status 0, the file is sound: elements spell all its bytes.
pub fn done_is_sound()
    ensures { DoneIsSound }
{}

/// dcmconv writes a sound file in the target syntax as a whole, reports nothing, and ends with status 0.
///
/// - The target syntax can hold the data set.
pub fn converts_sound()
    ensures { ConvertsSound }
{}

/// dcmodify writes a sound file with the edits as a whole, and its status says whether an edit found no place.
///
/// - The tags of each data set ascend.
pub fn edits_sound()
    ensures { EditsSound }
{}

/// dump2dcm builds from the full dump of a sound file what `dcmconv +t=` writes of the file, but for the preamble, and
/// ends with status 0.
///
/// - The values are of whole units, and the tags of each data set ascend.
/// - No line of the dump is longer than the limit.
pub fn builds_sound()
    ensures { BuildsSound }
{}
