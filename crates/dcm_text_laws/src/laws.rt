//! Laws of the definitions. Each function takes nothing and makes no call: its contract is the law.
ghost use Rattle.dcm_text_laws.specs.Laws.{AnswerIsUtf8, DumpsAreUtf8, DumpsEndStands, DumpsSoFarAreUtf8, SureIsUtf8};
ghost use Rattle.dcm_text_laws.specs.Laws.{TableEndStands, TableIsUtf8, TableSoFarIsUtf8};
ghost use Rattle.dcm_text_laws.specs.Left.{DumpGrowsByUtf8, DumpsGrowByUtf8, HeaderIsUtf8, RowGrowsByUtf8};
ghost use Rattle.dcm_text_laws.specs.Left.{GivesBytes, TableGrowsByUtf8};
ghost use Rattle.dcm_tables.specs.OverStd.{std_reader};
ghost use Rattle.dcm_text_laws.specs.Vanishing.{NothingVanishes};
ghost use Rattle.dcm_text_laws.specs.ShownLines.{DisplayOfUtf8, LineOfAscii, LineOfAsciiAmongOthers, LineOfUtf8};

use dcm_base::DeviceOut;
use dcm_files::System;
use std::io::Read;

/// The output of `dcmdump +u8` is valid UTF-8, whatever the file holds, also while the input still comes.
pub fn dump_is_utf8()
    ensures answer { AnswerIsUtf8 }
    ensures sure { SureIsUtf8 }
{}

/// The output of `dcmdump +u8` of several files is valid UTF-8, with the names of the files.
///
/// - In memory: at each time, whatever could not be opened or read, as long as no writer failed.
/// - Over any system whose readers give bytes: the output grows by valid UTF-8 with each file, as long as the output
///   did not fail.
pub fn dumps_are_utf8<S: System, W: DeviceOut>()
    ensures all { DumpsAreUtf8 }
    ensures so_far { DumpsSoFarAreUtf8 }
    ensures end { DumpsEndStands }
    ensures left_of_one { DumpGrowsByUtf8 S.Input.DeviceIn W.DeviceOut }
    ensures left_of_all { DumpsGrowByUtf8 S.may_do S.Input.DeviceIn W.DeviceOut }
{}

/// The output of dcm2csv is valid UTF-8, with the names of the files.
///
/// - Texts are decoded (without `+by`).
/// - In memory: at each time, whatever could not be opened or read, as long as no writer failed.
/// - Over any system whose readers give bytes: the output grows by valid UTF-8 with the header and with each row, as
///   long as the output did not fail.
pub fn table_is_utf8<S: System, W: DeviceOut>()
    ensures all { TableIsUtf8 }
    ensures so_far { TableSoFarIsUtf8 }
    ensures end { TableEndStands }
    ensures header { HeaderIsUtf8 }
    ensures left_of_row { RowGrowsByUtf8 S.Input.DeviceIn W.DeviceOut }
    ensures left_of_all { TableGrowsByUtf8 S.may_do S.Input.DeviceIn W.DeviceOut }
{}

/// The readers of the program give bytes, so `dumps_are_utf8` and `table_is_utf8` hold of the program.
///
/// - The readers are those of the standard library.
pub fn program_gives_bytes<T: Read>()
    ensures { GivesBytes (std_reader T.remaining) }
{}

/// No byte of a text vanishes in a line of `dcmdump +u8` that shows the text in full.
///
/// - The text is made of the displayed characters, with each `%XX` undone, coded by the character set in force, and of the
///   escape sequences that the line leaves out.
pub fn nothing_vanishes()
    ensures { NothingVanishes }
{}

/// The line of an ASCII text is the same in a dump with and without `+u8`, and so is the line of a value that is no
/// text.
///
/// - The text has no escape sequence that designates a character set.
/// - This holds whatever character set is in force, and whatever else is in the data set.
pub fn ascii_lines_stay()
    ensures line { LineOfAscii }
    ensures among_others { LineOfAsciiAmongOthers }
{}

/// A text in UTF-8 is shown as its own characters, in brackets, where UTF-8 is in force.
///
/// - The text has no `%`, no `]` and no hidden character, and its VR is one that Specific Character Set is for.
/// - The pad byte is not shown. A full dump shows all else.
pub fn utf8_lines_are_as_they_are()
    ensures display { DisplayOfUtf8 }
    ensures line { LineOfUtf8 }
{}
