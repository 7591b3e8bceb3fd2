//! Laws of the definitions. Each function takes nothing and makes no call: its contract is the law.
ghost use Rattle.dcm_base.specs.declared.tag.Tag.{Tag};
ghost use Rattle.dcm_stream.specs.Follows.{BarsAs};
ghost use Rattle.dcm_table.specs.Laws.{AsciiAsBefore, MetaSetsNothing, MetaSettles, MetaSteps, RowIsValid, RowSteps};
ghost use Rattle.dcm_table.specs.Laws.{TableBarSteps, Utf8AsBefore, Utf8AsItIs};
ghost use Rattle.dcm_table.specs.Shown.{table_bar, tabled};

/// After the meta group, each cell has the first value of its tag.
///
/// - The meta group sets no character set.
pub fn meta_steps()
    ensures steps { MetaSteps }
    ensures settles { MetaSettles }
    ensures sets { MetaSetsNothing }
{}

/// After a data set, each cell has the first value of its tag at the outermost level, decoded by the character set in
/// force.
///
/// - This holds where reading stops at a fault too.
/// - The cells know whether an outermost Specific Character Set names an unknown character set.
pub fn row_steps()
    ensures { RowSteps }
{}

/// The sink of a row ends the reading exactly at the first outermost tag above all columns.
pub fn table_bar_steps()
    ensures { TableBarSteps }
{}

/// The atoms so far say which heads are outermost and above the greatest column.
pub fn table_by_atoms()
    ensures { (greatest : Tag) → BarsAs (tabled greatest) (table_bar greatest) }
{}

/// A row is valid UTF-8.
///
/// - Texts are decoded (without `+by`).
pub fn row_is_valid()
    ensures { RowIsValid }
{}

/// A cell of ASCII text is the same with and without decoding.
///
/// - The text has no escape sequence that designates a character set.
pub fn ascii_as_before()
    ensures { AsciiAsBefore }
{}

/// A cell of a file in UTF-8 is the same with and without decoding, also where bytes are not UTF-8.
pub fn utf8_as_it_is()
    ensures valid { Utf8AsItIs }
    ensures any { Utf8AsBefore }
{}
