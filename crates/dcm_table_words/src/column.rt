// A column of a table.
ghost use Rattle.std.specs.Prelude.{◌≡◌, length, true};
ghost use Rattle.dcm_edits.specs.TagWords.{begins_number};
ghost use Rattle.dcm_table_words.specs.declared.column.TheConstants.{NUMBER_SIZE};
ghost use Rattle.dcm_table_words.specs.Table as spec;
ghost use Rattle.dcm_table_words.specs.Columns.{ColumnAs};

use dcm_base::{EditRefusal, Tag};
use dcm_edits::tag_named;

/// The bytes of a number `(gggg,eeee)`.
pub const NUMBER_SIZE: usize = 11;

/// A column: the tag whose values it shows, and the number by which it was given, where it was not by a keyword.
#[derive(Clone, Copy, Debug, PartialEq, Eq)]
pub struct TableColumn {
    pub tag: Tag,
    pub number: Option<[u8; NUMBER_SIZE]>,
}

impl Default for TableColumn {
    fn default() -> TableColumn {
        TableColumn {
            tag: Tag::ITEM,
            number: None,
        }
    }
}

/// The number by which a word names a tag, where it does not name it by a keyword.
fn number_of(word: &[u8]) -> Option<[u8; NUMBER_SIZE]>
    requires { begins_number word.now ≡ true → length word.now ≡ NUMBER_SIZE }
    ensures { result ≡ spec.number_of word.now }
{
    match word {
        [b'(', ..] => {
            let (number, _) = word.split_first_chunk()?;
            Some(*number)
        }
        _ => None,
    }
}

/// The column that a word means.
pub fn column_of(word: &[u8]) -> Result<TableColumn, EditRefusal>
    ensures { ColumnAs result (spec.column_of word.now) }
{
    let tag = tag_named(word)?;
    Ok(TableColumn {
        tag,
        number: number_of(word),
    })
}
