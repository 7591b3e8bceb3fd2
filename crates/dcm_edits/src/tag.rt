// The tag that a word names.
ghost use Rattle.std.specs.Prelude.{◌≡◌};
ghost use Rattle.dcm_edits.specs.TagWords as spec;

use dcm_base::{Dictionary, EditRefusal, Tag, ambiguous_tag, tag_in};
use dcm_value::tag_of_text;

/// The tag with the keyword, of the whole dictionary (PS3.6 section 6).
fn tag_called(keyword: &[u8]) -> Option<Tag>
    ensures { result ≡ spec.tag_called keyword.now }
{
    match tag_in(Dictionary::Standard, keyword) {
        Some(tag) => Some(tag),
        None => ambiguous_tag(keyword),
    }
}

/// The tag that a word names alone: by a number `(gggg,eeee)` of any tag, or by a keyword of the whole dictionary.
/// `BadOption` is an empty word, or one that begins as a number and is none, and `UnknownTag` an unknown keyword.
pub fn tag_named(word: &[u8]) -> Result<Tag, EditRefusal>
    ensures { result ≡ spec.tag_named word.now }
{
    match word {
        [] => Err(EditRefusal::BadOption),
        [b'(', ..] => tag_of_text(word).ok_or(EditRefusal::BadOption),
        _ => tag_called(word).ok_or(EditRefusal::UnknownTag),
    }
}
