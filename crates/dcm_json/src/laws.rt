// What is known of the texts that are written.
ghost use Rattle.dcm_json.specs.Laws as law;

/// A string that is written in pieces is the string of all pieces together.
pub fn strings_in_pieces()
    ensures { law.StringsInPieces }
{}

/// The values of a text that comes in pieces are the values of the whole text.
pub fn texts_in_pieces()
    ensures { law.TextsInPieces }
{}

/// The numbers and tags of a value that comes in pieces are those of the whole value.
pub fn numbers_in_pieces()
    ensures { law.NumbersInPieces }
{}

/// The base64 of bytes that come in pieces is the base64 of all of them together.
pub fn base64_in_pieces()
    ensures { law.Base64InPieces }
{}
