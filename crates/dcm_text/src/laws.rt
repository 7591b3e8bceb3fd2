//! Laws of the definitions. Each function takes nothing and makes no call: its contract is the law.
ghost use Rattle.std.specs.Prelude.{◌≡◌, ◌++◌, ◌*◌, ◌==◌, ◌||◌, ◌≤◌, ℕ, Bool, Some, true, false, List, length, map, flat_map, codes};
ghost use Rattle.std.specs.Prelude.{encode_utf8_all, IsUtf8};
ghost use Rattle.std.specs.List.{concat, list_all};
ghost use Rattle.std.specs.Str.{all_scalars};
ghost use Rattle.dcm_text.specs.Characters.{single_character};
ghost use Rattle.dcm_text.specs.declared.characters.Single.{Single};
ghost use Rattle.dcm_text.specs.declared.set.TextKind.{TextKind};
ghost use Rattle.dcm_text.specs.declared.sets.Sets.{Sets};
ghost use Rattle.dcm_text.specs.Sets.{sets_of, place, has_flag, with_flag};
ghost use Rattle.dcm_text.specs.declared.set.Set.{Set};
ghost use Rattle.dcm_text.specs.Decoding.{decoded};
ghost use Rattle.dcm_text.specs.Within.{StandsWithinBrackets};
ghost use Rattle.dcm_text.specs.Laws.{IsUtf8InForce, is_plain, as_itself, ascii_dumped, encoded, is_byte};
ghost use Rattle.dcm_text.specs.Runs.{State, begun, joined, run, run_pieces};
ghost use Rattle.dcm_text.specs.Shown.{dumped, cell, is_dumped};

/// Decoding a text loses no byte: the bytes of the decoded pieces, in order, are the text.
pub fn nothing_is_lost()
    ensures { (sets : Sets) (kind : TextKind) (text : List ℕ) → flat_map (λ p. p.0) (decoded sets kind text) ≡ text }
{}

/// A text that comes in pieces is decoded as the whole text.
pub fn pieces_do_not_matter()
    ensures whole { (sets : Sets) (kind : TextKind) (pieces : List (List ℕ))
        → (run_pieces (begun sets kind) pieces).0 ≡ decoded sets kind (concat pieces) }
    ensures two { (at_end : Bool) (state : State) (piece more : List ℕ)
        → run at_end state (piece ++ more) ≡ joined (run false state piece) (run at_end (run false state piece).1
        more) }
{}

/// A text of ASCII is decoded to itself, whatever character set is in force.
///
/// - The text has no escape sequence that designates a character set.
pub fn ascii_as_before()
    ensures pieces { (sets : Sets) (kind : TextKind) (text : List ℕ) → list_all (is_plain sets) text ≡ true
        → decoded sets kind text ≡ map as_itself text }
    ensures dumped { (sets : Sets) (kind : TextKind) (text : List ℕ) → list_all (is_plain sets) text ≡ true
        → dumped sets kind text ≡ flat_map ascii_dumped text }
    ensures cell { (sets : Sets) (kind : TextKind) (text : List ℕ) → list_all (is_plain sets) text ≡ true
        → cell sets kind text ≡ text }
{}

/// A text in UTF-8 is decoded to its own characters under ISO_IR 192.
pub fn utf8_as_it_is()
    ensures named { IsUtf8InForce (sets_of (codes "ISO_IR 192")) }
    ensures characters { (sets : Sets) (kind : TextKind) (text : List ℕ) → IsUtf8InForce sets → all_scalars text ≡ true
        → decoded sets kind (encode_utf8_all text) ≡ map encoded text }
    ensures dumped { (sets : Sets) (kind : TextKind) (text : List ℕ) → IsUtf8InForce sets → all_scalars text ≡ true
        → list_all is_dumped text ≡ true → dumped sets kind (encode_utf8_all text) ≡ encode_utf8_all text }
    ensures cell { (sets : Sets) (kind : TextKind) (text : List ℕ) → IsUtf8InForce sets → all_scalars text ≡ true
        → cell sets kind (encode_utf8_all text) ≡ encode_utf8_all text }
{}

/// Naming one more character set adds this set, and no other, to those that are named.
pub fn each_set_is_kept()
    ensures { (flags : ℕ) (named other : Set) → has_flag (with_flag flags named) other
        ≡ ((place named == place other) || has_flag flags other) }
{}

/// In a set of one byte for each character, no two bytes are the same character.
pub fn one_to_one()
    ensures { (single : Single) (a b character : ℕ) → single_character single a ≡ Some character
        → single_character single b ≡ Some character → a ≡ b }
{}

/// What a dump and a cell show of a text is valid UTF-8, whatever character set is in force.
pub fn shown_is_utf8()
    ensures dumped { (sets : Sets) (kind : TextKind) (text : List ℕ) → list_all is_byte text ≡ true
        → IsUtf8 (dumped sets kind text) }
    ensures cell { (sets : Sets) (kind : TextKind) (text : List ℕ) → list_all is_byte text ≡ true
        → IsUtf8 (cell sets kind text) }
{}

/// A display has no line break, no `]` and no hidden character, whatever character set is in force.
pub fn display_is_plain()
    ensures { (sets : Sets) (kind : TextKind) (text : List ℕ) → list_all is_byte text ≡ true
        → StandsWithinBrackets (dumped sets kind text) }
{}

/// A dump shows at most three bytes for each byte of a text.
pub fn shown_is_not_long()
    ensures { (sets : Sets) (kind : TextKind) (text : List ℕ) → length (dumped sets kind text) ≤ 3 * length text }
{}
