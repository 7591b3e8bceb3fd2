//! Laws of the definitions. Each function takes nothing and makes no call: its contract is the law.
ghost use Rattle.dcm_head.specs.Laws.{OneHead, DataSetBegins, GoesWhileUndecided, CallsRefuse};
ghost use Rattle.std.specs.Prelude.{◌≡◌, ◌↔◌, ◌++◌, ℕ, List, None, Some, fold};
ghost use Rattle.dcm_base.specs.declared.syntax.Syntax.{Syntax};
ghost use Rattle.dcm_head.specs.declared.head.Head.{Head};
ghost use Rattle.dcm_head.specs.declared.head.HeadRead.TheVariants.{Done, More, BadVr};
ghost use Rattle.dcm_base.specs.Bytes.Head.{HeadSpells};
ghost use Rattle.dcm_head.specs.HeadBytes.{HasSpelling, head_bytes};
ghost use Rattle.dcm_head.specs.HeadRead.{head_read, Begins, IsShort, HasBadVr};
ghost use Rattle.dcm_base.specs.File.MetaReads.{MetaAnswer, MetaReads};
ghost use Rattle.dcm_head.specs.declared.meta_read.MetaEnd.{MetaEnd};
ghost use Rattle.dcm_head.specs.MetaReading.{CallEnds, Reading, Says, at_start, meta_step, meta_finished};

/// The head of an element is read exactly where the bytes spell a head, more bytes are asked for exactly where bytes
/// are missing, and a VR is refused exactly where it is not two capitals.
pub fn heads_read()
    ensures done { (s : Syntax) (bytes : List ℕ) (head : Head) (size : ℕ)
        → (head_read s bytes ≡ Done head size) ↔ Begins s bytes head size }
    ensures more { (s : Syntax) (bytes : List ℕ) (size : ℕ) → (head_read s bytes ≡ More size) ↔ IsShort s bytes size }
    ensures bad { (s : Syntax) (bytes : List ℕ) → (head_read s bytes ≡ BadVr) ↔ HasBadVr s bytes }
{}

/// Bytes begin with at most one head of an element.
pub fn one_head()
    ensures { OneHead }
{}

/// The bytes that are written for a head spell this head.
pub fn heads_written()
    ensures { (s : Syntax) (head : Head) → HasSpelling s head
        → HeadSpells s head.tag head.vr head.length (head_bytes s head) }
{}

/// Reading the head of a file has only one result.
pub fn meta_reads_one()
    ensures { (file : List ℕ) (answer other : MetaAnswer) → MetaReads file answer → MetaReads file other
        → answer ≡ other }
{}

/// Reading the head of a file has a result, whatever the bytes are.
pub fn meta_reads()
    ensures { (file : List ℕ) → (answer : MetaAnswer) × MetaReads file answer }
{}

/// The data set begins right behind the meta group, also where the meta group ends within a piece.
pub fn data_set_begins()
    ensures { DataSetBegins }
{}

/// Reading the head of a file in pieces has the same result as reading the head at once, and ends as early as the bytes
/// allow.
///
/// - The reading goes on exactly while more bytes can change the result.
/// - A call ends with a fault exactly where this fault is the result.
pub fn meta_steps()
    ensures said { (file : List ℕ) (answer : MetaAnswer) → MetaReads file answer
        → Says (meta_finished (fold meta_step at_start file)) answer }
    ensures cuts { (r : Reading) (piece more : List ℕ) → fold meta_step r (piece ++ more)
        ≡ fold meta_step (fold meta_step r piece) more }
    ensures stays { (r : Reading) (end : MetaEnd) (piece : List ℕ) → r.end ≡ Some end → fold meta_step r piece ≡ r }
    ensures kept { (file : List ℕ) → (fold meta_step at_start file).end ≡ None → (fold meta_step at_start file).bytes
        ≡ file }
    ensures going { GoesWhileUndecided }
    ensures halts { (before piece : List ℕ) (answer : MetaAnswer) → MetaReads (before ++ piece) answer
        → CallEnds before piece answer }
    ensures fault { CallsRefuse }
{}
