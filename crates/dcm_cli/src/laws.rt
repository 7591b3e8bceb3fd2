//! Laws of the definitions. Each function takes nothing and makes no call: its contract is the law.
ghost use Rattle.dcm_cli.specs.Laws.{SureGrows};
ghost use Rattle.dcm_cli.specs.Answer.{Answer, Answers};
ghost use Rattle.dcm_cli.specs.InMemory.{Outcome, Comes};
ghost use Rattle.dcm_files.specs.declared.memory.MemSystem.{MemSystem};
ghost use Rattle.dcm_words.specs.Words as words;
ghost use Rattle.std.specs.Prelude.{◌≡◌, List, ℕ};

/// A tool has only one answer to an input: one output, one list of error lines, one status.
pub fn answers_one()
    ensures { (job : words.Job) (input : List ℕ) (a b : Answer) → Answers job input a → Answers job input b → a ≡ b }
{}

/// A tool has an answer to every input.
pub fn answers_some()
    ensures { (job : words.Job) (input : List ℕ) → (a : Answer) × Answers job input a }
{}

/// A command line has only one outcome over files in memory.
pub fn comes_one()
    ensures { (words : List (List ℕ)) (s : MemSystem) (a b : Outcome) → Comes words s a → Comes words s b → a ≡ b }
{}

/// A command line has an outcome over files in memory, whatever the files hold.
pub fn comes_some()
    ensures { (words : List (List ℕ)) (s : MemSystem) → (o : Outcome) × Comes words s o }
{}

/// What a tool writes before its input has ended is a beginning of the final output, whatever follows in the input.
///
/// - The edits are those that some command line means.
pub fn sure_grows()
    ensures { SureGrows }
{}
