//! Laws of the definitions. Each function takes nothing and makes no call: its contract is the law.
ghost use Rattle.std.specs.Prelude.{◌≡◌, ◌↔◌, ℕ, List, None, fold};
ghost use Rattle.dcm_base.specs.Lines.Ascending.{Ascend};
ghost use Rattle.dcm_base.specs.declared.fault.LineStop.{LineStop};
ghost use Rattle.dcm_base.specs.Tree.Tree.{Trees};
ghost use Rattle.dcm_base.specs.declared.syntax.Coding.{Coding};
ghost use Rattle.dcm_build_laws.specs.Undecided.{CallRefuses, CallTells, Undecided};
ghost use Rattle.dcm_build.specs.Building.{build_start, build_step};
ghost use Rattle.dcm_build_laws.specs.Laws as laws;
ghost use Rattle.dcm_build_laws.specs.StepsBuild.{BuildAgain, MayStand};

/// A file that is built from lines in pieces is the file that all lines build together, and has the same fault.
///
/// - While the input still comes, what is written is what the lines that have ended build.
/// - A fault that was reported stays, whatever follows.
/// - A call ends the run exactly when the bytes so far decide the fault, and not earlier.
pub fn build_steps()
    ensures whole { laws.StepsBuild }
    ensures so_far { laws.StepsBuildSoFar }
    ensures refused { laws.FaultStays }
    ensures going { (limit : ℕ) (bytes : List ℕ)
        → ((fold build_step (build_start limit) bytes).told ≡ None) ↔ Undecided limit bytes }
    ensures halts { (limit : ℕ) (before piece : List ℕ) → CallRefuses limit before piece }
    ensures fault { (limit : ℕ) (before piece : List ℕ) (told : LineStop) → CallTells limit before piece told }
{}

/// The lines of a full dump mean, one after another, the elements that the dump shows.
///
/// - No line is longer than the limit.
pub fn dump_lines()
    ensures { laws.LinesMean }
{}

/// What a full dump shows builds the data set again, with undefined lengths of sequences and items.
///
/// - The tags of each data set ascend, and the data set may stand in the target syntax.
pub fn steps_build()
    ensures { (coding : Coding) (set : Trees) → Ascend None set → MayStand coding 0 set → BuildAgain coding set }
{}

/// The full dump of a file builds the file again, but for the preamble.
///
/// - The file is read without fault, and is built in its own transfer syntax.
/// - Its values are of whole units, and the tags of each data set ascend.
/// - No line of the dump is longer than the limit.
/// - So does the dump of any data set that can be built.
pub fn dump_builds()
    ensures file { laws.FileBuilds }
    ensures trees { laws.TreesBuild }
{}
