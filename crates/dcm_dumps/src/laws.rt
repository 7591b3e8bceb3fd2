//! Laws of the definitions. Each function takes nothing and makes no call: its contract is the law.
ghost use Rattle.dcm_dumps.specs.Laws.{DumpsAreOne, DumpsAreSome};

/// A command line that asks for dumps of several files has only one outcome over files in memory.
pub fn dumps_are_one()
    ensures { DumpsAreOne }
{}

/// A command line that asks for dumps of several files has an outcome, whatever the files hold.
pub fn dumps_are_some()
    ensures { DumpsAreSome }
{}
