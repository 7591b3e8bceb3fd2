//! Laws of the definitions. The function takes nothing and makes no call: its contract is the law.
ghost use Rattle.dcm_tree_words.specs.Laws.{TreesAskForNoText};

/// A command line that asks for a run over a folder or a list asks for no help text.
pub fn trees_ask_for_no_text()
    ensures { TreesAskForNoText }
{}
