//! How many terms a nameless tree is made of; in `proofs/` what is put in, lets for arguments, alternatives and jumps do to that.
#![tactic(auto)]

ghost use Rattle.fc_row_nodes.specs.Nodes.{WordsAddNoNodes};

/// The nodes of a nameless module are those of the module with the words that its binders keep.
pub fn words_add_no_nodes()
    ensures words { WordsAddNoNodes }
{}
