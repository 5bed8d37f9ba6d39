//! The law that erasure commutes with putting in expressions, types, coercions and join points for variables.
#![tactic(auto)]

ghost use Rattle.fc_erased.specs.ErasureLaws.{RenamedErases, ReplacedErases, ReplacedIsWritten};

/// What is put in for the variables of an expression is put in, without types, for those of its erasure. An expression into which such are
/// put whose literals are in range, and whose alternatives have binders of their own alone, is such again.
pub fn erasure_commutes()
    // Variables in place of variables.
    ensures renamed { RenamedErases }
    // Expressions in place of variables.
    ensures replaced { ReplacedErases }
    ensures written { ReplacedIsWritten }
{}
