//! Laws of the rewrite table: each row keeps types, and so Lint.
#![tactic(auto)]

ghost use Rattle.fc_row_types.specs.DefinitionsDropped.{DroppedDefinitionsKeepLint};
ghost use Rattle.fc_row_types.specs.LintKept.{RowsKeepLint};
ghost use Rattle.fc_row_types.specs.TypesKept.{ChangesKeepProofs, ChangesKeepTypes};

/// A part in place of another of the same type, in the same surroundings, keeps the type of the whole; and a coercion in place of another that proves
/// the same, what the whole proves.
pub fn changes_keep_types()
    ensures expressions { ChangesKeepTypes }
    ensures coercions { ChangesKeepProofs }
{}

/// What a row makes of a module that lints with its imports lints with them, and each definition is of its old type.
pub fn rows_keep_lint()
    ensures rows { RowsKeepLint }
{}

/// What is left of a module that lints with its imports, where definitions go that nothing mentions that stays, lints with them, at the same types.
pub fn dropped_definitions_keep_lint()
    ensures dropped { DroppedDefinitionsKeepLint }
{}
