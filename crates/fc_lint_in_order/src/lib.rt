//! The law that a set that lints does so in the order in which it is built.
#![tactic(auto)]

ghost use Rattle.fc_lint_in_order.specs.BuildOrder.{BuiltSetsLintInOrder};

/// Modules that lint in the order in which they are built do so one behind the other: each mentions itself and its imports, which are before it, and of these what they
/// offer. No two of them have one name.
pub fn sets_lint_in_order()
    ensures ordered { BuiltSetsLintInOrder }
{}
