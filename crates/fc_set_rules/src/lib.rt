//! Lint of a set by rules, and the law that a set lints exactly where they hold.
#![tactic(auto)]

ghost use Rattle.fc_set_rules.specs.FormsDecide.{FormsDecideLint};
ghost use Rattle.fc_set_rules.specs.SetRules.{SetLintIsByCases};

/// A set of modules, in the order in which they are built, has no fault of Lint exactly where each of its modules holds in it by the rules.
pub fn set_rules_are_lint()
    ensures by_cases { SetLintIsByCases }
{}

/// Modules that have the nameless forms of a set that lints, at their places, lint too, where no module imports itself: the words of local binders
/// decide nothing.
pub fn forms_decide_lint()
    ensures forms_decide { FormsDecideLint }
{}
