//! Cases of the rows of the rewrite table, derived by hand from the table: modules before and after, or that a row makes nothing there.
#![tactic(auto)]

ghost use Rattle.fc_row_cases.specs.BetaCases.{BetaCases};
ghost use Rattle.fc_row_cases.specs.CaseCases.{CaseCases};
ghost use Rattle.fc_row_cases.specs.CaseEvaluatedCases.{CaseEvaluatedCases};
ghost use Rattle.fc_row_cases.specs.CaseKnownCases.{CaseKnownCases};
ghost use Rattle.fc_row_cases.specs.CastCases.{CastCases};
ghost use Rattle.fc_row_cases.specs.CommutingCases.{CommutingCases};
ghost use Rattle.fc_row_cases.specs.JoinCases.{JoinCases};
ghost use Rattle.fc_row_cases.specs.LetCases.{LetCases};
ghost use Rattle.fc_row_cases.specs.LetOnceCases.{LetOnceCases};

/// At a place of a module each row makes what was derived by hand, or nothing.
pub fn rows_make_what_was_derived()
    ensures beta_cases { BetaCases }
    ensures let_cases { LetCases }
    ensures let_once_cases { LetOnceCases }
    ensures case_known_cases { CaseKnownCases }
    ensures case_evaluated_cases { CaseEvaluatedCases }
    ensures case_cases { CaseCases }
    ensures cast_cases { CastCases }
    ensures join_cases { JoinCases }
    ensures commuting_cases { CommutingCases }
{}
