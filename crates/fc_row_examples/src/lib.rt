//! Examples of the rows of the rewrite table, on small expressions: what each makes of them, and that it makes nothing where one of its conditions just fails.
#![tactic(auto)]

ghost use Rattle.fc_row_examples.specs.ExamplesHold.{
  AltDeadExamples,
  AppOfLetExamples,
  BetaExamples,
  CaseEvaluatedExamples,
  CaseKnownExamples,
  CaseMergeExamples,
  CaseOfLetExamples,
  CastCastExamples,
  CastOfLetExamples,
  CastReflExamples,
  DefDeadExamples,
  FailAbsorbExamples,
  ImportExamples,
  JoinDeadExamples,
  JoinOnceExamples,
  LetAtomExamples,
  LetDeadExamples,
  LetOfLetExamples,
  LetOnceExamples,
  NameFieldExamples,
  PlaceExamples,
};

/// Each row makes of small expressions what it should, and nothing where one of its conditions just fails; and imports tell what they should.
pub fn rows_do_what_they_should()
    ensures beta { BetaExamples }
    ensures let_dead { LetDeadExamples }
    ensures let_atom { LetAtomExamples }
    ensures let_once { LetOnceExamples }
    ensures case_known { CaseKnownExamples }
    ensures case_evaluated { CaseEvaluatedExamples }
    ensures case_merge { CaseMergeExamples }
    ensures alt_dead { AltDeadExamples }
    ensures fail_absorb { FailAbsorbExamples }
    ensures cast_refl { CastReflExamples }
    ensures cast_cast { CastCastExamples }
    ensures join_dead { JoinDeadExamples }
    ensures join_once { JoinOnceExamples }
    ensures def_dead { DefDeadExamples }
    ensures app_of_let { AppOfLetExamples }
    ensures case_of_let { CaseOfLetExamples }
    ensures cast_of_let { CastOfLetExamples }
    ensures let_of_let { LetOfLetExamples }
    ensures name_field { NameFieldExamples }
    ensures places { PlaceExamples }
    ensures imports { ImportExamples }
{}
