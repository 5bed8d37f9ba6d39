//! Laws of the meaning of terms: of evaluation, of what terms show, and of erasure.
#![tactic(auto)]

ghost use Rattle.fc_meaning.specs.Examples.{
  AppliedLiteralShowsNothing,
  CaseTakesLiteral,
  ConstructorShowsFields,
  FailShowsNothing,
  LambdaShowsFunction,
  LiteralShowsItself,
  LiteralShowsNoOther,
  LoopHidesNoOther,
  LoopShowsNothing,
  QuotientByZeroShowsNothing,
  UnusedLetShowsBody,
};
ghost use Rattle.fc_meaning.specs.Laws.{
  ArgumentSortIsOfType,
  DefaultTakesLambda,
  GroupUnrolls,
  HeadsAreUnique,
  HeadsStay,
  LintedIsSorted,
  NoAlternativeIsStuck,
  ReachedNamesMatter,
  SortsAreOfTypes,
  StepsAreUnique,
  StepsKeepSorts,
  WrittenMeansTheSame,
};
ghost use Rattle.fc_meaning.specs.Renaming.{RenamingChangesNothing};

/// A term takes at most one step, and comes to at most one head, in one number of steps; a head takes none.
pub fn evaluation_is_determined()
    ensures one_step { StepsAreUnique }
    ensures one_head { HeadsAreUnique }
    ensures heads_stay { HeadsStay }
{}

/// A case takes its default for a lambda, and goes no further where there is no alternative; a recursive group unrolls.
pub fn cases_and_groups_step()
    ensures default { DefaultTakesLambda }
    ensures stuck { NoAlternativeIsStuck }
    ensures unrolls { GroupUnrolls }
{}

/// What a term shows depends on the definitions that it reaches alone.
pub fn reached_names_matter()
    ensures same { ReachedNamesMatter }
{}

/// Other words for the local binders of a module, and for their uses, change neither its nameless form nor its first fault of
/// names, if different words stay different and the words that are used free stay as they are.
pub fn renaming_changes_nothing()
    ensures same { RenamingChangesNothing }
{}

/// Evaluation keeps sorted terms sorted.
pub fn steps_keep_sorts()
    ensures kept { StepsKeepSorts }
{}

/// The definitions of a set of formed modules that lints are sorted when their types are gone. The sorts that are read off the arguments
/// of a constructor are those of its binders, coercions and fields, and the sort that is read off the argument of an application is
/// that of the argument's type.
pub fn what_lints_is_sorted()
    ensures sorted { LintedIsSorted }
    ensures sorts { SortsAreOfTypes }
    ensures arguments { ArgumentSortIsOfType }
{}

/// A set of modules that lints means the same as it is written: each term that may be asked of it may be asked of what is written, and
/// shows exactly the same in both programs.
pub fn what_is_written_means_the_same()
    ensures same { WrittenMeansTheSame }
{}

/// What some terms show, in any program.
pub fn terms_show_what_they_should()
    // A literal shows its number.
    ensures literal { LiteralShowsItself }
    // It shows no other number.
    ensures no_other_number { LiteralShowsNoOther }
    // A constructor with two fields shows what they show.
    ensures fields { ConstructorShowsFields }
    // A name that is its own right side shows nothing.
    ensures looping { LoopShowsNothing }
    // A lambda shows that it is a function.
    ensures lambda { LambdaShowsFunction }
    // An application of a literal shows nothing.
    ensures applied_literal { AppliedLiteralShowsNothing }
    // A case on a literal takes the literal's alternative, and not the default before it.
    ensures own_alternative { CaseTakesLiteral }
    // A let whose name is not used shows its body, also where the right side loops.
    ensures unused_let { UnusedLetShowsBody }
    // A field that loops hides nothing of the other field.
    ensures looping_field { LoopHidesNoOther }
    // A failure shows nothing.
    ensures failure { FailShowsNothing }
    // A quotient by 0 shows nothing.
    ensures quotient_by_zero { QuotientByZeroShowsNothing }
{}
