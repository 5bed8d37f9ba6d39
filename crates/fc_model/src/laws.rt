//! Laws of the definitions.
ghost use Rattle.fc_model.specs.CoercionLaws.{
  CoercionRenamingKeepsEnds,
  CoercionReplacementKeepsEnds,
  EndsAreByCases,
  EndsAreUnique,
  EndsHaveOneKind,
  KindedIsSaturated,
};
ghost use Rattle.fc_model.specs.Laws.{
  ConstructorNeedsAreLeast,
  KindsAreByCases,
  KindsAreUnique,
  LintIsByCases,
  NamelessFormsAreByCases,
  NamelessFormsAreUnique,
  NeedsAreLeast,
  SamenessIsEquality,
  TypesAreByCases,
  TypesAreReadOff,
  TypesAreUnique,
};
ghost use Rattle.fc_model.specs.SubstitutionLaws.{
  InstantiatedWithin,
  InstantiatingKeepsKinds,
  KindedIsScoped,
  MoreArgumentsKeepKinds,
  OnlyValuesCount,
  ShiftedBelow,
  ShiftedIsKept,
  ShiftingKeepsKinds,
  SubstitutionKeepsKinds,
  SubstitutionsCompose,
  VariablesForThemselves,
};
ghost use Rattle.fc_model.specs.TypingLaws.{
  ArgumentsFit,
  KindedAreClosed,
  LintedAreKinded,
  RenamingKeepsTypes,
  ReplacementKeepsTypes,
  ResolvedHaveDistinctTypes,
  TypesAmongJoins,
  TypesAtACoercion,
  TypesAtAType,
  TypesAtAValue,
  TypesAtArguments,
  TypesHaveKinds,
  TypesPastACoercion,
  TypesPastAJoin,
  TypesPastAType,
  TypesPastAValue,
  VariablesOfExpressionsForThemselves,
};

/// Resolution, kinds, types and Lint as functions, which give the first fault, and as relations by cases are the same; each module has
/// at most one nameless form, each type at most one kind and each expression at most one type, which is the one that is read off
/// without judging premises; the need of a parameter is the least of the roles at which it occurs.
pub fn judgements_agree()
    ensures nameless_forms { NamelessFormsAreByCases }
    ensures one_nameless_form { NamelessFormsAreUnique }
    ensures sameness { SamenessIsEquality }
    ensures kinds { KindsAreByCases }
    ensures one_kind { KindsAreUnique }
    ensures types { TypesAreByCases }
    ensures one_type { TypesAreUnique }
    ensures read_off { TypesAreReadOff }
    ensures needs { NeedsAreLeast }
    ensures constructor_needs { ConstructorNeedsAreLeast }
    ensures lint { LintIsByCases }
{}

/// Types in place of the variables of a type: only what is put in for its own variables counts, one substitution after another is one
/// substitution, also below binders, and the whole keeps its kind where each type that is put in has the kind of its variable.
pub fn substitution_agrees()
    ensures only_values { OnlyValuesCount }
    ensures themselves { VariablesForThemselves }
    ensures compose { SubstitutionsCompose }
    ensures shifted { ShiftedIsKept }
    ensures below { ShiftedBelow }
    ensures within { InstantiatedWithin }
    ensures scoped { KindedIsScoped }
    ensures more_arguments { MoreArgumentsKeepKinds }
    ensures kinds { SubstitutionKeepsKinds }
    ensures shifted_kinds { ShiftingKeepsKinds }
    ensures instantiated_kinds { InstantiatingKeepsKinds }
{}

/// What a coercion proves as a function, which gives the first fault, and as a relation by cases are the same, and a coercion proves one
/// thing at most; the types that it relates have one kind; and other coercion variables or coercions in place of its coercion variables,
/// with types in place of its type variables, keep what it proves.
pub fn coercions_agree()
    ensures ends { EndsAreByCases }
    ensures one_ends { EndsAreUnique }
    ensures saturated { KindedIsSaturated }
    ensures one_kind { EndsHaveOneKind }
    ensures renaming { CoercionRenamingKeepsEnds }
    ensures replacement { CoercionReplacementKeepsEnds }
{}

/// Expressions in place of variables, coercions in place of coercion variables and types in place of type variables: what stands in place
/// of a variable and is of its type, or proves what it proves, keeps the type of the whole, and what has a type has one of the kind of values.
pub fn typing_agrees()
    ensures renaming { RenamingKeepsTypes }
    ensures replacement { ReplacementKeepsTypes }
    ensures themselves { VariablesOfExpressionsForThemselves }
    ensures past_type { TypesPastAType }
    ensures past_coercion { TypesPastACoercion }
    ensures past_value { TypesPastAValue }
    ensures past_join { TypesPastAJoin }
    ensures among_joins { TypesAmongJoins }
    ensures at_type { TypesAtAType }
    ensures at_coercion { TypesAtACoercion }
    ensures at_value { TypesAtAValue }
    ensures arguments { ArgumentsFit }
    ensures at_arguments { TypesAtArguments }
    ensures declared_closed { KindedAreClosed }
    ensures kinds { TypesHaveKinds }
    ensures distinct_types { ResolvedHaveDistinctTypes }
    ensures declared_kinded { LintedAreKinded }
{}
