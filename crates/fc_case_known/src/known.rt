//! A case of what is known.
ghost use Rattle.std.specs.Prelude.{◌≡◌, IfOk, OnOk};
ghost use Rattle.std.specs.Option.{option_map};
ghost use Rattle.fc_model.specs.NamelessView.{nexpr_of};
ghost use Rattle.fc_rows.specs.Shrinking.{known};
ghost use Rattle.fc_rows.specs.Surroundings.{Surroundings};
ghost use Rattle.fc_known.specs.Told.{told};
ghost use Rattle.fc_type_table.specs.TypeTables.{Grows};
ghost use Rattle.fc_lint_context.specs.ContextViews.{IsContextOver, modules_of_context};
ghost use Rattle.fc_shrink_cases.specs.Cases.{scrutinee_of};
ghost use Rattle.fc_case_known.specs.Within.{case_known_within};

use crate::arguments::as_literal;
use crate::constructors::case_of_constructor;
use crate::scrutinees::case_of_literal;
use crate::variables::case_of_fact;
use fc_forms::{as_case, as_construction};
use fc_known::Fact;
use fc_lint_context::Context;
use fc_syntax::{Memory, NExpr};
use fc_type_table::TypeTable;
use std::alloc::Global;

/// A case of a constructor, of a literal, or of a variable that is known to be one, as what the alternative for it answers (case of known constructor): of a constructor
/// with lets for its terms, and of a variable with what it is known to be made of. `fact` is what is known of what the case looks at, where that is a variable. Answers
/// none where the expression is no such case; and where the constructor has an alternative of its own and more than 500 terms, since what the case becomes would then be
/// deeper than a declaration may be. Fails only where memory runs out, a type among the constructor's arguments names a variable out of scope, the type of a let has more
/// than 1,500,000 pieces or nests deeper than 2,000, a distance or a number of parts has no 32 bits, or calls would go 2^32 deep.
pub fn case_known(
    alloc: Global,
    e: &NExpr,
    fact: &Fact,
    types: &mut TypeTable,
    context: &Context,
) -> Result<Option<NExpr>, Memory>
    requires { IsContextOver types.old context.now }
    ensures view { (s : Surroundings) → told fact.now ≡ known s (scrutinee_of (nexpr_of e.now)) → IfOk result (λ o. option_map nexpr_of o ≡ case_known_within (modules_of_context context.now) s (nexpr_of e.now)) }
    ensures grows { OnOk result (Grows types.old types.new) }
{
    let Some(case) = as_case(e) else {
        return Ok(None);
    };
    if let Some(taken) = as_construction(case.scrutinee) {
        return case_of_constructor(alloc, &case, &taken, types, context);
    }
    match as_literal(case.scrutinee) {
        Some(literal) => case_of_literal(alloc, &case, literal),
        None => case_of_fact(alloc, &case, fact, context),
    }
}
