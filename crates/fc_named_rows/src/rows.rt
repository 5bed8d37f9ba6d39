//! Which rows a call takes steps of.
ghost use Rattle.std.specs.Prelude.{◌≡◌, ◌||◌, IsTrue};
ghost use Rattle.fc_apply.specs.Steps.{is_run};
ghost use Rattle.fc_rows.specs.NormalForms.{is_shrinking_or_commuting};
ghost use Rattle.fc_named_rows.specs.Rows.{commutes as spec_commutes, shrinks as spec_shrinks};

use fc_log::Row;

/// Whether a row commutes: it moves a let, or a field, to where a row that shrinks may meet it. Steps of all of these are run.
pub fn commutes(row: Row) -> bool
    ensures commutes { result ≡ spec_commutes row }
    ensures runs { IsTrue result → IsTrue (is_run row) }
{
    match row {
        Row::AppOfLet | Row::CaseOfLet | Row::LetOfLet | Row::CastOfLet | Row::NameField => true,
        _ => false,
    }
}

/// Whether a row shrinks: it makes a module smaller. No row both shrinks and commutes; those that do neither may make a module grow, or are of phases of their own.
pub fn shrinks(row: Row) -> bool
    ensures shrinks { result ≡ spec_shrinks row }
    ensures either { result || spec_commutes row ≡ is_shrinking_or_commuting row }
{
    match row {
        Row::Beta | Row::LetDead | Row::LetAtom | Row::LetOnce => true,
        Row::CaseKnown | Row::CaseEvaluated | Row::CaseMerge | Row::AltDead => true,
        Row::FailAbsorb | Row::CastRefl | Row::CastCast => true,
        Row::PushArgument | Row::PushType | Row::PushConstructor => true,
        Row::CoercionShorter | Row::Fold => true,
        Row::JoinDead | Row::JoinOnce | Row::DefDead => true,
        _ => false,
    }
}
