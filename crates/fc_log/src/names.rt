//! How rows and phases are written.
ghost use Rattle.std.specs.Prelude.{◌≡◌};
ghost use Rattle.fc_log.specs.Names as spec;

use crate::log::{Phase, Row};

/// All rows.
const ROWS: [Row; 34] = [
    Row::Beta,
    Row::LetDead,
    Row::LetAtom,
    Row::LetOnce,
    Row::CaseKnown,
    Row::CaseEvaluated,
    Row::CaseMerge,
    Row::AltDead,
    Row::FailAbsorb,
    Row::CastRefl,
    Row::CastCast,
    Row::PushArgument,
    Row::PushType,
    Row::PushConstructor,
    Row::CoercionShorter,
    Row::Fold,
    Row::JoinDead,
    Row::JoinOnce,
    Row::DefDead,
    Row::AppOfLet,
    Row::CaseOfLet,
    Row::LetOfLet,
    Row::CastOfLet,
    Row::NameField,
    Row::Unfold,
    Row::AppOfCase,
    Row::CaseOfCase,
    Row::AltJoin,
    Row::Contify,
    Row::Split,
    Row::Special,
    Row::FloatOut,
    Row::FloatIn,
    Row::StrictLet,
];

/// All phases.
const PHASES: [Phase; 6] = [
    Phase::Simplify,
    Phase::Special,
    Phase::FloatOut,
    Phase::FloatIn,
    Phase::Strict,
    Phase::Split,
];

impl Row {
    /// How the row is written.
    pub fn text(self) -> &'static str
        ensures { result.now ≡ spec.row_text self }
    {
        match self {
            Row::Beta => "beta",
            Row::LetDead => "let-dead",
            Row::LetAtom => "let-atom",
            Row::LetOnce => "let-once",
            Row::CaseKnown => "case-known",
            Row::CaseEvaluated => "case-evaluated",
            Row::CaseMerge => "case-merge",
            Row::AltDead => "alt-dead",
            Row::FailAbsorb => "fail-absorb",
            Row::CastRefl => "cast-refl",
            Row::CastCast => "cast-cast",
            Row::PushArgument => "push-argument",
            Row::PushType => "push-type",
            Row::PushConstructor => "push-constructor",
            Row::CoercionShorter => "coercion-shorter",
            Row::Fold => "fold",
            Row::JoinDead => "join-dead",
            Row::JoinOnce => "join-once",
            Row::DefDead => "def-dead",
            Row::AppOfLet => "app-of-let",
            Row::CaseOfLet => "case-of-let",
            Row::LetOfLet => "let-of-let",
            Row::CastOfLet => "cast-of-let",
            Row::NameField => "name-field",
            Row::Unfold => "unfold",
            Row::AppOfCase => "app-of-case",
            Row::CaseOfCase => "case-of-case",
            Row::AltJoin => "alt-join",
            Row::Contify => "contify",
            Row::Split => "split",
            Row::Special => "special",
            Row::FloatOut => "float-out",
            Row::FloatIn => "float-in",
            Row::StrictLet => "strict-let",
        }
    }
}

impl Phase {
    /// How the phase is written.
    pub fn text(self) -> &'static str
        ensures { result.now ≡ spec.phase_text self }
    {
        match self {
            Phase::Simplify => "simplify",
            Phase::Special => "special",
            Phase::FloatOut => "float-out",
            Phase::FloatIn => "float-in",
            Phase::Strict => "strict",
            Phase::Split => "split",
        }
    }
}

/// The row that is written so.
#[tactic(auto, unfolding(crate::specs::Names::row_of))]
pub(crate) fn row_of(word: &[u8]) -> Option<Row>
    ensures { result ≡ spec.row_of word.now }
{
    ROWS.iter()
        .copied()
        .find(|row| word == row.text().as_bytes())
}

/// The phase that is written so.
#[tactic(auto, unfolding(crate::specs::Names::phase_of))]
pub(crate) fn phase_of(word: &[u8]) -> Option<Phase>
    ensures { result ≡ spec.phase_of word.now }
{
    PHASES
        .iter()
        .copied()
        .find(|phase| word == phase.text().as_bytes())
}
