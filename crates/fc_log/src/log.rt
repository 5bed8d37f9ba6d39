//! The log of a build: what was done to a module, step by step, and where each phase ends.

use fc_syntax::{Place, Seq, Text};

/// A row of the rewrite table.
#[derive(Clone, Copy, Debug, PartialEq, Eq)]
pub enum Row {
    /// `beta`: an application of a lambda.
    Beta,
    /// `let-dead`: a let whose binders its body does not use.
    LetDead,
    /// `let-atom`: a let of something trivial.
    LetAtom,
    /// `let-once`: a let whose binder is used once.
    LetOnce,
    /// `case-known`: a case of what is known.
    CaseKnown,
    /// `case-evaluated`: a case of what is evaluated.
    CaseEvaluated,
    /// `case-merge`: a case in the default of a case of the same variable.
    CaseMerge,
    /// `alt-dead`: an alternative that is never taken.
    AltDead,
    /// `fail-absorb`: what stands on an error.
    FailAbsorb,
    /// `cast-refl`: a cast between equal types.
    CastRefl,
    /// `cast-cast`: a cast of a cast.
    CastCast,
    /// `push-argument`: an argument of a cast function.
    PushArgument,
    /// `push-type`: a type argument of a cast function.
    PushType,
    /// `push-constructor`: a case of a cast constructor.
    PushConstructor,
    /// `coercion-shorter`: a coercion that a shorter one replaces.
    CoercionShorter,
    /// `fold`: a primitive whose value is known.
    Fold,
    /// `join-dead`: join points to which nothing jumps.
    JoinDead,
    /// `join-once`: a join point to which one jump goes.
    JoinOnce,
    /// `def-dead`: definitions that nothing reaches.
    DefDead,
    /// `app-of-let`: an application of a let.
    AppOfLet,
    /// `case-of-let`: a case of a let.
    CaseOfLet,
    /// `let-of-let`: a let of a let.
    LetOfLet,
    /// `cast-of-let`: a cast of a let.
    CastOfLet,
    /// `name-field`: a field of a constructor that gets a name.
    NameField,
    /// `unfold`: a variable that is replaced by its right side.
    Unfold,
    /// `app-of-case`: an application or a cast of a case or a join.
    AppOfCase,
    /// `case-of-case`: a case of a case or a join.
    CaseOfCase,
    /// `alt-join`: an alternative that becomes a join point.
    AltJoin,
    /// `contify`: a let that becomes a join.
    Contify,
    /// `split`: a definition that becomes a worker and a wrapper.
    Split,
    /// `special`: a definition that is specialised.
    Special,
    /// `float-out`: a let that moves outward.
    FloatOut,
    /// `float-in`: a let that moves inward.
    FloatIn,
    /// `strict-let`: a let that becomes a case.
    StrictLet,
}

/// A phase of a build.
#[derive(Clone, Copy, Debug, PartialEq, Eq)]
pub enum Phase {
    /// `simplify`
    Simplify,
    /// `special`
    Special,
    /// `float-out`
    FloatOut,
    /// `float-in`
    FloatIn,
    /// `strict`
    Strict,
    /// `split`
    Split,
}

/// What a fold becomes.
#[derive(Clone, Copy, Debug, PartialEq, Eq)]
pub enum Answer {
    /// This literal.
    Literal(i64),
    /// The first operand.
    First,
    /// The second operand.
    Second,
}

/// A row of the rewrite table at a place.
#[derive(Debug, Drop)]
pub struct Step {
    /// The row.
    pub row: Row,
    /// The definition; none where the row is of the whole module.
    pub def: Option<Text>,
    /// The numbers of the parts from the definition inward, whose right side is its part 1; nowhere where there is no definition.
    pub path: Place,
    /// What a fold becomes; none for other rows.
    pub answer: Option<Answer>,
}

/// A line of a log.
#[derive(Debug, Drop)]
pub enum Entry {
    /// A step.
    Step(Step),
    /// The end of a phase.
    Mark(Phase),
}

/// The log of a module.
#[derive(Debug, Drop)]
pub struct Log {
    /// The name of the module.
    pub module: Text,
    /// The lines, in the order in which it was built.
    pub entries: Seq<Entry>,
}
