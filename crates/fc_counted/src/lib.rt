//! The counted relation: a step-indexed logical relation between the terms of two programs.
#![tactic(auto)]

ghost use Rattle.fc_counted.specs.CountingLaws.{ChangedTermsAreUnder, RelatedPartsShowTheSame, UnderIsReflexive, UnderSeesAtLeast, UnderUnfolds};

/// One term is under another up to a count exactly if, where the first comes to a head in less steps, the second comes to one that agrees with
/// it below what is left of the count.
pub fn the_counted_relation_unfolds()
    ensures unfolds { UnderUnfolds }
{}

/// What is under at all counts shows as much, and each closed sorted term is under itself in programs that are under one another.
pub fn what_is_under_shows_less()
    ensures shows { UnderSeesAtLeast }
    ensures reflexive { UnderIsReflexive }
{}

/// The counted relation is a congruence: sorted terms that differ in parts, each part under the other at its place, are under one another.
/// Where the parts are so in both directions, programs whose definitions differ in them show the same of each closed sorted term.
pub fn changed_parts_show_the_same()
    ensures under { ChangedTermsAreUnder }
    ensures same { RelatedPartsShowTheSame }
{}
