//! What a search for rows of the rewrite table finds in an expression: the first row that applies there, in the order of the search; none only where none applies.
#![tactic(auto)]

ghost use Rattle.fc_search_laws.specs.Laws.{NothingElseApplies, SearchAnswers, WhatIsFoundApplies};

/// A search always answers. The row that it finds applies at the place that it finds, wherever the search begins. Where a search of a whole expression finds nothing, no row
/// makes of any part of it what may stand in the place of that part.
pub fn finds_what_applies()
    ensures applies { WhatIsFoundApplies }
    ensures nothing_else { NothingElseApplies }
    ensures answers { SearchAnswers }
{}
