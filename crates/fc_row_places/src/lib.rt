//! Rewrites of the nameless tree, each at its place, and the law that they are rewrites of terms when types are gone.
#![tactic(auto)]

ghost use Rattle.fc_row_places.specs.RowPlaceLaws.{ChangesErase, RewritesErase};

/// A change of parts of the nameless tree becomes one of terms when types are gone. A rewrite of the nameless tree, with what its place tells
/// and what typing tells of its parts, becomes a rewrite of terms.
pub fn rewrites_erase()
    ensures changes { ChangesErase }
    ensures rewrites { RewritesErase }
{}
