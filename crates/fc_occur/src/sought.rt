//! What is sought in an expression.
ghost use Rattle.std.specs.Prelude.{◌≡◌, ◌+◌, IfOk};
ghost use Rattle.fc_rows.specs.Occurrences.{behind_joins as spec_behind_joins, behind_values as spec_behind_values};
ghost use Rattle.fc_occur.specs.Spans.{sought_of, within};

use fc_numbers::sum;
use fc_rows::Occurrence;
use fc_syntax::Memory;

/// Variables of one space that stand beside each other, by their distances.
#[derive(Clone, Copy)]
pub(crate) struct Span {
    /// The distance of the innermost of them.
    pub(crate) from: u32,
    /// How many they are.
    pub(crate) count: u32,
}

/// No variables.
pub(crate) const NO_SPAN: Span = Span { from: 0, count: 0 };

impl Span {
    /// What the variable at a distance counts.
    #[tactic(auto, using(crate::proofs::Spans::span_rules))]
    fn counts(self, distance: u32) -> Occurrence
        ensures { result ≡ within self distance }
    {
        if distance >= self.from && distance - self.from < self.count {
            Occurrence::Once
        } else {
            Occurrence::Dead
        }
    }

    /// The same variables from behind so many binders more. Fails where a distance has no 32 bits.
    fn behind(self, binders: u32) -> Result<Span, Memory>
        ensures { IfOk result (λ s. s ≡ record self { from = self.from + binders }) }
    {
        let from = sum(self.from, binders)?;
        Ok(Span { from, ..self })
    }
}

/// What is sought.
#[derive(Clone, Copy)]
pub(crate) struct Sought {
    /// Variables of values.
    pub(crate) values: Span,
    /// Join points.
    pub(crate) joins: Span,
}

impl Sought {
    /// What a variable of a value counts.
    pub(crate) fn value(self, distance: u32) -> Occurrence
        ensures { result ≡ (sought_of self).values distance }
    {
        self.values.counts(distance)
    }

    /// What a join point counts.
    pub(crate) fn join(self, distance: u32) -> Occurrence
        ensures { result ≡ (sought_of self).joins distance }
    {
        self.joins.counts(distance)
    }

    /// The same from behind so many values more. Fails where a distance has no 32 bits.
    pub(crate) fn behind_values(self, count: u32) -> Result<Sought, Memory>
        ensures { IfOk result (λ s. sought_of s ≡ spec_behind_values count (sought_of self)) }
    {
        let values = self.values.behind(count)?;
        Ok(Sought { values, ..self })
    }

    /// The same from behind so many join points more. Fails where a distance has no 32 bits.
    pub(crate) fn behind_joins(self, count: u32) -> Result<Sought, Memory>
        ensures { IfOk result (λ s. sought_of s ≡ spec_behind_joins count (sought_of self)) }
    {
        let joins = self.joins.behind(count)?;
        Ok(Sought { joins, ..self })
    }
}
