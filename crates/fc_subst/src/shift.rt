//! How far a piece stands from where it was taken.
ghost use Rattle.std.specs.Prelude.{◌≡◌, ◌+◌, IfOk};

use fc_numbers::sum;
use fc_syntax::Memory;

/// How many binders of each space (the shift of nameless terms).
#[derive(Clone, Copy, Debug)]
pub struct Shift {
    /// Those of types.
    pub types: u32,
    /// Those of coercions.
    pub coercions: u32,
    /// Those of values.
    pub values: u32,
    /// Join points.
    pub joins: u32,
}

/// No binders.
pub const NO_BINDERS: Shift = Shift {
    types: 0,
    coercions: 0,
    values: 0,
    joins: 0,
};

impl Shift {
    /// One type more.
    pub(crate) fn type_more(self) -> Result<Shift, Memory>
        ensures { IfOk result (λ p. p ≡ record self { types = self.types + 1 }) }
    {
        let types = sum(self.types, 1)?;
        Ok(Shift { types, ..self })
    }

    /// One coercion more.
    pub(crate) fn coercion_more(self) -> Result<Shift, Memory>
        ensures { IfOk result (λ p. p ≡ record self { coercions = self.coercions + 1 }) }
    {
        let coercions = sum(self.coercions, 1)?;
        Ok(Shift { coercions, ..self })
    }

    /// So many values more.
    pub(crate) fn values_more(self, by: u32) -> Result<Shift, Memory>
        ensures { IfOk result (λ p. p ≡ record self { values = self.values + by }) }
    {
        let values = sum(self.values, by)?;
        Ok(Shift { values, ..self })
    }

    /// So many join points more.
    pub(crate) fn joins_more(self, by: u32) -> Result<Shift, Memory>
        ensures { IfOk result (λ p. p ≡ record self { joins = self.joins + by }) }
    {
        let joins = sum(self.joins, by)?;
        Ok(Shift { joins, ..self })
    }
}
