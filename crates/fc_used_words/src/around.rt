//! How many binders without a word are around a piece.
ghost use Rattle.std.specs.Prelude.{◌≡◌, suc, IfOk};
ghost use Rattle.fc_used_words.specs.Around.{counts_of};
ghost use Rattle.fc_used_words.specs.Scoped.{in_coercion, in_join, in_type, in_value, nothing_around};

use fc_syntax::Memory;

/// How many binders without a word are around a piece, inside of those that have one.
#[derive(Clone, Copy)]
pub struct Inside {
    /// Of types.
    pub types: u32,
    /// Of values.
    pub values: u32,
    /// Of join points.
    pub joins: u32,
    /// Of coercions.
    pub coercions: u32,
}

/// One more, where its number can be told.
fn one_more(count: u32) -> Result<u32, Memory>
    ensures { IfOk result (λ n. n ≡ suc count) }
{
    match count.checked_add(1) {
        Some(next) => Ok(next),
        None => Err(Memory),
    }
}

impl Inside {
    /// None.
    pub fn new() -> Inside
        ensures { counts_of result ≡ nothing_around }
    {
        Inside {
            types: 0,
            values: 0,
            joins: 0,
            coercions: 0,
        }
    }

    /// Below one more type.
    pub fn in_type(self) -> Result<Inside, Memory>
        ensures { IfOk result (λ k. counts_of k ≡ in_type (counts_of self)) }
    {
        let types = one_more(self.types)?;
        Ok(Inside { types, ..self })
    }

    /// Below one more value.
    pub fn in_value(self) -> Result<Inside, Memory>
        ensures { IfOk result (λ k. counts_of k ≡ in_value (counts_of self)) }
    {
        let values = one_more(self.values)?;
        Ok(Inside { values, ..self })
    }

    /// Below one more join point.
    pub fn in_join(self) -> Result<Inside, Memory>
        ensures { IfOk result (λ k. counts_of k ≡ in_join (counts_of self)) }
    {
        let joins = one_more(self.joins)?;
        Ok(Inside { joins, ..self })
    }

    /// Below one more coercion.
    pub fn in_coercion(self) -> Result<Inside, Memory>
        ensures { IfOk result (λ k. counts_of k ≡ in_coercion (counts_of self)) }
    {
        let coercions = one_more(self.coercions)?;
        Ok(Inside { coercions, ..self })
    }
}
