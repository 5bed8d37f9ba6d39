//! What stands in place of variables.
ghost use Rattle.std.specs.Prelude.{◌≡◌, IfOk};
ghost use Rattle.fc_model.specs.Replacing.{below_binder, below_joins, below_values, expressions, whole_coercions};
ghost use Rattle.fc_model.specs.Nameless.{NBCo, NBType, NTInt};
ghost use Rattle.fc_syntax.specs.Tree.{KStar};
ghost use Rattle.fc_syntax.specs.declared.ty.Role.TheVariants.{N};
ghost use Rattle.fc_subst.specs.Replacements.{lifted_of};

use crate::shift::Shift;
use fc_syntax::{Memory, NCo, NExpr, NTy};

/// What stands in place of the variables of a piece, of all four spaces at once, the innermost first. It stands on the stack of who
/// makes it.
#[derive(Clone, Copy)]
pub enum Replacement<'a> {
    /// Each variable for itself.
    Same,
    /// Each variable for itself, past so many binders more.
    Past(Shift),
    /// Each variable for itself, without so many of the innermost binders of each space. What refers to one of these comes to refer to the innermost
    /// of those that stay.
    Without(Shift),
    /// An expression for the innermost value.
    Value(&'a NExpr, &'a Replacement<'a>),
    /// A type for the innermost type.
    Type(&'a NTy, &'a Replacement<'a>),
    /// A coercion for the innermost coercion.
    Coercion(&'a NCo, &'a Replacement<'a>),
}

/// A replacement lifted past binders (the lifting of explicit substitutions): so many of the innermost variables of each space stand for themselves, and what
/// stands in place of the others goes past these binders.
#[derive(Clone, Copy)]
pub(crate) struct Lifted<'a> {
    /// What stands in place of the variables outside of these binders.
    pub(crate) replacement: &'a Replacement<'a>,
    /// How many binders of each space.
    pub(crate) past: Shift,
}

impl<'a> Lifted<'a> {
    /// The same replacement, below one type more.
    pub(crate) fn below_type(&self) -> Result<Lifted<'a>, Memory>
        ensures { IfOk result (λ l. lifted_of l ≡ below_binder expressions whole_coercions (NBType KStar) (lifted_of self.now)) }
    {
        let past = self.past.type_more()?;
        Ok(Lifted {
            replacement: self.replacement,
            past,
        })
    }

    /// The same replacement, below one coercion more.
    pub(crate) fn below_coercion(&self) -> Result<Lifted<'a>, Memory>
        ensures { IfOk result (λ l. lifted_of l ≡ below_binder expressions whole_coercions (NBCo N NTInt NTInt) (lifted_of self.now)) }
    {
        let past = self.past.coercion_more()?;
        Ok(Lifted {
            replacement: self.replacement,
            past,
        })
    }

    /// The same replacement, below so many values more.
    pub(crate) fn below_values(&self, count: u32) -> Result<Lifted<'a>, Memory>
        ensures { IfOk result (λ l. lifted_of l ≡ below_values expressions whole_coercions count (lifted_of self.now)) }
    {
        let past = self.past.values_more(count)?;
        Ok(Lifted {
            replacement: self.replacement,
            past,
        })
    }

    /// The same replacement, below so many join points more.
    pub(crate) fn below_joins(&self, count: u32) -> Result<Lifted<'a>, Memory>
        ensures { IfOk result (λ l. lifted_of l ≡ below_joins expressions whole_coercions count (lifted_of self.now)) }
    {
        let past = self.past.joins_more(count)?;
        Ok(Lifted {
            replacement: self.replacement,
            past,
        })
    }
}
