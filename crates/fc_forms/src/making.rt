//! Expressions of a form.
ghost use Rattle.std.specs.Prelude.{◌≡◌, IfOk};
ghost use Rattle.fc_model.specs.NamelessView.{nexpr_of, nty_of};
ghost use Rattle.fc_rows.specs.Shrinking.{let_of as spec_let_of};

use fc_syntax::{Memory, NBind, NExpr, NTy, Seq, Text};
use std::alloc::Global;

/// A let of one binding that is not recursive. Fails only where memory runs out.
pub fn let_of(alloc: Global, name: Text, ty: NTy, rhs: NExpr, body: NExpr) -> Result<NExpr, Memory>
    ensures { IfOk result (λ e. nexpr_of e ≡ spec_let_of (nty_of ty) (nexpr_of rhs) (nexpr_of body)) }
{
    let mut bindings = Seq::new(alloc);
    bindings.push(NBind { name, ty, rhs })?;
    NExpr::binding(alloc, false, bindings, body)
}
