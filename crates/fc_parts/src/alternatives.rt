//! Which alternatives have binders.
ghost use Rattle.std.specs.Prelude.{◌≡◌};
ghost use Rattle.fc_model.specs.NamelessView.{nbinders_of};
ghost use Rattle.fc_rows.specs.Surroundings.{head_binds as spec_head_binds};

use fc_syntax::{Head, NAlt};

/// Whether the head of an alternative may have its binders: a default and a literal bind nothing.
pub fn head_binds(a: &NAlt) -> bool
    ensures { result ≡ spec_head_binds a.now.head (nbinders_of a.now.binders) }
{
    match &a.head {
        Head::Default => a.binders.is_empty(),
        Head::Lit(_) => a.binders.is_empty(),
        Head::Con(_) => true,
    }
}
