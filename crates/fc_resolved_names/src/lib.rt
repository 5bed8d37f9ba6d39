//! What holds of the names in a module that resolves: each means something.
#![tactic(auto)]

ghost use Rattle.fc_resolved_names.specs.ResolvedNames.{ResolvedAreScoped};

/// What resolves is scoped, where the module does not import itself: so it may be named back.
pub fn resolved_are_scoped()
    ensures scoped { ResolvedAreScoped }
{}
