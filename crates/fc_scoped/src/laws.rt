//! What is proved of the definitions.
ghost use Rattle.fc_scoped.specs.LintedAreScoped.{LintedAreScoped};
ghost use Rattle.fc_scoped.specs.Testing.{ScopedIsTested};

/// A nameless module that lints against a set in which it is, whose words are distinct and which imports each module that it mentions, is scoped: each distance
/// reaches a binder, and each name is known.
pub fn linted_are_scoped()
    ensures scoped { LintedAreScoped }
{}

/// The test tells what is scoped.
pub fn test_agrees()
    ensures { ScopedIsTested }
{}
