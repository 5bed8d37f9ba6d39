//! How often a variable or a join point occurs (the occurrence analysis of "Secrets of the Glasgow Haskell Compiler inliner").
ghost use Rattle.std.specs.Prelude.{◌≡◌, ◌↔◌, IsTrue};
ghost use Rattle.fc_rows.specs.declared.occurrence.Occurrence.TheVariants.{Many};
ghost use Rattle.fc_rows.specs.Occurrences.{and_further as together, as_field as in_field, inside as in_lambda};

/// How often something occurs in an expression.
#[derive(Clone, Copy, Debug, PartialEq, Eq)]
pub enum Occurrence {
    /// Not at all.
    Dead,
    /// Once, where it runs at most once.
    Once,
    /// Once, as an argument of a constructor.
    OnceAsField,
    /// Once, inside of a lambda over a value or a coercion, or of the right side of a recursive join point, which may run more than once.
    OnceInside,
    /// More than once.
    Many,
}

impl Occurrence {
    /// Whether it occurs more than once, so that nothing further can change this.
    pub fn is_many(self) -> bool
        ensures { IsTrue result ↔ (self ≡ Many) }
    {
        matches!(self, Occurrence::Many)
    }

    /// How often it occurs in two pieces together.
    pub fn and_further(self, other: Occurrence) -> Occurrence
        ensures { result ≡ together self other }
    {
        match (self, other) {
            (Occurrence::Dead, other) => other,
            (this, Occurrence::Dead) => this,
            (_, _) => Occurrence::Many,
        }
    }

    /// How often it occurs in what may run more than once.
    pub fn inside(self) -> Occurrence
        ensures { result ≡ in_lambda self }
    {
        match self {
            Occurrence::Dead => Occurrence::Dead,
            Occurrence::Once => Occurrence::OnceInside,
            Occurrence::OnceAsField => Occurrence::OnceInside,
            Occurrence::OnceInside => Occurrence::OnceInside,
            Occurrence::Many => Occurrence::Many,
        }
    }

    /// How often it occurs where it is itself an argument of a constructor.
    pub fn as_field(self) -> Occurrence
        ensures { result ≡ in_field self }
    {
        match self {
            Occurrence::Once => Occurrence::OnceAsField,
            other => other,
        }
    }
}
