//! How large what is read and made may be.
ghost use Rattle.std.specs.Prelude.{◌≡◌};
ghost use Rattle.fc_syntax.specs.Limits.{standard_limits};

/// The limits on what is read and made. Each number is the most that is accepted.
#[derive(Clone, Copy, Debug, PartialEq, Eq)]
pub struct Limits {
    /// Modules of a set.
    pub modules: u32,
    /// Bytes of a file.
    pub file_bytes: u32,
    /// Bytes of all files of a set.
    pub set_bytes: u32,
    /// Depth of a declaration.
    pub depth: u32,
    /// Nested brackets.
    pub brackets: u32,
    /// Size of a set that is read.
    pub size: u32,
    /// Coercion and term fields of a constructor, parameters of a declaration, existential types of a constructor, each.
    pub fields: u32,
    /// Size of a module that a rewrite gives.
    pub result_size: u32,
}

impl Limits {
    /// The limits of the program. Takes no memory.
    pub fn standard() -> Limits
        ensures { result ≡ standard_limits }
    {
        Limits {
            modules: 256,
            file_bytes: 4_194_304,
            set_bytes: 16_777_216,
            depth: 500,
            brackets: 2_000,
            size: 400_000,
            fields: 16,
            result_size: 1_500_000,
        }
    }
}
