//! Lint of what a module declares, beside the right sides of its definitions: exported and hidden words, the declarations of types, and the
//! types of definitions.
#![tactic(auto)]

mod constructors;
mod definition_types;
mod exports;
mod type_declarations;
mod variables;
mod written;

pub use definition_types::lint_definition_types;
pub use exports::lint_exports;
pub use type_declarations::lint_types;
