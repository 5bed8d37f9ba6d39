//! What a walk to a place goes by.
use fc_definition_places::DefinitionPlaces;
use fc_known::Around;
use fc_lint_context::{Context, DeclaredTypes};
use fc_log::Row;
use fc_syntax::NModule;

/// What is asked of the expression at a place.
#[derive(Clone, Copy)]
pub enum Question {
    /// What a row makes of it. The number is that of the alternative that alt-dead takes away, from 0; it counts for no other row.
    Row(Row, usize),
    /// What it becomes where it is the only jump to its join point.
    Jump,
}

/// What a walk to a place is for.
#[derive(Clone, Copy)]
pub struct Asked<'x> {
    /// What is asked there.
    pub question: Question,
    /// The modules whose right sides are known: the one that is changed and those that it imports. Where several have one name, the first counts.
    pub modules: &'x [NModule],
}

/// What is kept of modules while their right sides change.
#[derive(Clone, Copy)]
pub struct Headers<'x> {
    /// The types of what they declare, as a table of types has them.
    pub declared: &'x DeclaredTypes<'x>,
    /// Where they define words.
    pub places: &'x DefinitionPlaces<'x>,
}

/// Where a walk stands.
#[derive(Clone, Copy)]
pub struct Site<'x> {
    /// What the walk is for.
    pub asked: &'x Asked<'x>,
    /// Where the modules whose right sides are known define words.
    pub places: &'x DefinitionPlaces<'x>,
    /// The types of what is in scope.
    pub context: &'x Context<'x>,
    /// What stands around.
    pub around: &'x Around<'x>,
}
