//! What coercions prove, as trees.
ghost use Rattle.std.specs.Prelude.{◌≡◌, List, length, IfOk};
ghost use Rattle.fc_syntax.specs.Tree as trees;
ghost use Rattle.fc_model.specs.NamelessView.{nty_of};
ghost use Rattle.fc_type_scope.specs.EndViews.{IsEnds};
ghost use Rattle.fc_type_table.specs.TypeTables.{IsNumber, shown};

use crate::walk::tree_of_type;
use fc_syntax::{Memory, NTy, Role};
use fc_type_scope::Ends;
use fc_type_table::TypeTable;
use std::alloc::Global;

/// What a coercion proves: that two types are equal at a role.
#[derive(Drop)]
pub struct EndTrees {
    /// The role.
    pub role: Role,
    /// What it goes from.
    pub left: NTy,
    /// What it goes to.
    pub right: NTy,
}

/// What a coercion proves, among so many type variables. Fails where memory runs out, and where one of its ends, with the kinds in it,
/// would have more than `most` pieces or nest deeper than 2,000.
pub fn trees_of_ends(
    alloc: Global,
    found: Ends,
    types: &TypeTable,
    variables: u32,
    most: u32,
) -> Result<EndTrees, Memory>
    requires left { IsNumber types.now found.left }
    requires right { IsNumber types.now found.right }
    ensures role { IfOk result (λ e. e.role ≡ found.role) }
    ensures left { (ks : List trees.Kind) → length ks ≡ variables → IsEnds types.now ks found → IfOk result (λ e. nty_of e.left ≡ shown types.now ks found.left) }
    ensures right { (ks : List trees.Kind) → length ks ≡ variables → IsEnds types.now ks found → IfOk result (λ e. nty_of e.right ≡ shown types.now ks found.right) }
{
    let left = tree_of_type(alloc, found.left, types, variables, most)?;
    let right = tree_of_type(alloc, found.right, types, variables, most)?;
    Ok(EndTrees {
        role: found.role,
        left,
        right,
    })
}
