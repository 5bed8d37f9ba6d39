//! How large declarations and modules are.
ghost use Rattle.std.specs.Prelude.{◌≡◌, ◌+◌, IfOk, max, min};
ghost use Rattle.fc_syntax.specs.View.{con_of, cons_of, decl_of, decls_of, expr_of, module_of, ty_of};
ghost use Rattle.fc_syntax.specs.Measures.{con_depth, con_size, cons_depth, cons_size, decl_nodes, decl_size, depth_of, expr_depth, expr_size, module_nodes, nodes_of, size_of, ty_depth, ty_size};
ghost use Rattle.fc_nameless_measures.specs.Depths.{decls_depth};

use crate::expressions::measures_of_expr;
use crate::measures::{Measures, NOTHING, around, beside};
use crate::types::{of_binders, of_type, of_types};
use fc_numbers::number;
use fc_syntax::{Memory, NConDecl, NDecl, NExpr, NModule, NTy};

/// How large so many parameters are together.
fn of_parameters(count: usize) -> Result<Measures, Memory>
    ensures nodes { IfOk result (λ m. m.nodes ≡ 0) }
    ensures size { IfOk result (λ m. m.size ≡ count) }
    ensures depth { IfOk result (λ m. m.depth ≡ min count 1) }
{
    let size = number(count)?;
    Ok(Measures {
        nodes: 0,
        size,
        depth: size.min(1),
    })
}

/// How large a constructor is; it has no nodes.
fn of_constructor(c: &NConDecl) -> Result<Measures, Memory>
    ensures nodes { IfOk result (λ m. m.nodes ≡ 0) }
    ensures size { IfOk result (λ m. m.size ≡ con_size (con_of c.now)) }
    ensures depth { IfOk result (λ m. m.depth ≡ con_depth (con_of c.now)) }
{
    let binders = of_binders(c.binders.as_slice())?;
    let fields = of_types(c.fields.as_slice())?;
    around(
        0,
        beside(
            Measures {
                nodes: 0,
                ..binders
            },
            fields,
        )?,
    )
}

/// How large constructors are together.
fn of_constructors(items: &[NConDecl]) -> Result<Measures, Memory>
    ensures nodes { IfOk result (λ m. m.nodes ≡ 0) }
    ensures size { IfOk result (λ m. m.size ≡ cons_size (cons_of items.now)) }
    ensures depth { IfOk result (λ m. m.depth ≡ cons_depth (cons_of items.now)) }
{
    let mut all = NOTHING;
    for x in items {
        all = beside(all, of_constructor(x)?)?;
    }
    Ok(all)
}

/// How large a definition is, by its type and its right side.
fn of_definition(t: &NTy, e: &NExpr) -> Result<Measures, Memory>
    ensures nodes { IfOk result (λ m. m.nodes ≡ 1 + nodes_of (expr_of e.now)) }
    ensures size { IfOk result (λ m. m.size ≡ 1 + (ty_size (ty_of t.now) + expr_size (expr_of e.now))) }
    ensures depth { IfOk result (λ m. m.depth ≡ 1 + max (ty_depth (ty_of t.now)) (expr_depth (expr_of e.now))) }
{
    let t = of_type(t)?;
    let e = measures_of_expr(e)?;
    around(1, beside(t, e)?)
}

/// How large a declaration is: its size and depth, and its nodes where it is a definition. Fails only where a number has no 32 bits; takes no memory.
#[tactic(auto, using(fc_measures::proofs::Leaves::leaf_rules))]
pub fn measures_of_decl(d: &NDecl) -> Result<Measures, Memory>
    ensures nodes { IfOk result (λ m. m.nodes ≡ decl_nodes (decl_of d.now)) }
    ensures size { IfOk result (λ m. m.size ≡ decl_size (decl_of d.now)) }
    ensures depth { IfOk result (λ m. m.depth ≡ depth_of (decl_of d.now)) }
{
    match d {
        NDecl::DataType(_, params, cons) => {
            let params = of_parameters(params.len())?;
            let cons = of_constructors(cons.as_slice())?;
            around(0, beside(params, cons)?)
        }
        NDecl::NewType(_, params, t, _) => {
            let params = of_parameters(params.len())?;
            around(0, beside(params, of_type(t)?)?)
        }
        NDecl::Family(_, params, _) => around(0, of_parameters(params.len())?),
        NDecl::Axiom(_, params, left, right) => {
            let params = of_parameters(params.len())?;
            let types = beside(of_type(left)?, of_type(right)?)?;
            around(0, beside(params, types)?)
        }
        NDecl::Def(_, t, e) => of_definition(t, e),
        NDecl::Wrap(_, t, e) => of_definition(t, e),
    }
}

/// How large the declarations of a module are together. Fails only where a number has no 32 bits; takes no memory.
pub fn measures_of_module(m: &NModule) -> Result<Measures, Memory>
    ensures nodes { IfOk result (λ r. r.nodes ≡ module_nodes (module_of m.now)) }
    ensures size { IfOk result (λ r. r.size ≡ size_of (module_of m.now)) }
    ensures depth { IfOk result (λ r. r.depth ≡ decls_depth (decls_of m.now.decls)) }
{
    let mut all = NOTHING;
    for x in m.decls.as_slice() {
        all = beside(all, measures_of_decl(x)?)?;
    }
    Ok(all)
}
