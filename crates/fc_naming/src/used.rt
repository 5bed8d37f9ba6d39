//! The words that the scope of a binder uses, which the binder must not take.
ghost use Rattle.std.specs.Prelude.{IfOk};
ghost use Rattle.fc_model.specs.NamelessView.{nalts_of, nbinder_of, nbinders_of, nbinds_of, nco_of, nexpr_of, njoins_of, nty_of, ntys_of};
ghost use Rattle.fc_model.specs.DeclaredWords.{top_by, words_by_space};
ghost use Rattle.fc_scope.specs.ScopeWords.{locals_of};
ghost use Rattle.fc_naming.specs.Declarations.{FieldsUse};
ghost use Rattle.fc_naming.specs.Named.{AltsUse, BelowUses, CoUses, JoinUses, LamUses, LetUses, TyUses};

use fc_model::{Declared, Spaces};
use fc_scope::Scope;
use fc_syntax::{Memory, NAlt, NBind, NBinder, NCo, NConDecl, NExpr, NJoinBind, NTy};
use fc_used_words::{
    Inside, in_binder, in_group, in_joins, use_alts, use_binders, use_binds, use_co, use_expr,
    use_joins, use_ty, use_tys,
};
use std::alloc::Global;

/// What a binder of a type around a type must not take.
pub fn used_in_type<'x>(
    alloc: Global,
    t: &NTy,
    top: &Declared,
    scope: &'x Scope<'x>,
) -> Result<Spaces, Memory>
    ensures { IfOk result (λ u. TyUses (top_by top.now) (locals_of scope.now) (nty_of t.now) (words_by_space u)) }
{
    let mut used = Spaces::new(alloc);
    let inside = Inside::new().in_type()?;
    use_ty(alloc, &top.own, t, &*scope, inside, &mut used)?;
    Ok(used)
}

/// What a binder of a type around a coercion must not take.
pub fn used_in_coercion<'x>(
    alloc: Global,
    g: &NCo,
    top: &Declared,
    scope: &'x Scope<'x>,
) -> Result<Spaces, Memory>
    ensures { IfOk result (λ u. CoUses (top_by top.now) (locals_of scope.now) (nco_of g.now) (words_by_space u)) }
{
    let mut used = Spaces::new(alloc);
    let inside = Inside::new().in_type()?;
    use_co(alloc, &top.own, g, &*scope, inside, &mut used)?;
    Ok(used)
}

/// What the value that a case binds around its alternatives must not take.
pub fn used_in_alts<'x>(
    alloc: Global,
    alts: &[NAlt],
    top: &Declared,
    scope: &'x Scope<'x>,
) -> Result<Spaces, Memory>
    ensures { IfOk result (λ u. AltsUse (top_by top.now) (locals_of scope.now) (nalts_of alts.now) (words_by_space u)) }
{
    let mut used = Spaces::new(alloc);
    let inside = Inside::new().in_value()?;
    use_alts(alloc, &top.own, alts, &*scope, inside, &mut used)?;
    Ok(used)
}

/// What the binder of a lambda must not take.
pub fn used_in_lambda<'x>(
    alloc: Global,
    e: &NExpr,
    top: &Declared,
    scope: &'x Scope<'x>,
    binder: &NBinder,
) -> Result<Spaces, Memory>
    ensures { IfOk result (λ u. LamUses (top_by top.now) (locals_of scope.now) (nbinder_of binder.now) (nexpr_of e.now) (words_by_space u)) }
{
    let mut used = Spaces::new(alloc);
    let inside = in_binder(Inside::new(), binder)?;
    use_expr(alloc, &top.own, e, &*scope, inside, &mut used)?;
    Ok(used)
}

/// What the binders of an alternative or of a join point must not take.
pub fn used_below<'x>(
    alloc: Global,
    e: &NExpr,
    top: &Declared,
    scope: &'x Scope<'x>,
    binders: &[NBinder],
) -> Result<Spaces, Memory>
    ensures { IfOk result (λ u. BelowUses (top_by top.now) (locals_of scope.now) (nbinders_of binders.now) (nexpr_of e.now) (words_by_space u)) }
{
    let mut used = Spaces::new(alloc);
    let inside = use_binders(alloc, &top.own, binders, &*scope, Inside::new(), &mut used)?;
    use_expr(alloc, &top.own, e, &*scope, inside, &mut used)?;
    Ok(used)
}

/// What the members of a let's group must not take.
pub fn used_in_let<'x>(
    alloc: Global,
    e: &NExpr,
    top: &Declared,
    scope: &'x Scope<'x>,
    recursive: bool,
    binds: &[NBind],
) -> Result<Spaces, Memory>
    ensures { IfOk result (λ u. LetUses (top_by top.now) (locals_of scope.now) recursive (nbinds_of binds.now) (nexpr_of e.now) (words_by_space u)) }
{
    let mut used = Spaces::new(alloc);
    let inside = in_group(Inside::new(), binds)?;
    if recursive {
        use_binds(alloc, &top.own, binds, &*scope, inside, &mut used)?;
    }
    use_expr(alloc, &top.own, e, &*scope, inside, &mut used)?;
    Ok(used)
}

/// What the join points of a group must not take.
pub fn used_in_join<'x>(
    alloc: Global,
    e: &NExpr,
    top: &Declared,
    scope: &'x Scope<'x>,
    recursive: bool,
    joins: &[NJoinBind],
) -> Result<Spaces, Memory>
    ensures { IfOk result (λ u. JoinUses (top_by top.now) (locals_of scope.now) recursive (njoins_of joins.now) (nexpr_of e.now) (words_by_space u)) }
{
    let mut used = Spaces::new(alloc);
    let inside = in_joins(Inside::new(), joins)?;
    if recursive {
        use_joins(alloc, &top.own, joins, &*scope, inside, &mut used)?;
    }
    use_expr(alloc, &top.own, e, &*scope, inside, &mut used)?;
    Ok(used)
}

/// What the binders of a constructor must not take.
pub fn used_in_con<'x>(
    alloc: Global,
    con: &NConDecl,
    top: &Declared,
    scope: &'x Scope<'x>,
) -> Result<Spaces, Memory>
    ensures { IfOk result (λ u. FieldsUse (top_by top.now) (locals_of scope.now) (nbinders_of con.now.binders) (ntys_of con.now.fields) (words_by_space u)) }
{
    let mut used = Spaces::new(alloc);
    let binders = con.binders.as_slice();
    let inside = use_binders(alloc, &top.own, binders, &*scope, Inside::new(), &mut used)?;
    let fields = con.fields.as_slice();
    use_tys(alloc, &top.own, fields, &*scope, inside, &mut used)?;
    Ok(used)
}
