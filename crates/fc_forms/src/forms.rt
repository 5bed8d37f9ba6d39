//! The parts of an expression of a form.
ghost use Rattle.std.specs.Prelude.{◌≡◌, IsTrue, ◌↔◌};
ghost use Rattle.std.specs.Option.{option_map};
ghost use Rattle.fc_model.specs.Nameless.{NLocal};
ghost use Rattle.fc_model.specs.NamelessView.{nalts_of, nexpr_of};
ghost use Rattle.fc_forms.specs.Forms.{application_of, application_parts, binding_of, binding_parts, case_of, case_parts, cast_of, cast_parts, construction_of, construction_parts, default_body, joining_of, joining_parts, lambda_of, lambda_parts, single_binding_of, single_binding_parts};

use fc_syntax::{Head, NAlt, NArg, NBind, NBinder, NCo, NExpr, NJoinBind, NTy, Name, Ref, Text};

/// The parts of an application.
#[derive(Clone, Copy)]
pub struct Application<'a> {
    /// What is applied.
    pub head: &'a NExpr,
    /// What it is applied to.
    pub argument: &'a NArg,
}

/// The parts of a lambda.
#[derive(Clone, Copy)]
pub struct Lambda<'a> {
    /// Its binder.
    pub binder: &'a NBinder,
    /// What stands behind it.
    pub body: &'a NExpr,
}

/// The parts of a let.
#[derive(Clone, Copy)]
pub struct Binding<'a> {
    /// Whether its bindings are a recursive group.
    pub recursive: bool,
    /// Its bindings, the outermost first.
    pub bindings: &'a [NBind],
    /// What it is for.
    pub body: &'a NExpr,
}

/// The parts of a let of one binding that is not recursive.
#[derive(Clone, Copy)]
pub struct SingleBinding<'a> {
    /// The binding.
    pub binding: &'a NBind,
    /// What it is for.
    pub body: &'a NExpr,
}

/// The parts of a case.
#[derive(Clone, Copy)]
pub struct Case<'a> {
    /// What it looks at.
    pub scrutinee: &'a NExpr,
    /// The word of its binder.
    pub word: &'a Text,
    /// The type of its binder.
    pub ty: &'a NTy,
    /// The type of what it answers.
    pub answer: &'a NTy,
    /// Its alternatives.
    pub alternatives: &'a [NAlt],
}

/// The parts of a constructor with its arguments.
#[derive(Clone, Copy)]
pub struct Construction<'a> {
    /// The name of the constructor.
    pub name: &'a Name,
    /// Its arguments.
    pub arguments: &'a [NArg],
}

/// The parts of a cast.
#[derive(Clone, Copy)]
pub struct Cast<'a> {
    /// What is cast.
    pub inner: &'a NExpr,
    /// By which coercion.
    pub coercion: &'a NCo,
}

/// The parts of an expression with join points.
#[derive(Clone, Copy)]
pub struct Joining<'a> {
    /// Whether its join points are a recursive group.
    pub recursive: bool,
    /// The type of what it answers.
    pub answer: &'a NTy,
    /// Its join points, the outermost first.
    pub points: &'a [NJoinBind],
    /// What they are for.
    pub body: &'a NExpr,
}

/// The parts of an expression where it is an application.
#[tactic(auto, using(fc_syntax::proofs::View::view_rules))]
pub fn as_application<'a>(e: &'a NExpr) -> Option<Application<'a>>
    ensures { option_map application_of result ≡ application_parts (nexpr_of e.now) }
{
    match e {
        NExpr::App(head, argument) => Some(Application {
            head: &**head,
            argument: &**argument,
        }),
        _ => None,
    }
}

/// The parts of an expression where it is a lambda.
#[tactic(auto, using(fc_syntax::proofs::View::view_rules))]
pub fn as_lambda<'a>(e: &'a NExpr) -> Option<Lambda<'a>>
    ensures { option_map lambda_of result ≡ lambda_parts (nexpr_of e.now) }
{
    match e {
        NExpr::Lam(binder, body) => Some(Lambda {
            binder: &**binder,
            body: &**body,
        }),
        _ => None,
    }
}

/// The parts of an expression where it is a let.
#[tactic(auto, using(fc_syntax::proofs::View::view_rules))]
pub fn as_binding<'a>(e: &'a NExpr) -> Option<Binding<'a>>
    ensures { option_map binding_of result ≡ binding_parts (nexpr_of e.now) }
{
    match e {
        NExpr::Let(recursive, bindings, body) => Some(Binding {
            recursive: *recursive,
            bindings: bindings.as_slice(),
            body: &**body,
        }),
        _ => None,
    }
}

/// The parts of an expression where it is a let of one binding that is not recursive.
pub fn as_single_binding<'a>(e: &'a NExpr) -> Option<SingleBinding<'a>>
    ensures { option_map single_binding_of result ≡ single_binding_parts (nexpr_of e.now) }
{
    let let_parts = as_binding(e)?;
    if let_parts.recursive {
        return None;
    }
    match let_parts.bindings {
        [binding] => Some(SingleBinding {
            binding,
            body: let_parts.body,
        }),
        _ => None,
    }
}

/// The parts of an expression where it is a case.
#[tactic(auto, using(fc_syntax::proofs::View::view_rules))]
pub fn as_case<'a>(e: &'a NExpr) -> Option<Case<'a>>
    ensures { option_map case_of result ≡ case_parts (nexpr_of e.now) }
{
    match e {
        NExpr::Case(scrutinee, word, ty, answer, alternatives) => Some(Case {
            scrutinee: &**scrutinee,
            word,
            ty,
            answer,
            alternatives: alternatives.as_slice(),
        }),
        _ => None,
    }
}

/// The parts of an expression where it is a cast.
#[tactic(auto, using(fc_syntax::proofs::View::view_rules))]
pub fn as_cast<'a>(e: &'a NExpr) -> Option<Cast<'a>>
    ensures { option_map cast_of result ≡ cast_parts (nexpr_of e.now) }
{
    match e {
        NExpr::Cast(inner, coercion) => Some(Cast {
            inner: &**inner,
            coercion,
        }),
        _ => None,
    }
}

/// The parts of an expression where it is a constructor with its arguments.
#[tactic(auto, using(fc_syntax::proofs::View::view_rules))]
pub fn as_construction<'a>(e: &'a NExpr) -> Option<Construction<'a>>
    ensures { option_map construction_of result ≡ construction_parts (nexpr_of e.now) }
{
    match e {
        NExpr::Con(name, arguments) => Some(Construction {
            name,
            arguments: arguments.as_slice(),
        }),
        _ => None,
    }
}

/// The parts of an expression where it has join points.
#[tactic(auto, using(fc_syntax::proofs::View::view_rules))]
pub fn as_joining<'a>(e: &'a NExpr) -> Option<Joining<'a>>
    ensures { option_map joining_of result ≡ joining_parts (nexpr_of e.now) }
{
    match e {
        NExpr::Join(recursive, answer, points, body) => Some(Joining {
            recursive: *recursive,
            answer,
            points: points.as_slice(),
            body: &**body,
        }),
        _ => None,
    }
}

/// What the only alternative answers, where it is a default.
pub fn only_default<'a>(alternatives: &'a [NAlt]) -> Option<&'a NExpr>
    ensures { option_map (λ e. nexpr_of e.now) result ≡ default_body (nalts_of alternatives.now) }
{
    match alternatives {
        [alternative] => match (&alternative.head, alternative.binders.is_empty()) {
            (Head::Default, true) => Some(&alternative.body),
            _ => None,
        },
        _ => None,
    }
}

/// Whether an expression is the innermost variable.
#[tactic(auto, using(fc_syntax::proofs::View::view_rules))]
pub fn is_innermost(e: &NExpr) -> bool
    ensures { IsTrue result ↔ (nexpr_of e.now ≡ NLocal 0) }
{
    match e {
        NExpr::Var(Ref::Local(number)) => *number == 0,
        _ => false,
    }
}
