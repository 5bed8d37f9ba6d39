//! What types, coercions and binders of the nameless tree refer to, in the order of their text: each variable by the letter of its space and its
//! distance, and each declared name with its module. `Int#`, kinds, roles and the words of binders refer to nothing.
use fc_printer::put_name;
use fc_refusals::put_number;
use fc_syntax::{Memory, NBinder, NCo, NTy, Name};
use std::alloc::Global;

/// References, each as text.
#[derive(Drop)]
pub(crate) struct References {
    alloc: Global,
    pub(crate) all: Vec<Vec<u8>>,
}

impl References {
    /// None.
    pub(crate) fn new(alloc: Global) -> References {
        References {
            alloc,
            all: Vec::new(alloc),
        }
    }

    /// Puts a variable, by the letter of its space and its distance.
    pub(crate) fn variable(&mut self, space: u8, distance: u32) -> Result<(), Memory> {
        let mut text = Vec::new(self.alloc);
        text.push(space)?;
        put_number(distance, &mut text)?;
        self.all.push(text)?;
        Ok(())
    }

    /// Puts a declared name.
    pub(crate) fn name(&mut self, name: &Name) -> Result<(), Memory> {
        let mut text = Vec::new(self.alloc);
        put_name(name, &mut text)?;
        self.all.push(text)?;
        Ok(())
    }
}

// TYPES AND COERCIONS

/// Puts what a type refers to.
pub(crate) fn in_type(t: &NTy, to: &mut References) -> Result<(), Memory> {
    match t {
        NTy::Var(distance) => to.variable(b't', *distance),
        NTy::Con(name) => to.name(name),
        NTy::IntHash => Ok(()),
        NTy::App(t, u) => {
            in_type(t, to)?;
            in_type(u, to)
        }
        NTy::Fun(t, u) => {
            in_type(t, to)?;
            in_type(u, to)
        }
        NTy::Forall(_, _, body) => in_type(body, to),
        NTy::CoForall(_, left, right, body) => {
            in_type(left, to)?;
            in_type(right, to)?;
            in_type(body, to)
        }
    }
}

/// Puts what types refer to.
pub(crate) fn in_types(types: &[NTy], to: &mut References) -> Result<(), Memory> {
    for t in types {
        in_type(t, to)?;
    }
    Ok(())
}

/// Puts what coercions refer to.
#[cycle(coercions)]
fn in_coercions(all: &[NCo], to: &mut References) -> Result<(), Memory> {
    for g in all {
        in_coercion(g, to)?;
    }
    Ok(())
}

/// Puts what a coercion refers to.
#[cycle(coercions)]
pub(crate) fn in_coercion(g: &NCo, to: &mut References) -> Result<(), Memory> {
    match g {
        NCo::Var(distance) => to.variable(b'c', *distance),
        NCo::Refl(_, t) => in_type(t, to),
        NCo::Tc(_, name, parts) | NCo::Ax(name, parts) => {
            to.name(name)?;
            in_coercions(parts.as_slice(), to)
        }
        NCo::Trans(g, h) | NCo::Capp(g, h) | NCo::FunCo(g, h) | NCo::Inst(g, h) => {
            in_coercion(g, to)?;
            in_coercion(h, to)
        }
        NCo::Sym(g)
        | NCo::AllCo(_, _, g)
        | NCo::Nth(_, g)
        | NCo::Left(g)
        | NCo::Right(g)
        | NCo::Sub(g) => in_coercion(g, to),
        NCo::CoAllCo(_, _, f, g, h) => {
            in_coercion(f, to)?;
            in_coercion(g, to)?;
            in_coercion(h, to)
        }
        NCo::Univ(left, right) => {
            in_type(left, to)?;
            in_type(right, to)
        }
    }
}

// BINDERS

/// Puts what the types of a binder refer to.
pub(crate) fn in_binder(binder: &NBinder, to: &mut References) -> Result<(), Memory> {
    match binder {
        NBinder::Value(_, t) => in_type(t, to),
        NBinder::OfType(_, _) => Ok(()),
        NBinder::OfCo(_, _, left, right) => {
            in_type(left, to)?;
            in_type(right, to)
        }
    }
}

/// Puts what the types of binders refer to.
pub(crate) fn in_binders(binders: &[NBinder], to: &mut References) -> Result<(), Memory> {
    for binder in binders {
        in_binder(binder, to)?;
    }
    Ok(())
}
