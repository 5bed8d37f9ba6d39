//! The limits on what is read.
ghost use Rattle.std.specs.Prelude.{◌≡◌, ◌≤◌, ◌+◌, min};
ghost use Rattle.std.specs.List.{list_all};
ghost use Rattle.fc_syntax.specs.View.{binders_of, con_of, cons_of, decl_of};
ghost use Rattle.fc_model.specs.ReadFaults.{co_count, con_counts_fit, type_count, counts_fit as spec_counts_fit};
ghost use Rattle.fc_reader.specs.Halting.{IsMeasured};
ghost use Rattle.fc_reader.specs.declared.limits.Halt.TheVariants.{Stop as stopped};
ghost use Rattle.fc_read_parts.specs.declared.parts.Stop.TheVariants.{Memory as memory_stop};

use fc_measures::{add, depth, size_of_decl};
use fc_read_parts::Stop;
use fc_syntax::{Binder, ConDecl, Decl, Limits, Memory};

/// Why a module or an interface was not read to its end.
#[derive(Debug, Drop)]
pub enum Halt {
    /// The form cannot go on, or memory ran out.
    Stop(Stop),
    /// A declaration is too deep; how many tokens are left from its bracket on.
    Depth(usize),
    /// A declaration has too many parts or makes the module too large; how many tokens are left from its bracket on.
    Counts(usize),
}

impl From<Stop> for Halt {
    ghost from_gives = { λ s e. e ≡ stopped s };

    fn from(stop: Stop) -> Halt {
        Halt::Stop(stop)
    }
}

impl From<Memory> for Halt {
    ghost from_gives = { λ _ e. e ≡ stopped memory_stop };

    fn from(_e: Memory) -> Halt {
        Halt::Stop(Stop::Memory)
    }
}

/// What a declaration is to the limits.
#[derive(Debug, Drop)]
pub enum Measured {
    /// It is too deep.
    Deep,
    /// It has too many parts, or is too large with those before it.
    Much,
    /// It fits, and this is the size of all with it.
    Fits(u64),
}

/// How many of the binders bind a type, or `most` where that is less.
fn types_among(binders: &[Binder], most: u64) -> u64
    ensures { result ≡ min (type_count (binders_of binders.now)) most }
{
    let mut sum = 0;
    for b in binders {
        sum = match b {
            Binder::OfType(_, _) => add(sum, 1, most),
            Binder::Value(_, _) => sum,
            Binder::OfCo(_, _, _, _) => sum,
        };
    }
    sum
}

/// How many of the binders bind a coercion, or `most` where that is less.
fn coercions_among(binders: &[Binder], most: u64) -> u64
    ensures { result ≡ min (co_count (binders_of binders.now)) most }
{
    let mut sum = 0;
    for b in binders {
        sum = match b {
            Binder::OfType(_, _) => sum,
            Binder::Value(_, _) => sum,
            Binder::OfCo(_, _, _, _) => add(sum, 1, most),
        };
    }
    sum
}

#[tactic(auto, using(fc_measures::proofs::Leaves::leaf_rules, std::proofs::lemmas::Grind::common_steps))]
fn constructor_fits(con: &ConDecl) -> bool
    ensures { result ≡ con_counts_fit (con_of con.now) }
{
    let most = Limits::standard().fields as u64;
    let types = types_among(con.binders.as_slice(), most + 1);
    let coercions = coercions_among(con.binders.as_slice(), most + 1);
    let parts = add(coercions, con.fields.len() as u64, most + 1);
    types <= most && parts <= most
}

fn constructors_fit(cons: &[ConDecl]) -> bool
    ensures { result ≡ list_all con_counts_fit (cons_of cons.now) }
{
    for con in cons {
        if !constructor_fits(con) {
            return false;
        }
    }
    true
}

#[tactic(auto, using(fc_measures::proofs::Leaves::leaf_rules, std::proofs::lemmas::Grind::common_steps))]
fn counts_fit(decl: &Decl) -> bool
    ensures { result ≡ spec_counts_fit (decl_of decl.now) }
{
    let most = Limits::standard().fields as u64;
    match decl {
        Decl::DataType(_, params, cons) => {
            let fit = constructors_fit(cons.as_slice());
            params.len() as u64 <= most && fit
        }
        Decl::NewType(_, params, _, _) => params.len() as u64 <= most,
        Decl::Family(_, params, _) => params.len() as u64 <= most,
        Decl::Axiom(_, params, _, _) => params.len() as u64 <= most,
        Decl::Def(_, _, _) => true,
        Decl::Wrap(_, _, _) => true,
    }
}

/// What a declaration is to the limits, behind others of this size, where there is this much room for all of them.
pub fn measure(decl: &Decl, size: u64, room: u32) -> Measured
    requires { size ≤ room }
    ensures { IsMeasured room (decl_of decl.now) size result }
{
    let limits = Limits::standard();
    if depth(decl, limits.depth + 1) > limits.depth {
        return Measured::Deep;
    }
    let most = room as u64;
    let all = size + size_of_decl(decl, most + 1);
    if !counts_fit(decl) || all > most {
        return Measured::Much;
    }
    Measured::Fits(all)
}
