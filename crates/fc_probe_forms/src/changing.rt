//! Nameless modules that are copied, measured and changed.
use crate::names::named;
use crate::right_sides::exchange_right_side;
use fc_copies::nameless::{copy_arg, copy_module};
use fc_nameless_measures::{Measures, measures_of_decl, measures_of_module};
use fc_numbers::number;
use fc_occur::{jumps_to_innermost, occurrences_of_innermost};
use fc_outlines::outline;
use fc_places::exchange;
use fc_probe_files::{File, NoAnswer, form_in, line, number_in};
use fc_refusals::put_number;
use fc_rows::Occurrence;
use fc_subst::{NO_BINDERS, Replacement, Shift, substitute, substitute_arguments};
use fc_syntax::{Memory, NBinder, NExpr, Seq};
use std::alloc::Global;

// COPIES, OUTLINES AND MEASURES

/// What a copy of the nameless form of the module of a file is named back to.
pub fn copied(alloc: Global, file: &File) -> Result<Vec<u8>, NoAnswer> {
    let form = form_in(alloc, file)?;
    let copy = copy_module(alloc, &form)?;
    Ok(named(alloc, &copy)?)
}

/// What the outline of the nameless form of the module of a file is named back to.
pub fn outlined(alloc: Global, file: &File) -> Result<Vec<u8>, NoAnswer> {
    let form = form_in(alloc, file)?;
    let outline = outline(alloc, &form)?;
    Ok(named(alloc, &outline)?)
}

/// Appends nodes, size and depth, with blanks between them, and a text behind them.
fn put_measures(m: Measures, behind: &[u8], to: &mut Vec<u8>) -> Result<(), Memory> {
    put_number(m.nodes, to)?;
    to.push(b' ')?;
    put_number(m.size, to)?;
    to.push(b' ')?;
    put_number(m.depth, to)?;
    to.extend_from_slice(behind)?;
    Ok(())
}

/// Nodes, size and depth of each declaration of the module of a file, in its nameless form, and of all of them together.
pub fn measured(alloc: Global, file: &File) -> Result<Vec<u8>, NoAnswer> {
    let form = form_in(alloc, file)?;
    let mut text = Vec::new(alloc);
    for decl in form.decls.as_slice() {
        put_measures(measures_of_decl(decl)?, b", ", &mut text)?;
    }
    put_measures(measures_of_module(&form)?, b"\n", &mut text)?;
    Ok(text)
}

// EXCHANGES

/// Part numbers between the points of a text, none where it is a hyphen.
fn place_of(alloc: Global, text: &str) -> Result<Vec<u32>, NoAnswer> {
    let mut place = Vec::new(alloc);
    if text == "-" {
        return Ok(place);
    }
    for number in text.split('.') {
        place.push(number_in(number)?)?;
    }
    Ok(place)
}

/// What the module of a file is named back to, after the right side of the last definition but one was put at a place of the last one's, and what stood there
/// was put in its stead.
pub fn exchanged(alloc: Global, place: &str, file: &File) -> Result<Vec<u8>, NoAnswer> {
    let place = place_of(alloc, place)?;
    let mut form = form_in(alloc, file)?;
    let mut whole = NExpr::Lit(0);
    let mut part = NExpr::Lit(0);
    exchange_right_side(&mut form, 0, &mut whole);
    exchange_right_side(&mut form, 1, &mut part);
    match exchange(&mut whole, place.as_slice(), part) {
        Ok(old) => {
            part = old;
            exchange_right_side(&mut form, 0, &mut whole);
            exchange_right_side(&mut form, 1, &mut part);
            Ok(named(alloc, &form)?)
        }
        Err(_) => Ok(line(alloc, "nowhere")?),
    }
}

// SUBSTITUTION

/// The body of lambdas at the arguments that they are applied to, where there are as many of both.
fn at_arguments(alloc: Global, e: &NExpr) -> Result<NExpr, NoAnswer> {
    let mut given = Vec::new(alloc);
    let mut head = e;
    for _ in 0..u32::MAX {
        let NExpr::App(inner, argument) = head else {
            break;
        };
        given.push(&**argument)?;
        head = inner;
    }
    let mut args = Seq::new(alloc);
    for argument in given.iter().rev() {
        args.push(copy_arg(alloc, *argument)?)?;
    }
    let mut body = head;
    for _ in 0..args.len() {
        let NExpr::Lam(_, inner) = body else {
            return Err(NoAnswer::Usage);
        };
        body = inner;
    }
    Ok(substitute_arguments(alloc, args.as_slice(), body, &Replacement::Same)?)
}

/// How many binders the outermost piece binds around its last part, and that part.
fn below(e: &NExpr) -> Result<(Shift, &NExpr), NoAnswer> {
    match e {
        NExpr::Let(_, binds, body) => {
            let values = number(binds.len())?;
            Ok((
                Shift {
                    values,
                    ..NO_BINDERS
                },
                body,
            ))
        }
        NExpr::Join(_, _, joins, body) => {
            let joins = number(joins.len())?;
            Ok((
                Shift {
                    joins,
                    ..NO_BINDERS
                },
                body,
            ))
        }
        NExpr::Lam(binder, body) => match &**binder {
            NBinder::Value(_, _) => Ok((
                Shift {
                    values: 1,
                    ..NO_BINDERS
                },
                body,
            )),
            NBinder::OfType(_, _) => Ok((
                Shift {
                    types: 1,
                    ..NO_BINDERS
                },
                body,
            )),
            NBinder::OfCo(_, _, _, _) => Ok((
                Shift {
                    coercions: 1,
                    ..NO_BINDERS
                },
                body,
            )),
        },
        _ => Err(NoAnswer::Usage),
    }
}

/// The last part of what binds, without its binders.
fn without_binders(alloc: Global, e: &NExpr) -> Result<NExpr, NoAnswer> {
    let (shift, body) = below(e)?;
    Ok(substitute(alloc, body, &Replacement::Without(shift))?)
}

/// What is done to an expression.
#[derive(Clone, Copy)]
pub enum Change {
    /// Lambdas that are applied to arguments become their body at the arguments.
    Arguments,
    /// What binds becomes its last part, without the binders.
    Binders,
}

/// What the module of a file is named back to, after this was done to the expression at a place of the right side of its last definition.
pub fn changed(
    alloc: Global,
    change: Change,
    place: &str,
    file: &File,
) -> Result<Vec<u8>, NoAnswer> {
    let place = place_of(alloc, place)?;
    let mut form = form_in(alloc, file)?;
    let mut whole = NExpr::Lit(0);
    exchange_right_side(&mut form, 0, &mut whole);
    let Ok(part) = exchange(&mut whole, place.as_slice(), NExpr::Lit(0)) else {
        return Err(NoAnswer::Usage);
    };
    let done = match change {
        Change::Arguments => at_arguments(alloc, &part)?,
        Change::Binders => without_binders(alloc, &part)?,
    };
    let Ok(_) = exchange(&mut whole, place.as_slice(), done) else {
        return Err(NoAnswer::Usage);
    };
    exchange_right_side(&mut form, 0, &mut whole);
    Ok(named(alloc, &form)?)
}

// OCCURRENCES

/// How often what binds there binds something that occurs in its last part.
fn occurrence_below(e: &NExpr) -> Result<Occurrence, NoAnswer> {
    let (shift, body) = below(e)?;
    if shift.joins > 0 {
        Ok(jumps_to_innermost(body, shift.joins)?)
    } else {
        Ok(occurrences_of_innermost(body, shift.values)?)
    }
}

fn occurrence_text(occurrence: Occurrence) -> &'static str {
    match occurrence {
        Occurrence::Dead => "dead",
        Occurrence::Once => "once",
        Occurrence::OnceAsField => "once as a field",
        Occurrence::OnceInside => "once inside",
        Occurrence::Many => "many",
    }
}

/// How often the values or join points that the expression at a place of the right side of the last definition of a file binds occur in its last part.
pub fn occurring(alloc: Global, place: &str, file: &File) -> Result<Vec<u8>, NoAnswer> {
    let place = place_of(alloc, place)?;
    let mut form = form_in(alloc, file)?;
    let mut whole = NExpr::Lit(0);
    exchange_right_side(&mut form, 0, &mut whole);
    let Ok(part) = exchange(&mut whole, place.as_slice(), NExpr::Lit(0)) else {
        return Err(NoAnswer::Usage);
    };
    let occurrence = occurrence_below(&part)?;
    Ok(line(alloc, occurrence_text(occurrence))?)
}
