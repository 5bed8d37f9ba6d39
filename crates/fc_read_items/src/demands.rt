//! Demands and signatures.
ghost use Rattle.std.specs.Prelude.{◌≡◌, ◌<◌, length, map, None, Some, IfNone, IfOk, IfErr, IfSome};
ghost use Rattle.fc_syntax.specs.Demands.{Product};
ghost use Rattle.fc_model.specs.Grammar.{ADemand, ADemandForm, ASignature, Many, SignatureEnd, demand_word_row, gives};
ghost use Rattle.fc_lattice.specs.View.{demand_of, demands_of, sig_of};
ghost use Rattle.fc_read_parts.specs.Reading.{StopsAt, Takes};
ghost use Rattle.fc_read_parts.specs.Seen.{ahead};

use crate::words::{read_this, takes_diverges};
use fc_lattice::{Demand, Sig};
use fc_read_parts::{Stop, Terminal, Tokens, closes, read_close, read_upper_name};
use fc_syntax::{Name, Seq};
use std::alloc::Global;

/// The demand that a word is.
#[tactic(auto, using(fc_lattice::proofs::View::demand_rules))]
fn demand_of_word(word: &str) -> Option<Demand>
    ensures none { IfNone result (demand_word_row word.now ≡ None) }
    ensures some { IfSome result (λ d. demand_word_row word.now ≡ Some (gives (demand_of d))) }
{
    if word == "B" {
        Some(Demand::B)
    } else if word == "A" {
        Some(Demand::A)
    } else if word == "S" {
        Some(Demand::S)
    } else if word == "L" {
        Some(Demand::L)
    } else {
        None
    }
}

/// A value that is taken apart.
#[tactic(auto, using(fc_lattice::proofs::View::demand_rules))]
fn product(constructor: Name, fields: Seq<Demand>) -> Demand
    ensures { demand_of result ≡ Product constructor (demands_of fields) }
{
    Demand::P(constructor, fields)
}

/// Reads a demand. Stops at the first token that cannot go on.
#[cycle(demands)]
#[inline(never)]
fn read_demand(alloc: Global, tokens: &mut Tokens<'_>) -> Result<Demand, Stop>
    ensures read { IfOk result (λ x. Takes ADemand (ahead tokens.old) (demand_of x) (ahead tokens.new)) }
    ensures shorter { IfOk result (λ _. length (ahead tokens.new) < length (ahead tokens.old)) }
    ensures fault { IfErr result (StopsAt ADemand (ahead tokens.old)) }
{
    let left = tokens.left();
    match tokens.next() {
        Some(Terminal::Upper(word)) => match demand_of_word(word) {
            Some(demand) => Ok(demand),
            None => Err(Stop::Form(left)),
        },
        Some(Terminal::Open) => read_demand_form(alloc, tokens),
        _ => Err(Stop::Form(left)),
    }
}

/// A demand behind its opening bracket.
#[cycle(demands)]
#[tactic(auto, using(crate::proofs::Lists::demands_are))]
#[inline(never)]
fn read_demand_form(alloc: Global, tokens: &mut Tokens<'_>) -> Result<Demand, Stop>
    ensures read { IfOk result (λ x. Takes ADemandForm (ahead tokens.old) (demand_of x) (ahead tokens.new)) }
    ensures shorter { IfOk result (λ _. length (ahead tokens.new) < length (ahead tokens.old)) }
    ensures fault { IfErr result (StopsAt ADemandForm (ahead tokens.old)) }
{
    let left = tokens.left();
    match tokens.next() {
        Some(Terminal::Upper(word)) if word == "P" => {
            let constructor = read_upper_name(alloc, tokens)?;
            let fields = read_demands(alloc, tokens)?;
            Ok(product(constructor, fields))
        }
        _ => Err(Stop::Form(left)),
    }
}

/// Demands up to the closing bracket, and that.
#[cycle(demands)]
#[tactic(auto, using(fc_read_parts::proofs::Stars::star_rules))]
#[inline(never)]
fn read_demands(alloc: Global, tokens: &mut Tokens<'_>) -> Result<Seq<Demand>, Stop>
    ensures read { IfOk result (λ x. Takes (Many ADemand) (ahead tokens.old) (map demand_of x) (ahead tokens.new)) }
    ensures shorter { IfOk result (λ _. length (ahead tokens.new) < length (ahead tokens.old)) }
    ensures fault { IfErr result (StopsAt (Many ADemand) (ahead tokens.old)) }
{
    let mut all = Seq::new(alloc);
    'each: loop {
        if closes(tokens) {
            return Ok(all);
        }
        all.push(read_demand(alloc, tokens)?)?;
    }
}

/// The demands of a signature and whether it diverges, up to the closing bracket, and that.
#[tactic(auto, using(crate::proofs::Signatures::sig_closed))]
fn read_signature_end(alloc: Global, tokens: &mut Tokens<'_>) -> Result<Sig, Stop>
    ensures read { IfOk result (λ x. Takes SignatureEnd (ahead tokens.old) (sig_of x) (ahead tokens.new)) }
    ensures shorter { IfOk result (λ _. length (ahead tokens.new) < length (ahead tokens.old)) }
    ensures fault { IfErr result (StopsAt SignatureEnd (ahead tokens.old)) }
{
    let mut args = Seq::new(alloc);
    'each: loop {
        if closes(tokens) {
            return Ok(Sig {
                args,
                diverges: false,
            });
        }
        if takes_diverges(tokens) {
            read_close(tokens)?;
            return Ok(Sig {
                args,
                diverges: true,
            });
        }
        args.push(read_demand(alloc, tokens)?)?;
    }
}

/// Reads a signature. Stops at the first token that cannot go on.
pub(crate) fn read_signature(alloc: Global, tokens: &mut Tokens<'_>) -> Result<Sig, Stop>
    ensures read { IfOk result (λ x. Takes ASignature (ahead tokens.old) (sig_of x) (ahead tokens.new)) }
    ensures shorter { IfOk result (λ _. length (ahead tokens.new) < length (ahead tokens.old)) }
    ensures fault { IfErr result (StopsAt ASignature (ahead tokens.old)) }
{
    let left = tokens.left();
    let Some(Terminal::Open) = tokens.next() else {
        return Err(Stop::Form(left));
    };
    read_this(tokens, "sig")?;
    let sig = read_signature_end(alloc, tokens)?;
    Ok(sig)
}
