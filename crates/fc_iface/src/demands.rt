//! Prints demands and signatures.
ghost use Rattle.std.specs.Prelude.{◌≡◌, ◌++◌, OnOk};
ghost use Rattle.fc_model.specs.Pieces.{NoPieces, first_text, spaced_text};
ghost use Rattle.fc_lattice.specs.View.{demand_of, demands_of, sig_of};
ghost use Rattle.fc_model.specs.InterfaceTexts.{demand_pieces, demands_pieces, sig_pieces};

use fc_lattice::{Demand, Sig};
use fc_printer::put_name;
use fc_syntax::Memory;

#[cycle(demands)]
#[tactic(auto, using(crate::proofs::Spaced::demand_rules))]
fn put_demand(d: &Demand, to: &mut Vec<u8>) -> Result<(), Memory>
    ensures { OnOk result (to.new.items ≡ to.old.items ++ first_text (demand_pieces (demand_of d.now) NoPieces)) }
{
    match d {
        Demand::B => to.push(b'B')?,
        Demand::A => to.push(b'A')?,
        Demand::P(constructor, fields) => {
            to.extend_from_slice(b"(P ")?;
            put_name(constructor, to)?;
            put_next_demands(fields.as_slice(), to)?;
            to.push(b')')?;
        }
        Demand::S => to.push(b'S')?,
        Demand::L => to.push(b'L')?,
    }
    Ok(())
}

#[cycle(demands)]
#[tactic(auto, using(crate::proofs::Spaced::next_demand, std::proofs::lemmas::Grind::common_steps))]
fn put_next_demands(demands: &[Demand], to: &mut Vec<u8>) -> Result<(), Memory>
    ensures { OnOk result (to.new.items ≡ to.old.items ++ spaced_text (demands_pieces (demands_of demands.now) NoPieces)) }
{
    for d in demands {
        to.push(b' ')?;
        put_demand(d, to)?;
    }
    Ok(())
}

/// Appends the text of a signature. Where memory runs out, the bytes before stand and a part of the text may follow.
#[tactic(auto, using(crate::proofs::Spaced::sig_rules))]
pub(crate) fn put_sig(s: &Sig, to: &mut Vec<u8>) -> Result<(), Memory>
    ensures { OnOk result (to.new.items ≡ to.old.items ++ first_text (sig_pieces (sig_of s.now) NoPieces)) }
{
    to.extend_from_slice(b"(sig")?;
    put_next_demands(s.args.as_slice(), to)?;
    if s.diverges {
        to.extend_from_slice(b" diverges")?;
    }
    to.push(b')')?;
    Ok(())
}
