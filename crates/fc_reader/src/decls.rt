//! Declarations, as long as they are within the limits.
ghost use Rattle.std.specs.Prelude.{◌≡◌, ◌<◌, length, true, IfOk, IfErr};
ghost use Rattle.fc_syntax.specs.View.{decls_of};
ghost use Rattle.fc_model.specs.Grammar.{ADeclaration, Many};
ghost use Rattle.fc_model.specs.FileForms.{ModuleFile};
ghost use Rattle.fc_model.specs.Texts.{SomeMembersAt};
ghost use Rattle.fc_model.specs.ReadFaults.{are_within};
ghost use Rattle.fc_read_parts.specs.Reading.{Takes};
ghost use Rattle.fc_read_parts.specs.Seen.{ahead};
ghost use Rattle.fc_reader.specs.Halting.{Halts};

use crate::limits::{Halt, Measured, measure};
use fc_read_parts::{Tokens, closes};
use fc_read_terms::read_declaration;
use fc_syntax::{Decl, Seq};
use std::alloc::Global;

/// Reads declarations up to the closing bracket, and that, where there is room for all of them. Where a declaration is past a limit,
/// the next is not read.
#[tactic(auto, using(fc_read_parts::proofs::Stars::star_rules))]
#[inline(never)]
pub(crate) fn read_decls(
    alloc: Global,
    tokens: &mut Tokens<'_>,
    room: u32,
) -> Result<Seq<Decl>, Halt>
    ensures read { IfOk result (λ x. Takes (Many ADeclaration) (ahead tokens.old) (decls_of x) (ahead tokens.new)) }
    ensures within { IfOk result (λ x. are_within room (decls_of x) ≡ true) }
    ensures shorter { IfOk result (λ _. length (ahead tokens.new) < length (ahead tokens.old)) }
    ensures halt { IfErr result (Halts ModuleFile room (SomeMembersAt ModuleFile) (Many ADeclaration) (ahead tokens.old)) }
{
    let mut all = Seq::new(alloc);
    let mut size = 0;
    'each: loop {
        if closes(tokens) {
            return Ok(all);
        }
        let left = tokens.left();
        let decl = read_declaration(alloc, tokens)?;
        size = match measure(&decl, size, room) {
            Measured::Deep => return Err(Halt::Depth(left)),
            Measured::Much => return Err(Halt::Counts(left)),
            Measured::Fits(all) => all,
        };
        all.push(decl)?;
    }
}
