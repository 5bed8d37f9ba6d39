//! The module, its header and what stands behind it.
ghost use Rattle.std.specs.Prelude.{◌≡◌, ◌<◌, length, true, IfOk, IfErr};
ghost use Rattle.fc_syntax.specs.View.{decls_of, module_of};
ghost use Rattle.fc_syntax.specs.Tree.{ModuleOf};
ghost use Rattle.fc_model.specs.Grammar.{ABody, AHeader, AModule, AModuleName, AName, BodyOf, HeaderOf, Many};
ghost use Rattle.fc_model.specs.FileForms.{ModuleFile};
ghost use Rattle.fc_model.specs.Texts.{SomeBodyAt, BeginsWith};
ghost use Rattle.fc_model.specs.ReadFaults.{are_within, decls_within};
ghost use Rattle.fc_read_parts.specs.Reading.{StopsAt, Takes};
ghost use Rattle.fc_read_parts.specs.Seen.{ahead};
ghost use Rattle.fc_reader.specs.Halting.{Halts};

use crate::decls::read_decls;
use crate::limits::Halt;
use fc_read_parts::{
    Stop, Terminal, Tokens, closes, opens_hidden, read_module_name, read_name, read_open, read_word,
};
use fc_syntax::{Decl, Keyword, Module, Seq, Text};
use std::alloc::Global;

/// The front of a module or an interface.
#[derive(Debug, Drop)]
pub struct Header {
    /// The name of the module.
    pub name: Text,
    /// The modules that it imports.
    pub imports: Seq<Text>,
    /// The names that it exports.
    pub exports: Seq<Text>,
}

/// What stands behind the header of a module.
#[derive(Drop)]
pub(crate) struct Body {
    /// The hidden names, none where the part is left out.
    hidden: Seq<Text>,
    /// The declarations in their order.
    decls: Seq<Decl>,
}

/// Reads names up to the closing bracket, and that. Stops at the first token that cannot go on.
#[tactic(auto, using(fc_read_parts::proofs::Stars::star_rules))]
pub fn read_names(alloc: Global, tokens: &mut Tokens<'_>) -> Result<Seq<Text>, Stop>
    ensures read { IfOk result (λ x. Takes (Many AName) (ahead tokens.old) x (ahead tokens.new)) }
    ensures shorter { IfOk result (λ _. length (ahead tokens.new) < length (ahead tokens.old)) }
    ensures fault { IfErr result (StopsAt (Many AName) (ahead tokens.old)) }
{
    let mut all = Seq::new(alloc);
    'each: loop {
        if closes(tokens) {
            return Ok(all);
        }
        all.push(read_name(alloc, tokens)?)?;
    }
}

/// Reads names of modules up to the closing bracket, and that. Stops at the first token that cannot go on.
#[tactic(auto, using(fc_read_parts::proofs::Stars::star_rules))]
pub fn read_module_names(alloc: Global, tokens: &mut Tokens<'_>) -> Result<Seq<Text>, Stop>
    ensures read { IfOk result (λ x. Takes (Many AModuleName) (ahead tokens.old) x (ahead tokens.new)) }
    ensures shorter { IfOk result (λ _. length (ahead tokens.new) < length (ahead tokens.old)) }
    ensures fault { IfErr result (StopsAt (Many AModuleName) (ahead tokens.old)) }
{
    let mut all = Seq::new(alloc);
    'each: loop {
        if closes(tokens) {
            return Ok(all);
        }
        all.push(read_module_name(alloc, tokens)?)?;
    }
}

/// Reads a module up to the names that it exports. Stops at the first token that cannot go on.
fn read_header(alloc: Global, tokens: &mut Tokens<'_>) -> Result<Header, Stop>
    ensures read { IfOk result (λ x. Takes AHeader (ahead tokens.old) (HeaderOf x.name x.imports x.exports) (ahead tokens.new)) }
    ensures shorter { IfOk result (λ _. length (ahead tokens.new) < length (ahead tokens.old)) }
    ensures fault { IfErr result (StopsAt AHeader (ahead tokens.old)) }
{
    let left = tokens.left();
    let Some(Terminal::Open) = tokens.next() else {
        return Err(Stop::Form(left));
    };
    read_word(tokens, Keyword::Module)?;
    let name = read_module_name(alloc, tokens)?;
    read_open(tokens)?;
    read_word(tokens, Keyword::Imports)?;
    let imports = read_module_names(alloc, tokens)?;
    read_open(tokens)?;
    read_word(tokens, Keyword::Exports)?;
    let exports = read_names(alloc, tokens)?;
    Ok(Header {
        name,
        imports,
        exports,
    })
}

/// Reads the hidden names, where there are any, and the declarations, as long as these are within the limits and there is room
/// for them.
fn read_body(alloc: Global, tokens: &mut Tokens<'_>, room: u32) -> Result<Body, Halt>
    ensures read { IfOk result (λ x. Takes ABody (ahead tokens.old) (BodyOf x.hidden (decls_of x.decls)) (ahead tokens.new)) }
    ensures within { IfOk result (λ x. are_within room (decls_of x.decls) ≡ true) }
    ensures shorter { IfOk result (λ _. length (ahead tokens.new) < length (ahead tokens.old)) }
    ensures halt { IfErr result (Halts ModuleFile room (SomeBodyAt ModuleFile) ABody (ahead tokens.old)) }
{
    if opens_hidden(tokens) {
        let hidden = read_names(alloc, tokens)?;
        let decls = read_decls(alloc, tokens, room)?;
        return Ok(Body { hidden, decls });
    }
    let hidden = Seq::new(alloc);
    let decls = read_decls(alloc, tokens, room)?;
    Ok(Body { hidden, decls })
}

/// The module of a header and what stands behind it.
fn joined(header: Header, body: Body) -> Module
    ensures { module_of result ≡ ModuleOf header.name header.imports header.exports body.hidden (decls_of body.decls) }
{
    let Header {
        name,
        imports,
        exports,
    } = header;
    let Body { hidden, decls } = body;
    Module {
        name,
        imports,
        exports,
        hidden,
        decls,
    }
}

/// Reads a module, as long as its declarations are within the limits and there is room for them.
pub(crate) fn read_module_form(
    alloc: Global,
    tokens: &mut Tokens<'_>,
    room: u32,
) -> Result<Module, Halt>
    ensures read { IfOk result (λ x. Takes AModule (ahead tokens.old) (module_of x) (ahead tokens.new)) }
    ensures within { IfOk result (λ x. decls_within room (module_of x) ≡ true) }
    ensures shorter { IfOk result (λ _. length (ahead tokens.new) < length (ahead tokens.old)) }
    ensures halt { IfErr result (Halts ModuleFile room (BeginsWith ModuleFile) AModule (ahead tokens.old)) }
{
    let header = read_header(alloc, tokens)?;
    let body = read_body(alloc, tokens, room)?;
    Ok(joined(header, body))
}
