//! The interface, its header and what stands behind it.
ghost use Rattle.std.specs.Prelude.{◌≡◌, ◌<◌, length, codes, true, IfOk, IfErr};
ghost use Rattle.fc_syntax.specs.View.{decls_of, module_of};
ghost use Rattle.fc_syntax.specs.Tree.{ModuleOf};
ghost use Rattle.fc_model.specs.Grammar.{AThis, here, AnInterface, AnInterfaceBody, AnInterfaceHeader, BodyOf, HeaderOf, InterfaceOf};
ghost use Rattle.fc_model.specs.FileForms.{InterfaceFile};
ghost use Rattle.fc_model.specs.Texts.{SomeBodyAt, BeginsWith};
ghost use Rattle.fc_model.specs.ReadFaults.{are_within, decls_within};
ghost use Rattle.fc_lattice.specs.View.{as_interface, sigs_of};
ghost use Rattle.fc_read_parts.specs.Reading.{StopsAt, Takes};
ghost use Rattle.fc_read_parts.specs.Seen.{ahead};
ghost use Rattle.fc_reader.specs.Halting.{Halts};
ghost use Rattle.fc_read_interface.specs.Made.{MadeOf};

use crate::items::{Items, read_items};
use fc_lattice::Interface;
use fc_read_items::{read_this, read_this_number};
use fc_read_parts::{Stop, Terminal, Tokens, opens_hidden, read_module_name, read_open, read_word};
use fc_reader::{Halt, Header, read_module_names, read_names};
use fc_syntax::{Keyword, Module, Seq, Text};
use std::alloc::Global;

/// What stands behind the header of an interface.
#[derive(Drop)]
struct Body {
    /// The hidden names, none where the part is left out.
    hidden: Seq<Text>,
    /// What its items make.
    items: Items,
}

/// Reads `interface`. Stops at any other token.
fn read_interface_word(tokens: &mut Tokens<'_>) -> Result<(), Stop>
    ensures read { IfOk result (λ _. Takes (AThis (codes "interface")) (ahead tokens.old) here (ahead tokens.new)) }
    ensures shorter { IfOk result (λ _. length (ahead tokens.new) < length (ahead tokens.old)) }
    ensures fault { IfErr result (StopsAt (AThis (codes "interface")) (ahead tokens.old)) }
{
    read_this(tokens, "interface")
}

/// Reads an interface up to the names that it exports. Stops at the first token that cannot go on.
fn read_header(alloc: Global, tokens: &mut Tokens<'_>) -> Result<Header, Stop>
    ensures read { IfOk result (λ x. Takes AnInterfaceHeader (ahead tokens.old) (HeaderOf x.name x.imports x.exports) (ahead tokens.new)) }
    ensures shorter { IfOk result (λ _. length (ahead tokens.new) < length (ahead tokens.old)) }
    ensures fault { IfErr result (StopsAt AnInterfaceHeader (ahead tokens.old)) }
{
    let left = tokens.left();
    let Some(Terminal::Open) = tokens.next() else {
        return Err(Stop::Form(left));
    };
    read_interface_word(tokens)?;
    read_this_number(tokens, 1)?;
    let name = read_module_name(alloc, tokens)?;
    read_open(tokens)?;
    read_word(tokens, Keyword::Imports)?;
    let imports = read_module_names(alloc, tokens)?;
    read_open(tokens)?;
    read_word(tokens, Keyword::Exports)?;
    let exports = read_names(alloc, tokens)?;
    Ok(Header {
        name,
        imports,
        exports,
    })
}

/// Reads the hidden names, where there are any, and the items, as long as their declarations are within the limits and there is room
/// for them.
fn read_body(alloc: Global, tokens: &mut Tokens<'_>, room: u32) -> Result<Body, Halt>
    ensures read { IfOk result (λ x. MadeOf (λ items. Takes AnInterfaceBody (ahead tokens.old) (BodyOf x.hidden items) (ahead tokens.new)) x.items) }
    ensures within { IfOk result (λ x. are_within room (decls_of x.items.decls) ≡ true) }
    ensures shorter { IfOk result (λ _. length (ahead tokens.new) < length (ahead tokens.old)) }
    ensures halt { IfErr result (Halts InterfaceFile room (SomeBodyAt InterfaceFile) AnInterfaceBody (ahead tokens.old)) }
{
    if opens_hidden(tokens) {
        let hidden = read_names(alloc, tokens)?;
        let items = read_items(alloc, tokens, room)?;
        return Ok(Body { hidden, items });
    }
    let hidden = Seq::new(alloc);
    let items = read_items(alloc, tokens, room)?;
    Ok(Body { hidden, items })
}

/// The interface of a header and what stands behind it.
fn joined(header: Header, body: Body) -> Interface
    ensures { as_interface result ≡ InterfaceOf (ModuleOf header.name header.imports header.exports body.hidden (decls_of body.items.decls)) (sigs_of body.items.sigs) body.items.told }
{
    let Header {
        name,
        imports,
        exports,
    } = header;
    let Body { hidden, items } = body;
    let Items { decls, sigs, told } = items;
    let module = Module {
        name,
        imports,
        exports,
        hidden,
        decls,
    };
    Interface {
        module,
        sigs,
        unfold: told,
    }
}

/// Reads an interface, as long as its declarations are within the limits and there is room for them.
pub(crate) fn read_interface_form(
    alloc: Global,
    tokens: &mut Tokens<'_>,
    room: u32,
) -> Result<Interface, Halt>
    ensures read { IfOk result (λ x. Takes AnInterface (ahead tokens.old) (as_interface x) (ahead tokens.new)) }
    ensures within { IfOk result (λ x. decls_within room (module_of x.module) ≡ true) }
    ensures shorter { IfOk result (λ _. length (ahead tokens.new) < length (ahead tokens.old)) }
    ensures halt { IfErr result (Halts InterfaceFile room (BeginsWith InterfaceFile) AnInterface (ahead tokens.old)) }
{
    let header = read_header(alloc, tokens)?;
    let body = read_body(alloc, tokens, room)?;
    Ok(joined(header, body))
}
