//! Tokens, and readers and printers of the forms of a module.
use fc_lex::tokens;
use fc_printer::{print_module, put_decl, put_expr, put_type};
use fc_probe_files::{File, NoAnswer, line, line_of, module_in, module_in_room};
use fc_reader::{
    Stop, Terminal, Tokens, read_decl, read_expr, read_type, refusal_of, terminals,
    up_to_deep_bracket,
};
use fc_refusals::put_number;
use fc_syntax::{Memory, Seq, Token, TokenKind};
use itoa::Buffer;
use std::alloc::Global;

// TOKENS

/// Appends what a token is, with its value where it has one.
fn put_kind(kind: TokenKind, to: &mut Vec<u8>) -> Result<(), Memory> {
    let mut digits = Buffer::new();
    match kind {
        TokenKind::Open => to.extend_from_slice(b"open")?,
        TokenKind::Close => to.extend_from_slice(b"close")?,
        TokenKind::Word => to.extend_from_slice(b"word")?,
        TokenKind::Number(n) => {
            to.extend_from_slice(b"number ")?;
            to.extend_from_slice(digits.format(n).as_bytes())?;
        }
        TokenKind::Literal(n) => {
            to.extend_from_slice(b"literal ")?;
            to.extend_from_slice(digits.format(n).as_bytes())?;
        }
    }
    Ok(())
}

/// The bytes between which a token stands, and what it is.
fn token_text(alloc: Global, token: Token) -> Result<Vec<u8>, Memory> {
    let mut text = Vec::new(alloc);
    put_number(token.from, &mut text)?;
    text.push(b' ')?;
    put_number(token.to, &mut text)?;
    text.push(b' ')?;
    put_kind(token.kind, &mut text)?;
    Ok(text)
}

/// The tokens of a file.
pub fn tokens_in(alloc: Global, file: &File) -> Result<Vec<u8>, NoAnswer> {
    let tokens = match tokens(alloc, file.bytes()) {
        Ok(tokens) => tokens,
        Err(error) => return Err(refusal_of(alloc, file.name, error).into()),
    };
    let mut parts = Vec::new(alloc);
    for token in tokens.as_slice() {
        parts.push(token_text(alloc, *token)?)?;
    }
    Ok(line_of(alloc, parts.as_slice(), b", ")?)
}

/// What the tokens of a file are to the readers.
fn seen<'a>(alloc: Global, file: &'a File<'_>) -> Result<Seq<Terminal<'a>>, NoAnswer> {
    let bytes = file.bytes();
    match tokens(alloc, bytes) {
        Ok(tokens) => Ok(terminals(alloc, bytes, tokens.as_slice())?),
        Err(error) => Err(refusal_of(alloc, file.name, error).into()),
    }
}

/// The cut of the tokens of a file: how many stand before it, and whether it is at a bracket that nests too deep.
pub fn cut(alloc: Global, file: &File) -> Result<Vec<u8>, NoAnswer> {
    let seen = seen(alloc, file)?;
    let (part, deep) = up_to_deep_bracket(alloc, seen.as_slice());
    let mut digits = Buffer::new();
    let mut text = Vec::from_slice(alloc, digits.format(part.len()).as_bytes())?;
    if deep {
        text.extend_from_slice(b", too deep")?;
    }
    text.push(b'\n')?;
    Ok(text)
}

// FORMS

/// Which form is read.
#[derive(Clone, Copy)]
pub enum Form {
    /// An expression.
    Expression,
    /// A type.
    Type,
    /// A declaration.
    Declaration,
}

/// Appends the text of the form that tokens begin with.
fn put_form(
    alloc: Global,
    form: Form,
    ahead: &mut Tokens<'_>,
    to: &mut Vec<u8>,
) -> Result<(), Stop> {
    match form {
        Form::Expression => put_expr(&read_expr(alloc, ahead)?, to)?,
        Form::Type => put_type(&read_type(alloc, ahead)?, to)?,
        Form::Declaration => put_decl(&read_decl(alloc, ahead)?, to)?,
    }
    Ok(())
}

/// The form that a file begins with, or that its reader stopped, with how many tokens are left.
pub fn form_read(alloc: Global, form: Form, file: &File) -> Result<Vec<u8>, NoAnswer> {
    let seen = seen(alloc, file)?;
    let mut ahead = Tokens::new(alloc, seen.as_slice());
    let mut text = Vec::new(alloc);
    let left = match put_form(alloc, form, &mut ahead, &mut text) {
        Ok(()) => ahead.left(),
        Err(Stop::Form(left)) => {
            text.extend_from_slice(b"stops")?;
            left
        }
        Err(Stop::Memory) => return Err(NoAnswer::Memory),
    };
    let mut digits = Buffer::new();
    text.extend_from_slice(b", ")?;
    text.extend_from_slice(digits.format(left).as_bytes())?;
    text.extend_from_slice(b" left\n")?;
    Ok(text)
}

// MODULES

/// Reads the module of a file, where there is this much room for its declarations.
pub fn reads(alloc: Global, room: u32, file: &File) -> Result<Vec<u8>, NoAnswer> {
    let _module = module_in_room(alloc, file, room)?;
    Ok(line(alloc, "read")?)
}

/// The canonical text of the module of a file.
pub fn printed(alloc: Global, file: &File) -> Result<Vec<u8>, NoAnswer> {
    let m = module_in(alloc, file)?;
    Ok(print_module(alloc, &m)?)
}
