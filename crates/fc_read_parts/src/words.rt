//! The words of the forms, and the signs of kinds and primitives.
ghost use Rattle.std.specs.Prelude.{◌≡◌, None, IfNone, IfSome, Some};
ghost use Rattle.fc_syntax.specs.Keywords.{keywords};
ghost use Rattle.fc_model.specs.Words as spec;
ghost use Rattle.fc_read_parts.specs.Lengths.{of_length};
ghost use Rattle.fc_read_parts.specs.Seen.{seen};

use crate::terminal::Terminal;
use fc_syntax::{Keyword, PrimOp};

/// The word of a form of two bytes that these bytes are.
fn of_two(word: &[u8]) -> Option<Keyword>
    ensures { result ≡ spec.keyword_among (of_length 2 keywords) word.now }
{
    match word {
        b"co" => Some(Keyword::Co),
        b"tc" => Some(Keyword::Tc),
        b"ax" => Some(Keyword::Ax),
        _ => None,
    }
}

/// The word of a form of three bytes that these bytes are.
fn of_three(word: &[u8]) -> Option<Keyword>
    ensures { result ≡ spec.keyword_among (of_length 3 keywords) word.now }
{
    match word {
        b"def" => Some(Keyword::Def),
        b"fun" => Some(Keyword::Fun),
        b"app" => Some(Keyword::App),
        b"lam" => Some(Keyword::Lam),
        b"let" => Some(Keyword::Let),
        b"con" => Some(Keyword::Con),
        b"sym" => Some(Keyword::Sym),
        b"nth" => Some(Keyword::Nth),
        b"sub" => Some(Keyword::Sub),
        _ => None,
    }
}

/// The word of a form of four bytes that these bytes are.
fn of_four(word: &[u8]) -> Option<Keyword>
    ensures { result ≡ spec.keyword_among (of_length 4 keywords) word.now }
{
    match word {
        b"data" => Some(Keyword::Data),
        b"wrap" => Some(Keyword::Wrap),
        b"type" => Some(Keyword::Type),
        b"Int#" => Some(Keyword::IntHash),
        b"case" => Some(Keyword::Case),
        b"cast" => Some(Keyword::Cast),
        b"prim" => Some(Keyword::Prim),
        b"fail" => Some(Keyword::Fail),
        b"join" => Some(Keyword::Join),
        b"jump" => Some(Keyword::Jump),
        b"refl" => Some(Keyword::Refl),
        b"capp" => Some(Keyword::Capp),
        b"inst" => Some(Keyword::Inst),
        b"left" => Some(Keyword::Left),
        b"univ" => Some(Keyword::Univ),
        b"none" => Some(Keyword::None),
        _ => None,
    }
}

/// The word of a form of five bytes that these bytes are.
fn of_five(word: &[u8]) -> Option<Keyword>
    ensures { result ≡ spec.keyword_among (of_length 5 keywords) word.now }
{
    match word {
        b"axiom" => Some(Keyword::Axiom),
        b"trans" => Some(Keyword::Trans),
        b"funco" => Some(Keyword::FunCo),
        b"allco" => Some(Keyword::AllCo),
        b"right" => Some(Keyword::Right),
        _ => None,
    }
}

/// The word of a form of six bytes that these bytes are.
fn of_six(word: &[u8]) -> Option<Keyword>
    ensures { result ≡ spec.keyword_among (of_length 6 keywords) word.now }
{
    match word {
        b"module" => Some(Keyword::Module),
        b"hidden" => Some(Keyword::Hidden),
        b"family" => Some(Keyword::Family),
        b"forall" => Some(Keyword::Forall),
        b"letrec" => Some(Keyword::LetRec),
        _ => None,
    }
}

/// The word of a form of seven bytes that these bytes are.
fn of_seven(word: &[u8]) -> Option<Keyword>
    ensures { result ≡ spec.keyword_among (of_length 7 keywords) word.now }
{
    match word {
        b"imports" => Some(Keyword::Imports),
        b"exports" => Some(Keyword::Exports),
        b"newtype" => Some(Keyword::NewType),
        b"joinrec" => Some(Keyword::JoinRec),
        b"default" => Some(Keyword::Default),
        b"remInt#" => Some(Keyword::Rem),
        b"coallco" => Some(Keyword::CoAllCo),
        _ => None,
    }
}

/// The word of a form of eight bytes that these bytes are.
fn of_eight(word: &[u8]) -> Option<Keyword>
    ensures { result ≡ spec.keyword_among (of_length 8 keywords) word.now }
{
    match word {
        b"coforall" => Some(Keyword::CoForall),
        b"quotInt#" => Some(Keyword::Quot),
        b"diverges" => Some(Keyword::Diverges),
        _ => None,
    }
}

/// The word of a form that these bytes are, which is looked for among those of as many bytes.
pub fn keyword_of(word: &[u8]) -> Option<Keyword>
    ensures { result ≡ spec.keyword_of word.now }
{
    match word.len() {
        2 => of_two(word),
        3 => of_three(word),
        4 => of_four(word),
        5 => of_five(word),
        6 => of_six(word),
        7 => of_seven(word),
        8 => of_eight(word),
        _ => None,
    }
}

/// What a sign of kinds or primitives is.
#[tactic(auto, unfolding(fc_model::specs::Words::sign_tok))]
pub(crate) fn sign_of<'a>(word: &[u8]) -> Option<Terminal<'a>>
    ensures none { IfNone result (spec.sign_tok word.now ≡ None) }
    ensures some { IfSome result (λ t. spec.sign_tok word.now ≡ Some (seen t)) }
{
    match word {
        b"*" => Some(Terminal::Star),
        b"#" => Some(Terminal::Hash),
        b"->" => Some(Terminal::Arrow),
        b"+#" => Some(Terminal::Operator(PrimOp::Plus)),
        b"-#" => Some(Terminal::Operator(PrimOp::Minus)),
        b"*#" => Some(Terminal::Operator(PrimOp::Times)),
        b"==#" => Some(Terminal::Operator(PrimOp::Eq)),
        b"/=#" => Some(Terminal::Operator(PrimOp::Ne)),
        b"<#" => Some(Terminal::Operator(PrimOp::Lt)),
        b"<=#" => Some(Terminal::Operator(PrimOp::Le)),
        b">#" => Some(Terminal::Operator(PrimOp::Gt)),
        b">=#" => Some(Terminal::Operator(PrimOp::Ge)),
        _ => None,
    }
}
