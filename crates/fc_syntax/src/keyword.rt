//! The words of the forms.
ghost use Rattle.std.specs.Prelude.{◌≡◌};
ghost use Rattle.fc_syntax.specs.Keywords.{keyword_text};

/// A word that stands first in a form of the text, or another word that is no name.
#[derive(Clone, Copy, Debug, PartialEq, Eq)]
pub enum Keyword {
    /// `module`
    Module,
    /// `imports`
    Imports,
    /// `exports`
    Exports,
    /// `hidden`
    Hidden,
    /// `data`
    Data,
    /// `newtype`
    NewType,
    /// `family`
    Family,
    /// `axiom`
    Axiom,
    /// `def`
    Def,
    /// `wrap`
    Wrap,
    /// `type`
    Type,
    /// `co`
    Co,
    /// `forall`
    Forall,
    /// `coforall`
    CoForall,
    /// `fun`
    Fun,
    /// `Int#`
    IntHash,
    /// `app`
    App,
    /// `lam`
    Lam,
    /// `let`
    Let,
    /// `letrec`
    LetRec,
    /// `case`
    Case,
    /// `cast`
    Cast,
    /// `con`
    Con,
    /// `prim`
    Prim,
    /// `fail`
    Fail,
    /// `join`
    Join,
    /// `joinrec`
    JoinRec,
    /// `jump`
    Jump,
    /// `default`
    Default,
    /// `quotInt#`
    Quot,
    /// `remInt#`
    Rem,
    /// `refl`
    Refl,
    /// `sym`
    Sym,
    /// `trans`
    Trans,
    /// `tc`
    Tc,
    /// `capp`
    Capp,
    /// `funco`
    FunCo,
    /// `allco`
    AllCo,
    /// `coallco`
    CoAllCo,
    /// `inst`
    Inst,
    /// `nth`
    Nth,
    /// `left`
    Left,
    /// `right`
    Right,
    /// `sub`
    Sub,
    /// `ax`
    Ax,
    /// `univ`
    Univ,
    /// `none`
    None,
    /// `diverges`
    Diverges,
}

impl Keyword {
    /// How the word is written.
    pub fn text(self) -> &'static str
        ensures { result.now ≡ keyword_text self }
    {
        match self {
            Keyword::Module => "module",
            Keyword::Imports => "imports",
            Keyword::Exports => "exports",
            Keyword::Hidden => "hidden",
            Keyword::Data => "data",
            Keyword::NewType => "newtype",
            Keyword::Family => "family",
            Keyword::Axiom => "axiom",
            Keyword::Def => "def",
            Keyword::Wrap => "wrap",
            Keyword::Type => "type",
            Keyword::Co => "co",
            Keyword::Forall => "forall",
            Keyword::CoForall => "coforall",
            Keyword::Fun => "fun",
            Keyword::IntHash => "Int#",
            Keyword::App => "app",
            Keyword::Lam => "lam",
            Keyword::Let => "let",
            Keyword::LetRec => "letrec",
            Keyword::Case => "case",
            Keyword::Cast => "cast",
            Keyword::Con => "con",
            Keyword::Prim => "prim",
            Keyword::Fail => "fail",
            Keyword::Join => "join",
            Keyword::JoinRec => "joinrec",
            Keyword::Jump => "jump",
            Keyword::Default => "default",
            Keyword::Quot => "quotInt#",
            Keyword::Rem => "remInt#",
            Keyword::Refl => "refl",
            Keyword::Sym => "sym",
            Keyword::Trans => "trans",
            Keyword::Tc => "tc",
            Keyword::Capp => "capp",
            Keyword::FunCo => "funco",
            Keyword::AllCo => "allco",
            Keyword::CoAllCo => "coallco",
            Keyword::Inst => "inst",
            Keyword::Nth => "nth",
            Keyword::Left => "left",
            Keyword::Right => "right",
            Keyword::Sub => "sub",
            Keyword::Ax => "ax",
            Keyword::Univ => "univ",
            Keyword::None => "none",
            Keyword::Diverges => "diverges",
        }
    }
}
