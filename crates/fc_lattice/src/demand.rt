//! What callers of a function know of how it uses its arguments.
use fc_syntax::{Name, Seq};

/// How a value is used (the demands of demand analysis: Sergey, Vytiniotis, Peyton Jones, *Modular, higher-order cardinality analysis in theory and practice*).
#[derive(Debug)]
pub enum Demand {
    /// `B`: whatever uses it diverges.
    B,
    /// `A`: it is not used.
    A,
    /// `(P K d..)`: it is taken apart as this constructor, and each field is used so.
    P(Name, Seq<Demand>),
    /// `S`: it is evaluated.
    S,
    /// `L`: it may be used in any way.
    L,
}

impl Drop for Demand {
    fn drop(self) {
        match self {
            Demand::B => {}
            Demand::A => {}
            Demand::P(_, _) => {}
            Demand::S => {}
            Demand::L => {}
        }
    }
}

/// The signature of a function: how a call with so many arguments uses each of them.
#[derive(Debug, Drop)]
pub struct Sig {
    /// The demands on the arguments, from the first on.
    pub args: Seq<Demand>,
    /// Whether such a call diverges.
    pub diverges: bool,
}
