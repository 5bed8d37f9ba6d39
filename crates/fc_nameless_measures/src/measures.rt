//! Numbers that tell how large a piece is.
ghost use Rattle.std.specs.Prelude.{◌≡◌, ◌+◌, max, IfOk};

use fc_numbers::sum;
use fc_syntax::Memory;

/// How large a piece is. Each number has 32 bits; a piece that would have more is answered as out of memory.
#[derive(Clone, Copy, Debug)]
pub struct Measures {
    /// How many terms it is made of, by the count that decides which right sides interfaces tell: types and casts count nothing, a coercion counts where it is
    /// an argument.
    pub nodes: u32,
    /// How many pieces it is made of, with itself.
    pub size: u32,
    /// 1 for a piece without parts, else one more than its deepest part.
    pub depth: u32,
}

/// Those of nothing.
pub(crate) const NOTHING: Measures = Measures {
    nodes: 0,
    size: 0,
    depth: 0,
};

/// Those of two pieces that stand beside each other.
pub(crate) fn beside(a: Measures, b: Measures) -> Result<Measures, Memory>
    ensures nodes { IfOk result (λ m. m.nodes ≡ a.nodes + b.nodes) }
    ensures size { IfOk result (λ m. m.size ≡ a.size + b.size) }
    ensures depth { IfOk result (λ m. m.depth ≡ max a.depth b.depth) }
{
    let nodes = sum(a.nodes, b.nodes)?;
    let size = sum(a.size, b.size)?;
    let depth = a.depth.max(b.depth);
    Ok(Measures { nodes, size, depth })
}

/// Those of a piece with these parts, which counts so many nodes itself.
pub(crate) fn around(own: u32, parts: Measures) -> Result<Measures, Memory>
    ensures nodes { IfOk result (λ m. m.nodes ≡ own + parts.nodes) }
    ensures size { IfOk result (λ m. m.size ≡ 1 + parts.size) }
    ensures depth { IfOk result (λ m. m.depth ≡ 1 + parts.depth) }
{
    let nodes = sum(own, parts.nodes)?;
    let size = sum(1, parts.size)?;
    let depth = sum(1, parts.depth)?;
    Ok(Measures { nodes, size, depth })
}

/// The same piece, which counts so many nodes more.
pub(crate) fn with_nodes(more: u32, m: Measures) -> Result<Measures, Memory>
    ensures nodes { IfOk result (λ r. r.nodes ≡ more + m.nodes) }
    ensures size { IfOk result (λ r. r.size ≡ m.size) }
    ensures depth { IfOk result (λ r. r.depth ≡ m.depth) }
{
    let nodes = sum(more, m.nodes)?;
    Ok(Measures { nodes, ..m })
}
