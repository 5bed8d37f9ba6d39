//! The edges of a graph by their positions.
ghost use Rattle.std.specs.Prelude.{◌≡◌, IsTrue, slice_get};
ghost use Rattle.fc_graph.specs.Graphs.{IsEdge, next_of};

use fc_syntax::Seq;

/// The number that one leads to by the edge at a position of its list.
pub(crate) fn edge_at(graph: &[Seq<usize>], from: usize, at: usize) -> Option<usize>
    ensures { result ≡ slice_get (next_of graph.now from) at }
{
    match graph.get(from) {
        Some(numbers) => numbers.get(at).copied(),
        None => None,
    }
}

/// Whether a number leads to another one of the graph by the edge at a position of its list.
#[tactic(auto, using(crate::proofs::Checked::edge_found))]
pub(crate) fn is_edge_at(graph: &[Seq<usize>], from: usize, at: usize, to: usize) -> bool
    ensures { IsTrue result → IsEdge graph.now from to }
{
    match edge_at(graph, from, at) {
        Some(found) => found == to && to < graph.len(),
        None => false,
    }
}
