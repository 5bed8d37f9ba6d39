//! Whether findings are a certificate, in one walk over the numbers and their edges.
ghost use Rattle.std.specs.Prelude.{◌≡◌, IsTrue, length};
ghost use Rattle.fc_graph.specs.Certificates.{HasAhead, HasBehind, HasTrails, IsBelow, IsCertificate, IsNearer, IsRight};
ghost use Rattle.fc_graph.specs.FindingsView.{AreBelow, said_by};
ghost use Rattle.fc_graph.specs.Graphs.{next_of};

use crate::edges::is_edge_at;
use crate::finding::{Finding, finding_at};
use fc_syntax::Seq;

/// Whether a number has no higher rank than one that leads to it, and a lower one where that lies on no cycle.
fn is_below(findings: &[Finding], from: usize, to: usize) -> bool
    ensures { IsTrue result → IsBelow (said_by findings.now) from to }
{
    let here = finding_at(findings, from);
    let there = finding_at(findings, to);
    there.rank < here.rank || here.marked && there.rank == here.rank
}

/// Whether those of these numbers that are of the graph are below one that leads to them.
fn are_below(graph: &[Seq<usize>], findings: &[Finding], from: usize, numbers: &[usize]) -> bool
    ensures { IsTrue result → AreBelow graph.now (said_by findings.now) from numbers.now }
{
    for to in numbers {
        if *to < graph.len() && !is_below(findings, from, *to) {
            return false;
        }
    }
    true
}

/// Whether all that a number leads to is below it.
fn is_ranked(graph: &[Seq<usize>], findings: &[Finding], number: usize) -> bool
    ensures { IsTrue result → AreBelow graph.now (said_by findings.now) number (next_of graph.now number) }
{
    match graph.get(number) {
        Some(numbers) => are_below(graph, findings, number, numbers.as_slice()),
        None => true,
    }
}

/// Whether a number has the home of another one, and is that home or nearer to it by the trail ahead.
fn is_nearer_ahead(findings: &[Finding], from: usize, to: usize) -> bool
    ensures { IsTrue result → IsNearer (said_by findings.now) (said_by findings.now).ahead from to }
{
    let here = finding_at(findings, from);
    let there = finding_at(findings, to);
    let is_nearer = to == here.home || there.ahead.distance < here.ahead.distance;
    there.marked && there.home == here.home && is_nearer
}

/// The same by the trail behind.
fn is_nearer_behind(findings: &[Finding], to: usize, from: usize) -> bool
    ensures { IsTrue result → IsNearer (said_by findings.now) (said_by findings.now).behind to from }
{
    let here = finding_at(findings, to);
    let there = finding_at(findings, from);
    let is_nearer = from == here.home || there.behind.distance < here.behind.distance;
    there.marked && there.home == here.home && is_nearer
}

/// Whether a number leads by its edge ahead to one that is nearer to its home.
fn has_ahead(graph: &[Seq<usize>], findings: &[Finding], number: usize) -> bool
    ensures { IsTrue result → HasAhead graph.now (said_by findings.now) number }
{
    let link = finding_at(findings, number).ahead;
    is_edge_at(graph, number, link.at, link.other) && is_nearer_ahead(findings, number, link.other)
}

/// Whether one that is nearer to its home leads to a number by the edge behind it.
fn has_behind(graph: &[Seq<usize>], findings: &[Finding], number: usize) -> bool
    ensures { IsTrue result → HasBehind graph.now (said_by findings.now) number }
{
    let link = finding_at(findings, number).behind;
    is_edge_at(graph, link.other, link.at, number) && is_nearer_behind(findings, number, link.other)
}

/// Whether a trail leads from a number to its home, and one to it from there, as far as its own edges tell.
fn has_trails(graph: &[Seq<usize>], findings: &[Finding], number: usize) -> bool
    ensures { IsTrue result → HasTrails graph.now (said_by findings.now) number }
{
    let is_home = finding_at(findings, number).home == number;
    has_ahead(graph, findings, number) && (is_home || has_behind(graph, findings, number))
}

/// Whether what is found of a number is right.
#[tactic(auto, using(crate::proofs::Checked::all_ranked))]
fn is_right(graph: &[Seq<usize>], findings: &[Finding], number: usize) -> bool
    ensures { IsTrue result → IsRight graph.now (said_by findings.now) number }
{
    let here = finding_at(findings, number);
    is_ranked(graph, findings, number) && (!here.marked || has_trails(graph, findings, number))
}

/// Whether what is found of each number is right.
#[tactic(auto, using(crate::proofs::Checked::others_unmarked))]
pub(crate) fn is_certificate(graph: &[Seq<usize>], findings: &[Finding]) -> bool
    ensures count { IsTrue result → length findings.now ≡ length graph.now }
    ensures right { IsTrue result → IsCertificate graph.now (said_by findings.now) }
{
    if findings.len() != graph.len() {
        return false;
    }
    for number in 0..graph.len() {
        if !is_right(graph, findings, number) {
            return false;
        }
    }
    true
}
