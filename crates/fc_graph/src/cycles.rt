//! Which numbers of a graph lie on a cycle.
ghost use Rattle.std.specs.Prelude.{◌≡◌, ◌↔◌, IfOk, IsTrue, map};
ghost use Rattle.fc_graph.specs.Certificates.{IsCertificate};
ghost use Rattle.fc_graph.specs.Graphs.{AreOnCycles, HasPath};

use crate::checking::is_certificate;
use crate::components::certificate;
use crate::finding::Finding;
use crate::reaching::reached;
use fc_syntax::{Memory, Seq};
use std::alloc::Global;

/// Whether a number leads back to itself, by a search from it.
fn leads_back(alloc: Global, graph: &[Seq<usize>], number: usize) -> Result<bool, Memory>
    ensures { IfOk result (λ back. IsTrue back ↔ HasPath graph.now number number) }
{
    let marks = reached(alloc, graph, number)?;
    match marks.get(number) {
        Some(marked) => Ok(*marked),
        None => Ok(false),
    }
}

/// The marks of the numbers that lie on a cycle, by a search from each.
#[tactic(auto, using(crate::proofs::Checked::all_found))]
fn one_by_one(alloc: Global, graph: &[Seq<usize>]) -> Result<Vec<bool>, Memory>
    ensures { IfOk result (λ marks. AreOnCycles graph.now marks.items) }
{
    let mut marks = Vec::new(alloc);
    for number in 0..graph.len() {
        marks.push(leads_back(alloc, graph, number)?)?;
    }
    Ok(marks)
}

/// The marks of a certificate.
fn marks_of(alloc: Global, findings: &[Finding]) -> Result<Vec<bool>, Memory>
    ensures { IfOk result (λ marks. marks.items ≡ map (λ p. p.marked) findings.now) }
{
    let mut marks = Vec::new(alloc);
    for finding in findings {
        marks.push(finding.marked)?;
    }
    Ok(marks)
}

/// The numbers that lie on a cycle, marked among those of the graph: those from which a path of one edge or more leads back. Takes time
/// in numbers and edges where the certificate that is found is right, and a search for each number where it is not; what is marked is the
/// same. Fails only where memory runs out.
pub fn on_cycles(alloc: Global, graph: &[Seq<usize>]) -> Result<Vec<bool>, Memory>
    ensures { IfOk result (λ marks. AreOnCycles graph.now marks.items) }
{
    let findings = certificate(alloc, graph)?;
    if is_certificate(graph, findings.as_slice()) {
        marks_of(alloc, findings.as_slice())
    } else {
        one_by_one(alloc, graph)
    }
}
