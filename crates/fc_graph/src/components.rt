//! The search for the components of a graph, whose numbers lead to one another: Tarjan's, with the path on a stack. Nothing is proved
//! of what it finds: that is checked, and no step is counted on to be right.
ghost use Rattle.std.specs.Prelude.{◌≡◌};

use crate::edges::edge_at;
use crate::finding::{Finding, Link};
use fc_syntax::{Memory, Seq};
use std::alloc::Global;

/// What the search knows of a number.
#[derive(Clone, Copy)]
struct Visit {
    /// How many were entered up to this one; 0 where it was not entered.
    entered: usize,
    /// Whether it was entered and its component is not complete.
    is_open: bool,
    /// The least of `entered` of those that are open and that it is known to lead to.
    low: usize,
    /// Whether an edge leads ahead to one of its component.
    marked: bool,
    /// The edge by which it leads to the one of `low`.
    ahead: Link,
    /// The edge by which it was entered.
    behind: Link,
}

impl Visit {
    /// Of a number that was not entered.
    fn none() -> Visit {
        Visit {
            entered: 0,
            is_open: false,
            low: 0,
            marked: false,
            ahead: Link::none(),
            behind: Link::none(),
        }
    }
}

/// A number on the path from where the search began.
#[derive(Clone, Copy)]
struct Step {
    /// The number.
    number: usize,
    /// The position of the edge that it takes next.
    at: usize,
}

/// A search in a graph.
#[derive(Drop)]
struct Search<'a> {
    /// The graph.
    graph: &'a [Seq<usize>],
    /// What is known of each number.
    visits: Vec<Visit>,
    /// What is found of each number whose component is complete.
    findings: Vec<Finding>,
    /// The numbers from where the search began to where it is.
    path: Vec<Step>,
    /// The numbers whose component is not complete, in the order in which they were entered.
    pending: Vec<usize>,
    /// How many were entered.
    entered: usize,
    /// How many components are complete.
    complete: usize,
}

/// How many steps a search takes at most: one for each edge, one for each number, and one to see that it is at its end.
fn most_steps(graph: &[Seq<usize>]) -> usize {
    let mut most: usize = 1;
    for numbers in graph {
        most = most.saturating_add(numbers.len()).saturating_add(1);
    }
    most
}

impl<'a> Search<'a> {
    /// Before it begins.
    fn new(alloc: Global, graph: &'a [Seq<usize>]) -> Result<Search<'a>, Memory> {
        let visits = vec![in alloc; Visit::none(); graph.len()]?;
        let findings = vec![in alloc; Finding::none(); graph.len()]?;
        Ok(Search {
            graph,
            visits,
            findings,
            path: Vec::new(alloc),
            pending: Vec::new(alloc),
            entered: 0,
            complete: 0,
        })
    }

    /// What is known of a number.
    fn visit(&self, number: usize) -> Visit {
        match self.visits.get(number) {
            Some(visit) => *visit,
            None => Visit::none(),
        }
    }

    /// Notes what is known of a number.
    fn note(&mut self, number: usize, visit: Visit)
        ensures { self.new.pending ≡ self.old.pending }
    {
        if number < self.visits.len() {
            self.visits[number] = visit;
        }
    }

    /// Enters a number by an edge.
    fn enter(&mut self, number: usize, behind: Link) -> Result<(), Memory> {
        self.entered = self.entered.saturating_add(1);
        let visit = Visit {
            entered: self.entered,
            is_open: true,
            low: self.entered,
            marked: false,
            ahead: Link::none(),
            behind,
        };
        self.note(number, visit);
        self.pending.push(number)?;
        self.path.push(Step { number, at: 0 })?;
        Ok(())
    }

    /// Notes that a number leads by an edge to one that leads to an open one, which was entered at `low`.
    fn lower(&mut self, number: usize, ahead: Link, low: usize) {
        let visit = self.visit(number);
        if low <= visit.low {
            self.note(
                number,
                Visit {
                    low,
                    marked: true,
                    ahead,
                    ..visit
                },
            );
        }
    }

    /// Follows an edge, if it leads to a number of the graph.
    fn follow(&mut self, from: usize, at: usize, to: usize) -> Result<(), Memory> {
        let there = self.visit(to);
        if there.is_open {
            self.lower(from, Link::new(to, at), there.entered);
        }
        if to < self.graph.len() && there.entered == 0 {
            self.enter(to, Link::new(from, at))?;
        }
        Ok(())
    }

    /// Completes the component of a number that leads to none that was entered before it.
    fn close(&mut self, home: usize) {
        self.complete = self.complete.saturating_add(1);
        while let Some(number) = self.pending.pop() {
            self.settle(number, home);
            if number == home {
                return;
            }
        }
    }

    /// Puts a number at its place in the component that is complete.
    fn settle(&mut self, number: usize, home: usize)
        ensures { self.new.pending ≡ self.old.pending }
    {
        let visit = self.visit(number);
        let count = self.findings.len();
        // Falls along the path and its way back: there `low` is the same and `entered` rises, until `low` falls.
        let far = visit
            .low
            .saturating_mul(count)
            .saturating_sub(visit.entered);
        if number < count {
            self.findings[number] = Finding {
                rank: self.complete,
                marked: visit.marked,
                home,
                ahead: visit.ahead.at_distance(far),
                behind: visit.behind.at_distance(visit.entered),
            };
        }
        self.note(
            number,
            Visit {
                is_open: false,
                ..visit
            },
        );
    }

    /// Leaves a number whose edges are all followed.
    fn leave(&mut self, number: usize) {
        let visit = self.visit(number);
        if visit.low == visit.entered {
            self.close(number);
        } else {
            let ahead = Link::new(number, visit.behind.at);
            self.lower(visit.behind.other, ahead, visit.low);
        }
    }

    /// Goes one step on from the end of the path, which was taken off.
    fn go_on(&mut self, step: Step) -> Result<(), Memory> {
        match edge_at(self.graph, step.number, step.at) {
            Some(to) => {
                self.path.push(Step {
                    at: step.at.saturating_add(1),
                    ..step
                })?;
                self.follow(step.number, step.at, to)
            }
            None => {
                self.leave(step.number);
                Ok(())
            }
        }
    }

    /// Enters a number, what it leads to, what these lead to, and so on, as far as they were not entered, in so many steps at most.
    fn search_from(&mut self, number: usize, most: usize) -> Result<(), Memory> {
        if self.visit(number).entered == 0 {
            self.enter(number, Link::new(number, 0))?;
        }
        for _ in 0..most {
            match self.path.pop() {
                Some(step) => self.go_on(step)?,
                None => return Ok(()),
            }
        }
        Ok(())
    }
}

/// A certificate for a graph.
pub(crate) fn certificate(alloc: Global, graph: &[Seq<usize>]) -> Result<Vec<Finding>, Memory> {
    let most = most_steps(graph);
    let mut search = Search::new(alloc, graph)?;
    for number in 0..graph.len() {
        search.search_from(number, most)?;
    }
    let Search { findings, .. } = search;
    Ok(findings)
}
