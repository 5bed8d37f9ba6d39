//! Which numbers one, or several, lead to in a graph.
ghost use Rattle.std.specs.Prelude.{◌≡◌, ◌<◌, ◌++◌, [], ◌∷◌, ℕ, List, true, false, length, replicate, slice_set, IfOk, OnOk};
ghost use Rattle.fc_graph.specs.Graphs.{AreMarked, AreReachedFrom, GoesOn, next_of};

use fc_syntax::{Memory, Seq};
use std::alloc::Global;

/// The numbers that are found so far.
#[derive(Drop)]
struct Search {
    /// For each number whether it is found.
    marks: Vec<bool>,
    /// Those that are found and whose successors were not looked at yet.
    waiting: Vec<usize>,
}

impl Search {
    /// None of so many is found.
    fn new(alloc: Global, count: usize) -> Result<Search, Memory>
        ensures marks { IfOk result (λ search. search.marks.items ≡ replicate count false) }
        ensures waiting { IfOk result (λ search. search.waiting.items ≡ []) }
    {
        let marks = vec![in alloc; false; count]?;
        Ok(Search {
            marks,
            waiting: Vec::new(alloc),
        })
    }

    /// Marks a number that is not marked yet, and lets it wait.
    fn mark(&mut self, number: usize) -> Result<(), Memory>
        requires { number < length self.old.marks.items }
        ensures marks { OnOk result (self.new.marks.items ≡ slice_set self.old.marks.items number true) }
        ensures waiting { OnOk result (self.new.waiting.items ≡ self.old.waiting.items ++ number ∷ []) }
    {
        self.waiting.push(number)?;
        self.marks[number] = true;
        Ok(())
    }

    /// Finds a number, if it is one of the graph.
    fn find(&mut self, number: usize) -> Result<(), Memory>
        ensures { OnOk result ((coming : List ℕ) → GoesOn self.old.marks.items self.old.waiting.items (number ∷ coming) self.new.marks.items self.new.waiting.items coming) }
    {
        if number < self.marks.len() && !self.marks[number] {
            self.mark(number)?;
        }
        Ok(())
    }

    /// Finds all these numbers.
    fn find_all(&mut self, numbers: &[usize]) -> Result<(), Memory>
        ensures { OnOk result (GoesOn self.old.marks.items self.old.waiting.items numbers.now self.new.marks.items self.new.waiting.items []) }
    {
        for number in numbers {
            self.find(*number)?;
        }
        Ok(())
    }

    /// Finds the numbers that a number leads to.
    fn find_next(&mut self, graph: &[Seq<usize>], number: usize) -> Result<(), Memory>
        ensures { OnOk result (GoesOn self.old.marks.items self.old.waiting.items (next_of graph.now number) self.new.marks.items self.new.waiting.items []) }
    {
        match graph.get(number) {
            Some(numbers) => self.find_all(numbers.as_slice()),
            None => Ok(()),
        }
    }
}

/// The roots and the numbers that they lead to, marked among the numbers of the graph. A root that is no number of the graph counts for nothing.
pub fn reached_from(
    alloc: Global,
    graph: &[Seq<usize>],
    roots: &[usize],
) -> Result<Vec<bool>, Memory>
    ensures { IfOk result (λ marks. AreReachedFrom graph.now roots.now marks.items) }
{
    let mut search = Search::new(alloc, graph.len())?;
    search.find_all(roots)?;
    while let Some(number) = search.waiting.pop() {
        search.find_next(graph, number)?;
    }
    let Search { marks, waiting: _ } = search;
    Ok(marks)
}

/// The numbers that one leads to by one edge or more, marked among the numbers of the graph.
pub fn reached(alloc: Global, graph: &[Seq<usize>], from: usize) -> Result<Vec<bool>, Memory>
    ensures { IfOk result (λ marks. AreMarked graph.now from marks.items) }
{
    match graph.get(from) {
        Some(next) => reached_from(alloc, graph, next.as_slice()),
        None => reached_from(alloc, graph, &[]),
    }
}
