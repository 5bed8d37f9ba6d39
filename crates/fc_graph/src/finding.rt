//! What a search finds of the numbers of a graph.
ghost use Rattle.std.specs.Prelude.{◌≡◌};
ghost use Rattle.fc_graph.specs.FindingsView.{finding_of, no_finding, no_link};

/// An edge of a trail, between a number and another one.
#[derive(Clone, Copy)]
pub(crate) struct Link {
    /// The other number.
    pub(crate) other: usize,
    /// The position of the edge in the list of the number that it leads from.
    pub(crate) at: usize,
    /// How far the number is from its home on this trail.
    pub(crate) distance: usize,
}

/// What is found of a number.
#[derive(Clone, Copy)]
pub(crate) struct Finding {
    /// A rank, which no edge raises.
    pub(crate) rank: usize,
    /// Whether the number lies on a cycle; what follows counts only then.
    pub(crate) marked: bool,
    /// The number that is the home of all that lead to this one and to which it leads.
    pub(crate) home: usize,
    /// The edge that leads ahead to the home.
    pub(crate) ahead: Link,
    /// The edge that leads here from the home, unless the number is that itself.
    pub(crate) behind: Link,
}

impl Link {
    /// Of a number of which nothing is found.
    pub(crate) fn none() -> Link
        ensures { result ≡ no_link }
    {
        Link::new(0, 0)
    }

    /// The edge to or from another number at a position, with no distance yet.
    pub(crate) fn new(other: usize, at: usize) -> Link
        ensures { result ≡ record { other = other; at = at; distance = 0 } }
    {
        Link {
            other,
            at,
            distance: 0,
        }
    }

    /// The same edge at a distance.
    pub(crate) fn at_distance(self, distance: usize) -> Link
        ensures { result ≡ record { other = self.other; at = self.at; distance = distance } }
    {
        Link { distance, ..self }
    }
}

impl Finding {
    /// Of a number of which nothing is found.
    pub(crate) fn none() -> Finding
        ensures { result ≡ no_finding }
    {
        Finding {
            rank: 0,
            marked: false,
            home: 0,
            ahead: Link::none(),
            behind: Link::none(),
        }
    }
}

/// What is found of a number.
pub(crate) fn finding_at(findings: &[Finding], number: usize) -> Finding
    ensures { result ≡ finding_of findings.now number }
{
    match findings.get(number) {
        Some(finding) => *finding,
        None => Finding::none(),
    }
}
