//! Rewrites of terms, and the law that they change nothing that terms show.
#![tactic(auto)]

ghost use Rattle.fc_term_rows.specs.TermRowLaws.{RowsShowTheSame};

/// Rewrites anywhere in the definitions of a program, of parts that come to the same heads and of parts whose place tells what they come to,
/// change nothing that a closed sorted term shows.
pub fn rows_show_the_same()
    ensures same { RowsShowTheSame }
{}
