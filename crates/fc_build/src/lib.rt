//! The top call: from the words of a command line and the files to the files written and a status.
#![tactic(auto)]

ghost use Rattle.std.specs.Prelude.{ℕ, List};
ghost use Rattle.fc_load.specs.Loading.{Holding};
ghost use Rattle.fc_build.specs.Acceptance.{HaveOneAnswer};

mod deliver;
mod judge;
mod lines;
mod prepare;
mod product;
mod top;

pub use top::run;

/// The files of a list of names, whatever each holds, are an accepted set or have a first fault: one of these alone, and one set or one fault.
pub fn files_have_one_answer()
    ensures one { (files : List (List ℕ)) (held : Holding) → HaveOneAnswer files held }
{}
