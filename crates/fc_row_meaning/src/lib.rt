//! Laws of the rewrite table: rows that are functions keep what programs show.
#![tactic(auto)]

ghost use Rattle.fc_row_meaning.specs.LocalsTold.{SurroundingsAreTold};
ghost use Rattle.fc_row_meaning.specs.NamesTold.{NamesAreTold};
ghost use Rattle.fc_row_meaning.specs.RowMeaningLaws.{ChangesArePlaced, RowsKeepMeaning};

/// What a row of the table makes of a module that lints, at a place of a definition, shows the same in each program that holds the module and of which its
/// imports tell the right sides.
pub fn rows_keep_meaning()
    // A change at a place by a row that is a function is a change at one place by the row as a relation.
    ensures changes { ChangesArePlaced }
    ensures rows { RowsKeepMeaning }
{}

/// What surroundings say of local variables, names and join points is known at every place, if what they say of names is known outside of all binders. There it
/// is, in a program that holds the module and of which its imports tell the right sides, and with another module in its place that shares values and constructors.
pub fn surroundings_are_true()
    ensures told { SurroundingsAreTold }
    ensures names { NamesAreTold }
{}
