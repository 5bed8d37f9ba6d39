//! That every text has an answer of its reader.
#![tactic(auto)]

ghost use Rattle.fc_read_answers.specs.Answers.{HasAnAnswer};
ghost use Rattle.fc_model.specs.FileForms.{FileForm};

/// Bytes of at most the limit of a file spell a file of a form within the limits, or have a first fault, whatever room there is.
pub fn every_text_has_an_answer()
    ensures an_answer { (f : FileForm) → HasAnAnswer f }
{}
