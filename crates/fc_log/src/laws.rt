//! Laws of every log and of every text of one.
ghost use Rattle.fc_log.specs.Laws.{GoesOn, NoFault, OneFirstFault};

/// A log that is read up to anywhere can be completed, so that a text is refused no later than it has to be.
pub fn a_log_goes_on()
    ensures goes_on { GoesOn }
{}

/// A text that spells a log has no first fault, and no text has two.
pub fn a_text_of_a_log_has_one_answer()
    ensures no_fault { NoFault }
    ensures one_fault { OneFirstFault }
{}
