//! What the defined answer comes to.
ghost use Rattle.dymelor_top.specs.Answers.{OneAnswer};

/// An input has at most one answer, for each order: what the headline says of the answers of an input it says of one.
pub fn one_answer()
    ensures { OneAnswer }
{}
