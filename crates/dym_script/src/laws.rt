//! What holds of the grammar.
ghost use Rattle.dym_script.specs.LateArrivals.{NoMoreAreAccepted};
ghost use Rattle.dym_script.specs.Laws.{FaultStays, FaultIsWithin};

/// The first bad line is one of the input's, and what stands after it doesn't matter.
pub fn first_fault()
    ensures stays { FaultStays }
    ensures within { FaultIsWithin }
{}

/// No more late events of an object are accepted than its lines have.
pub fn no_more_are_accepted()
    ensures { NoMoreAreAccepted }
{}
