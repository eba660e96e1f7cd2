//! What the definition of late events comes to, each law the contract of a function that does nothing.
ghost use Rattle.std.specs.Prelude.{List};
ghost use Rattle.dym_base.specs.LateRun.{LateEvent, Arrival};
ghost use Rattle.dym_late.specs.Laws.{AddUp, StandInOrder};

/// The order of accepted events is that of (time, arrival).
pub fn events_stand_in_order()
    ensures { (events : List LateEvent) → StandInOrder events }
{}

/// What is accepted, and the bound, by one arrival more: with these a caller follows a heap of late events over any arrivals.
pub fn arrivals_add_up()
    ensures { (arrivals : List Arrival) → AddUp arrivals }
{}
