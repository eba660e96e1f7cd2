//! What records tell of their logs, each law the contract of a function that does nothing.
ghost use Rattle.dym_pack.specs.Laws.{RecordTellsLog, RecordsStandForOne};

/// Two logs that have the same bytes say the same.
pub fn records_tell_logs()
    ensures { RecordTellsLog }
{}

/// What records stand for is one map at most, whichever logs they are read as.
pub fn records_stand_for_one()
    ensures { RecordsStandForOne }
{}
