//! What keeps a chain with its heap and with its records, each law the contract of a function that does nothing.
ghost use Rattle.dym_chain.specs.AdoptedLogs.{RecordsSayTheirLogs, ReadLogsBelong};
ghost use Rattle.dym_chain.specs.ChainLaws.{HeapStepsKeepBelonging, NoLogsBelong};

/// A chain with no log belongs to every heap, and each command to the heap leaves its chain belonging to it.
pub fn heap_steps_keep_belonging()
    ensures start { NoLogsBelong }
    ensures step { HeapStepsKeepBelonging }
{}

/// The records of kept logs say these logs: read again, they have the times, the depths and the copies that they had, and belong to
/// the heap to which they belonged.
pub fn records_say_their_logs()
    ensures logs { RecordsSayTheirLogs }
    ensures belong { ReadLogsBelong }
{}
