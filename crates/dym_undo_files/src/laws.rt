//! What taking logs again comes to, each law the contract of a function that does nothing.
ghost use Rattle.dym_undo_files.specs.Laws.{TimesAndCopiesStay, OldestIsFull};

/// Logs that are taken again bring back what they brought back, and the oldest is full.
pub fn taken_logs_bring_back()
    ensures stay { TimesAndCopiesStay }
    ensures full { OldestIsFull }
{}
