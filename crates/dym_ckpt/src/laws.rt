//! What the definition of files comes to, each law the contract of a function that does nothing.
ghost use Rattle.dym_ckpt.specs.Laws.{FilesHaveOneReading, NoFileFails, OnePartFails, SavedIsFile, SavedComesBack, StartIsWithin, StepsKeepWithin, RunsAreWithin, LoadedIsWithin, WithinMayBeSaved};

use dym_chain::laws::records_say_their_logs;

/// Of a file there is one reading.
pub fn files_have_one_reading()
    ensures { FilesHaveOneReading }
{}

/// No part of a file fails.
pub fn no_file_fails()
    ensures { NoFileFails }
{}

/// Bytes fail at one part at most.
pub fn one_part_fails()
    ensures { OnePartFails }
{}

/// What is saved is a file, and what is loaded of it is what was saved.
pub fn what_is_saved_comes_back()
    ensures file { SavedIsFile }
    ensures back { SavedComesBack }
{
    records_say_their_logs();
}

/// What an object keeps may be saved, whatever it pruned: its heap, its logs and those below them are within its quota at its start
/// or where it was loaded, and after each command.
pub fn what_objects_keep_may_be_saved()
    ensures start { StartIsWithin }
    ensures step { StepsKeepWithin }
    ensures run { RunsAreWithin }
    ensures loaded { LoadedIsWithin }
    ensures saved { WithinMayBeSaved }
{}
