//! What keeps an object whole, and what runs come to.
ghost use Rattle.dym_object.specs.Laws.{StepsKeepWhole, RunsBegin, RunsGoOn};

use dym_chain::laws::heap_steps_keep_belonging;

/// A command to the heap alone leaves a whole object, and is a step of it.
#[inline(always)]
pub(crate) fn steps_keep_whole()
    ensures { StepsKeepWhole }
{
    heap_steps_keep_belonging();
}

/// Command by command an object comes to the end of the run of all of them, with its kept logs and with what stands below these.
pub fn runs_go_on()
    ensures start { RunsBegin }
    ensures step { RunsGoOn }
{}
