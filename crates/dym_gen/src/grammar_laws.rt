//! What the grammar of scripts gives for a made script.
ghost use Rattle.dym_gen.specs.GrammarLaws.{MadeScriptsAreGood};

use crate::laws::{lines_are_short, scripts_are_short};

/// Each made script is a good script, with as many objects and commands as were asked for. So an order that makes its input
/// is never told of a bad line.
pub fn made_scripts_are_good()
    ensures { MadeScriptsAreGood }
{
    lines_are_short();
    scripts_are_short();
}
