//! What is done with the objects of a run.
ghost use Rattle.std.specs.Prelude.{◌≡◌, Bool, MatchResult};
ghost use Rattle.dym_wave.specs.Results.{Shown, origin_shown};
ghost use Rattle.dym_wave.specs.Works.{IsOver};

use crate::work::Work;
use std::sync::Wait;

/// What is done with each object of a run, in order, once it has ended. Contracts see of an object what is printed of it.
pub(crate) trait Consumer<R: Wait> {
    /// What the objects are handed over to.
    type Output;

    /// Why an object isn't taken.
    type Fail;

    ghost MAKES_TEXT: { Bool };

    ghost can_take: { Self.Output → Shown → Type 0 };

    ghost takes: { Self.Output → Shown → Self.Output → Type 0 };

    ghost fails: { Self.Output → Shown → Self.Output → Self.Fail → Type 0 };

    /// Whether the texts of the objects' parts are needed.
    const MAKES_TEXT: bool;

    /// Hands over an object.
    fn take(output: &mut Self::Output, work: &Work<R>) -> Result<(), Self::Fail>
        requires over { IsOver work.now }
        requires text { work.now.origin.makes_text ≡ MAKES_TEXT }
        requires can { can_take output.old (origin_shown work.now.origin) }
        ensures { MatchResult result
            (λ _. takes output.old (origin_shown work.now.origin) output.new)
            (λ fail. fails output.old (origin_shown work.now.origin) output.new fail) };
}
