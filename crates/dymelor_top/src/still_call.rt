//! The top call that starts no thread.
ghost use Rattle.std.specs.Prelude.{map, string_bytes};
ghost use Rattle.dym_words.specs.Orders.{order};
ghost use Rattle.dymelor_top.specs.Calls.{AnswersOrder};
ghost use Rattle.dymelor_top.specs.Headline.{Headline, without_threads};

use crate::answer::answer_order;
use crate::finish::finish;
use crate::stop::Stop;
use dym_io::{Sink, Source};
use dym_words::read_words;
use std::alloc::Global;

/// Serves the words of a command line that start no thread, and answers the status: 0 and the whole answer, 1 for words of
/// no order, 2 and the line of the first fault of a bad input, 3 and 4 where the source or the sink failed, 5 where memory
/// ran out. It always returns.
pub fn dymelor_still<R: Source, W: Sink>(
    alloc: Global,
    words: &[String],
    source: &mut R,
    sink: &mut W,
) -> u8
    requires { R.goes_on source.old }
    ensures { Headline (without_threads (order (map string_bytes words.now)))
        (record { left = R.left source.old; faults = R.faults source.old })
        (record { left = R.left source.new; faults = R.faults source.new })
        (W.output sink.old) (W.output sink.new) result }
{
    let answered = answer_words(alloc, words, source, sink);
    finish(answered, sink)
}

/// Answers words of a command line that start no thread.
fn answer_words<R: Source, W: Sink>(
    alloc: Global,
    words: &[String],
    source: &mut R,
    sink: &mut W,
) -> Result<(), Stop>
    requires { R.goes_on source.old }
    ensures { AnswersOrder (without_threads (order (map string_bytes words.now)))
        (record { left = R.left source.old; faults = R.faults source.old })
        (record { left = R.left source.new; faults = R.faults source.new })
        (W.output sink.old) (W.output sink.new) result }
{
    let order = read_words(words)?;
    answer_order(alloc, order, source, sink)
}
