//! What the definition of an order gives.
ghost use Rattle.dym_words.specs.Laws.{MadeOrdersAreWithin};

/// A script that an order makes has from 1 to `MOST_OBJECTS` objects and at most `MOST_MADE_COMMANDS` commands, and the waves that one asks
/// for have numbers within their limits.
pub fn made_orders_are_within()
    ensures { MadeOrdersAreWithin }
{}
