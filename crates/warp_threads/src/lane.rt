//! What a thread works on.

/// A part of the work, which one thread has to itself for a round.
///
/// The order is what the caller gives with each round: a bound, a budget, a reference to what all
/// lanes read. Contracts see what an advance needs, and how the lane after it follows from the
/// order and the lane before it.
pub trait Lane<Order> {
    ghost can_advance: { Order → Self → Type 0 };

    ghost advances: { Order → Self → Self → Type 0 };

    /// Does the work of a round.
    fn advance(&mut self, order: &Order)
        requires { can_advance order.now self.old }
        ensures { advances order.now self.old self.new };
}
