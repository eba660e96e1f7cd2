//! The words of a command line, read as an order.
//!
//! Below stands `dym_base`; above stands the top call. Its one contract: the order that
//! `read_words` answers is the one whose form the whole list of words has, and `Usage` comes
//! exactly where they have none.
#![tactic(auto)]

mod gen_numbers;
mod laws;
mod number;
mod options;
pub mod order;
mod order_words;

pub use laws::made_orders_are_within;
pub use order::{Input, Order, Usage};
pub use order_words::read_words;
