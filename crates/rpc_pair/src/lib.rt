//! Both ends of a connection as a pair, which the events of a schedule drive over two wires.
#![tactic(auto)]

mod asking;
mod carry;
mod error;
mod finding;
mod generating;
mod labelled;
mod labels;
mod menus;
mod moved;
mod pair;
mod party;
mod put;
mod telling;
#[cfg(test)]
mod tests;
mod texts;

pub use error::PairError;
pub use generating::generate;
pub use moved::Moved;
pub use pair::Pair;
pub use rpc_book::{Book, Made};
pub use rpc_meeting::{Refusal, StepAnswer};
pub use rpc_schedule::{Event, Lined, Schedule, ScheduleError};
