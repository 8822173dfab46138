//! Schedules: a schema, and the events of a replay that follow it, as a text has them.
#![tactic(auto)]

mod error;
mod event;
mod event_lines;
mod labels;
mod movements;
mod reading;
mod schedule;
#[cfg(test)]
mod tests;
mod words;

pub use error::ScheduleError;
pub use event::{Event, Lined};
pub use schedule::Schedule;
