//! The calling end of a connection.
//!
//! A [`Client`] owns no socket and no clock. Who has them drives it, a gateway by its own loop, as
//! here with a `socket` that gives what has come whenever something has, or a second has gone by.
//! Each call answers at once; what is refused changes nothing.
//!
//! ```text
//! let mut client = Client::new(alloc, Limits::usual(), clock.now())?;
//! while client.cause().is_none() {
//!     let piece = socket.read(&mut space)?;       // of any size, cut anywhere
//!     let now = clock.now();
//!     client.tick(now)?;                          // a heartbeat, or a close after silence
//!     if client.is_open() {
//!         for (desc, query) in asked.take() {
//!             tickets.push(client.dispatch(&desc, &query)?)?;
//!         }
//!     }
//!     let count = client.take_out(&mut buffer);   // the header first, then queries
//!     socket.write(&buffer[..count])?;
//!     let mut at = 0;
//!     while at < piece.len() && client.cause().is_none() {
//!         at += client.feed(&piece[at..], now)?;  // one message at most
//!     }
//!     for ticket in &tickets {
//!         answer(ticket, client.take(ticket));    // parts in order, and one ending
//!     }
//! }
//! ```
//!
//! The test `a_gateway_calls_over_its_socket` (`src/tests/gateway.rt`) runs these steps over a
//! socket in memory.
#![tactic(auto)]

mod asking;
mod calls;
mod client;
mod entry;
mod error;
mod inbox;
mod reading;
#[cfg(test)]
mod tests;

pub use client::Client;
pub use entry::Took;
pub use error::{AbortError, DispatchError};
