//! The answering end of a connection.
//!
//! A [`Server`] has no socket, no clock and no thread: its owner hands it bytes and moments, and
//! takes the bytes that are to go out. A gateway's own loop over a `socket`, which gives what has
//! come whenever something has, or a second has gone by, is
//!
//! ```text
//! let mut server = Server::new(alloc, schema, Limits::usual(), clock.now())?;
//! while server.cause().is_none() {
//!     let piece = socket.read(&mut space)?;       // of any size, cut anywhere
//!     let now = clock.now();
//!     let mut at = 0;
//!     while at < piece.len() && server.cause().is_none() {
//!         let fed = server.feed(&piece[at..], now)?;
//!         at += fed.used;                         // one message at most
//!         if let Some(Arrival::Asked { id, place, query }) = fed.arrival {
//!             // The handler of the entry at the place may answer at once, or later.
//!             server.reply(id, &handle(place, query))?;
//!         }
//!     }
//!     server.tick(now)?;                          // a heartbeat, or a close after silence
//!     let count = server.take_out(&mut buffer);   // the header first, then answers
//!     socket.write(&buffer[..count])?;
//! }
//! ```
//!
//! The test `a_gateway_serves_over_its_socket` (`src/tests/gateway.rt`) runs these steps over a
//! socket in memory.
#![tactic(auto)]

mod acting;
mod arrival;
mod asking;
mod data;
mod doing;
mod error;
mod hearing;
mod kinds;
mod menus;
mod own;
mod reading;
mod server;
mod steps;
mod table;
#[cfg(test)]
mod tests;

pub use arrival::{Arrival, ServerFed};
pub use error::ActError;
pub use server::Server;
