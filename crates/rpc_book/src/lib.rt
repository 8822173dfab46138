//! A client together with what is known of it: the bytes that it got, and its dispatches.
//!
//! A [`Book`] is driven as its client is: it owns no socket and no clock. It keeps a label for
//! each dispatch, and each byte of the other end. So what a dispatch has received can be told from
//! the bytes alone, and no clause speaks of what the client keeps.
//!
//! ```text
//! let mut book = Book::new(alloc, Limits::usual(), clock.now())?;
//! while !book.is_open() {
//!     let piece = link.read(&mut buffer)?;
//!     book.feed(piece, clock.now())?;
//! }
//! let ticket = book.dispatch(label, &desc, &query)?;
//! let count = book.take_out(&mut buffer);
//! link.write_all(&buffer[..count])?;
//! let piece = link.read(&mut buffer)?;
//! book.feed(piece, clock.now())?; // one frame at most
//! show(book.received(&ticket)); // all that came of it, and its ending
//! ```
#![tactic(auto)]

mod book;
mod made;
#[cfg(test)]
mod tests;

pub use book::Book;
pub use made::Made;
