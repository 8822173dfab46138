//! Frames: how Async_rpc cuts a stream of bytes into messages.
//!
//! A frame is a length in eight bytes, the low byte first, and that many bytes, its body.
//! [`FrameReader`] takes a stream in pieces of any size and gives the bodies; [`put_frame`] writes
//! a frame. Where a length would pass a limit, the reader stops at the byte that makes it so.
#![tactic(auto)]

mod error;
mod head;
mod reader;
mod writing;

pub use error::FrameError;
pub use reader::{Fed, FrameReader};
pub use writing::put_frame;

#[cfg(test)]
mod tests;
