//! What the frames of Async_rpc hold: a header, and messages.
#![tactic(auto)]

mod beat;
mod data;
mod ends;
mod errors;
mod fault;
mod headers;
mod message;
mod puts;
mod reading;
mod shared;
mod streams;
mod tags;
#[cfg(test)]
mod tests;
mod values;
mod writing;

pub use beat::{Beat, BeatAct};
pub use data::{First, StreamPart, StreamQuery};
pub use fault::{MsgError, MsgFault};
pub use headers::read_header;
pub use message::{Answer, Header, Message, Query, Response, RpcError};
pub use reading::read_message;
pub use shared::{CloseCause, Ending, FeedError, Limits, Part, Received, Ticked, Ticket};
pub use streams::{read_first, read_part, read_stream_query};
pub use values::read_whole;
pub use writing::write_message;
