//! The commands of the program `rpc`.
#![tactic(auto)]

mod answers;
mod command;
mod dispatch_lines;
mod framing;
mod hexes;
mod menus;
mod replay;
mod report;
mod shape_words;
mod showing;
mod spelled;
mod status;
mod stream_lines;
mod stream_reading;
mod top;
mod versions;
mod writing;

pub use status::{Status, trouble};
pub use top::run;

#[cfg(test)]
mod tests;
