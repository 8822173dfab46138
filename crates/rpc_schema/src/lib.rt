//! Schemas: which procedures two ends agree on, the menu that is offered of them, and the choice of
//! a version.
#![tactic(auto)]

mod behaviours;
mod copying;
mod desc;
mod error;
mod heads;
mod line;
mod lines;
mod menu;
mod order;
mod reading;
mod schema;
mod shapes;
mod stop;
#[cfg(test)]
mod tests;

pub use desc::{Behaviour, Entry, Kind, Listing, Menu, RpcDesc, Side};
pub use error::SchemaError;
pub use heads::{read_number, read_version, take_name, take_version};
pub use line::Line;
pub use lines::{is_skipped, parts_of, without_last_empty};
pub use menu::{best, menu_desc, menu_from};
pub use schema::Schema;
pub use stop::Stop;
