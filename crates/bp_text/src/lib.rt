//! Texts of shapes and of values.
//!
//! A text is first cut into tokens, which `bp_text_grammar` defines. Each text has exactly one list
//! of them: where no token stands, the last one says so, and no reader of tokens goes on with it.
#![tactic(auto)]

mod contents;
mod cursor;
mod error;
mod halt;
mod printed_shapes;
mod printed_values;
mod printing;
mod quoted;
mod scanning;
mod sexps;
mod shape_fronts;
mod shape_parts;
mod shape_texts;
mod shapes;
mod stop;
#[cfg(test)]
mod tests;
mod token;
mod value_texts;
mod values;

pub use error::TextError;
pub use printed_shapes::print_shape;
pub use printed_values::{print_value, put_sexp, put_value};
pub use printing::{put_decimal, put_natural, put_quoted};
pub use shape_fronts::read_shape_front;
pub use shape_texts::read_shape;
pub use value_texts::read_value;
