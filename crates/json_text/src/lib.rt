//! Text of JSON: a reader that keeps spellings and places, and a writer (RFC 8259).
#![tactic(auto)]

mod cursor;
mod cuts;
mod error;
mod escape;
mod json;
mod kinds;
mod laws;
mod members;
mod number;
mod reader;
mod scan;
mod text;
mod writer;

pub use cursor::Cursor;
pub use cuts::cut_objects_are_refused;
pub use error::JsonFault;
pub use json::{Items, Json, JsonKind, Members};
pub use kinds::Member;
pub use laws::{reading_is_the_grammar, spelled_value_is_read, written_is_read};
pub use members::{has_standing, stands, stands_under};
pub use number::number as number_next;
pub use reader::{goes_on, is_closed, read, value_of};
pub use text::text as text_next;
pub use writer::{push_comma_before, push_json, push_text, write};

#[cfg(test)]
mod tests;
