//! Attribute values, as OpenTelemetry has them, and lists of pairs that serve as maps.
#![tactic(auto)]

mod bytes;
mod doubles;
mod error;
mod index;
mod laws;
mod measure;
mod merge;
mod numeral;
mod pairs;
mod same;
mod showing;
mod spelling;
mod text;
mod value;
mod values;
mod wanted;

pub use bytes::Bytes;
pub use error::{EvalErr, EvalStop};
pub use laws::{
    maps_are_the_same_key_by_key, same_is_an_equivalence,
    upsert_into_the_empty_map_keeps_last_values, what_is_put_is_found,
};
pub use merge::Strategy;
pub use pairs::Pairs;
pub use showing::{shown, string};
pub use spelling::{Spelling, SpellingStop};
pub use text::Text;
pub use value::Value;
pub use values::Values;
pub use wanted::{int_in, list_in, made, text_in};

#[cfg(test)]
mod tests;
