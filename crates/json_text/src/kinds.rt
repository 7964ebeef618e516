//! What a value holds, by its kind.

ghost use Rattle.std.specs.Prelude.{◌≡◌, option_map};
ghost use Rattle.std.specs.Option.{option_copied};
ghost use Rattle.json_text.specs.Kinds as spec;

use crate::json::{Json, JsonKind};
use pdata_value::{Spelling, Text};

/// A member of an object: its key and its value.
pub type Member = (Text, Json);

impl Json {
    #[tactic(auto, using(crate::proofs::KindLemmas::null_kinds))]
    pub fn is_null(&self) -> bool
        ensures { result ≡ spec.is_null self.now }
    {
        match &self.kind {
            JsonKind::Null => true,
            _ => false,
        }
    }

    /// None exactly where the value is no truth.
    #[tactic(auto, using(crate::proofs::KindLemmas::truth_kinds))]
    pub fn as_truth(&self) -> Option<bool>
        ensures { result ≡ spec.as_truth self.now }
    {
        match &self.kind {
            JsonKind::Truth(truth) => Some(*truth),
            _ => None,
        }
    }

    /// None exactly where the value is no number.
    #[tactic(auto, using(crate::proofs::KindLemmas::number_kinds))]
    pub fn as_number(&self) -> Option<&Spelling>
        ensures { option_copied result ≡ spec.as_number self.now }
    {
        match &self.kind {
            JsonKind::Number(spelling) => Some(spelling),
            _ => None,
        }
    }

    /// None exactly where the value is no text.
    #[tactic(auto, using(crate::proofs::KindLemmas::text_kinds))]
    pub fn as_text(&self) -> Option<&Text>
        ensures { option_copied result ≡ spec.as_text self.now }
    {
        match &self.kind {
            JsonKind::Text(text) => Some(text),
            _ => None,
        }
    }

    /// The elements in the order of the text; None exactly where the value is no list.
    #[tactic(auto, using(crate::proofs::KindLemmas::items_kinds))]
    pub fn as_items(&self) -> Option<&[Json]>
        ensures { option_map (λ items. items.now) result ≡ spec.as_items self.now }
    {
        match &self.kind {
            JsonKind::List(items) => Some(items.as_slice()),
            _ => None,
        }
    }

    /// The members in the order of the text; None exactly where the value is no object.
    #[tactic(auto, using(crate::proofs::KindLemmas::members_kinds))]
    pub fn as_members(&self) -> Option<&[Member]>
        ensures { option_map (λ members. members.now) result ≡ spec.as_members self.now }
    {
        match &self.kind {
            JsonKind::Object(members) => Some(members.as_slice()),
            _ => None,
        }
    }
}
