//! Arguments of functions.

ghost use Rattle.std.specs.Prelude.{◌≡◌, ◌++◌, ◌∷◌, [], OnOk};
ghost use Rattle.ottl_plan.specs.Planning as spec;

use crate::planned::{PlannedExpr, PlannedExprs};
use func_text::Pattern;
use item_list::ItemList;
use pdata_value::Text;
use std::alloc::AllocError;

/// What a function wants in the place of an argument that isn't a target.
#[derive(Clone, Copy, Debug, PartialEq, Eq)]
pub enum ArgumentKind {
    Value,
    /// A text literal that is a pattern.
    Pattern,
    /// A text literal.
    Text,
    /// A list literal of text literals.
    Keys,
    /// One of the texts `insert`, `update` and `upsert`.
    Strategy,
    /// One of the texts `key` and `value`.
    Mode,
    /// The text `base64`.
    Code,
    /// A text literal that is a format of times.
    Format,
}

impl ArgumentKind {
    pub(crate) fn is_value(self) -> bool
        ensures { result ≡ spec.is_value self }
    {
        match self {
            ArgumentKind::Value => true,
            _ => false,
        }
    }

    pub(crate) fn is_keys(self) -> bool
        ensures { result ≡ spec.is_keys self }
    {
        match self {
            ArgumentKind::Keys => true,
            _ => false,
        }
    }
}

/// An argument that the statement's text spells out.
#[derive(Drop)]
pub enum ArgumentLiteral {
    Pattern(Pattern),
    /// Of any other kind of text.
    Text(Text),
    Keys(ItemList<Text>),
}

pub type ArgumentLiterals = ItemList<ArgumentLiteral>;

/// An argument behind a target.
#[derive(Drop)]
pub(crate) enum Argument {
    Value(PlannedExpr),
    Literal(ArgumentLiteral),
}

impl Argument {
    /// Puts the argument behind the values, or behind the literals.
    pub(crate) fn push(
        self,
        values: &mut PlannedExprs,
        literals: &mut ArgumentLiterals,
    ) -> Result<(), AllocError>
        ensures values { OnOk result (values.new ≡ values.old ++ spec.values_among (self ∷ [])) }
        ensures literals { OnOk result
            (literals.new ≡ literals.old ++ spec.literals_among (self ∷ [])) }
    {
        match self {
            Argument::Value(value) => values.push(value),
            Argument::Literal(literal) => literals.push(literal),
        }
    }
}
