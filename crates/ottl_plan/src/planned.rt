//! Planned statements and conditions: fields and functions stand in place of names, and patterns
//! are compiled.

ghost use Rattle.std.specs.Prelude.{◌≡◌};

use crate::argument::ArgumentLiterals;
use crate::function::{Converter, Editor};
use item_list::ItemList;
use ottl_parse::Sign;
use pdata_tree::{Context, PathTo};
use pdata_value::{Text, Value};
use sqlite_items::Boxed;

pub type PlannedExprs = ItemList<PlannedExpr>;

pub type PlannedParts = ItemList<PlannedPart>;

pub type PlannedTerms = ItemList<PlannedTerm>;

/// A condition or a value.
#[cycle(planned)]
#[derive(Drop)]
pub enum PlannedExpr {
    /// A literal, or the number of a severity that a name stands for.
    Literal(Value),
    List(PlannedExprs),
    /// A map literal with its pairs in the order of the text. It keeps repeated keys.
    Map(PlannedParts),
    Convert(Conversion),
    Path(PathTo),
    /// Terms with `Sign::Plus` or `Sign::Minus`; the first has `Sign::Plus`.
    Sum(PlannedTerms),
    /// Terms with `Sign::Times` or `Sign::Over`; the first has `Sign::Times`.
    Product(PlannedTerms),
    Compare(PlannedCompare),
    Not(Boxed<PlannedExpr>),
    And(PlannedExprs),
    Or(PlannedExprs),
}

/// A call of a converter.
#[cycle(planned)]
#[derive(Drop)]
pub struct Conversion {
    pub converter: Converter,
    pub arguments: Arguments,
}

/// The arguments of a call, but for its target: values, and all that isn't a value, both in the
/// order of the call. Those that planning gives have the number and the kinds that the function
/// wants. The type is plain data and doesn't say so: who reads it has to answer for other shapes
/// too.
#[cycle(planned)]
#[derive(Drop)]
pub struct Arguments {
    pub values: PlannedExprs,
    pub literals: ArgumentLiterals,
}

/// A key of a map literal, and its value.
#[cycle(planned)]
#[derive(Drop)]
pub struct PlannedPart {
    pub key: Text,
    pub value: PlannedExpr,
}

/// A term of a sum or a product, and the sign before it.
#[cycle(planned)]
#[derive(Drop)]
pub struct PlannedTerm {
    pub sign: Sign,
    pub expr: PlannedExpr,
}

/// A comparison of two values.
#[cycle(planned)]
#[derive(Drop)]
pub struct PlannedCompare {
    pub sign: Sign,
    pub left: Boxed<PlannedExpr>,
    pub right: Boxed<PlannedExpr>,
}

/// A call of an editor, with its target.
#[derive(Drop)]
pub struct Edit {
    pub editor: Editor,
    pub target: PathTo,
    pub arguments: Arguments,
}

/// A condition that fits its context.
#[derive(Drop)]
pub struct PlannedCondition {
    pub context: Context,
    pub expr: PlannedExpr,
}

/// A statement that fits its context.
#[derive(Drop)]
pub struct PlannedStatement {
    pub context: Context,
    pub edit: Edit,
    /// In the same context.
    pub condition: Option<PlannedCondition>,
}

impl PlannedStatement {
    /// The arguments of the editor that are values, in order.
    pub fn values(&self) -> &[PlannedExpr]
        ensures { result.now ≡ self.now.edit.arguments.values }
    {
        self.edit.arguments.values.as_slice()
    }
}
