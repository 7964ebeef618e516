//! Expressions.

use crate::path::Path;
use crate::sign::Sign;
use item_list::ItemList;
use pdata_value::{Text, Value};
use sqlite_items::Boxed;

pub type Exprs = ItemList<Expr>;

pub type MapParts = ItemList<MapPart>;

pub type Terms = ItemList<Term>;

/// A condition or a value, and the place of its first token. Parentheses round the whole of it
/// leave no trace, so that its first token is the first one inside them.
#[cycle(expr)]
#[derive(Drop)]
pub struct Expr {
    pub at: u32,
    pub kind: ExprKind,
}

/// A sum, a product, an `and` and an `or` have two terms or more, as the text has them: what
/// parentheses group is a term of its own.
#[cycle(expr)]
#[derive(Drop)]
pub enum ExprKind {
    /// Nil (`Value::Empty`), a truth, a whole number with its sign, a text, or bytes.
    Literal(Value),
    List(Exprs),
    Map(MapParts),
    Call(Call),
    Path(Path),
    /// An upper name without parentheses.
    Enum(Text),
    /// Terms with `Sign::Plus` or `Sign::Minus`; the first has `Sign::Plus`.
    Sum(Terms),
    /// Terms with `Sign::Times` or `Sign::Over`; the first has `Sign::Times`.
    Product(Terms),
    Compare(Compare),
    Not(Boxed<Expr>),
    And(Exprs),
    Or(Exprs),
}

/// A call of a function, and the place of its name.
#[cycle(expr)]
#[derive(Drop)]
pub struct Call {
    pub at: u32,
    pub name: Text,
    pub arguments: Exprs,
}

/// A key of a map literal, and its value. A literal keeps repeated keys.
#[cycle(expr)]
#[derive(Drop)]
pub struct MapPart {
    pub key: Text,
    pub value: Expr,
}

/// A term of a sum or a product, and the sign before it.
#[cycle(expr)]
#[derive(Drop)]
pub struct Term {
    pub sign: Sign,
    pub expr: Expr,
}

/// A comparison of two values.
#[cycle(expr)]
#[derive(Drop)]
pub struct Compare {
    pub sign: Sign,
    pub left: Boxed<Expr>,
    pub right: Boxed<Expr>,
}
