//! Statements and conditions.

use crate::expr::{Call, Expr};

/// A call, and the condition behind `where`.
#[derive(Drop)]
pub struct Statement {
    pub call: Call,
    pub condition: Option<Condition>,
}

#[derive(Drop)]
pub struct Condition {
    pub expr: Expr,
}
