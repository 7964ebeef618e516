//! Statements and conditions of OTTL that were checked against a context.
#![tactic(auto)]

mod argument;
mod fault;
mod function;
mod literal;
mod paths;
mod plan;
mod planned;
mod severity;

pub use argument::{ArgumentKind, ArgumentLiteral, ArgumentLiterals};
pub use fault::{PlanFault, PlanKind, PlanStop};
pub use function::{Converter, Editor};
pub use plan::{plan_condition, plan_statement};
pub use planned::{
    Arguments, Conversion, Edit, PlannedCompare, PlannedCondition, PlannedExpr, PlannedExprs,
    PlannedPart, PlannedParts, PlannedStatement, PlannedTerm, PlannedTerms,
};

#[cfg(test)]
mod tests;
