//! Statements and conditions of OTTL: parsed form, parser, and printing.
#![tactic(auto)]

mod check;
mod cursor;
mod expr;
mod laws;
mod literal;
mod parse;
mod path;
mod print;
mod print_literal;
mod reader;
mod sign;
mod statement;

pub use expr::{Call, Compare, Expr, ExprKind, Exprs, MapPart, MapParts, Term, Terms};
pub use laws::{faults_stand_behind_viable_prefixes, what_is_parsed_is_spelled};
pub use parse::{parse_condition, parse_statement};
pub use path::{Names, Path, PathKey, PathKeys};
pub use print::print_statement;
pub use sign::Sign;
pub use statement::{Condition, Statement};

#[cfg(test)]
mod tests;
