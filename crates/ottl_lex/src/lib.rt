//! Tokens of statements and conditions.
#![tactic(auto)]

pub mod codes;
mod fault;
mod laws;
mod lengths;
mod lexer;
mod numbers;
mod quoted;
mod token;

pub use fault::{SyntaxFault, SyntaxKind, SyntaxStop};
pub use laws::{contents_are_meant, faults_stand, tokens_are_longest};
pub use lexer::{MAX_TEXT, lex};
pub use numbers::{read_digits, read_literal};
pub use quoted::read_text;
pub use token::{Token, TokenKind, Tokens};

#[cfg(test)]
mod tests;
