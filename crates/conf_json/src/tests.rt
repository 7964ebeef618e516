//! The account of errors, and statements of configurations.

mod account;
mod statements;
