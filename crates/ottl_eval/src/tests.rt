//! Rows of the tables, and statements on a resource.

mod rows;
mod statements;
mod texts;
