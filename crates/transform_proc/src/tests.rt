//! Groups of statements, from their texts, on log records with the body `hi` and the attribute `d`,
//! which is the double 2.50.

mod groups;
mod modes;
mod rooted;
mod runs;
