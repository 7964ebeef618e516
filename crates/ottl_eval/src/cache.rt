//! The cache of statements.

use pdata_value::Pairs;

/// What the path `cache` reads and writes: pairs, of which there are none at first. It belongs to
/// the statements that run one after another on one target.
pub type Cache = Pairs;
