//! The matchers that are kept from one use of a pattern to the next.

use func_text::Matchers;

/// How many are kept.
const MOST: usize = 8;

/// The matchers of the patterns that were used last.
pub type KeptMatchers<'p> = Matchers<'p, MOST>;
