//! Patterns, and what makes them.

ghost use Rattle.std.specs.Prelude.{◌≡◌, ◌≤◌, ℕ, IfOk, IfErr, OnOk, IsSome, None};
ghost use Rattle.contract_words.specs.Causes.{Rose};
ghost use Rattle.func_text.specs.Patterns.{pattern_of};
ghost use Rattle.func_text.specs.Searching.{IsTextOf};

use crate::matcher::PatternMatcher;
use regex::{Error, Regex};
use std::alloc::{AllocError, Global};
use std::marker::Model;

/// A text that is a pattern, and what was compiled from it; seen as the text. Threads may share it.
#[derive(Drop)]
pub struct Pattern {
    regex: Regex,
}

impl Model for Pattern {
    ghost use Rattle.std.specs.Prelude.{◌≡◌, List, ℕ};
    ghost use Rattle.regex.specs.Patterns.{default_config};
    ghost use Rattle.regex.specs.Strings.{regex_source, regex_config, IsReadFromSource};

    ghost Value = { List ℕ };

    ghost view = { λ p. regex_source p.regex };

    ghost invariant = { λ p. IsReadFromSource p.regex × (regex_config p.regex ≡ default_config) };
}

impl Pattern {
    /// The text.
    pub fn as_str(&self) -> &str
        ensures { result.now ≡ self.now }
    {
        self.regex.as_str()
    }

    /// What searches for the pattern in texts. It takes memory; make one for many texts.
    pub fn matcher(&self, alloc: Global) -> Result<PatternMatcher<'_>, AllocError>
        ensures { IfOk result (λ matcher. matcher ≡ self.now) }
    {
        PatternMatcher::new(alloc, self)
    }

    pub(crate) fn regex(&self) -> &Regex
        ensures { IsTextOf self.now result.now }
    {
        &self.regex
    }
}

/// Why no pattern was made.
#[derive(Clone, Copy, Debug, PartialEq, Eq)]
pub enum MakeStop {
    /// The text is no pattern, or nests too deep.
    Syntax,
    /// The pattern was refused for its size.
    Size,
    NoMemory,
}

/// Makes patterns, and counts those that it refuses for their size.
pub trait PatternMaker {
    ghost refusals: { Self → ℕ };

    fn make(&mut self, alloc: Global, text: &str) -> Result<Pattern, MakeStop>
        ensures text { IfOk result (λ pattern. pattern ≡ text.now) }
        ensures read { OnOk result (IsSome (pattern_of text.now)) }
        ensures syntax { IfErr result (λ stop. stop ≡ MakeStop.Syntax
            → pattern_of text.now ≡ None) }
        ensures size { IfErr result (λ stop. stop ≡ MakeStop.Size
            → IsSome (pattern_of text.now) × Rose (refusals self.old) (refusals self.new)) }

        // The count never falls, and an Ok leaves it.
        ensures later { refusals self.old ≤ refusals self.new }
        ensures kept { OnOk result (refusals self.new ≡ refusals self.old) };
}

/// The maker that compiles a text by `regex`, seen as its count of refusals, which stays at its
/// last number.
#[derive(Drop)]
pub struct RegexMaker {
    refusals: u64,
}

impl Model for RegexMaker {
    ghost use Rattle.std.specs.Prelude.{ℕ};

    ghost Value = { ℕ };

    ghost view = { λ maker. maker.refusals };
}

impl RegexMaker {
    pub fn new() -> RegexMaker
        ensures { result ≡ 0 }
    {
        RegexMaker { refusals: 0 }
    }
}

impl PatternMaker for RegexMaker {
    ghost refusals = { λ maker. maker };

    fn make(&mut self, alloc: Global, text: &str) -> Result<Pattern, MakeStop> {
        match Regex::new(alloc, text) {
            Ok(regex) => Ok(Pattern { regex }),
            Err(Error::Syntax(_)) => Err(MakeStop::Syntax),
            Err(Error::OutOfMemory) => Err(MakeStop::NoMemory),
            Err(Error::CompiledTooBig) => {
                self.refusals = self.refusals.saturating_add(1);
                Err(MakeStop::Size)
            }
            // `Regex::new` is proved not to answer this.
            Err(Error::Internal) => {
                self.refusals = self.refusals.saturating_add(1);
                Err(MakeStop::Size)
            }
        }
    }
}
