//! What searches for a pattern, kept from one text to the next.

ghost use Rattle.std.specs.Prelude.{◌≡◌, ◌↔◌, IfOk, IsTrue, string_bytes};
ghost use Rattle.pdata_value.specs.Value.{pairs};
ghost use Rattle.func_text.specs.Patterns.{has_match, replaced, named_groups};

use crate::groups::named_groups_of;
use crate::pattern::Pattern;
use pdata_value::Pairs;
use regex::{Matcher, Regex, Template};
use std::alloc::{AllocError, Global};
use std::marker::Model;

/// A pattern with its matcher, seen as the pattern's text.
#[derive(Drop)]
pub struct PatternMatcher<'p> {
    regex: &'p Regex,
    matcher: Matcher<'p>,
}

impl<'p> Model for PatternMatcher<'p> {
    ghost use Rattle.std.specs.Prelude.{◌≡◌, List, ℕ};
    ghost use Rattle.func_text.specs.Searching.{Searches};
    ghost use Rattle.regex.specs.Strings.{regex_source};

    ghost Value = { List ℕ };

    ghost view = { λ m. regex_source m.regex.now };

    ghost invariant = { λ m. Searches m.regex.now m.matcher };
}

impl<'p> PatternMatcher<'p> {
    pub(crate) fn new(alloc: Global, pattern: &'p Pattern) -> Result<PatternMatcher<'p>, AllocError>
        ensures { IfOk result (λ matcher. matcher ≡ pattern.now) }
    {
        let regex = pattern.regex();
        let matcher = regex.matcher(alloc)?;
        Ok(PatternMatcher { regex, matcher })
    }

    pub(crate) fn is_of(&self, pattern: &Pattern) -> bool
        ensures { IsTrue result ↔ (self.now ≡ pattern.now) }
    {
        self.regex.as_str() == pattern.as_str()
    }

    /// Whether the text has a match.
    pub fn has_match(&mut self, text: &str) -> bool
        ensures found { result ≡ has_match self.old text.now }
        ensures same { self.new ≡ self.old }
    {
        self.matcher.is_match(text)
    }

    /// The text with all matches replaced by what the template writes there.
    pub fn replace_all(
        &mut self,
        alloc: Global,
        text: &str,
        template: &str,
    ) -> Result<String, AllocError>
        ensures replaced { IfOk result (λ out. string_bytes out
            ≡ replaced self.old template.now text.now) }
        ensures same { self.new ≡ self.old }
    {
        let template = Template::new(alloc, self.regex.capture_names(), template)?;
        self.matcher.replace_all(alloc, text, &template)
    }

    /// The named groups of the first match with the texts that they matched, in the pattern's
    /// order.
    pub fn named_groups(&mut self, alloc: Global, text: &str) -> Result<Pairs, AllocError>
        ensures groups { IfOk result (λ groups. pairs groups ≡ named_groups self.old text.now) }
        ensures same { self.new ≡ self.old }
    {
        match self.matcher.captures(text) {
            Some(captures) => named_groups_of(alloc, self.regex.capture_names(), &captures),
            None => Ok(Pairs::new(alloc)),
        }
    }
}
