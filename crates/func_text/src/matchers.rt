//! Matchers that are kept from one use to the next.

ghost use Rattle.std.specs.Prelude.{◌≡◌, ◌↔◌, ◌<◌, ◌≤◌, [], IfOk, IfSome, IsTrue, Some, length, max, slice_get};

use crate::matcher::PatternMatcher;
use crate::pattern::Pattern;
use item_list::ItemList;
use std::alloc::{AllocError, Global};

/// The matchers of the patterns asked for last: `MOST` of them at most, or one where `MOST` is 0.
#[derive(Drop)]
pub struct Matchers<'p, const MOST: usize> {
    alloc: Global,
    kept: ItemList<PatternMatcher<'p>>,
}

impl<'p, const MOST: usize> Matchers<'p, MOST> {
    pub fn new(alloc: Global) -> Matchers<'p, MOST>
        ensures { result.kept ≡ [] }
    {
        Matchers {
            alloc,
            kept: ItemList::new(alloc),
        }
    }

    /// What searches for the pattern, made if there is none. Where there are `MOST`, the oldest is
    /// given up for it.
    pub fn matcher(&mut self, pattern: &'p Pattern) -> Result<&mut PatternMatcher<'p>, AllocError>
        ensures { IfOk result (λ matcher. matcher.now ≡ pattern.now) }
    {
        let at = self.find_or_make(pattern)?;
        Ok(self.kept.at_mut(at))
    }

    fn place_of(&self, pattern: &Pattern) -> Option<usize>
        ensures { IfSome result (λ at. slice_get self.now.kept at ≡ Some pattern.now) }
    {
        for at in 0..self.kept.len() {
            if self.kept.as_slice()[at].is_of(pattern) {
                return Some(at);
            }
        }
        None
    }

    fn find_or_make(&mut self, pattern: &'p Pattern) -> Result<usize, AllocError>
        ensures found { IfOk result (λ at. slice_get self.new.kept at ≡ Some pattern.now) }
        ensures within { IfOk result (λ at. at < length self.new.kept) }
        ensures few { length self.new.kept ≤ max (length self.old.kept) (max MOST 1) }
    {
        match self.place_of(pattern) {
            Some(at) => Ok(at),
            None => self.make(pattern),
        }
    }

    /// Out of line, since the room of a new matcher is kilobytes, which a search for one that is
    /// there must not clear.
    #[cold]
    #[inline(never)]
    fn make(&mut self, pattern: &'p Pattern) -> Result<usize, AllocError>
        ensures made { IfOk result (λ at. slice_get self.new.kept at ≡ Some pattern.now) }
        ensures within { IfOk result (λ at. at < length self.new.kept) }
        ensures few { length self.new.kept ≤ max (length self.old.kept) (max MOST 1) }
    {
        self.make_room();
        let matcher = PatternMatcher::new(self.alloc, pattern)?;
        let at = self.kept.len();
        self.kept.push(matcher)?;
        Ok(at)
    }

    fn make_room(&mut self)
        ensures { length self.new.kept < max (length self.old.kept) (max MOST 1) }
    {
        if self.kept.len() >= MOST && self.kept.len() > 0 {
            drop(self.kept.remove(0));
        }
    }
}
