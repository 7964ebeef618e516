//! Roots of trees, and lists of them.

ghost use Rattle.std.specs.Prelude.{◌≡◌, ◌<◌, ◌+◌, ◌++◌, ◌∷◌, [], length, slice_get, IfOk, OnSome, MatchOption};
ghost use Rattle.std.specs.Option.{option_copied};

use std::alloc::{AllocError, Global};
use std::marker::Model;

/// One tree in a forest. `Forest::release` gives it up.
#[derive(Debug, Drop)]
pub struct Root {
    place: usize,
}

impl Model for Root {
    ghost use Rattle.std.specs.Prelude.{ℕ};

    ghost Value = { ℕ };

    ghost view = { λ root. root.place };
}

impl Root {
    pub(crate) fn new(place: usize) -> Root
        ensures { result ≡ place }
    {
        Root { place }
    }

    pub(crate) fn place(&self) -> usize
        ensures { result ≡ self.now }
    {
        self.place
    }
}

/// A list of roots with room for some more.
#[derive(Drop)]
pub struct Roots {
    roots: Vec<Root>,
    room: u32,
}

impl Model for Roots {
    ghost use Rattle.std.specs.Prelude.{◌+◌, ◌<◌, ◌≤◌, ◌^◌, vec_len, vec_capacity};
    ghost use Rattle.share_cow.specs.RootLists.{RootList};

    ghost Value = { RootList };

    ghost view = { λ list. record { roots = list.roots.items; room = list.room } };

    ghost invariant = { λ list. (vec_len list.roots + list.room ≤ vec_capacity list.roots)
        × (vec_len list.roots + list.room < 2 ^ 32) };
}

impl Roots {
    /// An empty list with room for so many roots.
    pub fn with_room(alloc: Global, room: u32) -> Result<Roots, AllocError>
        ensures roots { IfOk result (λ list. list.roots ≡ []) }
        ensures room { IfOk result (λ list. list.room ≡ room) }
    {
        let roots = Vec::with_capacity(alloc, room as usize)?;
        Ok(Roots { roots, room })
    }

    pub fn room(&self) -> u32
        ensures { result ≡ self.now.room }
    {
        self.room
    }

    pub fn len(&self) -> usize
        ensures { result ≡ length self.now.roots }
    {
        self.roots.len()
    }

    /// The root at an index; None exactly past the end.
    pub fn at(&self, index: usize) -> Option<&Root>
        ensures value { option_copied result ≡ slice_get self.now.roots index }
        ensures within { OnSome result (index < length self.now.roots) }
    {
        self.roots.get(index)
    }

    /// Appends a root; it takes no memory.
    pub fn push(&mut self, root: Root)
        requires { 0 < self.old.room }
        ensures roots { self.new.roots ≡ self.old.roots ++ root ∷ [] }
        ensures room { self.new.room + 1 ≡ self.old.room }
    {
        self.roots.push_reserved(root);
        self.room -= 1;
    }

    /// Removes the last root and makes room for another; None exactly where the list is empty.
    pub fn take(&mut self) -> Option<Root>
        ensures roots { MatchOption result ((self.old.roots ≡ []) × (self.new ≡ self.old))
            (λ last. self.old.roots ≡ self.new.roots ++ last ∷ []) }
        ensures room { OnSome result (self.new.room ≡ self.old.room + 1) }
    {
        let last = self.roots.pop()?;
        self.room += 1;
        Some(last)
    }
}
