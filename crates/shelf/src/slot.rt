//! One place of a shelf.

ghost use Rattle.std.specs.Prelude.{◌≡◌, ◌<◌, ◌^◌, ◌-◌, IsSome, Some, option_map};
ghost use Rattle.std.specs.Borrow.{sem, Lends};
ghost use Rattle.shelf.specs.Places.{count_of, given_up, lowered, raised};
ghost use Rattle.shelf.specs.Slots.{kept_of, slot_with};

use std::mem;

/// A place that holds an item and its count, or one that is free and names the place that was
/// free before it.
#[derive(Drop)]
pub(crate) enum Slot<T> {
    Full(T, u128),
    Free(u64),
}

impl<T> Slot<T> {
    ghost use Rattle.shelf.specs.contracts.slot.Slot.{the_row};

    pub(crate) fn count(&self) -> u128
        ensures { result ≡ count_of (kept_of self.now) }
    {
        match self {
            Slot::Full(_, count) => *count,
            Slot::Free(_) => 0,
        }
    }

    pub(crate) fn item(&self) -> &T
        requires { 0 < count_of (kept_of self.now) }
        ensures { option_map (λ kept. kept.0) (kept_of self.now) ≡ Some result.now }
    {
        match self {
            Slot::Full(item, _) => item,
            Slot::Free(_) => unreachable!(),
        }
    }

    pub(crate) fn item_mut(&mut self) -> &mut T
        requires { 0 < count_of (kept_of self.old) }
        ensures* lends { sem 𝓛
            (Lends (the_row T.row) T.row self.entry result (slot_with self.old)) }
        ensures value { option_map (λ kept. kept.0) (kept_of self.old) ≡ Some result.now }
    {
        match self {
            Slot::Full(item, _) => item,
            Slot::Free(_) => unreachable!(),
        }
    }

    pub(crate) fn raise(&mut self)
        requires { count_of (kept_of self.old) < 2 ^ 128 - 1 }
        ensures { kept_of self.new ≡ raised (kept_of self.old) }
    {
        if let Slot::Full(_, count) = self {
            *count += 1;
        }
    }
}

impl<T: Drop> Slot<T> {
    /// Lowers the count. Where it was the last, the slot becomes one that is free before `next`.
    pub(crate) fn lower(&mut self, next: u64) -> Option<T>
        ensures slot { kept_of self.new ≡ lowered (kept_of self.old) }
        ensures item { result ≡ given_up (kept_of self.old) }
    {
        if let Slot::Full(_, count) = self {
            if *count > 1 {
                *count -= 1;
                return None;
            }
        }
        match mem::replace(self, Slot::Free(next)) {
            Slot::Full(item, _) => Some(item),
            Slot::Free(_) => None,
        }
    }
}
