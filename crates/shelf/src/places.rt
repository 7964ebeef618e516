//! The shelf and its calls.

ghost use Rattle.std.specs.Prelude.{◌≡◌, ◌<◌, ◌^◌, ◌-◌, ◌↔◌, [], Some, IsTrue, IfOk, OnErr, map};
ghost use Rattle.std.specs.Borrow.{sem};
ghost use Rattle.shelf.specs.Lending.{LendsItem};
ghost use Rattle.shelf.specs.Places.{Adds, IsLive, PutIn, count_at, given_up, item_at, lowered, raised, slot_at, with_slot};
ghost use Rattle.shelf.specs.Slots.{kept_of};

use crate::slot::Slot;
use std::alloc::{AllocError, Global};
use std::marker::Model;

// No shelf has so many places.
const NO_PLACE: u64 = u64::MAX;

/// Items at places, each with its count. A place is live where its count is above 0.
#[derive(Drop)]
pub struct Shelf<T> {
    slots: Vec<Slot<T>>,
    // The place that became free last, where one is free.
    free: u64,
    added: u128,
}

impl<T> Model for Shelf<T> {
    ghost use Rattle.std.specs.Prelude.{map};
    ghost use Rattle.shelf.specs.Places.{Places, places_code};
    ghost use Rattle.shelf.specs.Slots.{kept_of};

    ghost Value = { Places T };

    ghost coded = { places_code T.code };

    ghost view = { λ s. record { slots = map kept_of s.slots.items; added = s.added } };
}

impl<T: Drop> Shelf<T> {
    /// A shelf without places, which takes no memory.
    pub fn new(alloc: Global) -> Shelf<T>
        ensures places { result.slots ≡ [] }
        ensures added { result.added ≡ 0 }
    {
        Shelf {
            slots: Vec::new(alloc),
            free: NO_PLACE,
            added: 0,
        }
    }

    /// Puts an item in a place that held none, with the count 1.
    pub fn add(&mut self, item: T) -> Result<u64, AllocError>
        ensures ok { IfOk result (λ place. Adds self.old self.new place item) }
        ensures err { OnErr result (self.new ≡ self.old) }
    {
        let place = put_in(&mut self.slots, &mut self.free, item)?;
        self.added = self.added.saturating_add(1);
        Ok(place)
    }

    /// How many items were added so far. The number stops at its largest.
    pub fn added(&self) -> u128
        ensures { result ≡ self.now.added }
    {
        self.added
    }

    pub fn count(&self, place: u64) -> u128
        ensures { result ≡ count_at self.now place }
    {
        match self.slots.get(place as usize) {
            Some(slot) => slot.count(),
            None => 0,
        }
    }

    pub fn live(&self, place: u64) -> bool
        ensures { IsTrue result ↔ IsLive self.now place }
    {
        self.count(place) > 0
    }

    pub fn get(&self, place: u64) -> &T
        requires { IsLive self.now place }
        ensures { item_at self.now place ≡ Some result.now }
    {
        self.slots[place as usize].item()
    }

    /// Lends the item at a place; its count stays.
    pub fn get_mut(&mut self, place: u64) -> &mut T
        requires { IsLive self.old place }
        ensures* writes_back { sem 𝓛 (LendsItem T.row self.entry place result) }
        ensures value { item_at self.old place ≡ Some result.now }
    {
        self.slots[place as usize].item_mut()
    }

    pub fn raise(&mut self, place: u64)
        requires live { IsLive self.old place }
        requires room { count_at self.old place < 2 ^ 128 - 1 }
        ensures { self.new ≡ with_slot self.old place (raised (slot_at self.old place)) }
    {
        self.slots[place as usize].raise();
    }

    /// Lowers a count. Where it becomes 0 the place is free, and its item is handed back.
    pub fn lower(&mut self, place: u64) -> Option<T>
        requires { IsLive self.old place }
        ensures slot { self.new ≡ with_slot self.old place (lowered (slot_at self.old place)) }
        ensures item { result ≡ given_up (slot_at self.old place) }
    {
        let given = self.slots[place as usize].lower(self.free);
        if given.is_some() {
            self.free = place;
        }
        given
    }
}

// Puts an item in the place that became free last, or in a new one behind all others.
fn put_in<T: Drop>(slots: &mut Vec<Slot<T>>, free: &mut u64, item: T) -> Result<u64, AllocError>
    ensures ok { IfOk result
        (λ place. PutIn (map kept_of slots.old.items) (map kept_of slots.new.items) place item) }
    ensures err { OnErr result (slots.new.items ≡ slots.old.items) }
{
    let full = Slot::Full(item, 1);
    if let Some(Slot::Free(next)) = slots.get(*free as usize) {
        let place = *free;
        *free = *next;
        slots[place as usize] = full;
        return Ok(place);
    }
    let place = slots.len() as u64;
    slots.push(full)?;
    Ok(place)
}
