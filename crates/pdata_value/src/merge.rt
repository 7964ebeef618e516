//! Removing pairs of a map, and merging one map into another.

ghost use Rattle.std.specs.Prelude.{◌≡◌, ◌+◌, drop, ◌<◌, ◌≤◌, IfOk, OnOk, OnErr, vec_len, vec_capacity};
ghost use Rattle.pdata_value.specs.Value.{pairs as pairs_of};
ghost use Rattle.pdata_value.specs.Pairs.{has_key, kept, merged, put, put_all, taken, takes, without};
ghost use Rattle.pdata_value.specs.Places.{IsPlan, PutsAt};

use crate::index::{
    add_key, are_many, has_place, index_of, is_listed, keys_of, look_up, places_of,
};
use crate::pairs::{Pairs, find, has_key};
use crate::text::Text;
use crate::value::Value;
use item_list::ItemList;
use std::alloc::{AllocError, Global};
use std::mem;

/// Which pairs of another map are put into a map.
#[derive(Clone, Copy, Debug, PartialEq, Eq)]
pub enum Strategy {
    /// Those whose key the map didn't have before.
    Insert,
    /// Those whose key the map had before.
    Update,
    /// All.
    Upsert,
}

impl Pairs {
    /// Removes all pairs with the key, and tells whether there was one.
    pub fn remove(&mut self, key: &str) -> bool
        ensures rest { pairs_of self.new ≡ without (pairs_of self.old) key.now }
        ensures was { result ≡ has_key (pairs_of self.old) key.now }
    {
        let had = has_key(self.as_slice(), key);
        self.items.retain(|pair| pair.0.as_str() != key);
        had
    }

    /// Removes all pairs whose key isn't listed.
    pub fn keep(&mut self, keys: &[Text])
        ensures { pairs_of self.new ≡ kept (pairs_of self.old) keys.now }
    {
        let index = keys_of(self.items.allocator(), keys, self.items.len());
        self.items
            .retain(|pair| is_listed(keys, &index, pair.0.as_str()));
    }

    /// Puts the pairs of another map, one after another, as far as the strategy takes their keys.
    pub fn merge(&mut self, mut other: Pairs, strategy: Strategy) -> Result<(), AllocError>
        ensures ok { OnOk result
            (pairs_of self.new ≡ merged strategy (pairs_of self.old) (pairs_of other)) }
        ensures err { OnErr result (self.new ≡ self.old) }
    {
        take_pairs(self.as_slice(), &mut other.items, strategy);
        let places = plan(
            other.items.allocator(),
            self.as_slice(),
            other.items.as_slice(),
        )?;
        put_each(&mut self.items, other.items, places)
    }
}

impl Strategy {
    // Whether a key is taken, which the map had before or not.
    fn takes(&self, had: bool) -> bool
        ensures { result ≡ takes self.now had }
    {
        match self {
            Strategy::Insert => !had,
            Strategy::Update => had,
            Strategy::Upsert => true,
        }
    }
}

// Leaves the pairs that are taken.
fn take_pairs(list: &[(Text, Value)], others: &mut ItemList<(Text, Value)>, strategy: Strategy)
    ensures { others.new ≡ taken strategy list.now others.old }
{
    let index = places_of(others.allocator(), list, others.len());
    others.retain(|pair| strategy.takes(has_place(list, &index, pair.0.as_str())));
}

// Where each of the pairs is put, if they are many.
fn plan<'k>(
    alloc: Global,
    list: &'k [(Text, Value)],
    others: &'k [(Text, Value)],
) -> Result<Vec<Option<usize>>, AllocError>
    ensures { IfOk result (λ places. IsPlan places.items list.now others.now) }
{
    let mut places = Vec::new(alloc);
    if !are_many(others.len()) {
        return Ok(places);
    }
    let mut index = index_of(alloc, list)?;
    let mut end = list.len();
    for pair in others {
        let key = pair.0.as_str();
        match look_up(&index, key) {
            Some(at) => places.push(Some(at))?,
            None => {
                add_key(&mut index, key, end)?;
                end = one_more(end)?;
                places.push(None)?;
            }
        }
    }
    Ok(places)
}

fn one_more(count: usize) -> Result<usize, AllocError>
    ensures { IfOk result (λ more. more ≡ count + 1) }
{
    count.checked_add(1).ok_or(AllocError)
}

// One after another; all or none of them.
fn put_each(
    items: &mut ItemList<(Text, Value)>,
    pairs: ItemList<(Text, Value)>,
    places: Vec<Option<usize>>,
) -> Result<(), AllocError>
    requires { IsPlan places.items items.old pairs }
    ensures ok { OnOk result (items.new ≡ put_all items.old pairs) }
    ensures err { OnErr result (items.new ≡ items.old) }
{
    let empty = ItemList::new(items.allocator());
    let mut list = mem::replace(items, empty).into_vec();
    let room = list.reserve(pairs.len());
    if room.is_ok() {
        put_all(&mut list, pairs.into_vec(), places.as_slice());
    }
    *items = ItemList::from_vec(list);
    room
}

fn behind_first<T>(list: &[T]) -> &[T]
    ensures { result.now ≡ drop 1 list.now }
{
    if list.is_empty() { list } else { &list[1..] }
}

// There is room for all of the pairs.
fn put_all(list: &mut Vec<(Text, Value)>, pairs: Vec<(Text, Value)>, places: &[Option<usize>])
    requires room { vec_len list.old + vec_len pairs ≤ vec_capacity list.old }
    requires places { IsPlan places.now list.old.items pairs.items }
    ensures { list.new.items ≡ put_all list.old.items pairs.items }
{
    let mut planned = places;
    for pair in pairs {
        let place = match planned.first() {
            Some(place) => *place,
            None => find(list.as_slice(), pair.0.as_str()),
        };
        planned = behind_first(planned);
        put(list, place, pair);
    }
}

fn put(list: &mut Vec<(Text, Value)>, place: Option<usize>, pair: (Text, Value))
    requires room { vec_len list.old < vec_capacity list.old }
    requires place { PutsAt list.old.items pair.0 place }
    ensures items { list.new.items ≡ put list.old.items pair.0 pair.1 }
    ensures len { vec_len list.new ≤ vec_len list.old + 1 }
    ensures capacity { vec_capacity list.old ≤ vec_capacity list.new }
{
    match place {
        Some(at) => drop(mem::replace(&mut list[at].1, pair.1)),
        None => {
            let _ = list.push(pair);
        }
    }
}
