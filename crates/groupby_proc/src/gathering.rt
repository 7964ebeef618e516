//! Items gathered by their keys.

ghost use Rattle.std.specs.Prelude.{◌≡◌, ◌<◌, ◌∷◌, ◌++◌, [], Bool, ℕ, length};
ghost use Rattle.std.specs.Prelude.{slice_get, slice_set, IfOk, MatchOption};
ghost use Rattle.groupby_proc.specs.Gathering.{AreApart, IsEquivalence, SharesCodes};
ghost use Rattle.groupby_proc.specs.Gathering.{gathered, with_item};
ghost use Rattle.groupby_proc.specs.Indexing as spec;
ghost use Rattle.groupby_proc.specs.Indexing.{IsIndexed, codes_of, found};

use crate::index::CodeIndex;
use item_list::ItemList;
use std::alloc::{AllocError, Global};

/// What items are gathered by.
pub(crate) trait GroupKey: Drop {
    /// Whether two keys are the same.
    ghost alike: { Self → Self → Bool };

    /// The code of a key.
    ghost code: { Self → ℕ };

    fn is_same(&self, other: &Self) -> bool
        ensures { result ≡ alike self.now other.now };

    fn key_code(&self) -> u64
        ensures { result ≡ code self.now };
}

/// Groups of items, each behind the key of its first item.
pub(crate) type Groups<K, X> = ItemList<(K, ItemList<X>)>;

/// The items by their keys, in the order in which keys first appear.
pub(crate) fn gather<K: GroupKey, X: Drop>(
    alloc: Global,
    items: ItemList<(K, X)>,
) -> Result<Groups<K, X>, AllocError>
    requires equivalence { IsEquivalence K.alike }
    requires codes { SharesCodes K.alike K.code }
    ensures { IfOk result (λ groups. groups ≡ gathered K.alike items) }
{
    let mut index = CodeIndex::with_room(alloc, items.len())?;
    let mut groups = ItemList::new(alloc);
    for (key, item) in items.into_vec() {
        groups = put(alloc, groups, &mut index, key, item)?;
    }
    Ok(groups)
}

// Groups with one item more.
fn put<K: GroupKey, X: Drop>(
    alloc: Global,
    groups: Groups<K, X>,
    index: &mut CodeIndex,
    key: K,
    item: X,
) -> Result<Groups<K, X>, AllocError>
    requires equivalence { IsEquivalence K.alike }
    requires codes { SharesCodes K.alike K.code }
    requires apart { AreApart K.alike groups }
    requires indexed { IsIndexed (codes_of K.code groups) index.old.buckets }
    ensures groups { IfOk result (λ new. new ≡ with_item K.alike (key, item) groups) }
    ensures indexed { IfOk result (λ new. IsIndexed (codes_of K.code new) index.new.buckets) }
{
    let code = key.key_code();
    match find(groups.as_slice(), index.candidates(code), &key) {
        Some(at) => put_at(groups, at, item),
        None => {
            index.add(code, groups.len())?;
            put_behind(alloc, groups, key, item)
        }
    }
}

// Groups with one item more in the group at a place.
fn put_at<K: GroupKey, X: Drop>(
    mut groups: Groups<K, X>,
    at: usize,
    item: X,
) -> Result<Groups<K, X>, AllocError>
    requires { at < length groups }
    ensures { IfOk result (λ new. MatchOption (slice_get groups at) ⊥
        (λ group. new ≡ slice_set groups at (group.0, group.1 ++ item ∷ []))) }
{
    groups.at_mut(at).1.push(item)?;
    Ok(groups)
}

// Groups with a new one behind them.
fn put_behind<K: GroupKey, X: Drop>(
    alloc: Global,
    mut groups: Groups<K, X>,
    key: K,
    item: X,
) -> Result<Groups<K, X>, AllocError>
    ensures { IfOk result (λ new. new ≡ groups ++ (key, item ∷ []) ∷ []) }
{
    let mut items = ItemList::new(alloc);
    items.push(item)?;
    groups.push((key, items))?;
    Ok(groups)
}

// The first of some places at which there is a group of the key.
fn find<K: GroupKey, X>(groups: &[(K, ItemList<X>)], places: &[usize], key: &K) -> Option<usize>
    ensures { result ≡ found K.alike groups.now key.now places.now }
{
    for place in places {
        if is_under(groups, *place, key) {
            return Some(*place);
        }
    }
    None
}

// Whether there is a group of the key at a place.
fn is_under<K: GroupKey, X>(groups: &[(K, ItemList<X>)], place: usize, key: &K) -> bool
    ensures { result ≡ spec.is_under K.alike key.now (slice_get groups.now place) }
{
    match groups.get(place) {
        Some(group) => group.0.is_same(key),
        None => false,
    }
}
