//! Where things stand that have a code.

ghost use Rattle.std.specs.Prelude.{◌≡◌, ◌<◌, ◌%◌, [], length, IfOk, OnOk};
ghost use Rattle.groupby_proc.specs.Indexing.{IsIndexed, candidates, with_place};

use item_list::ItemList;
use std::alloc::{AllocError, Global};

/// Buckets of places, of which a code chooses one.
#[derive(Drop)]
pub(crate) struct CodeIndex {
    buckets: ItemList<ItemList<usize>>,
    ghost some: { 0 < length buckets },
}

impl CodeIndex {
    /// An index of nothing, with buckets for so many places.
    pub(crate) fn with_room(alloc: Global, count: usize) -> Result<CodeIndex, AllocError>
        ensures { IfOk result (λ index. IsIndexed [] index.buckets) }
    {
        let mut buckets = ItemList::new(alloc);
        buckets.push(ItemList::new(alloc))?;
        for _ in 1..count {
            buckets.push(ItemList::new(alloc))?;
        }
        Ok(CodeIndex { buckets })
    }

    /// Places of which each may be one with this code.
    pub(crate) fn candidates(&self, code: u64) -> &[usize]
        ensures { result.now ≡ candidates self.now.buckets code }
    {
        match self.buckets.at(self.bucket_of(code)) {
            Some(bucket) => bucket.as_slice(),
            None => &[],
        }
    }

    /// Notes that a thing with this code stands at a place.
    #[tactic(auto, using(crate::proofs::Indexed::set_twice))]
    pub(crate) fn add(&mut self, code: u64, place: usize) -> Result<(), AllocError>
        ensures { OnOk result (self.new.buckets ≡ with_place self.old.buckets code place) }
    {
        let at = self.bucket_of(code);
        let empty = ItemList::new(self.buckets.allocator());
        let mut bucket = self.buckets.replace(at, empty);
        bucket.push(place)?;
        self.buckets.set(at, bucket);
        Ok(())
    }

    fn bucket_of(&self, code: u64) -> usize
        ensures chosen { result ≡ code % length self.now.buckets }
        ensures within { result < length self.now.buckets }
    {
        (code % self.buckets.len() as u64) as usize
    }
}
