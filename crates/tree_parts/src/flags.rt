//! Items by their flags.

ghost use Rattle.std.specs.Prelude.{◌≡◌, drop, map, not, IfOk};
ghost use Rattle.pdata_tree.specs.Selecting.{flagged};

use item_list::ItemList;
use std::alloc::{AllocError, Global};

/// The flags behind so many.
pub(crate) fn behind(flags: &[bool], count: usize) -> &[bool]
    ensures { result.now ≡ drop count flags.now }
{
    if count < flags.len() {
        &flags[count..]
    } else {
        &[]
    }
}

/// The items whose flag is true.
#[tactic(auto, using(crate::proofs::Flagged::taken, crate::proofs::Flagged::left, crate::proofs::Flagged::ended))]
pub(crate) fn keep<T: Drop>(
    alloc: Global,
    items: ItemList<T>,
    flags: &[bool],
) -> Result<ItemList<T>, AllocError>
    ensures { IfOk result (λ kept. kept ≡ flagged flags.now items) }
{
    let mut kept = ItemList::new(alloc);
    let mut rest = flags;
    for item in items.into_vec() {
        if let [flag, after @ ..] = rest {
            if *flag {
                kept.push(item)?;
            }
            rest = after;
        }
    }
    Ok(kept)
}

/// The items whose flag is true, and those whose flag is false.
#[tactic(auto, using(crate::proofs::Flagged::taken, crate::proofs::Flagged::left, crate::proofs::Flagged::ended))]
pub(crate) fn split<T: Drop>(
    alloc: Global,
    items: ItemList<T>,
    flags: &[bool],
) -> Result<(ItemList<T>, ItemList<T>), AllocError>
    ensures taken { IfOk result (λ parts. parts.0 ≡ flagged flags.now items) }
    ensures left { IfOk result (λ parts. parts.1 ≡ flagged (map not flags.now) items) }
{
    let mut taken = ItemList::new(alloc);
    let mut left = ItemList::new(alloc);
    let mut rest = flags;
    for item in items.into_vec() {
        if let [flag, after @ ..] = rest {
            if *flag {
                taken.push(item)?;
            } else {
                left.push(item)?;
            }
            rest = after;
        }
    }
    Ok((taken, left))
}
