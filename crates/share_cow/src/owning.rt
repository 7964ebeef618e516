//! How a node that is shared is made anew for one who names it.

ghost use Rattle.std.specs.Prelude.{◌≡◌, ◌<◌, ◌+◌, ◌^◌, ℕ, List, IfOk, OnErr, length, map, slice_index_or, slice_set};
ghost use Rattle.shelf.specs.Places.{IsLive, count_at};
ghost use Rattle.share_cow.specs.Levels.{list_at, times};
ghost use Rattle.share_cow.specs.Owning.{NodeCopied, Raises, with_node};
ghost use Rattle.share_cow.specs.Store.{IsKept, children_of};

use crate::looking::children_at;
use crate::node::Node;
use item_list::ItemList;
use shelf::Shelf;
use std::alloc::AllocError;

/// The place that a node names at an index.
pub(crate) fn child_at<D: Drop>(shelf: &Shelf<Node<D>>, place: u64, index: u32) -> u64
    requires live { IsLive shelf.now place }
    requires there { index < length (list_at (map children_of shelf.now.slots) place) }
    ensures { result ≡ slice_index_or (list_at (map children_of shelf.now.slots) place) index 0 }
{
    children_at(shelf, place)[index as usize]
}

/// A node that names what another one names, which counts once less; it has this content.
pub(crate) fn copy_node<D: Drop>(
    shelf: &mut Shelf<Node<D>>,
    place: u64,
    content: D,
) -> Result<u64, AllocError>
    requires shared { 1 < count_at shelf.old place }
    requires kept { IsKept shelf.old }
    ensures ok { IfOk result (λ new. NodeCopied place new content shelf.old shelf.new) }
    ensures err { OnErr result (shelf.new ≡ shelf.old) }
{
    let named = &shelf.get(place).children;
    let children = ItemList::from_slice(named.allocator(), named.as_slice())?;
    let new = shelf.add(Node { content, children })?;
    shelf.lower(place);
    Ok(new)
}

/// Nodes count once more, each as often as it is listed.
pub(crate) fn raise_all<D: Drop>(shelf: &mut Shelf<Node<D>>, places: &[u64])
    requires live { (p : ℕ) → 0 < times p places.now → IsLive shelf.old p }
    requires room { (p : ℕ) → count_at shelf.old p + length places.now < 2 ^ 128 }
    requires kept { IsKept shelf.old }
    ensures { Raises places.now shelf.old shelf.new }
{
    for place in places {
        shelf.raise(*place);
    }
}

/// A node names another one at an index.
pub(crate) fn set_child<D: Drop>(shelf: &mut Shelf<Node<D>>, place: u64, index: u32, child: u64)
    requires live { IsLive shelf.old place }
    requires there { index < length (list_at (map children_of shelf.old.slots) place) }
    ensures { shelf.new ≡ with_node shelf.old place
        (λ node. record node { children = slice_set node.children index child }) }
{
    shelf.get_mut(place).children.set(index as usize, child);
}

/// A node holds something else.
pub(crate) fn set_content<D: Drop>(shelf: &mut Shelf<Node<D>>, place: u64, content: D)
    requires { IsLive shelf.old place }
    ensures { shelf.new ≡ with_node shelf.old place (λ node. record node { content = content }) }
{
    shelf.get_mut(place).content = content;
}
