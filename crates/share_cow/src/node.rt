//! Nodes of shared trees.

use item_list::ItemList;

/// The places of nodes one level below.
pub type Children = ItemList<u64>;

/// What a payload, a resource, a scope or a log record holds itself, and the places of what it
/// holds below.
#[derive(Drop)]
pub struct Node<D> {
    pub content: D,
    pub children: Children,
}
