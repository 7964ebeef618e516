//! Payload trees that share their nodes: each root stands for one plain tree.
#![tactic(auto)]

mod forest;
mod laws;
mod looking;
mod lowering;
mod node;
mod owning;
mod parting;
mod planting;
mod root;
mod scene;
mod view;

pub use forest::{Flags, Forest};
pub use laws::{
    a_tree_has_as_many_places_as_nodes, a_way_makes_what_it_owes, nothing_is_left_without_roots,
};
pub use root::{Root, Roots};
pub use scene::ForestScene;
pub use view::RootView;

#[cfg(test)]
mod tests;
