//! The tree of a root grouped by attributes.

ghost use Rattle.std.specs.Prelude.{◌≡◌, ◌+◌, ◌-◌, ◌^◌, min, option_map, OnOk, OnErr};
ghost use Rattle.pdata_tree.specs.Grouping.{grouped};
ghost use Rattle.pdata_tree.specs.Tree.{nodes};
ghost use Rattle.share_cow.specs.Kept.{AllStay, OthersStay};
ghost use Rattle.share_cow.specs.Scene.{tree_of};
ghost use Rattle.share_cow.specs.Store.{IsLiveRoot, den, made, shared, spare};

use crate::grouping::regroup;
use conf_json::GroupSettings;
use share_cow::{Forest, Root};
use std::alloc::{AllocError, Global};

/// Groups the tree of a root by the attributes that the settings list. All its nodes are made anew,
/// so it shares none with another root.
pub fn apply(
    alloc: Global,
    settings: &GroupSettings,
    forest: &mut Forest,
    root: &Root,
) -> Result<(), AllocError>
    requires { IsLiveRoot forest.old root.now }
    ensures tree { OnOk result (den forest.new root.now
        ≡ option_map (grouped settings.now.keys) (den forest.old root.now)) }
    ensures live { IsLiveRoot forest.new root.now }
    ensures unshared { OnOk result (shared forest.new root.now ≡ 0) }
    ensures others { OnOk result (OthersStay root.now forest.old forest.new) }
    ensures spare { spare forest.new ≡ spare forest.old }
    ensures made { OnOk result (made forest.new
        ≡ min (made forest.old + nodes (tree_of forest.new root.now)) (2 ^ 128 - 1)) }
    ensures err { OnErr result (AllStay forest.old forest.new) }
{
    let tree = forest.view(root).copy()?;
    let grouped = regroup(alloc, settings.keys.as_slice(), tree)?;
    forest.replace(root, grouped)
}
