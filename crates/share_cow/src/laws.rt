//! Laws on what a forest holds.

ghost use Rattle.std.specs.Prelude.{◌≡◌, ◌+◌, ◌<◌, ◌≤◌, ◌++◌, ◌∷◌, ℕ, List, Option, false, length};
ghost use Rattle.pdata_tree.specs.Tree.{nodes};
ghost use Rattle.share_cow.specs.Copies.{Copies, InTree, OpenPath, Went, onto, owed};
ghost use Rattle.share_cow.specs.Levels.{AllCounted, IsApart, Level, shared_places};
ghost use Rattle.share_cow.specs.Emptied.{HoldsNothing};
ghost use Rattle.share_cow.specs.Scene.{tree_of};
ghost use Rattle.share_cow.specs.Store.{IsLiveRoot, IsSound, Part, Store, places_of, spare};

/// Where all roots are given up, whatever the order, no node is left.
#[tactic(auto, using(crate::proofs::Unshared::emptied))]
pub fn nothing_is_left_without_roots()
    ensures { (forest : Store) → IsSound forest → spare forest ≡ forest.most
        → HoldsNothing forest }
{}

/// A shared node that is made anew for one who names it changes no tree and shares one place less,
/// and a way to the end of a path made exactly what was owed.
pub fn a_way_makes_what_it_owes()
    ensures step { (none : Part) (parent old new : ℕ) (before after : List ℕ)
        (k m k2 m2 : Level Part) (b b2 : Option (Level Part)) (above below : List (Level Part))
        (root : ℕ)
        (front rest : List ℕ) → Copies parent old new before after k m k2 m2 b b2
        → AllCounted (above ++ k ∷ m ∷ onto b below) → IsApart (above ++ k ∷ m ∷ onto b below) root
        → OpenPath above root front parent → k.count parent ≤ 1 → InTree (m ∷ onto b below) old rest
        → Went none (above ++ k ∷ m ∷ onto b below) (above ++ k2 ∷ m2 ∷ onto b2 below) root
        (front ++ length before ∷ rest) 1 }
    ensures both { (none : Part) (ls ms ns : List (Level Part)) (root made more : ℕ)
        (path : List ℕ) → Went none ls ms root path made → Went none ms ns root path more
        → Went none ls ns root path (made + more) }
    ensures end { (none : Part) (ls above below : List (Level Part)) (m : Level Part)
        (root made p : ℕ) (path : List ℕ) → Went none ls (above ++ m ∷ below) root path made
        → OpenPath above root path p → m.count p ≤ 1 → (made ≡ owed ls root path)
        × (shared_places false (above ++ m ∷ below) root + owed ls root path
        ≡ shared_places false ls root) }
{}

/// A root's tree has as many places as nodes.
#[tactic(auto, using(crate::proofs::Sizes::places_are_nodes))]
pub fn a_tree_has_as_many_places_as_nodes()
    ensures { (forest : Store) (root : ℕ) → IsSound forest → IsLiveRoot forest root
        → places_of forest root ≡ nodes (tree_of forest root) }
{}
