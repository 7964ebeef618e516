//! A tree that is handed on to those who take it, each with a root of its own.
#![tactic(auto)]

ghost use Rattle.std.specs.Prelude.{◌≡◌, ◌+◌, ◌≤◌, IfErr, IfOk, OnErr};
ghost use Rattle.fanout.specs.Handing.{HandsOn};
ghost use Rattle.share_cow.specs.Store.{IsLiveRoot, spare};

use share_cow::{Forest, Root, Roots};
use std::alloc::Global;

/// As many roots for the root's tree as there are takers, the root itself among them. Without
/// takers the root is given up. It makes no node; where memory runs out the root comes back.
pub fn hand_on(alloc: Global, forest: &mut Forest, root: Root, takers: u32) -> Result<Roots, Root>
    requires live { IsLiveRoot forest.old root }
    requires room { takers ≤ spare forest.old + 1 }
    ensures ok { IfOk result (λ roots. HandsOn root takers forest.old forest.new roots.roots) }
    ensures root { IfErr result (λ back. back ≡ root) }
    ensures err { OnErr result (forest.new ≡ forest.old) }
{
    let Ok(mut roots) = Roots::with_room(alloc, takers) else {
        return Err(root);
    };
    if takers == 0 {
        forest.release(root);
        return Ok(roots);
    }
    for _ in 1..takers {
        let taker = forest.share(&root);
        roots.push(taker);
    }
    roots.push(root);
    Ok(roots)
}

#[cfg(test)]
mod tests;
