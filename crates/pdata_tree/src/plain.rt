//! A scene on a tree of its own.

ghost use Rattle.std.specs.Prelude.{◌≡◌, refl};
ghost use Rattle.std.proofs.Common.{◌∙◌};
ghost use Rattle.pdata_tree.specs.Scenes.{nothing_shared};

use crate::batch::Batch;
use crate::path::PathTo;
use crate::place::{Context, Place};
use crate::scene::Scene;
use crate::seen::Seen;
use crate::tree_access::{look_at, write_at};
use pdata_value::{EvalStop, Value};

/// A scene on a lent tree that shares nothing. At a place that isn't in the tree every call is
/// KindOf.
#[derive(Drop)]
pub struct PlainScene<'a> {
    tree: &'a mut Batch,
    context: Context,
    place: Place,
}

impl<'a> PlainScene<'a> {
    pub fn new(tree: &'a mut Batch, context: Context, place: Place) -> PlainScene<'a>
        ensures lends { result.tree.ghost_name ≡ tree.entry.ghost_name }
        ensures tree { result.tree.now ≡ tree.old }
        ensures context { result.context ≡ context }
        ensures place { result.place ≡ place }
    {
        PlainScene {
            tree,
            context,
            place,
        }
    }
}

impl Scene for PlainScene<'_> {
    ghost stands = { λ s. Unit };

    ghost tree = { λ s. s.tree.now };

    ghost kind = { λ s. s.context };

    ghost place = { λ s. s.place };

    ghost numbers = { λ s. nothing_shared };

    ghost keeps = { λ old new. (new.tree.ghost_name ≡ old.tree.ghost_name) × (new.context ≡ old.context)
        × (new.place ≡ old.place) };

    ghost keeps_itself = { λ s. (refl, refl, refl) };

    ghost keeps_on = { λ s t u p q. (q.0 ∙ p.0, q.1 ∙ p.1, q.2 ∙ p.2) };

    ghost keeps_kind = { λ s t p. p.1 };

    ghost keeps_place = { λ s t p. p.2 };

    ghost keeps_standing = { λ s t p stands. stands };

    fn context(&self) -> Context {
        self.context
    }

    fn look<'s>(&'s self, path: &PathTo) -> Result<Seen<'s>, EvalStop> {
        look_at(self.tree, self.context, self.place, path)
    }

    fn read(&self, path: &PathTo) -> Result<Value, EvalStop> {
        let seen = self.look(path)?;
        Ok(seen.into_value()?)
    }

    fn write(&mut self, path: &PathTo, value: Value) -> Result<(), EvalStop> {
        write_at(self.tree, self.context, self.place, path, value)
    }
}
