//! A scene over a root of a forest.

ghost use Rattle.std.specs.Prelude.{◌≡◌};

use crate::forest::Forest;
use crate::root::Root;
use pdata_tree::{Context, PathTo, Place, Scene, Seen};
use pdata_value::{EvalStop, Value};

/// A scene on a lent forest, over the tree of one of its roots.
#[derive(Drop)]
pub struct ForestScene<'a> {
    forest: &'a mut Forest,
    root: Root,
    context: Context,
    place: Place,
}

impl<'a> ForestScene<'a> {
    pub(crate) fn new(
        forest: &'a mut Forest,
        root: Root,
        context: Context,
        place: Place,
    ) -> ForestScene<'a>
        ensures lends { result.forest.ghost_name ≡ forest.entry.ghost_name }
        ensures forest { result.forest.now ≡ forest.old }
        ensures root { result.root ≡ root }
        ensures context { result.context ≡ context }
        ensures place { result.place ≡ place }
    {
        ForestScene {
            forest,
            root,
            context,
            place,
        }
    }
}

impl Scene for ForestScene<'_> {
    ghost use Rattle.std.specs.Prelude.{◌≡◌, refl};
    ghost use Rattle.std.proofs.Common.{◌∙◌};
    ghost use Rattle.share_cow.specs.Keeping.{scene_itself, scene_on, stands_on};
    ghost use Rattle.share_cow.specs.Scene.{KeepsScene, Stands, numbers_of, tree_of};

    ghost stands = { λ s. Stands s.forest.now s.root s.context s.place };

    ghost tree = { λ s. tree_of s.forest.now s.root };

    ghost kind = { λ s. s.context };

    ghost place = { λ s. s.place };

    ghost numbers = { λ s. numbers_of s.forest.now s.root s.context s.place };

    ghost keeps = { λ old new. (new.forest.ghost_name ≡ old.forest.ghost_name) × (new.root ≡ old.root)
        × (new.context ≡ old.context) × (new.place ≡ old.place)
        × KeepsScene old.root old.context old.place old.forest.now new.forest.now };

    ghost keeps_itself = { λ s. (refl, refl, refl, refl, scene_itself s.root s.context s.place s.forest.now) };

    ghost keeps_on = { λ s t u p q. (
      q.0 ∙ p.0,
      q.1 ∙ p.1,
      q.2 ∙ p.2,
      q.3 ∙ p.3,
      scene_on s.root t.root s.context t.context s.place
          t.place s.forest.now t.forest.now u.forest.now p.1 p.2 p.3 p.4 q.4,
    ) };

    ghost keeps_kind = { λ s t p. p.2 };

    ghost keeps_place = { λ s t p. p.3 };

    ghost keeps_standing = { λ s t p stands. stands_on s.root t.root s.context t.context s.place t.place
        s.forest.now t.forest.now p.1 p.2 p.3 p.4 stands };

    fn context(&self) -> Context {
        self.context
    }

    fn look<'s>(&'s self, path: &PathTo) -> Result<Seen<'s>, EvalStop> {
        self.forest
            .look_at(&self.root, self.context, self.place, path)
    }

    fn read(&self, path: &PathTo) -> Result<Value, EvalStop> {
        let seen = self.look(path)?;
        Ok(seen.into_value()?)
    }

    fn write(&mut self, path: &PathTo, value: Value) -> Result<(), EvalStop> {
        self.forest
            .write_at(&self.root, self.context, self.place, path, value)
    }
}
