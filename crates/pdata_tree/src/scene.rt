//! What statements see: one tree, a context, and a place in the tree.

ghost use Rattle.std.specs.Prelude.{◌≡◌};
ghost use Rattle.pdata_value.specs.Answers.{Answers};
ghost use Rattle.pdata_tree.specs.Access.{at_path, with_path};
ghost use Rattle.pdata_tree.specs.Changes.{Changes};
ghost use Rattle.pdata_tree.specs.Paths.{level_of};
ghost use Rattle.pdata_tree.specs.Seen.{Sees};
ghost use Rattle.pdata_tree.specs.Scenes.{Numbers, Counts};
ghost use Rattle.pdata_tree.specs.declared.batch.Batch.{Batch};
ghost use Rattle.pdata_tree.specs.declared.place.Context.{Context};
ghost use Rattle.pdata_tree.specs.declared.place.Place.{Place};

use crate::path::PathTo;
use crate::place::Context;
use crate::seen::Seen;
use pdata_value::{EvalStop, Value};

/// A tree with a context and a place in it, at which statements read and write. The tree may share
/// nodes with others: then a write makes the nodes on the path to the place that are shared, once.
pub trait Scene {
    /// What the calls need: that the tree is there, and the place is in it.
    ghost stands: { Self → Type 0 };

    /// The tree that it stands on.
    ghost tree: { Self → Batch };

    /// Which kind of object the place is.
    ghost kind: { Self → Context };

    /// The place.
    ghost place: { Self → Place };

    /// The nodes that were made, those that are shared, and those that a write would make.
    ghost numbers: { Self → Numbers };

    /// What holds of an older state of a scene and a newer one: it stands on the same lent tree, at
    /// the same place.
    ghost keeps: { Self → Self → Type 0 };

    fn context(&self) -> Context
        ensures { result ≡ kind self.now };

    /// The value at a path, seen where it stands: what `read` answers, without a copy where the
    /// tree holds it.
    fn look<'s>(&'s self, path: &PathTo) -> Result<Seen<'s>, EvalStop>
        requires { stands self.now }
        ensures { Sees result (at_path path.now (tree self.now) (kind self.now) (place self.now)) };

    /// The value at a path, as the table of paths says. A field that the context doesn't have, and
    /// the cache, are KindOf.
    fn read(&self, path: &PathTo) -> Result<Value, EvalStop>
        requires { stands self.now }
        ensures { Answers result
            (at_path path.now (tree self.now) (kind self.now) (place self.now)) };

    /// Writes a value at a path. After any refusal the tree is as before.
    fn write(&mut self, path: &PathTo, value: Value) -> Result<(), EvalStop>
        requires { stands self.old }
        ensures value { Changes
            (with_path path.now value (tree self.old) (kind self.old) (place self.old))
            (tree self.old) (tree self.new) result }
        ensures keeps { keeps self.old self.new }
        ensures counts { Counts (level_of (kind self.old) path.now.field) (numbers self.old)
            (numbers self.new) result };

    ghost keeps_itself: { (s : Self) → keeps s s };

    ghost keeps_on: { (s t u : Self) → keeps s t → keeps t u → keeps s u };

    ghost keeps_kind: { (s t : Self) → keeps s t → kind t ≡ kind s };

    ghost keeps_place: { (s t : Self) → keeps s t → place t ≡ place s };

    ghost keeps_standing: { (s t : Self) → keeps s t → stands s → stands t };
}
