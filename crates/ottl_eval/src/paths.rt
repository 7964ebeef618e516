//! Looking and writing at a path: of the cache, or of the scene.

ghost use Rattle.std.specs.Prelude.{◌≡◌};
ghost use Rattle.pdata_tree.specs.Changes.{Changes};
ghost use Rattle.pdata_tree.specs.Fields.{map_with};
ghost use Rattle.pdata_tree.specs.Operations.{log_trees};
ghost use Rattle.pdata_tree.specs.Paths.{level_of};
ghost use Rattle.pdata_tree.specs.Seen.{Sees};
ghost use Rattle.ottl_eval.specs.Stages.{PathCounts, is_cache, read_at, stage, written_at};

use crate::cache::Cache;
use pdata_tree::{Field, Key, PathTo, ResourceNode, Scene, Seen, look_map, write_resource};
use pdata_value::{EvalStop, Pairs, Text, Value};
use std::alloc::Global;
use std::mem;

fn is_cache(field: Field) -> bool
    ensures { result ≡ is_cache field }
{
    matches!(field, Field::Cache)
}

/// The value at a path, as it is seen there.
pub(crate) fn look_path<'s, S: Scene>(
    scene: &'s S,
    cache: &'s Cache,
    path: &PathTo,
) -> Result<Seen<'s>, EvalStop>
    requires { S.stands scene.now }
    ensures { Sees result (read_at log_trees path.now
        (stage (S.tree scene.now) (S.kind scene.now) (S.place scene.now) cache.now)) }
{
    if is_cache(path.field) {
        look_map(cache, path.keys.as_slice())
    } else {
        scene.look(path)
    }
}

/// Writes a value at a path. After any refusal the tree and the cache are as before.
pub(crate) fn write_path<S: Scene>(
    alloc: Global,
    scene: &mut S,
    cache: &mut Cache,
    path: &PathTo,
    value: Value,
) -> Result<(), EvalStop>
    requires { S.stands scene.old }
    ensures value { Changes
        (written_at log_trees path.now value
        (stage (S.tree scene.old) (S.kind scene.old) (S.place scene.old) cache.old))
        (stage (S.tree scene.old) (S.kind scene.old) (S.place scene.old) cache.old)
        (stage (S.tree scene.new) (S.kind scene.new) (S.place scene.new) cache.new) result }
    ensures keeps { S.keeps scene.old scene.new }
    ensures counts { PathCounts (is_cache path.now.field)
        (level_of (S.kind scene.old) path.now.field)
        (S.numbers scene.old) (S.numbers scene.new) result }
{
    if is_cache(path.field) {
        write_cache(alloc, cache, path.keys.as_slice(), value)
    } else {
        scene.write(path, value)
    }
}

// A cache is written as the attributes of a resource are.
fn write_cache(alloc: Global, cache: &mut Cache, keys: &[Key], value: Value) -> Result<(), EvalStop>
    ensures { Changes (map_with keys.now value cache.old) cache.old cache.new result }
{
    let mut holder = ResourceNode {
        attributes: mem::replace(cache, Pairs::new(alloc)),
        dropped: 0,
        schema_url: Text::new(alloc),
    };
    let written = write_resource(alloc, &mut holder, Field::Attributes, keys, value);
    *cache = holder.attributes;
    written
}
