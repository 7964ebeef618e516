//! Writes at a place of a root's tree. What is written is made first, so that a refused write makes
//! no node; a way that is the root's own already is written in place.

ghost use Rattle.pdata_tree.specs.Access.{with_path};
ghost use Rattle.pdata_tree.specs.Changes.{Changes};
ghost use Rattle.pdata_tree.specs.Paths.{level_of};
ghost use Rattle.pdata_tree.specs.Scenes.{Counts};
ghost use Rattle.share_cow.specs.Copies.{InTree};
ghost use Rattle.share_cow.specs.Kept.{KeepsOthers};
ghost use Rattle.share_cow.specs.Scene.{Stands, Writes, numbers_of, tree_of, tree_with, way_to};
ghost use Rattle.share_cow.specs.Store.{levels};

use super::Forest;
use crate::owning::set_content;
use crate::root::Root;
use pdata_tree::{Context, PathTo, Place, write_log, write_resource, write_scope};
use pdata_value::{EvalErr, EvalStop, Value};
use std::alloc::AllocError;

impl Forest {
    /// Writes a value at a path of a place.
    pub(crate) fn write_at(
        &mut self,
        root: &Root,
        context: Context,
        place: Place,
        path: &PathTo,
        value: Value,
    ) -> Result<(), EvalStop>
        requires { Stands self.old root.now context place }
        ensures value { Changes (with_path path.now value (tree_of self.old root.now) context place)
            (tree_of self.old root.now) (tree_of self.new root.now) result }
        ensures keeps { KeepsOthers root.now self.old self.new }
        ensures stands { Stands self.new root.now context place }
        ensures counts { Counts (level_of context path.now.field)
            (numbers_of self.old root.now context place)
            (numbers_of self.new root.now context place) result }
    {
        if !path.field.is_of(context) {
            return Err(EvalStop::Err(EvalErr::KindOf));
        }
        match path.field.level_of(context) {
            Context::Resource => self.write_at_resource(root, place, path, value),
            Context::Scope => self.write_at_scope(root, place, path, value),
            Context::Log => self.write_at_log(root, place, path, value),
        }
    }

    // Writes a value at a field of a resource.
    fn write_at_resource(
        &mut self,
        root: &Root,
        place: Place,
        path: &PathTo,
        value: Value,
    ) -> Result<(), EvalStop>
        requires { InTree (levels self.old) root.now (way_to Context.Resource place) }
        ensures { Writes Context.Resource root.now place
            (tree_with Context.Resource path.now value place) self.old self.new result }
    {
        let alloc = path.keys.allocator();
        let keys = path.keys.as_slice();
        let (found, own) = self.find_resource(root, place);
        if own {
            let node = self.resources.get_mut(found);
            return write_resource(alloc, &mut node.content, path.field, keys, value);
        }
        let mut content = self.resources.get(found).content.copy()?;
        match write_resource(alloc, &mut content, path.field, keys, value) {
            Ok(()) => match self.own_resource(root, place) {
                Ok(resource) => {
                    set_content(&mut self.resources, resource, content);
                    Ok(())
                }
                Err(AllocError) => Err(EvalStop::NoMemory),
            },
            Err(stop) => Err(stop),
        }
    }

    // Writes a value at a field of a scope.
    fn write_at_scope(
        &mut self,
        root: &Root,
        place: Place,
        path: &PathTo,
        value: Value,
    ) -> Result<(), EvalStop>
        requires { InTree (levels self.old) root.now (way_to Context.Scope place) }
        ensures { Writes Context.Scope root.now place
            (tree_with Context.Scope path.now value place) self.old self.new result }
    {
        let alloc = path.keys.allocator();
        let keys = path.keys.as_slice();
        let (found, own) = self.find_scope(root, place);
        if own {
            let node = self.scopes.get_mut(found);
            return write_scope(alloc, &mut node.content, path.field, keys, value);
        }
        let mut content = self.scopes.get(found).content.copy()?;
        match write_scope(alloc, &mut content, path.field, keys, value) {
            Ok(()) => match self.own_scope(root, place) {
                Ok(scope) => {
                    set_content(&mut self.scopes, scope, content);
                    Ok(())
                }
                Err(AllocError) => Err(EvalStop::NoMemory),
            },
            Err(stop) => Err(stop),
        }
    }

    // Writes a value at a field of a log record.
    fn write_at_log(
        &mut self,
        root: &Root,
        place: Place,
        path: &PathTo,
        value: Value,
    ) -> Result<(), EvalStop>
        requires { InTree (levels self.old) root.now (way_to Context.Log place) }
        ensures { Writes Context.Log root.now place
            (tree_with Context.Log path.now value place) self.old self.new result }
    {
        let alloc = path.keys.allocator();
        let keys = path.keys.as_slice();
        let (found, own) = self.find_log(root, place);
        if own {
            let node = self.logs.get_mut(found);
            return write_log(alloc, &mut node.content, path.field, keys, value);
        }
        let mut content = self.logs.get(found).content.copy()?;
        match write_log(alloc, &mut content, path.field, keys, value) {
            Ok(()) => match self.own_log(root, place) {
                Ok(log) => {
                    set_content(&mut self.logs, log, content);
                    Ok(())
                }
                Err(AllocError) => Err(EvalStop::NoMemory),
            },
            Err(stop) => Err(stop),
        }
    }
}
