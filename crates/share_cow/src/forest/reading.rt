//! Looking at a place of a root's tree.

ghost use Rattle.pdata_tree.specs.Access.{at_path};
ghost use Rattle.pdata_tree.specs.Seen.{Sees};
ghost use Rattle.share_cow.specs.Scene.{Stands, tree_of};

use super::Forest;
use crate::root::Root;
use pdata_tree::{Context, PathTo, Place, Seen, look_log, look_resource, look_scope};
use pdata_value::{EvalErr, EvalStop};

impl Forest {
    /// The value at a path of a place, as it is seen there.
    pub(crate) fn look_at<'a>(
        &'a self,
        root: &Root,
        context: Context,
        place: Place,
        path: &PathTo,
    ) -> Result<Seen<'a>, EvalStop>
        requires { Stands self.now root.now context place }
        ensures { Sees result
            (at_path path.now (tree_of self.now root.now) context place) }
    {
        if !path.field.is_of(context) {
            return Err(EvalStop::Err(EvalErr::KindOf));
        }
        let keys = path.keys.as_slice();
        let view = self.view(root);
        match path.field.level_of(context) {
            Context::Resource => look_resource(view.resource(place), path.field, keys),
            Context::Scope => look_scope(view.scope(place), path.field, keys),
            Context::Log => look_log(path.keys.allocator(), view.log(place), path.field, keys),
        }
    }
}
