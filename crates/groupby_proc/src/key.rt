//! Resources and scopes as keys: the same maps, and equal other fields.

ghost use Rattle.pdata_tree.specs.Grouping as spec;
ghost use Rattle.groupby_proc.specs.Codes as codes;

use crate::code::{resource_code, scope_code};
use crate::gathering::GroupKey;
use pdata_tree::{ResourceNode, ScopeNode};

impl GroupKey for ResourceNode {
    ghost alike = { spec.same_resource };

    ghost code = { codes.resource_code };

    fn is_same(&self, other: &ResourceNode) -> bool {
        self.attributes.same(&other.attributes)
            && self.dropped == other.dropped
            && self.schema_url.as_str() == other.schema_url.as_str()
    }

    fn key_code(&self) -> u64 {
        resource_code(self)
    }
}

impl GroupKey for ScopeNode {
    ghost alike = { spec.same_scope };

    ghost code = { codes.scope_code };

    fn is_same(&self, other: &ScopeNode) -> bool {
        self.name.as_str() == other.name.as_str()
            && self.version.as_str() == other.version.as_str()
            && self.attributes.same(&other.attributes)
            && self.dropped == other.dropped
            && self.schema_url.as_str() == other.schema_url.as_str()
    }

    fn key_code(&self) -> u64 {
        scope_code(self)
    }
}
