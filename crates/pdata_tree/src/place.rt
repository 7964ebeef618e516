//! Places in a tree, and the contexts in which statements run.

/// A place in a tree, by the numbers of its resource, of its scope within the resource, and of its
/// log record within the scope. A context says how many of them count.
#[derive(Clone, Copy, Debug, PartialEq, Eq)]
pub struct Place {
    pub resource: u32,
    pub scope: u32,
    pub log: u32,
}

/// The objects that statements run on (OTTL's contexts `resource`, `scope` and `log`). Also the
/// level of a field: the kind of object that holds it.
#[derive(Clone, Copy, Debug, PartialEq, Eq)]
pub enum Context {
    Resource,
    Scope,
    Log,
}
