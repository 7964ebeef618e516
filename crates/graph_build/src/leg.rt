//! Legs.

use pdata_value::Text;

/// One way from the receiver through pipelines. Legs are numbered from 0, a root before its
/// children.
#[derive(Drop)]
pub struct Leg {
    /// The leg from which the data comes; None for a root.
    pub parent: Option<u32>,
    /// Which of the connectors of the parent's pipeline, counted in the order of its exporters.
    pub connector: Option<u32>,
    /// The row of its table; None for a root and for the default.
    pub row: Option<u32>,
    pub pipeline: Text,
    pub mutates: bool,
}
