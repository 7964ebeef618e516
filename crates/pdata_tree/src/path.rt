//! Paths into a tree.

ghost use Rattle.std.specs.Prelude.{◌≡◌};
ghost use Rattle.pdata_tree.specs.Paths as spec;

use crate::place::Context;
use item_list::ItemList;
use pdata_value::Text;

/// What a path begins with, in the table of paths of docs/OTTL.md. `time` and `time_unix_nano` are
/// one field, and so are `observed_time` and `observed_time_unix_nano`.
#[derive(Clone, Copy, Debug, PartialEq, Eq)]
pub enum Field {
    /// Of the context's own object.
    Attributes,
    /// Of the context's own object.
    DroppedAttributesCount,
    /// Of a scope, in its own context.
    Name,
    /// Of a scope, in its own context.
    Version,
    ResourceAttributes,
    ResourceDroppedAttributesCount,
    InstrumentationScopeAttributes,
    InstrumentationScopeName,
    InstrumentationScopeVersion,
    Body,
    BodyString,
    SeverityNumber,
    SeverityText,
    Time,
    ObservedTime,
    Flags,
    TraceIdString,
    SpanIdString,
    /// Of no object: it belongs to the statements of a group.
    Cache,
}

impl Field {
    /// Whether the field is one of the context's.
    pub fn is_of(self, context: Context) -> bool
        ensures { result ≡ spec.is_field_of context self }
    {
        match self {
            Field::Attributes | Field::DroppedAttributesCount | Field::Cache => true,
            Field::Name | Field::Version => context == Context::Scope,
            Field::ResourceAttributes | Field::ResourceDroppedAttributesCount => {
                context != Context::Resource
            }
            _ => context == Context::Log,
        }
    }

    /// The kind of object that holds the field of a context.
    pub fn level_of(self, context: Context) -> Context
        ensures { result ≡ spec.level_of context self }
    {
        match self {
            Field::ResourceAttributes | Field::ResourceDroppedAttributesCount => Context::Resource,
            Field::InstrumentationScopeAttributes
            | Field::InstrumentationScopeName
            | Field::InstrumentationScopeVersion => Context::Scope,
            _ => context,
        }
    }

    /// Whether keys may follow the field.
    pub fn takes_keys(self) -> bool
        ensures { result ≡ spec.takes_keys self }
    {
        match self {
            Field::Attributes
            | Field::ResourceAttributes
            | Field::InstrumentationScopeAttributes
            | Field::Body
            | Field::Cache => true,
            _ => false,
        }
    }
}

/// One step below a field.
#[derive(Drop)]
pub enum Key {
    /// The value under a key of a map.
    Name(Text),
    /// The element of a list, from 0.
    Index(u64),
}

pub type Keys = ItemList<Key>;

/// A field and the steps below it.
#[derive(Drop)]
pub struct PathTo {
    pub field: Field,
    pub keys: Keys,
}
