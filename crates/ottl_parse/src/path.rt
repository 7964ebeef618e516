//! Paths, such as `resource.attributes["service.name"]`.

use item_list::ItemList;
use pdata_value::Text;

/// Lower names with points between them; at least one.
pub type Names = ItemList<Text>;

pub type PathKeys = ItemList<PathKey>;

/// What stands in brackets behind the names of a path.
#[derive(Drop)]
pub enum PathKey {
    Name(Text),
    /// Less than 2^63.
    Index(u64),
}

#[derive(Drop)]
pub struct Path {
    pub names: Names,
    pub keys: PathKeys,
}
