//! A catalog kept in memory: what stands at each of its keys, what changes make of it, and a part of it that is known so far.
#![tactic(auto)]

mod changed;
mod listed;
mod name_set;
mod object_map;
mod part;
mod plain_catalog;
mod stored;

pub use name_set::NameSet;
pub use object_map::ObjectMap;
pub use part::Part;
pub use plain_catalog::PlainCatalog;
pub use stored::StoredObject;
