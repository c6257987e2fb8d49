//! Catalogs, what they have at each key, and checks that look at keys one after another.
#![tactic(auto)]

mod laws;
mod lookup;
mod object;
mod stop;

pub use laws::{objects_have_own_paths, walk_laws};
pub use lookup::{
    Known, Lookup, children_at, constraint_at, look_at, object_at, objects_at, schema_at,
};
pub use object::Object;
pub use stop::Stop;
