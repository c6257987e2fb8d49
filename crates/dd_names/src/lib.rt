//! Names as the dictionary has them, keys and paths, and the small types that all crates share: a text, a list and a copy
//! that may lack memory.
#![tactic(auto)]

mod digits;
mod list;
mod name;
mod object_name;
mod paths;
mod reserved;
mod text;
mod try_copy;

pub use digits::are_digits;
pub use list::List;
pub use name::{Name, NameFault};
pub use object_name::{ObjName, ObjectKey};
pub use paths::{path_of, paths_are_apart, temp_path};
pub use reserved::{is_reserved, is_system_schema};
pub use text::Text;
pub use try_copy::{TryCopy, both};
