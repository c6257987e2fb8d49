//! Tables and views as the dictionary keeps them. A `TableDef` and a `ViewDef` are made only of parts that fit together.
#![tactic(auto)]

mod columns;
mod defaults;
mod distinct;
mod foreign_keys;
mod indexes;
mod parts;
mod table;
mod view;
mod view_parts;

pub use columns::ColumnDef;
pub use defaults::{begins_with_zero, depth, height, is_at_most, is_short_text};
pub use foreign_keys::ForeignKeyDef;
pub use indexes::{IndexDef, is_integer};
pub use parts::TableParts;
pub use table::TableDef;
pub use view::ViewDef;
pub use view_parts::{ViewColumn, ViewParts, ViewSource};
