//! What statements say of columns, keys and foreign keys, and what listings show.
#![tactic(auto)]

mod choices;
mod listing;
mod literal;
mod number_text;
mod words;

pub use choices::{ColumnType, FkRule, IndexClass, IntSize};
pub use listing::{Cell, ListRow, Listing};
pub use literal::Literal;
pub use number_text::{NumberText, behind_sign, is_number_text};
pub use words::{ColumnWords, FkWords, KeyWords, ObjRef, TypeWords};
