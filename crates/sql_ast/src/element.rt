use sql_types::{ColumnWords, FkWords, KeyWords};

/// What stands between the parentheses of CREATE TABLE (MySQL 8.0 Reference Manual, 13.1.20).
#[derive(Drop)]
pub enum Element {
    Column(ColumnWords),
    Key(KeyWords),
    ForeignKey(FkWords),
}
