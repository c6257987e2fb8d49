// Statements that list.
use dd_names::Name;
use sql_types::ObjRef;

/// A statement that lists what the dictionary has (MySQL 8.0 Reference Manual, 13.7.7, and 13.2.16 for TABLE).
#[derive(Drop)]
pub enum ShowStatement {
    /// SHOW DATABASES.
    Databases,
    /// SHOW TABLES, of the current schema where none is written.
    Tables { schema: Option<Name> },
    /// SHOW COLUMNS.
    Columns { object: ObjRef },
    Creation(ShownCreation),
    /// TABLE: the rows of a table of INFORMATION_SCHEMA.
    Information { table: Name },
}

/// What SHOW CREATE shows (MySQL 8.0 Reference Manual, 13.7.7.6, 13.7.7.10 and 13.7.7.13).
#[derive(Drop)]
pub enum ShownCreation {
    /// SHOW CREATE DATABASE.
    Database { name: Name },
    /// SHOW CREATE TABLE.
    Table { object: ObjRef },
    /// SHOW CREATE VIEW.
    View { object: ObjRef },
}
