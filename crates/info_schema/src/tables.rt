// The tables of INFORMATION_SCHEMA by their names, and their titles (MySQL 8.0 Reference Manual, 26.3).
ghost use Rattle.std.specs.Prelude.{◌≡◌, IfOk};
ghost use Rattle.info_schema.specs.Tables.{table_named, header_of};

use crate::cells::titles;
use dd_names::{List, Name, Text};
use std::alloc::{AllocError, Global};

/// A table of INFORMATION_SCHEMA.
#[derive(Clone, Copy, Debug, PartialEq, Eq)]
pub enum InfoTable {
    Schemata,
    Tables,
    Columns,
    Statistics,
    KeyColumnUsage,
    ReferentialConstraints,
    Views,
}

/// The table with this name, in any case.
#[tactic(auto, unfolding(crate::specs::Tables::table_named))]
pub(crate) fn table_named(name: &Name) -> Option<InfoTable>
    ensures { result ≡ table_named name.now }
{
    let name = name.as_str();
    if name.eq_ignore_ascii_case("SCHEMATA") {
        Some(InfoTable::Schemata)
    } else if name.eq_ignore_ascii_case("TABLES") {
        Some(InfoTable::Tables)
    } else if name.eq_ignore_ascii_case("COLUMNS") {
        Some(InfoTable::Columns)
    } else if name.eq_ignore_ascii_case("STATISTICS") {
        Some(InfoTable::Statistics)
    } else if name.eq_ignore_ascii_case("KEY_COLUMN_USAGE") {
        Some(InfoTable::KeyColumnUsage)
    } else if name.eq_ignore_ascii_case("REFERENTIAL_CONSTRAINTS") {
        Some(InfoTable::ReferentialConstraints)
    } else if name.eq_ignore_ascii_case("VIEWS") {
        Some(InfoTable::Views)
    } else {
        None
    }
}

/// The titles of the table's columns.
pub(crate) fn header_of(alloc: Global, table: InfoTable) -> Result<List<Text>, AllocError>
    ensures { IfOk result (λ header. header ≡ header_of table) }
{
    match table {
        InfoTable::Schemata => titles(alloc, &SCHEMATA),
        InfoTable::Tables => titles(alloc, &TABLES),
        InfoTable::Columns => titles(alloc, &COLUMNS),
        InfoTable::Statistics => titles(alloc, &STATISTICS),
        InfoTable::KeyColumnUsage => titles(alloc, &KEY_COLUMN_USAGE),
        InfoTable::ReferentialConstraints => titles(alloc, &REFERENTIAL_CONSTRAINTS),
        InfoTable::Views => titles(alloc, &VIEWS),
    }
}

const SCHEMATA: [&str; 3] = [
    "SCHEMA_NAME",
    "DEFAULT_CHARACTER_SET_NAME",
    "DEFAULT_COLLATION_NAME",
];

const TABLES: [&str; 4] = ["TABLE_SCHEMA", "TABLE_NAME", "TABLE_TYPE", "ENGINE"];

const COLUMNS: [&str; 9] = [
    "TABLE_SCHEMA",
    "TABLE_NAME",
    "COLUMN_NAME",
    "ORDINAL_POSITION",
    "COLUMN_DEFAULT",
    "IS_NULLABLE",
    "COLUMN_TYPE",
    "COLUMN_KEY",
    "EXTRA",
];

const STATISTICS: [&str; 6] = [
    "TABLE_SCHEMA",
    "TABLE_NAME",
    "NON_UNIQUE",
    "INDEX_NAME",
    "SEQ_IN_INDEX",
    "COLUMN_NAME",
];

const KEY_COLUMN_USAGE: [&str; 8] = [
    "CONSTRAINT_SCHEMA",
    "CONSTRAINT_NAME",
    "TABLE_NAME",
    "COLUMN_NAME",
    "ORDINAL_POSITION",
    "REFERENCED_TABLE_SCHEMA",
    "REFERENCED_TABLE_NAME",
    "REFERENCED_COLUMN_NAME",
];

const REFERENTIAL_CONSTRAINTS: [&str; 6] = [
    "CONSTRAINT_SCHEMA",
    "CONSTRAINT_NAME",
    "UPDATE_RULE",
    "DELETE_RULE",
    "TABLE_NAME",
    "REFERENCED_TABLE_NAME",
];

const VIEWS: [&str; 3] = ["TABLE_SCHEMA", "TABLE_NAME", "VIEW_DEFINITION"];
