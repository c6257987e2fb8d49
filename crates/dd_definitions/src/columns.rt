ghost use Rattle.std.specs.Prelude.{◌≡◌};
ghost use Rattle.std.specs.List.{list_any, list_all};
ghost use Rattle.dd_definitions.specs.Columns.{is_same_column, are_columns_named, is_short_type, is_typed, are_columns_formed, is_column, is_nullable, are_key_columns};

use crate::defaults::is_fitting_default;
use crate::distinct::{Distinct, are_distinct};
use dd_names::{List, Name, Text, TryCopy, both};
use sql_types::ColumnType;
use std::alloc::AllocError;

/// A column of a table (MySQL 8.0 Reference Manual, 13.1.20).
#[derive(Drop)]
pub struct ColumnDef {
    pub name: Name,
    pub kind: ColumnType,
    /// Whether it may hold NULL.
    pub nullable: bool,
    /// The default as it is kept: decimal text for an integer, and None for NULL or no default.
    pub default: Option<Text>,
    /// Whether it is AUTO_INCREMENT.
    pub auto: bool,
}

impl TryCopy for ColumnDef {
    fn copy(&self) -> Result<ColumnDef, AllocError> {
        match both(self.name.copy(), self.default.copy()) {
            Ok((name, default)) => Ok(ColumnDef {
                name,
                kind: self.kind,
                nullable: self.nullable,
                default,
                auto: self.auto,
            }),
            Err(error) => Err(error),
        }
    }
}

impl Distinct for ColumnDef {
    ghost use Rattle.dd_definitions.specs.Columns.{is_same_column};

    ghost is_like = { is_same_column };

    fn is_like(&self, other: &ColumnDef) -> bool {
        self.name.same(&other.name)
    }
}

/// Whether the columns are fit for a table, each by itself and beside the others.
#[tactic(auto, unfolding(crate::specs::Columns::are_columns_formed))]
pub(crate) fn are_columns_formed(columns: &[ColumnDef]) -> bool
    ensures { result ≡ are_columns_formed columns.now }
{
    are_columns_named(columns) && are_typed(columns)
}

fn are_typed(columns: &[ColumnDef]) -> bool
    ensures { result ≡ list_all is_typed columns.now }
{
    columns.iter().all(|column| is_typed(column))
}

#[tactic(auto, unfolding(crate::specs::Columns::are_columns_named))]
fn are_columns_named(columns: &[ColumnDef]) -> bool
    ensures { result ≡ are_columns_named columns.now }
{
    1 <= columns.len() && columns.len() <= 1017 && are_distinct(columns)
}

#[tactic(auto, unfolding(crate::specs::Columns::is_typed))]
fn is_typed(column: &ColumnDef) -> bool
    ensures { result ≡ is_typed column.now }
{
    is_short_type(column.kind) && is_fitting_default(column.kind, &column.default)
}

#[tactic(auto, unfolding(crate::specs::Columns::is_short_type))]
fn is_short_type(kind: ColumnType) -> bool
    ensures { result ≡ is_short_type kind }
{
    match kind {
        ColumnType::Int { .. } => true,
        ColumnType::Bool => true,
        ColumnType::Char { length } => length <= 255,
        ColumnType::VarChar { length } => length <= 16_383,
        ColumnType::Date => true,
        ColumnType::DateTime => true,
    }
}

/// Whether the names are 1 to 16 different ones of columns, spelled as the table spells them.
#[tactic(auto, unfolding(crate::specs::Columns::are_key_columns))]
pub(crate) fn are_key_columns(columns: &[ColumnDef], names: &[Name]) -> bool
    ensures { result ≡ are_key_columns columns.now names.now }
{
    1 <= names.len() && names.len() <= 16 && are_distinct(names) && are_columns(columns, names)
}

fn are_columns(columns: &[ColumnDef], names: &[Name]) -> bool
    ensures { result ≡ list_all (is_column columns.now) names.now }
{
    names.iter().all(|name| is_column(columns, name))
}

#[tactic(auto, unfolding(crate::specs::Columns::is_column))]
fn is_column(columns: &[ColumnDef], name: &Name) -> bool
    ensures { result ≡ is_column columns.now name.now }
{
    columns.iter().any(|column| column.name == *name)
}

/// Whether a column of that name may hold NULL.
#[tactic(auto, unfolding(crate::specs::Columns::is_nullable))]
pub(crate) fn is_nullable(columns: &[ColumnDef], name: &Name) -> bool
    ensures { result ≡ is_nullable columns.now name.now }
{
    columns
        .iter()
        .any(|column| column.name == *name && column.nullable)
}
