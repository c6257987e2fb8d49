// Columns that a foreign key may pair (MySQL 8.0 Reference Manual, 13.1.20.5).
ghost use Rattle.std.specs.Prelude.{◌≡◌, ◌==◌};
ghost use Rattle.std.specs.Option.{option_copied, option_map};
ghost use Rattle.dd_definitions.specs.Defaults.{bits};
ghost use Rattle.dd_catalog.specs.Kinds.{kind_of, is_same_kind, column_named, are_of_one_kind, first_odd_pair, is_set_null, sets_null, is_there_and_not_null, first_not_null};

use crate::keys::column_named;
use dd_definitions::{ColumnDef, ForeignKeyDef};
use dd_names::Name;
use sql_types::{ColumnType, FkRule, IntSize};

/// The first pair of names, in order, whose columns aren't of one kind.
pub(crate) fn first_odd_pair<'a>(
    columns: &[ColumnDef],
    others: &[ColumnDef],
    names: &'a [Name],
    other_names: &'a [Name],
) -> Option<(&'a Name, &'a Name)>
    ensures { option_map (λ pair. (pair.0.now, pair.1.now)) result ≡ first_odd_pair columns.now others.now names.now other_names.now }
{
    match names {
        [] => None,
        [name, names @ ..] => match other_names {
            [] => None,
            [other, other_names @ ..] => {
                if !are_of_one_kind(column_named(columns, name), column_named(others, other)) {
                    return Some((name, other));
                }
                first_odd_pair(columns, others, names, other_names)
            }
        },
    }
}

fn are_of_one_kind(own: Option<&ColumnDef>, other: Option<&ColumnDef>) -> bool
    ensures { result ≡ are_of_one_kind (option_copied own.entry) (option_copied other.entry) }
{
    match own {
        None => false,
        Some(own) => match other {
            None => false,
            Some(other) => is_same_kind(own.kind, other.kind),
        },
    }
}

fn is_same_kind(own: ColumnType, other: ColumnType) -> bool
    ensures { result ≡ is_same_kind (kind_of own) (kind_of other) }
{
    match (own, other) {
        (
            ColumnType::Int { size, unsigned },
            ColumnType::Int {
                size: other_size,
                unsigned: other_unsigned,
            },
        ) => is_same_size(size, other_size) && unsigned == other_unsigned,
        (ColumnType::Int { size, unsigned }, ColumnType::Bool) => {
            is_same_size(size, IntSize::Tiny) && !unsigned
        }
        (ColumnType::Bool, ColumnType::Int { size, unsigned }) => {
            is_same_size(IntSize::Tiny, size) && !unsigned
        }
        (ColumnType::Bool, ColumnType::Bool) => true,
        (
            ColumnType::Char { .. } | ColumnType::VarChar { .. },
            ColumnType::Char { .. } | ColumnType::VarChar { .. },
        ) => true,
        (ColumnType::Date, ColumnType::Date) => true,
        (ColumnType::DateTime, ColumnType::DateTime) => true,
        _ => false,
    }
}

fn is_same_size(a: IntSize, b: IntSize) -> bool
    ensures { result ≡ (bits a == bits b) }
{
    match (a, b) {
        (IntSize::Tiny, IntSize::Tiny) => true,
        (IntSize::Small, IntSize::Small) => true,
        (IntSize::Medium, IntSize::Medium) => true,
        (IntSize::Normal, IntSize::Normal) => true,
        (IntSize::Big, IntSize::Big) => true,
        _ => false,
    }
}

/// Whether a rule of the foreign key makes its columns NULL.
pub(crate) fn sets_null(key: &ForeignKeyDef) -> bool
    ensures { result ≡ sets_null key.now }
{
    is_set_null(key.on_delete) || is_set_null(key.on_update)
}

fn is_set_null(rule: FkRule) -> bool
    ensures { result ≡ is_set_null rule }
{
    match rule {
        FkRule::NoAction => false,
        FkRule::Restrict => false,
        FkRule::Cascade => false,
        FkRule::SetNull => true,
    }
}

/// The first of the names whose column is NOT NULL.
pub(crate) fn first_not_null<'a>(columns: &[ColumnDef], names: &'a [Name]) -> Option<&'a Name>
    ensures { option_copied result ≡ first_not_null columns.now names.now }
{
    names.iter().find(|name| is_not_null(columns, name))
}

fn is_not_null(columns: &[ColumnDef], name: &Name) -> bool
    ensures { result ≡ is_there_and_not_null (column_named columns.now name.now) }
{
    is_there_and_not_null(column_named(columns, name))
}

fn is_there_and_not_null(column: Option<&ColumnDef>) -> bool
    ensures { result ≡ is_there_and_not_null (option_copied column.entry) }
{
    match column {
        None => false,
        Some(column) => !column.nullable,
    }
}
