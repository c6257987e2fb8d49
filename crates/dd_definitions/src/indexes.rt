ghost use Rattle.std.specs.Prelude.{◌≡◌, ◌≤◌};
ghost use Rattle.std.specs.List.{list_any, list_all, count_by};
ghost use Rattle.dd_names.specs.Names.{same};
ghost use Rattle.dd_definitions.specs.Indexes.{is_primary, is_secondary, primary_name, is_same_index, is_primary_first, has_nullable, is_well_named, is_never_null, is_index_formed, are_few_indexes, rank, are_ranked_from, are_indexes_formed, is_integer, begins_with_name, leads_index, is_auto, is_auto_formed, are_few_autos, are_autos_formed};

use crate::columns::{ColumnDef, are_key_columns, is_nullable};
use crate::distinct::{Distinct, are_distinct};
use dd_names::{List, Name, TryCopy, both};
use sql_types::{ColumnType, IndexClass};
use std::alloc::AllocError;

/// An index of a table (MySQL 8.0 Reference Manual, 13.1.20).
#[derive(Drop)]
pub struct IndexDef {
    pub name: Name,
    pub class: IndexClass,
    /// Its columns in order.
    pub columns: List<Name>,
}

impl TryCopy for IndexDef {
    fn copy(&self) -> Result<IndexDef, AllocError> {
        match both(self.name.copy(), self.columns.copy()) {
            Ok((name, columns)) => Ok(IndexDef {
                name,
                class: self.class,
                columns,
            }),
            Err(error) => Err(error),
        }
    }
}

impl Distinct for IndexDef {
    ghost use Rattle.dd_definitions.specs.Indexes.{is_same_index};

    ghost is_like = { is_same_index };

    fn is_like(&self, other: &IndexDef) -> bool {
        self.name.same(&other.name)
    }
}

/// Whether the indexes are fit for a table with these columns, each by itself and beside the others.
#[tactic(auto, unfolding(crate::specs::Indexes::are_indexes_formed))]
pub(crate) fn are_indexes_formed(columns: &[ColumnDef], indexes: &[IndexDef]) -> bool
    ensures { result ≡ are_indexes_formed columns.now indexes.now }
{
    is_primary_first(indexes)
        && are_distinct(indexes)
        && is_each_index_formed(columns, indexes)
        && are_few_indexes(indexes)
        && are_ranked(columns, indexes)
}

fn is_each_index_formed(columns: &[ColumnDef], indexes: &[IndexDef]) -> bool
    ensures { result ≡ list_all (is_index_formed columns.now) indexes.now }
{
    indexes.iter().all(|index| is_index_formed(columns, index))
}

#[tactic(auto, unfolding(crate::specs::Indexes::is_primary_first))]
fn is_primary_first(indexes: &[IndexDef]) -> bool
    ensures { result ≡ is_primary_first indexes.now }
{
    match indexes {
        [] => true,
        [_first, others @ ..] => are_secondary(others),
    }
}

fn are_secondary(indexes: &[IndexDef]) -> bool
    ensures { result ≡ list_all is_secondary indexes.now }
{
    indexes.iter().all(|index| is_secondary(index))
}

fn is_primary(index: &IndexDef) -> bool
    ensures { result ≡ is_primary index.now }
{
    match index.class {
        IndexClass::Primary => true,
        IndexClass::Unique => false,
        IndexClass::Plain => false,
    }
}

fn is_secondary(index: &IndexDef) -> bool
    ensures { result ≡ is_secondary index.now }
{
    !is_primary(index)
}

#[tactic(auto, unfolding(crate::specs::Indexes::has_nullable))]
fn has_nullable(columns: &[ColumnDef], index: &IndexDef) -> bool
    ensures { result ≡ has_nullable columns.now index.now }
{
    index
        .columns
        .as_slice()
        .iter()
        .any(|name| is_nullable(columns, name))
}

#[tactic(auto, unfolding(crate::specs::Indexes::is_well_named))]
fn is_well_named(index: &IndexDef) -> bool
    ensures { result ≡ is_well_named index.now }
{
    let name = index.name.as_str();
    if is_primary(index) {
        name == "PRIMARY"
    } else {
        !name.eq_ignore_ascii_case("PRIMARY")
    }
}

#[tactic(auto, unfolding(crate::specs::Indexes::is_never_null))]
fn is_never_null(columns: &[ColumnDef], index: &IndexDef) -> bool
    ensures { result ≡ is_never_null columns.now index.now }
{
    is_secondary(index) || !has_nullable(columns, index)
}

#[tactic(auto, unfolding(crate::specs::Indexes::is_index_formed))]
fn is_index_formed(columns: &[ColumnDef], index: &IndexDef) -> bool
    ensures { result ≡ is_index_formed columns.now index.now }
{
    are_key_columns(columns, index.columns.as_slice())
        && is_well_named(index)
        && is_never_null(columns, index)
}

#[tactic(auto, unfolding(crate::specs::Indexes::are_few_indexes))]
fn are_few_indexes(indexes: &[IndexDef]) -> bool
    ensures { result ≡ are_few_indexes indexes.now }
{
    secondary_count(indexes) <= 64
}

fn secondary_count(indexes: &[IndexDef]) -> usize
    ensures { result ≡ count_by is_secondary indexes.now }
{
    indexes.iter().filter(|index| is_secondary(index)).count()
}

/// The place of the index among the classes: primary, unique without a column that may hold NULL, unique, plain.
#[tactic(auto, unfolding(crate::specs::Indexes::rank))]
fn rank(columns: &[ColumnDef], index: &IndexDef) -> u8
    ensures { result ≡ rank columns.now index.now }
{
    let nullable = has_nullable(columns, index);
    match index.class {
        IndexClass::Primary => 0,
        IndexClass::Unique => { if nullable { 2 } else { 1 } }
        IndexClass::Plain => 3,
    }
}

fn are_ranked(columns: &[ColumnDef], indexes: &[IndexDef]) -> bool
    ensures { result ≡ are_ranked_from columns.now 0 indexes.now }
{
    let mut least = 0;
    for index in indexes {
        let rank = rank(columns, index);
        if rank < least {
            return false;
        }
        least = rank;
    }
    true
}

/// Whether there is at most one AUTO_INCREMENT column, and it is an integer, never NULL, without default and first in some
/// index (MySQL 8.0 Reference Manual, 13.1.20).
#[tactic(auto, unfolding(crate::specs::Indexes::are_autos_formed))]
pub(crate) fn are_autos_formed(columns: &[ColumnDef], indexes: &[IndexDef]) -> bool
    ensures { result ≡ are_autos_formed columns.now indexes.now }
{
    are_few_autos(columns) && is_each_auto_formed(columns, indexes)
}

fn is_each_auto_formed(columns: &[ColumnDef], indexes: &[IndexDef]) -> bool
    ensures { result ≡ list_all (is_auto_formed indexes.now) columns.now }
{
    columns.iter().all(|column| is_auto_formed(indexes, column))
}

#[tactic(auto, unfolding(crate::specs::Indexes::are_few_autos))]
fn are_few_autos(columns: &[ColumnDef]) -> bool
    ensures { result ≡ are_few_autos columns.now }
{
    auto_count(columns) <= 1
}

fn auto_count(columns: &[ColumnDef]) -> usize
    ensures { result ≡ count_by is_auto columns.now }
{
    columns.iter().filter(|column| column.auto).count()
}

#[tactic(auto, unfolding(crate::specs::Indexes::is_auto_formed))]
fn is_auto_formed(indexes: &[IndexDef], column: &ColumnDef) -> bool
    ensures { result ≡ is_auto_formed indexes.now column.now }
{
    !column.auto
        || (is_integer(column.kind)
            && !column.nullable
            && column.default.is_none()
            && leads_index(indexes, &column.name))
}

/// Whether the type keeps whole numbers, as BOOL does.
pub fn is_integer(kind: ColumnType) -> bool
    ensures { result ≡ is_integer kind }
{
    matches!(kind, ColumnType::Int { .. } | ColumnType::Bool)
}

#[tactic(auto, unfolding(crate::specs::Indexes::leads_index))]
fn leads_index(indexes: &[IndexDef], name: &Name) -> bool
    ensures { result ≡ leads_index indexes.now name.now }
{
    indexes
        .iter()
        .any(|index| begins_with_name(name, index.columns.as_slice()))
}

fn begins_with_name(name: &Name, names: &[Name]) -> bool
    ensures { result ≡ begins_with_name name.now names.now }
{
    match names {
        [] => false,
        [first, ..] => first == name,
    }
}
