// What a table's indexes are, for its limits and for the order of their classes.
ghost use Rattle.std.specs.Prelude.{◌≡◌, [], ◌∷◌, filter, ◌++◌, if◌then◌else◌, IfOk, OnOk};
ghost use Rattle.std.specs.List.{list_any, list_all, count_by};
ghost use Rattle.dd_definitions.specs.Columns.{is_nullable};
ghost use Rattle.dd_definitions.specs.Indexes.{is_primary, is_secondary, has_nullable, rank, begins_with_name, leads_index, is_auto, are_few_autos};
ghost use Rattle.dd_definitions.specs.ForeignKeys.{has_index_on};
ghost use Rattle.rules_create.specs.Tables.{is_ranked, by_class, is_auto_led, are_autos_led};

use dd_definitions::{ColumnDef, IndexDef, TableParts};
use dd_names::{List, Name, TryCopy};
use sql_types::IndexClass;
use std::alloc::{AllocError, Global};

/// Whether the index is a primary key.
pub fn is_primary(index: &IndexDef) -> bool
    ensures { result ≡ is_primary index.now }
{
    match index.class {
        IndexClass::Primary => true,
        IndexClass::Unique => false,
        IndexClass::Plain => false,
    }
}

/// How many of the indexes are no primary key.
pub fn secondary_count(indexes: &[IndexDef]) -> usize
    ensures { result ≡ count_by is_secondary indexes.now }
{
    indexes.iter().filter(|index| !is_primary(index)).count()
}

/// Whether an index begins with these columns in order.
#[tactic(auto, unfolding(dd_definitions::specs::ForeignKeys::has_index_on))]
pub fn has_index_on(indexes: &[IndexDef], names: &[Name]) -> bool
    ensures { result ≡ has_index_on indexes.now names.now }
{
    indexes
        .iter()
        .any(|index| index.columns.as_slice().starts_with(names))
}

/// Whether there is at most one AUTO_INCREMENT column, and it stands first in an index.
#[tactic(auto, unfolding(crate::specs::Tables::are_autos_led, dd_definitions::specs::Indexes::are_few_autos))]
pub fn are_autos_led(parts: &TableParts) -> bool
    ensures { result ≡ are_autos_led parts.now }
{
    let columns = parts.columns.as_slice();
    auto_count(columns) <= 1 && is_each_auto_led(parts.indexes.as_slice(), columns)
}

fn auto_count(columns: &[ColumnDef]) -> usize
    ensures { result ≡ count_by is_auto columns.now }
{
    columns.iter().filter(|column| column.auto).count()
}

fn is_each_auto_led(indexes: &[IndexDef], columns: &[ColumnDef]) -> bool
    ensures { result ≡ list_all (is_auto_led indexes.now) columns.now }
{
    columns.iter().all(|column| is_auto_led(indexes, column))
}

fn is_auto_led(indexes: &[IndexDef], column: &ColumnDef) -> bool
    ensures { result ≡ is_auto_led indexes.now column.now }
{
    !column.auto || leads_index(indexes, &column.name)
}

#[tactic(auto, unfolding(dd_definitions::specs::Indexes::leads_index))]
fn leads_index(indexes: &[IndexDef], name: &Name) -> bool
    ensures { result ≡ leads_index indexes.now name.now }
{
    indexes
        .iter()
        .any(|index| begins_with_name(name, index.columns.as_slice()))
}

fn begins_with_name(name: &Name, names: &[Name]) -> bool
    ensures { result ≡ begins_with_name name.now names.now }
{
    match names {
        [] => false,
        [first, ..] => first == name,
    }
}

/// The primary key, the unique indexes without a column that may be NULL, the other unique ones, and the plain ones.
#[tactic(auto, unfolding(crate::specs::Tables::by_class))]
pub fn by_class(
    alloc: Global,
    columns: &[ColumnDef],
    indexes: &[IndexDef],
) -> Result<List<IndexDef>, AllocError>
    ensures { IfOk result (λ ordered. ordered ≡ by_class columns.now indexes.now) }
{
    let mut ordered = of_rank(alloc, columns, 0, indexes)?;
    add_rank(alloc, columns, 1, indexes, &mut ordered)?;
    add_rank(alloc, columns, 2, indexes, &mut ordered)?;
    add_rank(alloc, columns, 3, indexes, &mut ordered)?;
    Ok(ordered)
}

fn add_rank(
    alloc: Global,
    columns: &[ColumnDef],
    rank: u8,
    indexes: &[IndexDef],
    ordered: &mut List<IndexDef>,
) -> Result<(), AllocError>
    ensures { OnOk result (ordered.new ≡ ordered.old ++ filter (is_ranked columns.now rank) indexes.now) }
{
    ordered.append(of_rank(alloc, columns, rank, indexes)?)?;
    Ok(())
}

fn of_rank(
    alloc: Global,
    columns: &[ColumnDef],
    rank: u8,
    indexes: &[IndexDef],
) -> Result<List<IndexDef>, AllocError>
    ensures { IfOk result (λ ranked. ranked ≡ filter (is_ranked columns.now rank) indexes.now) }
{
    let mut ranked = List::new(alloc);
    'indexes: for index in indexes {
        ranked.append(if_ranked(alloc, columns, rank, index)?)?;
    }
    Ok(ranked)
}

/// The index by itself, where it is of this rank.
fn if_ranked(
    alloc: Global,
    columns: &[ColumnDef],
    place: u8,
    index: &IndexDef,
) -> Result<List<IndexDef>, AllocError>
    ensures { IfOk result (λ ranked. ranked ≡ (if is_ranked columns.now place index.now then index.now ∷ [] else [])) }
{
    let mut ranked = List::new(alloc);
    if rank(columns, index) == place {
        ranked.push(index.copy()?)?;
    }
    Ok(ranked)
}

/// The place of the index among the classes.
#[tactic(auto, unfolding(dd_definitions::specs::Indexes::rank))]
pub fn rank(columns: &[ColumnDef], index: &IndexDef) -> u8
    ensures { result ≡ rank columns.now index.now }
{
    let nullable = has_nullable(columns, index);
    match index.class {
        IndexClass::Primary => 0,
        IndexClass::Unique => { if nullable { 2 } else { 1 } }
        IndexClass::Plain => 3,
    }
}

#[tactic(auto, unfolding(dd_definitions::specs::Indexes::has_nullable))]
fn has_nullable(columns: &[ColumnDef], index: &IndexDef) -> bool
    ensures { result ≡ has_nullable columns.now index.now }
{
    index
        .columns
        .as_slice()
        .iter()
        .any(|name| is_nullable(columns, name))
}

/// Whether a column of that name may hold NULL.
#[tactic(auto, unfolding(dd_definitions::specs::Columns::is_nullable))]
fn is_nullable(columns: &[ColumnDef], name: &Name) -> bool
    ensures { result ≡ is_nullable columns.now name.now }
{
    columns
        .iter()
        .any(|column| column.name == *name && column.nullable)
}
