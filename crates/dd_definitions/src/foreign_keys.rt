ghost use Rattle.std.specs.Prelude.{◌≡◌, []};
ghost use Rattle.std.specs.List.{list_all};
ghost use Rattle.std.specs.Ordering.{is_le};
ghost use Rattle.dd_names.specs.Names.{fold, name_cmp};
ghost use Rattle.dd_definitions.specs.ForeignKeys.{is_same_constraint, has_index_on, is_foreign_key_formed, is_before_next, are_in_order, are_foreign_keys_formed};

use crate::columns::{ColumnDef, are_key_columns};
use crate::distinct::{Distinct, are_distinct};
use crate::indexes::IndexDef;
use dd_names::{List, Name, ObjName, TryCopy, both};
use sql_types::FkRule;
use std::alloc::AllocError;
use std::cmp::Ordering;

/// A foreign key of a table (MySQL 8.0 Reference Manual, 13.1.20.5).
#[derive(Drop)]
pub struct ForeignKeyDef {
    /// The constraint's name.
    pub name: Name,
    pub columns: List<Name>,
    /// The table that it refers to.
    pub parent: ObjName,
    pub parent_columns: List<Name>,
    pub on_delete: FkRule,
    pub on_update: FkRule,
}

impl TryCopy for ForeignKeyDef {
    fn copy(&self) -> Result<ForeignKeyDef, AllocError> {
        let child = both(self.name.copy(), self.columns.copy());
        let parent = both(self.parent.copy(), self.parent_columns.copy());
        match both(child, parent) {
            Ok(((name, columns), (parent, parent_columns))) => Ok(ForeignKeyDef {
                name,
                columns,
                parent,
                parent_columns,
                on_delete: self.on_delete,
                on_update: self.on_update,
            }),
            Err(error) => Err(error),
        }
    }
}

impl Distinct for ForeignKeyDef {
    ghost use Rattle.dd_definitions.specs.ForeignKeys.{is_same_constraint};

    ghost is_like = { is_same_constraint };

    fn is_like(&self, other: &ForeignKeyDef) -> bool {
        self.name.same(&other.name)
    }
}

/// Whether the foreign keys are fit for a table with these columns and indexes, each by itself and beside the others.
#[tactic(auto, unfolding(crate::specs::ForeignKeys::are_foreign_keys_formed))]
pub(crate) fn are_foreign_keys_formed(
    columns: &[ColumnDef],
    indexes: &[IndexDef],
    keys: &[ForeignKeyDef],
) -> bool
    ensures { result ≡ are_foreign_keys_formed columns.now indexes.now keys.now }
{
    keys.len() <= 1024
        && is_each_key_formed(columns, indexes, keys)
        && are_distinct(keys)
        && are_in_order(keys)
}

fn is_each_key_formed(columns: &[ColumnDef], indexes: &[IndexDef], keys: &[ForeignKeyDef]) -> bool
    ensures { result ≡ list_all (is_foreign_key_formed columns.now indexes.now) keys.now }
{
    keys.iter()
        .all(|key| is_foreign_key_formed(columns, indexes, key))
}

#[tactic(auto, unfolding(crate::specs::ForeignKeys::is_foreign_key_formed))]
fn is_foreign_key_formed(columns: &[ColumnDef], indexes: &[IndexDef], key: &ForeignKeyDef) -> bool
    ensures { result ≡ is_foreign_key_formed columns.now indexes.now key.now }
{
    are_key_columns(columns, key.columns.as_slice())
        && key.columns.len() == key.parent_columns.len()
        && has_index_on(indexes, key.columns.as_slice())
}

#[tactic(auto, unfolding(crate::specs::ForeignKeys::has_index_on))]
fn has_index_on(indexes: &[IndexDef], names: &[Name]) -> bool
    ensures { result ≡ has_index_on indexes.now names.now }
{
    indexes
        .iter()
        .any(|index| index.columns.as_slice().starts_with(names))
}

fn are_in_order(keys: &[ForeignKeyDef]) -> bool
    ensures { result ≡ are_in_order keys.now }
{
    let mut rest = keys;
    while let [first, others @ ..] = rest {
        if !is_before_next(first, others) {
            return false;
        }
        rest = others;
    }
    true
}

#[tactic(auto, unfolding(crate::specs::ForeignKeys::is_before_next))]
fn is_before_next(key: &ForeignKeyDef, others: &[ForeignKeyDef]) -> bool
    ensures { result ≡ is_before_next key.now others.now }
{
    match others {
        [] => true,
        [next, ..] => {
            folded_cmp(key.name.as_str().as_bytes(), next.name.as_str().as_bytes()).is_le()
        }
    }
}

/// The byte order of the two with their ASCII letters in lower case.
fn folded_cmp(a: &[u8], b: &[u8]) -> Ordering
    ensures { result ≡ name_cmp (fold a.now) (fold b.now) }
{
    match a {
        [] => empty_cmp(b),
        [x, a @ ..] => match b {
            [] => Ordering::Greater,
            [y, b @ ..] => {
                let first = x.to_ascii_lowercase().cmp(&y.to_ascii_lowercase());
                first.then(folded_cmp(a, b))
            }
        },
    }
}

fn empty_cmp(b: &[u8]) -> Ordering
    ensures { result ≡ name_cmp [] (fold b.now) }
{
    match b {
        [] => Ordering::Equal,
        [_first, _others @ ..] => Ordering::Less,
    }
}
