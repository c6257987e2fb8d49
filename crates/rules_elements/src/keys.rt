ghost use Rattle.std.specs.Prelude.{◌≡◌, OnOk};
ghost use Rattle.std.specs.List.{list_any};
ghost use Rattle.std.specs.Option.{option_copied};
ghost use Rattle.std.specs.Str.{bytes_eq};
ghost use Rattle.dd_definitions.specs.Indexes.{is_primary, is_primary_class};
ghost use Rattle.dd_catalog.specs.Kinds.{column_named};
ghost use Rattle.dd_catalog.specs.WalkLaws.{Look};
ghost use Rattle.dd_catalog.specs.Walks.{run};
ghost use Rattle.dd_catalog.specs.Follow.{Follows};
ghost use Rattle.rules_elements.specs.Keys.{spelled_column, one_more, key_columns, allowed_key, index_of, key_of};
ghost use Rattle.rules_elements.specs.Taken.{AreNamesOf};

use crate::index_names::{allow_name, given_name, key_name};
use crate::taken_names::TakenNames;
use dd_catalog::Stop;
use dd_definitions::{ColumnDef, IndexDef, TableParts};
use dd_names::{List, Name, TryCopy};
use sql_types::{IndexClass, KeyWords};
use std::alloc::Global;

/// The index that the words define beside what the table has so far, or their first fault: 1068, 1280, 1070, 1072, 1060, 1061
/// or 1059.
pub fn check_key(alloc: Global, parts: &TableParts, key: &KeyWords) -> Result<IndexDef, Stop>
    ensures { (look : Look) → Follows (λ index. index) result (run look (key_of parts.now key.now)) }
{
    let mut names = TakenNames::of(alloc, parts.indexes.as_slice())?;
    check_key_among(alloc, parts, &mut names, key)
}

/// The same, beside the names of the table's indexes, which stay so: the index isn't added.
#[tactic(auto, using(crate::proofs::KeyParts::key_by_parts))]
pub fn check_key_among(
    alloc: Global,
    parts: &TableParts,
    names: &mut TakenNames,
    key: &KeyWords,
) -> Result<IndexDef, Stop>
    requires { AreNamesOf names.old parts.now.indexes }
    ensures exact { (look : Look) → Follows (λ index. index) result (run look (key_of parts.now key.now)) }
    ensures names { OnOk result (AreNamesOf names.new parts.now.indexes) }
{
    allow_key(alloc, parts, key)?;
    index_of(alloc, parts, names, key)
}

/// Refuses a key for its class, its name by itself, or the number of its columns.
#[tactic(auto, using(dd_catalog::specs::WalkLaws::run_bind))]
fn allow_key(alloc: Global, parts: &TableParts, key: &KeyWords) -> Result<(), Stop>
    ensures { (look : Look) → Follows (λ _. tt) result (run look (allowed_key parts.now key.now)) }
{
    let primary = is_primary_class(key.class);
    if primary && has_primary(parts.indexes.as_slice()) {
        return Err(rules_refusals::multiple_pri_key(alloc));
    }
    allow_name(alloc, primary, given_name(key))?;
    if key.columns.len() > 16 {
        return Err(rules_refusals::too_many_key_parts(alloc));
    }
    Ok(())
}

/// The index with its columns as the table spells them, and with its name.
#[tactic(auto, using(dd_catalog::specs::WalkLaws::run_bind))]
fn index_of(
    alloc: Global,
    parts: &TableParts,
    names: &mut TakenNames,
    key: &KeyWords,
) -> Result<IndexDef, Stop>
    requires { AreNamesOf names.old parts.now.indexes }
    ensures exact { (look : Look) → Follows (λ index. index) result (run look (index_of parts.now key.now)) }
    ensures names { OnOk result (AreNamesOf names.new parts.now.indexes) }
{
    let primary = is_primary_class(key.class);
    let columns = key_columns(alloc, parts.columns.as_slice(), key.columns.as_slice())?;
    let name = key_name(
        alloc,
        parts,
        names,
        primary,
        given_name(key),
        columns.as_slice(),
    )?;
    Ok(IndexDef {
        name,
        class: key.class,
        columns,
    })
}

fn is_primary_class(class: IndexClass) -> bool
    ensures { result ≡ is_primary_class class }
{
    match class {
        IndexClass::Primary => true,
        IndexClass::Unique => false,
        IndexClass::Plain => false,
    }
}

fn has_primary(indexes: &[IndexDef]) -> bool
    ensures { result ≡ list_any is_primary indexes.now }
{
    indexes.iter().any(|index| is_primary_class(index.class))
}

/// The columns as the table spells them: 1072 for one that it doesn't have, 1060 for one that stands twice.
pub fn key_columns(alloc: Global, columns: &[ColumnDef], names: &[Name]) -> Result<List<Name>, Stop>
    ensures { (look : Look) → Follows (λ spelled. spelled) result (run look (key_columns columns.now names.now)) }
{
    let mut found = List::new(alloc);
    'names: for name in names {
        one_more(alloc, columns, &mut found, name)?;
    }
    Ok(found)
}

#[tactic(auto, using(dd_catalog::specs::WalkLaws::run_bind), unfolding(crate::specs::Keys::one_more))]
fn one_more(
    alloc: Global,
    columns: &[ColumnDef],
    before: &mut List<Name>,
    name: &Name,
) -> Result<(), Stop>
    ensures { (look : Look) → Follows (λ _. before.new) result (run look (one_more columns.now before.old name.now)) }
{
    let column = spelled_column(alloc, before.as_slice(), name, column_named(columns, name))?;
    before.push(column)?;
    Ok(())
}

fn spelled_column(
    alloc: Global,
    before: &[Name],
    name: &Name,
    column: Option<&ColumnDef>,
) -> Result<Name, Stop>
    ensures { (look : Look) → Follows (λ spelled. spelled) result (run look (spelled_column before.now name.now (option_copied column.entry))) }
{
    match column {
        None => Err(rules_refusals::key_column_does_not_exist(alloc, name.as_str())?),
        Some(column) => {
            if is_among(before, &column.name) {
                return Err(rules_refusals::dup_fieldname(alloc, name)?);
            }
            Ok(column.name.copy()?)
        }
    }
}

fn is_among(names: &[Name], name: &Name) -> bool
    ensures { result ≡ list_any (bytes_eq name.now) names.now }
{
    names.iter().any(|other| *name == *other)
}

/// The first column of that name, in any case.
pub fn column_named<'a>(columns: &'a [ColumnDef], name: &Name) -> Option<&'a ColumnDef>
    ensures { option_copied result ≡ column_named columns.now name.now }
{
    columns.iter().find(|column| column.name.same(name))
}
