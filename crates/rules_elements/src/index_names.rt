// The names of indexes (MySQL 8.0 Reference Manual, 13.1.20).
ghost use Rattle.std.specs.Prelude.{◌≡◌, List, IfOk, OnOk};
ghost use Rattle.std.specs.Option.{option_copied};
ghost use Rattle.dd_names.specs.Names.{same};
ghost use Rattle.dd_definitions.specs.Indexes.{primary_name};
ghost use Rattle.dd_definitions.specs.declared.indexes.IndexDef.{IndexDef as Index};
ghost use Rattle.dd_catalog.specs.WalkLaws.{Look};
ghost use Rattle.dd_catalog.specs.Walks.{run};
ghost use Rattle.dd_catalog.specs.Follow.{Follows};
ghost use Rattle.rules_elements.specs.Keys.{free_name, base_name, made_name, given_name, constraint_taken, allowed_name, unused_name, key_name};
ghost use Rattle.rules_elements.specs.Taken.{AreNamesOf};

use crate::taken_names::TakenNames;
use dd_catalog::Stop;
use dd_definitions::TableParts;
use dd_names::{Name, NameFault, TryCopy};
use sql_types::{IndexClass, KeyWords};
use std::alloc::{AllocError, Global};

/// The name of the primary key, which no other index has in any case.
const PRIMARY: &str = "PRIMARY";

/// The name that a statement gives the index.
pub(crate) fn given_name(key: &KeyWords) -> Option<&Name>
    ensures { option_copied result ≡ given_name key.now }
{
    match &key.name {
        Some(name) => Some(name),
        None => constraint_taken(key.class, &key.constraint),
    }
}

fn constraint_taken(class: IndexClass, constraint: &Option<Name>) -> Option<&Name>
    ensures { option_copied result ≡ constraint_taken class constraint.now }
{
    match class {
        IndexClass::Primary => None,
        IndexClass::Unique => constraint.as_ref(),
        IndexClass::Plain => None,
    }
}

/// Refuses the name `PRIMARY` for an index that isn't the primary key.
pub(crate) fn allow_name(alloc: Global, primary: bool, given: Option<&Name>) -> Result<(), Stop>
    ensures { (look : Look) → Follows (λ _. tt) result (run look (allowed_name primary (option_copied given.entry))) }
{
    match given {
        None => Ok(()),
        Some(name) => {
            if !primary && is_primary_name(name.as_str()) {
                return Err(rules_refusals::wrong_name_for_index(alloc, name)?);
            }
            Ok(())
        }
    }
}

/// The name that the index gets.
#[tactic(auto, unfolding(crate::specs::Keys::key_name))]
pub(crate) fn key_name(
    alloc: Global,
    parts: &TableParts,
    names: &mut TakenNames,
    primary: bool,
    given: Option<&Name>,
    columns: &[Name],
) -> Result<Name, Stop>
    requires { AreNamesOf names.old parts.now.indexes }
    ensures named { (look : Look) → Follows (λ name. name) result (run look (key_name parts.now primary (option_copied given.entry) columns.now)) }
    ensures names { OnOk result (AreNamesOf names.new parts.now.indexes) }
{
    if primary {
        return Ok(primary_name(alloc)?);
    }
    match given {
        Some(name) => unused_name(alloc, names, name),
        None => made_index_name(alloc, parts, names, columns),
    }
}

/// A name that is free, made of the first column's.
fn made_index_name(
    alloc: Global,
    parts: &TableParts,
    names: &mut TakenNames,
    columns: &[Name],
) -> Result<Name, Stop>
    requires { AreNamesOf names.old parts.now.indexes }
    ensures named { (look : Look) → Follows (λ name. name) result (run look (made_name (free_name parts.now.indexes (base_name parts.now.name.name columns.now)))) }
    ensures names { OnOk result (AreNamesOf names.new parts.now.indexes) }
{
    let base = base_name(&parts.name.name, columns);
    let free = names.free_name(alloc, parts.indexes.as_slice(), base)?;
    made_name(alloc, free.as_str())
}

/// The name that is given, which no other index has.
fn unused_name(alloc: Global, names: &TakenNames, name: &Name) -> Result<Name, Stop>
    ensures { (indexes : List Index) (look : Look) → AreNamesOf names.now indexes → Follows (λ found. found) result (run look (unused_name indexes name.now)) }
{
    if names.has(alloc, name.as_str())? {
        return Err(rules_refusals::dup_keyname(alloc, name)?);
    }
    Ok(name.copy()?)
}

/// Whether this is the name of the primary key in any case.
pub fn is_primary_name(name: &str) -> bool
    ensures { result ≡ same name.now primary_name }
{
    name.eq_ignore_ascii_case(PRIMARY)
}

/// The name of a primary key.
pub fn primary_name(alloc: Global) -> Result<Name, AllocError>
    ensures { IfOk result (λ name. name ≡ primary_name) }
{
    match Name::read(alloc, PRIMARY, true) {
        Ok(name) => Ok(name),
        Err(NameFault::Memory) => Err(AllocError),
        Err(_) => unreachable!(),
    }
}

/// A name that was made; above 64 characters 1059.
pub fn made_name(alloc: Global, name: &str) -> Result<Name, Stop>
    ensures { (look : Look) → Follows (λ made. made) result (run look (made_name name.now)) }
{
    match Name::read(alloc, name, true) {
        Ok(name) => Ok(name),
        Err(NameFault::Memory) => Err(Stop::Memory),
        Err(_) => Err(rules_refusals::too_long_ident(alloc, name)?),
    }
}

fn base_name<'a>(table: &'a Name, columns: &'a [Name]) -> &'a Name
    ensures { result.now ≡ base_name table.now columns.now }
{
    match columns {
        [] => table,
        [column, ..] => column,
    }
}
