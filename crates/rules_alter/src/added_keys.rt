// ADD FOREIGN KEY, as in CREATE TABLE (MySQL 8.0 Reference Manual, 13.1.20.5).
ghost use Rattle.std.specs.Prelude.{◌≡◌, ◌<◌, ◌^◌, None};
ghost use Rattle.dd_catalog.specs.WalkLaws.{Look};
ghost use Rattle.dd_catalog.specs.Walks.{run};
ghost use Rattle.dd_catalog.specs.Follow.{Follows, sights};
ghost use Rattle.rules_create.specs.Tables.{constraint_name, greatest_number, one_foreign_key, with_key_index};
ghost use Rattle.rules_create.specs.Made.{foreign_key_on, key_made, with_foreign_key};
ghost use Rattle.rules_alter.specs.ForeignKeys.{add_foreign_key};

use crate::arranged::{arrange, ranks_of};
use crate::states::Altering;
use dd_catalog::{Lookup, Stop};
use dd_definitions::{ForeignKeyDef, TableParts};
use dd_names::{List, Name, TryCopy};
use rules_create::{
    allow_columns, behind, constraint_front, greater, has_index_on, key_for, key_named, number_of,
    put_in_order, with_index, with_number,
};
use rules_elements::{check_fk, check_key, key_columns, made_name};
use sql_types::FkWords;
use std::alloc::{AllocError, Global};

/// ADD FOREIGN KEY. The index that it may make stands behind those of its class.
#[tactic(auto, using(dd_catalog::specs::WalkLaws::run_bind), unfolding(crate::specs::ForeignKeys::add_foreign_key, crate::specs::Arranged::arranged))]
pub(crate) fn add_foreign_key<L: Lookup>(
    alloc: Global,
    state: &mut Altering,
    words: &FkWords,
    look: &L,
) -> Result<(), Stop>
    ensures { Follows (λ _. state.new) result (run (sights (L.known look.now)) (add_foreign_key words.now state.old)) }
{
    let before = ranks_of(alloc, &state.parts)?;
    one_foreign_key(alloc, &mut state.parts, words, look)?;
    arrange(alloc, &before, &mut state.parts)?;
    Ok(())
}

/// The table with one foreign key more. Other numbers of columns: 1239. More than 16: 1070. Column by column, one that isn't in
/// the table, 1072, or stands twice, 1060. Then its name, its index, its parent and its columns.
fn one_foreign_key<L: Lookup>(
    alloc: Global,
    parts: &mut TableParts,
    words: &FkWords,
    look: &L,
) -> Result<(), Stop>
    ensures { Follows (λ _. parts.new) result (run (sights (L.known look.now)) (one_foreign_key parts.old words.now)) }
{
    allow_columns(alloc, words)?;
    let columns = key_columns(alloc, parts.columns.as_slice(), words.columns.as_slice())?;
    foreign_key_on(alloc, parts, words, columns, look)?;
    Ok(())
}

/// The table with a foreign key on these columns.
fn foreign_key_on<L: Lookup>(
    alloc: Global,
    parts: &mut TableParts,
    words: &FkWords,
    columns: List<Name>,
    look: &L,
) -> Result<(), Stop>
    ensures { Follows (λ _. parts.new) result (run (sights (L.known look.now)) (foreign_key_on parts.old words.now columns)) }
{
    let key = key_made(alloc, parts, words, columns)?;
    with_foreign_key(alloc, parts, words, &key, look)?;
    Ok(())
}

/// The foreign key on these columns with its name.
fn key_made(
    alloc: Global,
    parts: &TableParts,
    words: &FkWords,
    columns: List<Name>,
) -> Result<ForeignKeyDef, Stop>
    ensures { (look : Look) → Follows (λ key. key) result (run look (key_made parts.now words.now columns)) }
{
    let name = constraint_name(alloc, parts, &words.constraint)?;
    Ok(key_named(words, &parts.name, name, columns)?)
}

/// The name that is given, or `<table>_ibfk_<n>`, where n is one more than the greatest. Above 64 characters: 1059.
#[tactic(auto, unfolding(rules_create::specs::Tables::constraint_name))]
fn constraint_name(alloc: Global, parts: &TableParts, given: &Option<Name>) -> Result<Name, Stop>
    ensures { (look : Look) → Follows (λ name. name) result (run look (constraint_name parts.now given.now)) }
{
    match given {
        Some(name) => Ok(name.copy()?),
        None => next_name(alloc, parts),
    }
}

#[tactic(auto, unfolding(rules_create::specs::Tables::constraint_name))]
fn next_name(alloc: Global, parts: &TableParts) -> Result<Name, Stop>
    ensures { (look : Look) → Follows (λ name. name) result (run look (constraint_name parts.now None)) }
{
    let front = constraint_front(alloc, &parts.name.name)?;
    let number = greatest_number(front.as_str(), parts.foreign_keys.as_slice());
    let made = with_number(alloc, front.as_str(), number + 1)?;
    made_name(alloc, made.as_str())
}

/// The greatest number that the names have behind the front.
fn greatest_number(front: &str, keys: &[ForeignKeyDef]) -> u128
    ensures number { result ≡ greatest_number front.now keys.now }
    ensures small { result < 10 ^ 38 }
{
    let mut greatest = 0;
    'keys: for key in keys {
        greatest = greater(greatest, number_of(behind(front, key.name.as_str())));
    }
    greatest
}

/// The table with this foreign key, as its parent spells it, and with an index for it.
#[tactic(auto, using(dd_catalog::specs::WalkLaws::run_bind), unfolding(rules_create::specs::Made::with_foreign_key))]
fn with_foreign_key<L: Lookup>(
    alloc: Global,
    parts: &mut TableParts,
    words: &FkWords,
    key: &ForeignKeyDef,
    look: &L,
) -> Result<(), Stop>
    ensures { Follows (λ _. parts.new) result (run (sights (L.known look.now)) (with_foreign_key parts.old words.now key.now)) }
{
    with_key_index(alloc, parts, words, &key.columns)?;
    let found = check_fk(alloc, parts, words.columns.as_slice(), key, look)?;
    put_in_order(alloc, found, &mut parts.foreign_keys)?;
    Ok(())
}

/// Where no index of the table begins with the columns, a plain one is made.
#[tactic(auto, using(dd_catalog::specs::WalkLaws::run_bind), unfolding(rules_create::specs::Tables::with_key_index))]
fn with_key_index(
    alloc: Global,
    parts: &mut TableParts,
    words: &FkWords,
    columns: &List<Name>,
) -> Result<(), Stop>
    ensures { (look : Look) → Follows (λ _. parts.new) result (run look (with_key_index parts.old words.now columns.now)) }
{
    if has_index_on(parts.indexes.as_slice(), columns.as_slice()) {
        return Ok(());
    }
    let key = key_for(words, columns)?;
    let index = check_key(alloc, parts, &key)?;
    with_index(alloc, parts, index)?;
    Ok(())
}
