// The foreign keys that a statement defines (MySQL 8.0 Reference Manual, 13.1.20.5).
ghost use Rattle.std.specs.Prelude.{◌≡◌, IfOk, OnOk};
ghost use Rattle.std.specs.List.{flat_map};
ghost use Rattle.dd_catalog.specs.WalkLaws.{Look};
ghost use Rattle.dd_catalog.specs.Walks.{run, over};
ghost use Rattle.dd_catalog.specs.Follow.{Follows, sights};
ghost use Rattle.rules_elements.specs.ForeignKeys.{foreign_key_of};
ghost use Rattle.rules_elements.specs.Keys.{first_given};
ghost use Rattle.rules_create.specs.Tables.{foreign_key_in, key_for, with_key_index, name_in_text, schema_or, parent_named, key_named, one_foreign_key};
ghost use Rattle.rules_create.specs.Made.{over_each, allowed_columns, key_made, foreign_key_on, with_foreign_key};
ghost use Rattle.rules_create.specs.Drafts.{IsDraft, IsLinkedDraft, whole};

use crate::drafts::{Draft, add_index, key_checked};
use crate::indexes::has_index_on;
use crate::keys::some_columns;
use crate::numbers::constraint_name;
use crate::ordered_keys::OrderedKeys;
use dd_catalog::{Lookup, Stop};
use dd_definitions::{ForeignKeyDef, TableParts};
use dd_names::{List, Name, ObjName, TryCopy, both};
use rules_elements::{check_fk, key_columns};
use rules_named::first_given;
use sql_ast::Element;
use sql_types::{FkWords, IndexClass, KeyWords, ObjRef};
use std::alloc::{AllocError, Global};

/// The table with the foreign keys.
pub(crate) fn add_foreign_keys<L: Lookup>(
    alloc: Global,
    draft: &mut Draft,
    elements: &[Element],
    look: &L,
) -> Result<(), Stop>
    requires { IsDraft draft.old }
    ensures { Follows (λ _. draft.new.parts) result (run (sights (L.known look.now)) (over one_foreign_key draft.old.parts (flat_map foreign_key_in elements.now))) }
{
    let mut keys = OrderedKeys::none(alloc, &draft.parts.name.name)?;
    each_foreign_key(alloc, draft, &mut keys, elements, look)?;
    draft.parts.foreign_keys = keys.into_list(alloc)?;
    Ok(())
}

/// The foreign keys, one after another.
fn each_foreign_key<L: Lookup>(
    alloc: Global,
    draft: &mut Draft,
    keys: &mut OrderedKeys,
    elements: &[Element],
    look: &L,
) -> Result<(), Stop>
    requires { IsLinkedDraft draft.old keys.old }
    ensures { Follows (λ _. whole draft.new keys.new) result (run (sights (L.known look.now)) (over one_foreign_key (whole draft.old keys.old) (flat_map foreign_key_in elements.now))) }
{
    'elements: for element in elements {
        foreign_key_if(alloc, draft, keys, element, look)?;
    }
    Ok(())
}

/// The foreign key of an element, where it is one.
#[tactic(auto, using(crate::proofs::Flat::over_one))]
fn foreign_key_if<L: Lookup>(
    alloc: Global,
    draft: &mut Draft,
    keys: &mut OrderedKeys,
    element: &Element,
    look: &L,
) -> Result<(), Stop>
    requires { IsLinkedDraft draft.old keys.old }
    ensures exact { Follows (λ _. whole draft.new keys.new) result (run (sights (L.known look.now)) (over_each one_foreign_key foreign_key_in (whole draft.old keys.old) element.now)) }
    ensures linked { OnOk result (IsLinkedDraft draft.new keys.new) }
{
    match element {
        Element::ForeignKey(words) => one_foreign_key(alloc, draft, keys, words, look),
        _ => Ok(()),
    }
}

/// The table with one foreign key more. Other numbers of columns: 1239. More than 16: 1070. Column by column, one that isn't in
/// the table, 1072, or stands twice, 1060. Then its name, its index, its parent and its columns.
fn one_foreign_key<L: Lookup>(
    alloc: Global,
    draft: &mut Draft,
    keys: &mut OrderedKeys,
    words: &FkWords,
    look: &L,
) -> Result<(), Stop>
    requires { IsLinkedDraft draft.old keys.old }
    ensures exact { Follows (λ _. whole draft.new keys.new) result (run (sights (L.known look.now)) (one_foreign_key (whole draft.old keys.old) words.now)) }
    ensures linked { OnOk result (IsLinkedDraft draft.new keys.new) }
{
    allow_columns(alloc, words)?;
    let columns = key_columns(
        alloc,
        draft.parts.columns.as_slice(),
        words.columns.as_slice(),
    )?;
    foreign_key_on(alloc, draft, keys, words, columns, look)?;
    Ok(())
}

/// Refuses other numbers of columns than of the parent's, more than 16, and none.
#[tactic(auto, using(dd_catalog::specs::WalkLaws::run_bind))]
pub fn allow_columns(alloc: Global, words: &FkWords) -> Result<(), Stop>
    ensures { (look : Look) → Follows (λ _. tt) result (run look (allowed_columns words.now)) }
{
    let names = words.columns.as_slice();
    if names.len() != words.parent_columns.len() {
        return Err(rules_refusals::wrong_fk_def(alloc, name_in_text(&words.constraint))?);
    }
    if names.len() > 16 {
        return Err(rules_refusals::too_many_key_parts(alloc));
    }
    some_columns(alloc, names)
}

/// The table with a foreign key on these columns.
fn foreign_key_on<L: Lookup>(
    alloc: Global,
    draft: &mut Draft,
    keys: &mut OrderedKeys,
    words: &FkWords,
    columns: List<Name>,
    look: &L,
) -> Result<(), Stop>
    requires { IsLinkedDraft draft.old keys.old }
    ensures exact { Follows (λ _. whole draft.new keys.new) result (run (sights (L.known look.now)) (foreign_key_on (whole draft.old keys.old) words.now columns)) }
    ensures linked { OnOk result (IsLinkedDraft draft.new keys.new) }
{
    let key = key_made(alloc, draft, keys, words, columns)?;
    with_foreign_key(alloc, draft, keys, words, &key, look)?;
    Ok(())
}

/// The foreign key on these columns with its name.
fn key_made(
    alloc: Global,
    draft: &Draft,
    keys: &OrderedKeys,
    words: &FkWords,
    columns: List<Name>,
) -> Result<ForeignKeyDef, Stop>
    requires { IsLinkedDraft draft.now keys.now }
    ensures { (look : Look) → Follows (λ key. key) result (run look (key_made (whole draft.now keys.now) words.now columns)) }
{
    let name = constraint_name(alloc, keys, &words.constraint)?;
    Ok(key_named(words, &draft.parts.name, name, columns)?)
}

/// The table with this foreign key, as its parent spells it, and with an index for it.
fn with_foreign_key<L: Lookup>(
    alloc: Global,
    draft: &mut Draft,
    keys: &mut OrderedKeys,
    words: &FkWords,
    key: &ForeignKeyDef,
    look: &L,
) -> Result<(), Stop>
    requires { IsLinkedDraft draft.old keys.old }
    ensures exact { Follows (λ _. whole draft.new keys.new) result (run (sights (L.known look.now)) (with_foreign_key (whole draft.old keys.old) words.now key.now)) }
    ensures linked { OnOk result (IsLinkedDraft draft.new keys.new) }
{
    with_key_index(alloc, draft, words, &key.columns)?;
    let key = beside_parent(alloc, &draft.parts, words, key, look)?;
    keys.add(alloc, key)?;
    Ok(())
}

/// The foreign key beside its parent; a fault names its columns as the statement writes them.
fn beside_parent<L: Lookup>(
    alloc: Global,
    parts: &TableParts,
    words: &FkWords,
    key: &ForeignKeyDef,
    look: &L,
) -> Result<ForeignKeyDef, Stop>
    ensures { Follows (λ found. found) result (run (sights (L.known look.now)) (foreign_key_of parts.now words.now.columns key.now)) }
{
    check_fk(alloc, parts, words.columns.as_slice(), key, look)
}

/// How a refusal names the foreign key.
fn name_in_text(constraint: &Option<Name>) -> &str
    ensures { result.now ≡ name_in_text constraint.now }
{
    match constraint {
        None => "foreign key without name",
        Some(name) => name.as_str(),
    }
}

/// Where no index of the table begins with the columns, a plain one is made.
#[tactic(auto, using(dd_catalog::specs::WalkLaws::run_bind), unfolding(crate::specs::Tables::with_key_index))]
fn with_key_index(
    alloc: Global,
    draft: &mut Draft,
    words: &FkWords,
    columns: &List<Name>,
) -> Result<(), Stop>
    requires { IsDraft draft.old }
    ensures exact { (look : Look) → Follows (λ _. draft.new.parts) result (run look (with_key_index draft.old.parts words.now columns.now)) }
    ensures draft { OnOk result (IsDraft draft.new) }
    ensures name { OnOk result (draft.new.parts.name ≡ draft.old.parts.name) }
{
    if has_index_on(draft.parts.indexes.as_slice(), columns.as_slice()) {
        return Ok(());
    }
    let key = key_for(words, columns)?;
    let index = key_checked(alloc, draft, &key)?;
    add_index(alloc, draft, index)?;
    Ok(())
}

/// A plain key on the columns of a foreign key.
pub fn key_for(words: &FkWords, columns: &List<Name>) -> Result<KeyWords, AllocError>
    ensures { IfOk result (λ key. key ≡ key_for words.now columns.now) }
{
    match both(name_given(&words.constraint, &words.name), columns.copy()) {
        Ok((name, columns)) => Ok(KeyWords {
            class: IndexClass::Plain,
            constraint: None,
            name,
            columns,
        }),
        Err(error) => Err(error),
    }
}

fn name_given(given: &Option<Name>, other: &Option<Name>) -> Result<Option<Name>, AllocError>
    ensures { IfOk result (λ name. name ≡ first_given given.now other.now) }
{
    match first_given(given, other) {
        None => Ok(None),
        Some(name) => Ok(Some(name.copy()?)),
    }
}

/// The foreign key with this name. A parent without schema is in the child's.
pub fn key_named(
    words: &FkWords,
    table: &ObjName,
    name: Name,
    columns: List<Name>,
) -> Result<ForeignKeyDef, AllocError>
    ensures { IfOk result (λ key. key ≡ key_named words.now table.now name columns) }
{
    match both(
        parent_named(table, &words.parent),
        words.parent_columns.copy(),
    ) {
        Ok((parent, parent_columns)) => Ok(ForeignKeyDef {
            name,
            columns,
            parent,
            parent_columns,
            on_delete: words.on_delete,
            on_update: words.on_update,
        }),
        Err(error) => Err(error),
    }
}

fn parent_named(table: &ObjName, parent: &ObjRef) -> Result<ObjName, AllocError>
    ensures { IfOk result (λ name. name ≡ parent_named table.now parent.now) }
{
    let schema = schema_or(&table.schema, &parent.schema);
    match both(schema.copy(), parent.name.copy()) {
        Ok((schema, name)) => Ok(ObjName { schema, name }),
        Err(error) => Err(error),
    }
}

fn schema_or<'a>(own: &'a Name, written: &'a Option<Name>) -> &'a Name
    ensures { result.now ≡ schema_or own.now written.now }
{
    match written {
        None => own,
        Some(schema) => schema,
    }
}
