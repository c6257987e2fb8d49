ghost use Rattle.std.specs.Prelude.{◌≡◌, ◌++◌, ◌∷◌, [], cond, filter, Option, Some, IfOk, OnOk, OnErr, IsTrue, MatchOption, if◌then◌else◌};
ghost use Rattle.std.specs.Option.{option_copied, option_map};
ghost use Rattle.std.specs.BTreeMap as tree;
ghost use Rattle.std.specs.BTreeMap.{insert_entry};
ghost use Rattle.std.specs.BTreeSet as sorted;
ghost use Rattle.dd_names.specs.declared.object_name.ObjectKey.{ObjectKey as Key};
ghost use Rattle.dd_catalog.specs.declared.object.Object.{Object as Standing};
ghost use Rattle.dd_catalog.specs.Catalog.{object_cmp};
ghost use Rattle.dd_index.specs.Keys.{passes, HasKeys};
ghost use Rattle.dd_index.specs.Index.{KeepsAll};
ghost use Rattle.rules_outcome.specs.Decided.{HasIdsAt};
ghost use Rattle.rules_rename.specs.Left.{after_left, kept, keys_left};
ghost use Rattle.rules_rename.specs.Puts.{are_in_order, after_at, is_changed, put_in};
ghost use Rattle.rules_rename.specs.Ids.{AreWithIds};
ghost use Rattle.rules_rename.specs.Indexed.{left_stands, standing, IsIndexed, IsReady};

use crate::left::Left;
use dd_definitions::ForeignKeyDef;
use dd_index::{TablesAt, keys_of, stands};
use dd_names::{List, ObjName, ObjectKey, TryCopy, both};
use std::alloc::{AllocError, Global};
use std::collections::{BTreeMap, BTreeSet};
use std::marker::Model;

/// What the pairs so far change, in the order of names, one a name, with the changed tables that stand at keys of children and
/// of constraints. Contracts see the names with what is left at each.
#[derive(Drop)]
pub(crate) struct Overlay {
    alloc: Global,
    left: BTreeMap<ObjName, Left>,
    tables: TablesAt,
}

impl Model for Overlay {
    ghost use Rattle.std.specs.Prelude.{IsTrue, List};
    ghost use Rattle.rules_rename.specs.Indexed.{IsIndexed};
    ghost use Rattle.rules_rename.specs.Puts.{Put, are_in_order};

    ghost Value = { List Put };

    ghost view = { λ o. o.left.entries };

    ghost invariant = { λ o. IsTrue (are_in_order o.left.entries) × IsIndexed o.tables o.left };
}

impl Overlay {
    pub(crate) fn new(alloc: Global) -> Overlay
        ensures { result ≡ [] }
    {
        Overlay {
            alloc,
            left: BTreeMap::new(alloc),
            tables: TablesAt::new(alloc),
        }
    }

    /// All that is left, by the names.
    pub(crate) fn all(&self) -> &BTreeMap<ObjName, Left>
        ensures value { result.now.entries ≡ self.now }
        ensures in_order { IsTrue (are_in_order self.now) }
    {
        &self.left
    }

    /// The names with what is left at each, in order.
    pub(crate) fn into_vec(self) -> Result<Vec<(ObjName, Left)>, AllocError>
        ensures value { IfOk result (λ puts. puts.items ≡ self) }
        ensures in_order { IsTrue (are_in_order self) }
    {
        let Overlay {
            alloc,
            left,
            tables: _,
        } = self;
        left.into_iter().collect(alloc)
    }

    /// What the changes leave at the name, if it is among them.
    pub(crate) fn left_at(&self, name: &ObjName) -> Option<&Left>
        ensures left { option_map after_left (option_copied result) ≡ after_at self.now name.now }
        ensures ids { (known : Key → Option Standing) → AreWithIds known self.now → MatchOption result (Unit {0}) (λ left. HasIdsAt known name.now (kept left.now)) }
        ensures in_order { IsTrue (are_in_order self.now) }
    {
        self.left.get(name)
    }

    /// Whether the name is among the changes.
    pub(crate) fn is_changed(&self, name: &ObjName) -> bool
        ensures { result ≡ is_changed self.now name.now }
    {
        self.left_at(name).is_some()
    }

    /// The changed tables that stand at a key of children or of a constraint, in order.
    pub(crate) fn standing(&self, key: &ObjectKey) -> Result<List<ObjName>, AllocError>
        ensures tables { IfOk result (λ tables. tables ≡ standing key.now self.now) }
        ensures in_order { IsTrue (are_in_order self.now) }
    {
        match self.tables.at(key) {
            None => Ok(List::new(self.alloc)),
            Some(names) => standing_among(self.alloc, &self.left, names, key),
        }
    }

    /// One more change, in place of what was left at its name.
    pub(crate) fn put(&mut self, name: ObjName, left: Left) -> Result<(), AllocError>
        ensures { OnOk result (self.new ≡ put_in (name, left) self.old) }
    {
        put(self.alloc, &mut self.left, &mut self.tables, name, left)
    }
}

fn put(
    alloc: Global,
    all: &mut BTreeMap<ObjName, Left>,
    tables: &mut TablesAt,
    name: ObjName,
    left: Left,
) -> Result<(), AllocError>
    ensures changed { OnOk result (all.new.entries ≡ insert_entry object_cmp all.old.entries name left) }
    ensures ordered { IsTrue (are_in_order all.old.entries) → IsTrue (are_in_order all.new.entries) }
    ensures indexed { IsIndexed tables.old all.old → IsIndexed tables.new all.new }
{
    let shift = entered(alloc, all.get(&name), tables, &name, left.foreign_keys())?;
    all.insert(name, left)?;
    tables.leave(&shift.name, &shift.before, &shift.after);
    Ok(())
}

/// A name, and the keys at which its table stood and stands.
#[derive(Drop)]
struct Shift {
    name: ObjName,
    before: BTreeSet<ObjectKey>,
    after: BTreeSet<ObjectKey>,
}

/// The table that is to have the name is among those of its keys from now on.
fn entered(
    alloc: Global,
    before: Option<&Left>,
    tables: &mut TablesAt,
    name: &ObjName,
    foreign_keys: &[ForeignKeyDef],
) -> Result<Shift, AllocError>
    ensures kept { KeepsAll tables.old tables.new }
    ensures ready { IfOk result (λ shift. IsReady tables.new shift name.now foreign_keys.now) }
{
    let shift = shift_of(alloc, before, name, foreign_keys)?;
    tables.enter(alloc, &shift.name, &shift.after)?;
    Ok(shift)
}

fn shift_of(
    alloc: Global,
    before: Option<&Left>,
    name: &ObjName,
    foreign_keys: &[ForeignKeyDef],
) -> Result<Shift, AllocError>
    ensures { IfOk result (λ shift. (shift.name ≡ name.now) × HasKeys shift.after name.now foreign_keys.now) }
{
    let keys = both(
        keys_before(alloc, before, name),
        keys_of(alloc, name, foreign_keys),
    );
    match both(name.copy(), keys) {
        Ok((name, (before, after))) => Ok(Shift {
            name,
            before,
            after,
        }),
        Err(error) => Err(error),
    }
}

fn keys_before(
    alloc: Global,
    before: Option<&Left>,
    name: &ObjName,
) -> Result<BTreeSet<ObjectKey>, AllocError> {
    match before {
        None => Ok(BTreeSet::new(alloc)),
        Some(left) => keys_of(alloc, name, left.foreign_keys()),
    }
}

fn standing_among(
    alloc: Global,
    all: &BTreeMap<ObjName, Left>,
    names: &BTreeSet<ObjName>,
    key: &ObjectKey,
) -> Result<List<ObjName>, AllocError>
    ensures tables { IfOk result (λ tables. tables ≡ filter (λ name. passes (left_stands key.now) name (tree.get object_cmp all.now name)) names.now.keys) }
    ensures ordered { sorted.IsOrdered object_cmp names.now }
{
    let mut tables = List::new(alloc);
    'names: for name in names.iter() {
        add_standing(all, name, key, &mut tables)?;
    }
    Ok(tables)
}

fn add_standing(
    all: &BTreeMap<ObjName, Left>,
    name: &ObjName,
    key: &ObjectKey,
    tables: &mut List<ObjName>,
) -> Result<(), AllocError>
    ensures { OnOk result (tables.new ≡ tables.old ++ (if passes (left_stands key.now) name.now (tree.get object_cmp all.now name.now) then name.now ∷ [] else [])) }
{
    if does_stand(all.get(name), name, key) {
        tables.push(name.copy()?)?;
    }
    Ok(())
}

fn does_stand(left: Option<&Left>, name: &ObjName, key: &ObjectKey) -> bool
    ensures { result ≡ passes (left_stands key.now) name.now (option_copied left.entry) }
{
    match left {
        None => false,
        Some(left) => stands(key, name, left.foreign_keys()),
    }
}
