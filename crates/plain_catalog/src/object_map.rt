ghost use Rattle.std.specs.Prelude.{◌≡◌, cond, filter, Some, None, IfOk, OnOk, OnErr, if◌then◌else◌, ◌++◌, ◌∷◌, []};
ghost use Rattle.std.specs.Option.{option_copied};
ghost use Rattle.std.specs.BTreeMap as tree;
ghost use Rattle.std.specs.BTreeSet as sorted;
ghost use Rattle.std.specs.FinMap as finite_map;
ghost use Rattle.std.specs.Map.Iter.{ShowsInOrder, deref_pair};
ghost use Rattle.dd_names.specs.declared.object_name.ObjName.{ObjName as NameOf};
ghost use Rattle.dd_catalog.specs.Catalog.{foreign_keys_of, object_cmp};
ghost use Rattle.dd_index.specs.Index.{KeepsAll};
ghost use Rattle.dd_index.specs.Keys.{passes, placed_stands, standing, HasKeys};
ghost use Rattle.plain_catalog.specs.Indexed.{IsIndexed, IsReady, KeepsWithout};
ghost use Rattle.plain_catalog.specs.Objects.{are_in_order};

use crate::stored::StoredObject;
use dd_definitions::ForeignKeyDef;
use dd_index::{TablesAt, keys_of, stands};
use dd_names::{List, ObjName, ObjectKey, TryCopy, both};
use std::alloc::{AllocError, Global};
use std::collections::{BTreeMap, BTreeSet, btree_map};
use std::marker::Model;

/// Objects under their names, in the order of these, with the tables that stand at keys of children and of constraints.
#[derive(Drop)]
pub struct ObjectMap {
    alloc: Global,
    objects: BTreeMap<ObjName, StoredObject>,
    tables: TablesAt,
}

impl Model for ObjectMap {
    ghost use Rattle.std.specs.FinMap as finite_map;
    ghost use Rattle.dd_catalog.specs.Catalog.{Placed, object_cmp};
    ghost use Rattle.dd_names.specs.contracts.object_name.ObjName.{the_row as name_row};
    ghost use Rattle.plain_catalog.specs.contracts.stored.StoredObject.{the_row as object_row};
    ghost use Rattle.plain_catalog.specs.Objects as objects_in_order;
    ghost use Rattle.plain_catalog.specs.Indexed.{IsIndexed};

    ghost Value = { finite_map.FinMap object_cmp Placed };

    ghost coded = { finite_map.code name_row.coded object_row.coded };

    ghost view = { λ m. objects_in_order.map_of m.objects.entries };

    ghost invariant = { λ m. objects_in_order.are_in_order m.objects.entries × IsIndexed m.tables m.objects };
}

impl ObjectMap {
    /// No objects.
    pub fn new(alloc: Global) -> ObjectMap
        ensures { result ≡ finite_map.empty }
    {
        ObjectMap {
            alloc,
            objects: BTreeMap::new(alloc),
            tables: TablesAt::new(alloc),
        }
    }

    /// The object that has the name.
    pub fn get(&self, name: &ObjName) -> Option<&StoredObject>
        ensures { option_copied result ≡ finite_map.get self.now name.now }
    {
        self.objects.get(name)
    }

    /// Puts an object under the name, in place of what has it. For want of memory all stays as it is.
    pub fn insert(&mut self, name: ObjName, object: StoredObject) -> Result<(), AllocError>
        ensures ok { OnOk result (self.new ≡ finite_map.insert self.old name object) }
        ensures err { OnErr result (self.new ≡ self.old) }
    {
        put(
            self.alloc,
            &mut self.objects,
            &mut self.tables,
            name,
            object,
        )
    }

    /// Takes the object of that name out, where one has it.
    pub fn remove(&mut self, name: &ObjName)
        ensures { self.new ≡ finite_map.remove self.old name.now }
    {
        take_out(self.alloc, &mut self.objects, &mut self.tables, name);
    }

    /// The objects with their names, in order.
    pub fn iter(&self) -> btree_map::Iter<'_, ObjName, StoredObject>
        ensures rest { result ≡ finite_map.entries self.now }
        ensures runs { ShowsInOrder (deref_pair {K = ObjName} {X = StoredObject}) }
    {
        self.objects.iter()
    }

    /// The tables that stand at a key of children or of a constraint, in order.
    pub(crate) fn standing(
        &self,
        alloc: Global,
        key: &ObjectKey,
    ) -> Result<List<ObjName>, AllocError>
        ensures { IfOk result (λ tables. tables ≡ standing key.now (finite_map.entries self.now)) }
    {
        match self.tables.at(key) {
            None => Ok(List::new(alloc)),
            Some(names) => standing_among(alloc, &self.objects, names, key),
        }
    }
}

fn put(
    alloc: Global,
    objects: &mut BTreeMap<ObjName, StoredObject>,
    tables: &mut TablesAt,
    name: ObjName,
    object: StoredObject,
) -> Result<(), AllocError>
    ensures updates { OnOk result ((q : NameOf) → tree.get object_cmp objects.new q ≡ cond (tree.is_at (object_cmp name) q) (Some object) (tree.get object_cmp objects.old q)) }
    ensures err { OnErr result (objects.new.entries ≡ objects.old.entries) }
    ensures ordered { are_in_order objects.old.entries → are_in_order objects.new.entries }
    ensures indexed { IsIndexed tables.old objects.old → IsIndexed tables.new objects.new }
{
    let shift = entered(alloc, objects.get(&name), tables, &name, &object)?;
    objects.insert(name, object)?;
    tables.leave(&shift.name, &shift.before, &shift.after);
    Ok(())
}

fn take_out(
    alloc: Global,
    objects: &mut BTreeMap<ObjName, StoredObject>,
    tables: &mut TablesAt,
    name: &ObjName,
)
    ensures updates { (q : NameOf) → tree.get object_cmp objects.new q ≡ cond (tree.is_at (object_cmp name.now) q) None (tree.get object_cmp objects.old q) }
    ensures ordered { are_in_order objects.new.entries }
    ensures indexed { IsIndexed tables.old objects.old → IsIndexed tables.new objects.new }
{
    match objects.remove(name) {
        None => {}
        Some(object) => leave_all(alloc, tables, name, object.foreign_keys()),
    }
}

/// A name, and the keys at which its object stood and stands.
#[derive(Drop)]
struct Shift {
    name: ObjName,
    before: BTreeSet<ObjectKey>,
    after: BTreeSet<ObjectKey>,
}

/// The table that is to have the name is among those of its keys from now on.
fn entered(
    alloc: Global,
    before: Option<&StoredObject>,
    tables: &mut TablesAt,
    name: &ObjName,
    object: &StoredObject,
) -> Result<Shift, AllocError>
    ensures kept { KeepsAll tables.old tables.new }
    ensures ready { IfOk result (λ shift. IsReady tables.new shift name.now (foreign_keys_of object.now)) }
{
    let shift = shift_of(alloc, before, name, object.foreign_keys())?;
    tables.enter(alloc, &shift.name, &shift.after)?;
    Ok(shift)
}

fn shift_of(
    alloc: Global,
    before: Option<&StoredObject>,
    name: &ObjName,
    foreign_keys: &[ForeignKeyDef],
) -> Result<Shift, AllocError>
    ensures { IfOk result (λ shift. (shift.name ≡ name.now) × HasKeys shift.after name.now foreign_keys.now) }
{
    let keys = both(
        keys_before(alloc, before, name),
        keys_of(alloc, name, foreign_keys),
    );
    match both(name.copy(), keys) {
        Ok((name, (before, after))) => Ok(Shift {
            name,
            before,
            after,
        }),
        Err(error) => Err(error),
    }
}

fn keys_before(
    alloc: Global,
    before: Option<&StoredObject>,
    name: &ObjName,
) -> Result<BTreeSet<ObjectKey>, AllocError> {
    match before {
        None => Ok(BTreeSet::new(alloc)),
        Some(object) => keys_of(alloc, name, object.foreign_keys()),
    }
}

/// The table is no longer among those of its keys; for want of memory it may be with some.
fn leave_all(alloc: Global, tables: &mut TablesAt, name: &ObjName, foreign_keys: &[ForeignKeyDef])
    ensures { KeepsWithout tables.old tables.new name.now }
{
    if let Ok(keys) = keys_of(alloc, name, foreign_keys) {
        tables.leave(name, &keys, &BTreeSet::new(alloc));
    }
}

fn standing_among(
    alloc: Global,
    objects: &BTreeMap<ObjName, StoredObject>,
    names: &BTreeSet<ObjName>,
    key: &ObjectKey,
) -> Result<List<ObjName>, AllocError>
    ensures tables { IfOk result (λ tables. tables ≡ filter (λ name. passes (placed_stands key.now) name (tree.get object_cmp objects.now name)) names.now.keys) }
    ensures ordered { sorted.IsOrdered object_cmp names.now }
{
    let mut tables = List::new(alloc);
    'names: for name in names.iter() {
        add_standing(objects, name, key, &mut tables)?;
    }
    Ok(tables)
}

fn add_standing(
    objects: &BTreeMap<ObjName, StoredObject>,
    name: &ObjName,
    key: &ObjectKey,
    tables: &mut List<ObjName>,
) -> Result<(), AllocError>
    ensures { OnOk result (tables.new ≡ tables.old ++ (if passes (placed_stands key.now) name.now (tree.get object_cmp objects.now name.now) then name.now ∷ [] else [])) }
{
    if does_stand(objects.get(name), name, key) {
        tables.push(name.copy()?)?;
    }
    Ok(())
}

fn does_stand(object: Option<&StoredObject>, name: &ObjName, key: &ObjectKey) -> bool
    ensures { result ≡ passes (placed_stands key.now) name.now (option_copied object.entry) }
{
    match object {
        None => false,
        Some(object) => stands(key, name, object.foreign_keys()),
    }
}
