ghost use Rattle.std.specs.Prelude.{◌≡◌, true, false, Option, None, IfOk, OnOk};
ghost use Rattle.std.specs.Option.{option_copied};
ghost use Rattle.std.specs.BTreeMap as tree;
ghost use Rattle.std.specs.BTreeSet as sorted;
ghost use Rattle.dd_names.specs.declared.object_name.ObjName.{ObjName as NameOf};
ghost use Rattle.dd_names.specs.declared.object_name.ObjectKey.{ObjectKey as Key};
ghost use Rattle.dd_catalog.specs.Catalog.{object_cmp};
ghost use Rattle.dd_index.specs.Keys.{key_cmp};
ghost use Rattle.dd_index.specs.Index.{has, has_name, HasNone, KeepsAll, KeepsOthers, KeepsBut, Enters};

use dd_names::{ObjName, ObjectKey, TryCopy};
use std::alloc::{AllocError, Global};
use std::collections::{BTreeMap, BTreeSet};

/// Under keys of children and of constraints, the tables among which those are that stand there.
#[derive(Drop)]
pub struct TablesAt {
    tables: BTreeMap<ObjectKey, BTreeSet<ObjName>>,
}

impl TablesAt {
    /// No tables.
    pub fn new(alloc: Global) -> TablesAt
        ensures { HasNone result }
    {
        TablesAt {
            tables: BTreeMap::new(alloc),
        }
    }

    /// The tables among which those are that stand at the key, in order.
    pub fn at(&self, key: &ObjectKey) -> Option<&BTreeSet<ObjName>>
        ensures { option_copied result ≡ tree.get key_cmp self.now.tables key.now }
    {
        self.tables.get(key)
    }

    /// From now on the table is among those of these keys. For want of memory it may be with some of them.
    pub fn enter(
        &mut self,
        alloc: Global,
        table: &ObjName,
        keys: &BTreeSet<ObjectKey>,
    ) -> Result<(), AllocError>
        ensures kept { KeepsAll self.old self.new }
        ensures entered { OnOk result (Enters self.new table.now keys.now.keys) }
    {
        'keys: for key in keys.iter() {
            self.add(alloc, key, table)?;
        }
        Ok(())
    }

    /// From now on the table is among those of the later keys alone.
    pub fn leave(
        &mut self,
        table: &ObjName,
        before: &BTreeSet<ObjectKey>,
        after: &BTreeSet<ObjectKey>,
    )
        ensures { KeepsBut self.old self.new table.now after.now }
    {
        'keys: for key in before.iter() {
            self.leave_key(key, table, after);
        }
    }

    fn leave_key(&mut self, key: &ObjectKey, table: &ObjName, after: &BTreeSet<ObjectKey>)
        ensures { KeepsBut self.old self.new table.now after.now }
    {
        if after.contains(key) {
            return;
        }
        self.remove(key, table);
    }

    fn add(&mut self, alloc: Global, key: &ObjectKey, table: &ObjName) -> Result<(), AllocError>
        ensures kept { KeepsAll self.old self.new }
        ensures added { OnOk result (has self.new key.now table.now ≡ true) }
    {
        match self.tables.get_mut(key) {
            Some(tables) => add_name(tables, table),
            None => self.add_first(alloc, key, table),
        }
    }

    fn remove(&mut self, key: &ObjectKey, table: &ObjName)
        ensures { KeepsOthers self.old self.new key.now table.now }
    {
        self.take_out(key, table);
        self.remove_empty(key);
    }

    fn take_out(&mut self, key: &ObjectKey, table: &ObjName)
        ensures { KeepsOthers self.old self.new key.now table.now }
    {
        if let Some(tables) = self.tables.get_mut(key) {
            tables.remove(table);
        }
    }

    /// One table under a key that had none.
    fn add_first(
        &mut self,
        alloc: Global,
        key: &ObjectKey,
        table: &ObjName,
    ) -> Result<(), AllocError>
        ensures kept { tree.get key_cmp self.old.tables key.now ≡ None → KeepsAll self.old self.new }
        ensures added { OnOk result (has self.new key.now table.now ≡ true) }
    {
        let tables = one_name(alloc, table)?;
        self.tables.insert(key.copy()?, tables)?;
        Ok(())
    }

    /// Frees the set of the key if it has no table.
    fn remove_empty(&mut self, key: &ObjectKey)
        ensures { KeepsAll self.old self.new }
    {
        if is_empty(self.tables.get(key)) {
            self.tables.remove(key);
        }
    }
}

fn add_name(tables: &mut BTreeSet<ObjName>, table: &ObjName) -> Result<(), AllocError>
    ensures kept { (other : NameOf) → sorted.contains object_cmp tables.old other ≡ true → sorted.contains object_cmp tables.new other ≡ true }
    ensures added { OnOk result (sorted.contains object_cmp tables.new table.now ≡ true) }
{
    tables.insert(table.copy()?)?;
    Ok(())
}

fn one_name(alloc: Global, table: &ObjName) -> Result<BTreeSet<ObjName>, AllocError>
    ensures { IfOk result (λ tables. sorted.contains object_cmp tables table.now ≡ true) }
{
    let mut tables = BTreeSet::new(alloc);
    tables.insert(table.copy()?)?;
    Ok(tables)
}

fn is_empty(tables: Option<&BTreeSet<ObjName>>) -> bool
    ensures { result ≡ true → (table : NameOf) → has_name table (option_copied tables.entry) ≡ false }
{
    match tables {
        None => true,
        Some(tables) => tables.is_empty(),
    }
}
