ghost use Rattle.std.specs.Prelude.{◌≡◌, map, IfOk, OnOk};
ghost use Rattle.std.specs.FinMap as finite_map;
ghost use Rattle.dd_catalog.specs.Catalog.{sight_of, empty_catalog, schema_seen, object_seen};
ghost use Rattle.dd_catalog.specs.Sights.{sight};
ghost use Rattle.rules_outcome.specs.Choices.{applied, applied_at};
ghost use Rattle.rules_outcome.specs.Decided.{after_of, change_of};
ghost use Rattle.plain_catalog.specs.Whole.{catalog_of};

use crate::changed::{change_object, change_schema};
use crate::listed::{all_names, names_in, tables_listed};
use crate::name_set::NameSet;
use crate::object_map::ObjectMap;
use dd_catalog::Object;
use dd_names::{List, Name, ObjName, ObjectKey, TryCopy};
use rules_outcome::Edit;
use std::alloc::{AllocError, Global};
use std::marker::Model;

/// A catalog that is kept in memory: schemas, and tables and views under their names. Contracts see a catalog.
#[derive(Drop)]
pub struct PlainCatalog {
    schemas: NameSet,
    objects: ObjectMap,
}

impl Model for PlainCatalog {
    ghost use Rattle.dd_catalog.specs.Catalog.{Catalog};
    ghost use Rattle.plain_catalog.specs.contracts.name_set.NameSet.{the_row as names_row};
    ghost use Rattle.plain_catalog.specs.contracts.object_map.ObjectMap.{the_row as objects_row};
    ghost use Rattle.plain_catalog.specs.Whole.{catalog_code, catalog_of};

    ghost Value = { Catalog };

    ghost coded = { catalog_code names_row.coded objects_row.coded };

    ghost view = { λ c. catalog_of c.schemas c.objects };
}

impl PlainCatalog {
    /// A catalog without schemas.
    pub fn new(alloc: Global) -> PlainCatalog
        ensures { result ≡ empty_catalog }
    {
        PlainCatalog {
            schemas: NameSet::new(alloc),
            objects: ObjectMap::new(alloc),
        }
    }

    /// A copy of what stands at the key, without ids. It is searched for; only a list of names takes a look at each object.
    pub fn at(&self, alloc: Global, key: &ObjectKey) -> Result<Object, AllocError>
        ensures { IfOk result (λ object. sight object ≡ sight_of self.now key.now) }
    {
        standing_at(alloc, &self.schemas, &self.objects, key)
    }

    /// Makes the changes of these edits, one after another. A table with a new tablespace gets the number `space`. For want
    /// of memory the catalog may be left with some of them.
    pub fn apply(&mut self, edits: List<Edit>, space: u32) -> Result<(), AllocError>
        ensures { OnOk result (self.new ≡ applied space (map change_of edits) self.old) }
    {
        'edits: for edit in edits.into_vec() {
            self.apply_edit(edit, space)?;
        }
        Ok(())
    }

    fn apply_edit(&mut self, edit: Edit, space: u32) -> Result<(), AllocError>
        ensures { OnOk result (self.new ≡ applied_at space edit.key (after_of edit.after) self.old) }
    {
        let Edit { key, before, after } = edit;
        drop(before);
        match key {
            ObjectKey::Schema(name) => change_schema(&mut self.schemas, name, after),
            ObjectKey::Object(name) => change_object(&mut self.objects, name, after, space),
            _ => Ok(()),
        }
    }
}

fn standing_at(
    alloc: Global,
    schemas: &NameSet,
    objects: &ObjectMap,
    key: &ObjectKey,
) -> Result<Object, AllocError>
    ensures { IfOk result (λ object. sight object ≡ sight_of (catalog_of schemas.now objects.now) key.now) }
{
    match key {
        ObjectKey::Schemas => Ok(Object::Schemas(all_names(alloc, schemas)?)),
        ObjectKey::Schema(name) => Ok(schema_at(schemas, name)),
        ObjectKey::Objects(schema) => Ok(Object::Objects(names_in(alloc, objects, schema)?)),
        ObjectKey::Object(name) => object_at(objects, name),
        ObjectKey::Children(_) | ObjectKey::Constraint { .. } => tables_listed(alloc, objects, key),
    }
}

fn schema_at(schemas: &NameSet, name: &Name) -> Object
    ensures { sight result ≡ schema_seen (finite_map.contains_key schemas.now name.now) }
{
    if schemas.contains(name) {
        Object::Schema { id: 0 }
    } else {
        Object::Absent
    }
}

fn object_at(objects: &ObjectMap, name: &ObjName) -> Result<Object, AllocError>
    ensures { IfOk result (λ object. sight object ≡ object_seen (finite_map.get objects.now name.now)) }
{
    match objects.get(name) {
        None => Ok(Object::Absent),
        Some(object) => object.object(),
    }
}
