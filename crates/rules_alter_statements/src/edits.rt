// What is changed at one name.
ghost use Rattle.std.specs.Prelude.{◌≡◌, ℕ, false, IfOk, Option, Some};
ghost use Rattle.dd_names.specs.declared.object_name.ObjName.{ObjName as NameOf};
ghost use Rattle.dd_names.specs.declared.object_name.ObjectKey.{ObjectKey as Key};
ghost use Rattle.dd_names.specs.declared.object_name.ObjectKey.TheVariants as keys;
ghost use Rattle.dd_catalog.specs.declared.object.Object.{Object as Standing};
ghost use Rattle.dd_catalog.specs.declared.object.Object.TheVariants as objects;
ghost use Rattle.rules_outcome.specs.Choices.{Gone, change};
ghost use Rattle.rules_outcome.specs.Decided.{after_of, change_of, there, HasIds, HasIdsAt, IsBefore, IsSchemaId, KnownTable};
ghost use Rattle.rules_alter.specs.Statements.{table_behind};
ghost use Rattle.rules_alter_statements.specs.Standing.{IsAt};

use dd_catalog::{Lookup, Object, object_at, schema_at};
use dd_definitions::{TableDef, TableParts};
use dd_names::{Name, ObjName, ObjectKey, TryCopy, both};
use rules_named::stood;
use rules_outcome::{After, Edit};
use std::alloc::AllocError;

/// The ids of a table.
#[derive(Clone, Copy)]
pub(crate) struct TableIds {
    pub id: u32,
    pub schema: u32,
    pub space: u32,
}

/// What a table is given that is left: the id of its tablespace, whether it gets a new one, and its definition.
#[derive(Drop)]
pub(crate) struct Shape {
    pub space: u32,
    pub is_rebuilt: bool,
    pub def: TableDef,
}

/// The table at the name is left so.
pub(crate) fn edit_in_place<L: Lookup>(
    name: &ObjName,
    shape: Shape,
    look: &L,
) -> Result<Edit, AllocError>
    ensures made { IfOk result (λ edit. change_of edit ≡ change (keys.Object name.now) (table_behind shape.space shape.is_rebuilt shape.def)) }
    ensures before { IfOk result (λ edit. IsBefore (L.known look.now edit.key) edit.before) }
    ensures ids { IfOk result (λ edit. HasIds (L.known look.now) edit.key edit.after) }
{
    let ids = ids_at(name, shape.space, look)?;
    match both(name.copy(), before_at(name, look)) {
        Ok((name, before)) => Ok(Edit {
            key: ObjectKey::Object(name),
            before,
            after: table_behind(ids, shape),
        }),
        Err(error) => Err(error),
    }
}

/// The table at the first name is left so at the other one.
pub(crate) fn edit_moved<L: Lookup>(
    from: &ObjName,
    to: &ObjName,
    shape: Shape,
    look: &L,
) -> Result<Edit, AllocError>
    ensures made { IfOk result (λ edit. change_of edit ≡ change (keys.Object to.now) (table_behind shape.space shape.is_rebuilt shape.def)) }
    ensures before { IfOk result (λ edit. IsBefore (L.known look.now edit.key) edit.before) }
    ensures ids { IfOk result (λ edit. HasIds (L.known look.now) edit.key edit.after) }
{
    let mut ids = ids_at(from, shape.space, look)?;
    ids.schema = schema_at_name(&to.schema, look)?;
    match both(to.copy(), before_at(to, look)) {
        Ok((name, before)) => Ok(Edit {
            key: ObjectKey::Object(name),
            before,
            after: table_behind(ids, shape),
        }),
        Err(error) => Err(error),
    }
}

/// Nothing is left at the name.
pub(crate) fn edit_gone<L: Lookup>(name: &ObjName, look: &L) -> Result<Edit, AllocError>
    ensures made { IfOk result (λ edit. change_of edit ≡ change (keys.Object name.now) Gone) }
    ensures before { IfOk result (λ edit. IsBefore (L.known look.now edit.key) edit.before) }
    ensures ids { IfOk result (λ edit. HasIds (L.known look.now) edit.key edit.after) }
{
    match both(name.copy(), before_at(name, look)) {
        Ok((name, before)) => Ok(Edit {
            key: ObjectKey::Object(name),
            before,
            after: After::Gone,
        }),
        Err(error) => Err(error),
    }
}

fn table_behind(ids: TableIds, shape: Shape) -> After
    ensures after { ids.space ≡ shape.space → after_of result ≡ table_behind shape.space shape.is_rebuilt shape.def }
    ensures ids { (known : Key → Option Standing) → (name : NameOf) → (own : ℕ) → IsSchemaId known name.schema ids.schema → KnownTable known ids.id own ids.space → HasIdsAt known name result }
{
    let TableIds { id, schema, space } = ids;
    let Shape {
        space: _,
        is_rebuilt,
        def,
    } = shape;
    if is_rebuilt {
        After::RebuiltTable { id, schema, def }
    } else {
        After::KeptTable {
            id,
            schema,
            space,
            def,
        }
    }
}

/// The ids of the table that was looked at. What is no table of that tablespace gets no answer.
fn ids_at<L: Lookup>(name: &ObjName, space: u32, look: &L) -> Result<TableIds, AllocError>
    ensures is_at { IfOk result (λ ids. IsAt (L.known look.now) name.now ids) }
    ensures space { IfOk result (λ ids. ids.space ≡ space) }
{
    match object_at(look, name) {
        Ok(object) => ids_of(object, space),
        Err(_) => Err(AllocError),
    }
}

fn ids_of(object: &Object, space: u32) -> Result<TableIds, AllocError>
    ensures is { IfOk result (λ ids. (parts : TableParts) × (object.now ≡ objects.Table ids.id ids.schema ids.space parts)) }
    ensures space { IfOk result (λ ids. ids.space ≡ space) }
{
    match object {
        Object::Table {
            id,
            schema,
            space: own,
            ..
        } if *own == space => Ok(TableIds {
            id: *id,
            schema: *schema,
            space: *own,
        }),
        _ => Err(AllocError),
    }
}

/// The id of the schema, which was looked at.
fn schema_at_name<L: Lookup>(schema: &Name, look: &L) -> Result<u32, AllocError>
    ensures { IfOk result (λ id. L.known look.now (keys.Schema schema.now) ≡ Some (objects.Schema id)) }
{
    match schema_at(look, schema) {
        Ok(object) => schema_id(object),
        Err(_) => Err(AllocError),
    }
}

fn schema_id(object: &Object) -> Result<u32, AllocError>
    ensures { IfOk result (λ id. object.now ≡ objects.Schema id) }
{
    match object {
        Object::Schema { id } => Ok(*id),
        _ => Err(AllocError),
    }
}

/// What stood at the name, which was looked at.
fn before_at<L: Lookup>(name: &ObjName, look: &L) -> Result<Option<Object>, AllocError>
    ensures { IfOk result (λ before. IsBefore (L.known look.now (keys.Object name.now)) before) }
{
    match object_at(look, name) {
        Ok(object) => stood(object),
        Err(_) => Err(AllocError),
    }
}

/// The definition with these parts. What isn't well formed gets no answer.
pub(crate) fn def_of(parts: TableParts) -> Result<TableDef, AllocError>
    ensures { IfOk result (λ def. def ≡ parts) }
{
    match TableDef::of(parts) {
        Ok(def) => Ok(def),
        Err(_) => Err(AllocError),
    }
}
