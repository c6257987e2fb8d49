use dd_definitions::{TableDef, ViewDef};
use dd_names::{List, Name, ObjName, TryCopy};
use std::alloc::AllocError;

/// What stands at a key of the dictionary. An id that isn't given yet is 0.
#[derive(Drop)]
pub enum Object {
    Schema {
        id: u32,
    },
    Table {
        id: u32,
        /// The id of its schema.
        schema: u32,
        /// The id of its tablespace.
        space: u32,
        def: TableDef,
    },
    View {
        id: u32,
        /// The id of its schema.
        schema: u32,
        def: ViewDef,
    },
    /// Nothing has the name.
    Absent,
    /// The names of all schemas, in order.
    Schemas(List<Name>),
    /// The names of all objects of a schema, in order.
    Objects(List<Name>),
    /// The other tables with a foreign key to a table, in order.
    Children(List<ObjName>),
    /// The table that has the constraint.
    Constraint {
        table: ObjName,
    },
}

impl TryCopy for Object {
    fn copy(&self) -> Result<Object, AllocError> {
        match self {
            Object::Schema { id } => Ok(Object::Schema { id: *id }),
            Object::Table {
                id,
                schema,
                space,
                def,
            } => Ok(Object::Table {
                id: *id,
                schema: *schema,
                space: *space,
                def: def.copy()?,
            }),
            Object::View { id, schema, def } => Ok(Object::View {
                id: *id,
                schema: *schema,
                def: def.copy()?,
            }),
            Object::Absent => Ok(Object::Absent),
            Object::Schemas(names) => Ok(Object::Schemas(names.copy()?)),
            Object::Objects(names) => Ok(Object::Objects(names.copy()?)),
            Object::Children(tables) => Ok(Object::Children(tables.copy()?)),
            Object::Constraint { table } => Ok(Object::Constraint {
                table: table.copy()?,
            }),
        }
    }
}
