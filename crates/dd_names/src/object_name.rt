use crate::name::Name;
use crate::try_copy::{TryCopy, both};
use std::alloc::AllocError;

/// The name of a table or a view with the name of its schema. Object names are in order of their schemas and then of
/// their own names, each byte by byte (MySQL 8.0 Reference Manual, 9.2.2).
#[derive(Drop, PartialEq, Eq, PartialOrd, Ord, Hash)]
pub struct ObjName {
    /// The schema's name.
    pub schema: Name,
    /// The object's own name.
    pub name: Name,
}

impl TryCopy for ObjName {
    fn copy(&self) -> Result<ObjName, AllocError> {
        match both(self.schema.copy(), self.name.copy()) {
            Ok((schema, name)) => Ok(ObjName { schema, name }),
            Err(error) => Err(error),
        }
    }
}

/// What can be looked at in a dictionary, each by its key. Keys are in the order of their variants, and within one in
/// that of their names.
#[derive(Drop, PartialEq, Eq, PartialOrd, Ord, Hash)]
pub enum ObjectKey {
    /// The names of all schemas.
    Schemas,
    /// The schema of that name.
    Schema(Name),
    /// The names of all objects of a schema.
    Objects(Name),
    /// The table or view of that name.
    Object(ObjName),
    /// The names of the tables with a foreign key to a table.
    Children(ObjName),
    /// The table with a constraint in a schema, by the constraint's folded name.
    Constraint { schema: Name, folded: Name },
}

impl TryCopy for ObjectKey {
    fn copy(&self) -> Result<ObjectKey, AllocError> {
        match self {
            ObjectKey::Schemas => Ok(ObjectKey::Schemas),
            ObjectKey::Schema(name) => name.copy().map(ObjectKey::Schema),
            ObjectKey::Objects(schema) => schema.copy().map(ObjectKey::Objects),
            ObjectKey::Object(name) => name.copy().map(ObjectKey::Object),
            ObjectKey::Children(parent) => parent.copy().map(ObjectKey::Children),
            ObjectKey::Constraint { schema, folded } => match both(schema.copy(), folded.copy()) {
                Ok((schema, folded)) => Ok(ObjectKey::Constraint { schema, folded }),
                Err(error) => Err(error),
            },
        }
    }
}
