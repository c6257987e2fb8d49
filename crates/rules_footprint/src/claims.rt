// What a statement asks that others leave as it is.
use dd_names::{Name, ObjName};

/// What a look asks that others leave as it is, or what a change asks that others neither read nor change.
#[derive(Drop)]
pub enum Claim {
    /// No schema comes or goes.
    KeepSchemas,
    /// The schema stays, or stays away.
    KeepSchema(Name),
    /// No object of the schema comes or goes.
    KeepObjects(Name),
    /// The object stays as it is, or stays away.
    KeepObject(ObjName),
    /// No table becomes a child of this one.
    KeepChildren(ObjName),
    /// No table of the schema takes the constraint's name, which is folded.
    KeepFree { schema: Name, folded: Name },
    /// The catalog changes.
    ChangeCatalog,
    /// The schema comes or goes.
    ChangeSchema(Name),
    /// The object comes, changes or goes.
    ChangeObject(ObjName),
    /// A table becomes a child of this one.
    JoinParent(ObjName),
    /// A table of the schema takes the constraint's name, which is folded.
    TakeName { schema: Name, folded: Name },
}
