ghost use Rattle.std.specs.Prelude.{◌≡◌, Some, IfOk};
ghost use Rattle.dd_catalog.specs.Catalog as placed;
ghost use Rattle.dd_catalog.specs.Sights.{sight};

use dd_catalog::Object;
use dd_definitions::{ForeignKeyDef, TableDef, ViewDef};
use dd_names::TryCopy;
use std::alloc::AllocError;
use std::marker::Model;

#[derive(Drop)]
enum Kept {
    Table { space: u32, def: TableDef },
    View { def: ViewDef },
}

/// A table with the id of its tablespace, or a view.
#[derive(Drop)]
pub struct StoredObject {
    kept: Kept,
}

impl Model for StoredObject {
    ghost use Rattle.dd_catalog.specs.Catalog.{Placed};
    ghost use Rattle.plain_catalog.specs.Placing.{placed_of};

    ghost Value = { Placed };

    ghost view = { λ s. placed_of s.kept };
}

impl StoredObject {
    /// A table with the id of its tablespace. It takes no memory.
    pub fn table(space: u32, def: TableDef) -> StoredObject
        ensures { result ≡ placed.Table space def }
    {
        StoredObject {
            kept: Kept::Table { space, def },
        }
    }

    /// A view. It takes no memory.
    pub fn view(def: ViewDef) -> StoredObject
        ensures { result ≡ placed.View def }
    {
        StoredObject {
            kept: Kept::View { def },
        }
    }

    /// The foreign keys of a table; a view has none.
    pub fn foreign_keys(&self) -> &[ForeignKeyDef]
        ensures { result.now ≡ placed.foreign_keys_of self.now }
    {
        match &self.kept {
            Kept::Table { def, .. } => def.parts().foreign_keys.as_slice(),
            Kept::View { .. } => &[],
        }
    }

    /// A copy as an object without ids.
    pub fn object(&self) -> Result<Object, AllocError>
        ensures { IfOk result (λ object. sight object ≡ placed.object_seen (Some self.now)) }
    {
        match &self.kept {
            Kept::Table { space, def } => Ok(Object::Table {
                id: 0,
                schema: 0,
                space: *space,
                def: def.copy()?,
            }),
            Kept::View { def } => Ok(Object::View {
                id: 0,
                schema: 0,
                def: def.copy()?,
            }),
        }
    }
}
