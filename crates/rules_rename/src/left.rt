ghost use Rattle.std.specs.Prelude.{◌≡◌};
ghost use Rattle.dd_catalog.specs.declared.object.Object.TheVariants as objects;
ghost use Rattle.dd_catalog.specs.Sights.{sight};
ghost use Rattle.rules_rename.specs.Overlays.{after_seen};
ghost use Rattle.rules_rename.specs.Left.{after_left, kept, keys_left};

use dd_catalog::Object;
use dd_definitions::{ForeignKeyDef, TableDef, ViewDef};
use rules_outcome::After;
use std::marker::Model;

/// What is left at the name of an object: a table, a view, or nothing. Contracts see it as an object.
#[derive(Drop)]
pub(crate) struct Left {
    object: Object,
}

impl Model for Left {
    ghost use Rattle.std.specs.Prelude.{IsTrue};
    ghost use Rattle.dd_catalog.specs.declared.object.Object.{Object};
    ghost use Rattle.rules_rename.specs.Left.{is_left};

    ghost Value = { Object };

    ghost view = { λ l. l.object };

    ghost invariant = { λ l. IsTrue (is_left l.object) };
}

impl Left {
    pub(crate) fn nothing() -> Left
        ensures { result ≡ objects.Absent }
    {
        Left {
            object: Object::Absent,
        }
    }

    pub(crate) fn table(id: u32, schema: u32, space: u32, def: TableDef) -> Left
        ensures { result ≡ objects.Table id schema space def }
    {
        Left {
            object: Object::Table {
                id,
                schema,
                space,
                def,
            },
        }
    }

    pub(crate) fn view(id: u32, schema: u32, def: ViewDef) -> Left
        ensures { result ≡ objects.View id schema def }
    {
        Left {
            object: Object::View { id, schema, def },
        }
    }

    pub(crate) fn object(&self) -> &Object
        ensures value { result.now ≡ self.now }
        ensures seen { sight self.now ≡ after_seen (after_left self.now) }
    {
        &self.object
    }

    /// The foreign keys of a table; anything else has none.
    pub(crate) fn foreign_keys(&self) -> &[ForeignKeyDef]
        ensures { result.now ≡ keys_left self.now }
    {
        match &self.object {
            Object::Table { def, .. } => def.parts().foreign_keys.as_slice(),
            _ => &[],
        }
    }

    pub(crate) fn into_after(self) -> After
        ensures { result ≡ kept self }
    {
        let Left { object } = self;
        match object {
            Object::Table {
                id,
                schema,
                space,
                def,
            } => After::KeptTable {
                id,
                schema,
                space,
                def,
            },
            Object::View { id, schema, def } => After::KeptView { id, schema, def },
            _ => After::Gone,
        }
    }
}
