ghost use Rattle.std.specs.Prelude.{◌≡◌};
ghost use Rattle.dd_definitions.specs.WellFormed.{is_well_formed};

use crate::columns::{ColumnDef, are_columns_formed};
use crate::foreign_keys::{ForeignKeyDef, are_foreign_keys_formed};
use crate::indexes::{IndexDef, are_autos_formed, are_indexes_formed};
use dd_names::{List, ObjName, TryCopy, both};
use std::alloc::AllocError;

/// The parts of a table, which needn't fit together.
#[derive(Drop)]
pub struct TableParts {
    pub name: ObjName,
    pub columns: List<ColumnDef>,
    pub indexes: List<IndexDef>,
    pub foreign_keys: List<ForeignKeyDef>,
}

impl TryCopy for TableParts {
    fn copy(&self) -> Result<TableParts, AllocError> {
        let front = both(self.name.copy(), self.columns.copy());
        let back = both(self.indexes.copy(), self.foreign_keys.copy());
        match both(front, back) {
            Ok(((name, columns), (indexes, foreign_keys))) => Ok(TableParts {
                name,
                columns,
                indexes,
                foreign_keys,
            }),
            Err(error) => Err(error),
        }
    }
}

/// Whether the parts fit together.
#[tactic(auto, unfolding(crate::specs::WellFormed::is_well_formed))]
pub(crate) fn is_well_formed(parts: &TableParts) -> bool
    ensures { result ≡ is_well_formed parts.now }
{
    let columns = parts.columns.as_slice();
    let indexes = parts.indexes.as_slice();
    are_columns_formed(columns)
        && are_indexes_formed(columns, indexes)
        && are_autos_formed(columns, indexes)
        && are_foreign_keys_formed(columns, indexes, parts.foreign_keys.as_slice())
}
