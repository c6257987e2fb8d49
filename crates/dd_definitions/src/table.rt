ghost use Rattle.std.specs.Prelude.{◌≡◌, MatchResult, true, false};
ghost use Rattle.dd_definitions.specs.WellFormed.{is_well_formed};

use crate::parts::{TableParts, is_well_formed};
use dd_names::TryCopy;
use std::alloc::AllocError;
use std::marker::Model;

/// A table whose parts fit together. Contracts see its parts.
#[derive(Drop)]
pub struct TableDef {
    parts: TableParts,
}

impl Model for TableDef {
    ghost use Rattle.std.specs.Prelude.{IsTrue};
    ghost use Rattle.dd_definitions.specs.declared.parts.TableParts.{TableParts};
    ghost use Rattle.dd_definitions.specs.WellFormed.{is_well_formed};

    ghost Value = { TableParts };

    ghost view = { λ t. t.parts };

    ghost invariant = { λ t. IsTrue (is_well_formed t.parts) };
}

impl TableDef {
    /// The table of these parts, or the parts where they don't fit together. It takes no memory.
    pub fn of(parts: TableParts) -> Result<TableDef, TableParts>
        ensures { MatchResult result
            (λ table. (table ≡ parts) × (is_well_formed parts ≡ true))
            (λ back. (back ≡ parts) × (is_well_formed parts ≡ false)) }
    {
        if is_well_formed(&parts) {
            Ok(TableDef { parts })
        } else {
            Err(parts)
        }
    }

    /// The table's parts, which fit together.
    pub fn parts(&self) -> &TableParts
        ensures { result.now ≡ self.now }
    {
        &self.parts
    }

    /// The parts by themselves. It takes no memory.
    pub fn into_parts(self) -> TableParts
        ensures { result ≡ self }
    {
        let TableDef { parts } = self;
        parts
    }
}

impl TryCopy for TableDef {
    fn copy(&self) -> Result<TableDef, AllocError> {
        Ok(TableDef {
            parts: self.parts.copy()?,
        })
    }
}
