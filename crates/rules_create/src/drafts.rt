// A table that is being made, with its keys so far.
ghost use Rattle.std.specs.Prelude.{◌≡◌, OnOk};
ghost use Rattle.dd_catalog.specs.WalkLaws.{Look};
ghost use Rattle.dd_catalog.specs.Walks.{run};
ghost use Rattle.dd_catalog.specs.Follow.{Follows};
ghost use Rattle.rules_elements.specs.Keys.{key_of};
ghost use Rattle.rules_create.specs.Tables.{with_index, of_columns};
ghost use Rattle.rules_create.specs.Drafts.{IsDraft};

use crate::keys::with_index;
use dd_catalog::Stop;
use dd_definitions::{ColumnDef, IndexDef, TableParts};
use dd_names::{List, ObjName};
use rules_elements::{TakenNames, check_key_among};
use sql_types::KeyWords;
use std::alloc::{AllocError, Global};

/// A table without its foreign keys, beside the names that its indexes have so far.
#[derive(Drop)]
pub(crate) struct Draft {
    pub(crate) parts: TableParts,
    pub(crate) names: TakenNames,
}

/// The table with its columns alone.
pub(crate) fn draft_of(alloc: Global, table: ObjName, columns: List<ColumnDef>) -> Draft
    ensures parts { result.parts ≡ of_columns table columns }
    ensures draft { IsDraft result }
{
    Draft {
        parts: of_columns(alloc, table, columns),
        names: TakenNames::new(alloc),
    }
}

fn of_columns(alloc: Global, table: ObjName, columns: List<ColumnDef>) -> TableParts
    ensures { result ≡ of_columns table columns }
{
    TableParts {
        name: table,
        columns,
        indexes: List::new(alloc),
        foreign_keys: List::new(alloc),
    }
}

/// The index of a key beside what the table has so far. It isn't added.
pub(crate) fn key_checked(
    alloc: Global,
    draft: &mut Draft,
    key: &KeyWords,
) -> Result<IndexDef, Stop>
    requires { IsDraft draft.old }
    ensures exact { (look : Look) → Follows (λ index. index) result (run look (key_of draft.old.parts key.now)) }
    ensures same { OnOk result (draft.new.parts ≡ draft.old.parts) }
    ensures draft { OnOk result (IsDraft draft.new) }
{
    check_key_among(alloc, &draft.parts, &mut draft.names, key)
}

/// Adds the index behind the others.
pub(crate) fn add_index(alloc: Global, draft: &mut Draft, index: IndexDef) -> Result<(), AllocError>
    requires { IsDraft draft.old }
    ensures parts { OnOk result (draft.new.parts ≡ with_index draft.old.parts index) }
    ensures draft { OnOk result (IsDraft draft.new) }
{
    draft.names.add(alloc, &index.name)?;
    with_index(alloc, &mut draft.parts, index)?;
    Ok(())
}
