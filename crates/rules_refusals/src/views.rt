// Refusals of queries and views, each with the arguments of its text (MySQL 8.0 Error Reference, 2).
ghost use Rattle.std.specs.Prelude.{◌≡◌, IfOk};
ghost use Rattle.rules_refusals.specs.Refusals.{non_uniq_error, unknown_table, view_invalid, view_wrong_list};

use crate::arguments::{one, two};
use dd_catalog::Stop;
use dd_errors::SqlError;
use dd_names::{List, Name, ObjName};
use std::alloc::{AllocError, Global};

/// 1052: more than one source has the column.
#[tactic(auto, unfolding(dd_errors::specs::Errors::form_of))]
pub fn non_uniq_error(alloc: Global, column: &str) -> Result<Stop, AllocError>
    ensures { IfOk result (λ stop. stop ≡ Stop.Refused (non_uniq_error column.now)) }
{
    Ok(Stop::Refused(SqlError::of(1052, one(alloc, column)?)))
}

/// 1109: the information schema has no such table.
#[tactic(auto, unfolding(dd_errors::specs::Errors::form_of))]
pub fn unknown_table(alloc: Global, name: &Name) -> Result<Stop, AllocError>
    ensures { IfOk result (λ stop. stop ≡ Stop.Refused (unknown_table name.now)) }
{
    Ok(Stop::Refused(SqlError::of(1109, one(alloc, name.as_str())?)))
}

/// 1353: the list of a view's columns is of another length than its query's.
#[tactic(auto, unfolding(dd_errors::specs::Errors::form_of))]
pub fn view_wrong_list(alloc: Global) -> Stop
    ensures { result ≡ Stop.Refused view_wrong_list }
{
    Stop::Refused(SqlError::of(1353, List::new(alloc)))
}

/// 1356: the view names what isn't there any more.
#[tactic(auto, unfolding(dd_errors::specs::Errors::form_of))]
pub fn view_invalid(alloc: Global, name: &ObjName) -> Result<Stop, AllocError>
    ensures { IfOk result (λ stop. stop ≡ Stop.Refused (view_invalid name.now)) }
{
    Ok(Stop::Refused(SqlError::of(1356, two(alloc, name.schema.as_str(), name.name.as_str())?)))
}
