// Refusals of columns, each with the arguments of its text (MySQL 8.0 Error Reference, 2).
ghost use Rattle.std.specs.Prelude.{◌≡◌, IfOk};
ghost use Rattle.rules_refusals.specs.Refusals.{bad_field_error, cant_drop_field_or_key, cant_remove_all_fields, dup_fieldname, invalid_default, table_must_have_columns, too_big_fieldlength, too_many_fields, wrong_auto_key, wrong_field_spec};

use crate::arguments::{one, two};
use dd_catalog::Stop;
use dd_errors::SqlError;
use dd_names::{List, Name};
use std::alloc::{AllocError, Global};

/// 1054: the place that is named has no such column.
#[tactic(auto, unfolding(dd_errors::specs::Errors::form_of))]
pub fn bad_field_error(alloc: Global, column: &str, place: &str) -> Result<Stop, AllocError>
    ensures { IfOk result (λ stop. stop ≡ Stop.Refused (bad_field_error column.now place.now)) }
{
    Ok(Stop::Refused(SqlError::of(1054, two(alloc, column, place)?)))
}

/// 1060: the column is there.
#[tactic(auto, unfolding(dd_errors::specs::Errors::form_of))]
pub fn dup_fieldname(alloc: Global, name: &Name) -> Result<Stop, AllocError>
    ensures { IfOk result (λ stop. stop ≡ Stop.Refused (dup_fieldname name.now)) }
{
    Ok(Stop::Refused(SqlError::of(1060, one(alloc, name.as_str())?)))
}

/// 1063: AUTO_INCREMENT on a type that isn't integer.
#[tactic(auto, unfolding(dd_errors::specs::Errors::form_of))]
pub fn wrong_field_spec(alloc: Global, column: &Name) -> Result<Stop, AllocError>
    ensures { IfOk result (λ stop. stop ≡ Stop.Refused (wrong_field_spec column.now)) }
{
    Ok(Stop::Refused(SqlError::of(1063, one(alloc, column.as_str())?)))
}

/// 1067: the default doesn't fit its column.
#[tactic(auto, unfolding(dd_errors::specs::Errors::form_of))]
pub fn invalid_default(alloc: Global, column: &Name) -> Result<Stop, AllocError>
    ensures { IfOk result (λ stop. stop ≡ Stop.Refused (invalid_default column.now)) }
{
    Ok(Stop::Refused(SqlError::of(1067, one(alloc, column.as_str())?)))
}

/// 1074: a length is above the greatest, which is written in decimal.
#[tactic(auto, unfolding(dd_errors::specs::Errors::form_of))]
pub fn too_big_fieldlength(alloc: Global, column: &Name, most: &str) -> Result<Stop, AllocError>
    ensures { IfOk result (λ stop. stop ≡ Stop.Refused (too_big_fieldlength column.now most.now)) }
{
    Ok(Stop::Refused(SqlError::of(1074, two(alloc, column.as_str(), most)?)))
}

/// 1075: a table has a second AUTO_INCREMENT column, or one that no index begins with.
#[tactic(auto, unfolding(dd_errors::specs::Errors::form_of))]
pub fn wrong_auto_key(alloc: Global) -> Stop
    ensures { result ≡ Stop.Refused wrong_auto_key }
{
    Stop::Refused(SqlError::of(1075, List::new(alloc)))
}

/// 1090: the only column would go.
#[tactic(auto, unfolding(dd_errors::specs::Errors::form_of))]
pub fn cant_remove_all_fields(alloc: Global) -> Stop
    ensures { result ≡ Stop.Refused cant_remove_all_fields }
{
    Stop::Refused(SqlError::of(1090, List::new(alloc)))
}

/// 1091: no column, index or constraint of that name is there.
#[tactic(auto, unfolding(dd_errors::specs::Errors::form_of))]
pub fn cant_drop_field_or_key(alloc: Global, name: &Name) -> Result<Stop, AllocError>
    ensures { IfOk result (λ stop. stop ≡ Stop.Refused (cant_drop_field_or_key name.now)) }
{
    Ok(Stop::Refused(SqlError::of(1091, one(alloc, name.as_str())?)))
}

/// 1113: a table has no columns.
#[tactic(auto, unfolding(dd_errors::specs::Errors::form_of))]
pub fn table_must_have_columns(alloc: Global) -> Stop
    ensures { result ≡ Stop.Refused table_must_have_columns }
{
    Stop::Refused(SqlError::of(1113, List::new(alloc)))
}

/// 1117: a table has too many columns.
#[tactic(auto, unfolding(dd_errors::specs::Errors::form_of))]
pub fn too_many_fields(alloc: Global) -> Stop
    ensures { result ≡ Stop.Refused too_many_fields }
{
    Stop::Refused(SqlError::of(1117, List::new(alloc)))
}
