// Refusals by tables and views, each with the arguments of its text (MySQL 8.0 Error Reference, 2).
ghost use Rattle.std.specs.Prelude.{◌≡◌, IfOk};
ghost use Rattle.rules_refusals.specs.Refusals.{bad_table, forbid_schema_change, no_such_table, nonuniq_table, table_exists, truncate_illegal_fk, wrong_object};

use crate::arguments::{one, three, two};
use dd_catalog::Stop;
use dd_errors::SqlError;
use dd_names::{Name, ObjName};
use std::alloc::{AllocError, Global};

/// 1050: a table or view of that name is there.
#[tactic(auto, unfolding(dd_errors::specs::Errors::form_of))]
pub fn table_exists(alloc: Global, name: &Name) -> Result<Stop, AllocError>
    ensures { IfOk result (λ stop. stop ≡ Stop.Refused (table_exists name.now)) }
{
    Ok(Stop::Refused(SqlError::of(1050, one(alloc, name.as_str())?)))
}

/// 1051: no tables have these names, which are joined by commas.
#[tactic(auto, unfolding(dd_errors::specs::Errors::form_of))]
pub fn bad_table(alloc: Global, names: &str) -> Result<Stop, AllocError>
    ensures { IfOk result (λ stop. stop ≡ Stop.Refused (bad_table names.now)) }
{
    Ok(Stop::Refused(SqlError::of(1051, one(alloc, names)?)))
}

/// 1066: the table is named twice.
#[tactic(auto, unfolding(dd_errors::specs::Errors::form_of))]
pub fn nonuniq_table(alloc: Global, name: &Name) -> Result<Stop, AllocError>
    ensures { IfOk result (λ stop. stop ≡ Stop.Refused (nonuniq_table name.now)) }
{
    Ok(Stop::Refused(SqlError::of(1066, one(alloc, name.as_str())?)))
}

/// 1146: there is no such table.
#[tactic(auto, unfolding(dd_errors::specs::Errors::form_of))]
pub fn no_such_table(alloc: Global, name: &ObjName) -> Result<Stop, AllocError>
    ensures { IfOk result (λ stop. stop ≡ Stop.Refused (no_such_table name.now)) }
{
    Ok(Stop::Refused(SqlError::of(1146, two(alloc, name.schema.as_str(), name.name.as_str())?)))
}

/// 1347: the object isn't what is wanted, `VIEW` or `BASE TABLE`.
#[tactic(auto, unfolding(dd_errors::specs::Errors::form_of))]
pub fn wrong_object(alloc: Global, name: &ObjName, wanted: &str) -> Result<Stop, AllocError>
    ensures { IfOk result (λ stop. stop ≡ Stop.Refused (wrong_object name.now wanted.now)) }
{
    Ok(Stop::Refused(SqlError::of(
        1347,
        three(alloc, name.schema.as_str(), name.name.as_str(), wanted)?,
    )))
}

/// 1450: a view would move to another schema.
#[tactic(auto, unfolding(dd_errors::specs::Errors::form_of))]
pub fn forbid_schema_change(alloc: Global, from: &Name, to: &Name) -> Result<Stop, AllocError>
    ensures { IfOk result (λ stop. stop ≡ Stop.Refused (forbid_schema_change from.now to.now)) }
{
    Ok(Stop::Refused(SqlError::of(1450, two(alloc, from.as_str(), to.as_str())?)))
}

/// 1701: a foreign key of a child refers to the table.
#[tactic(auto, unfolding(dd_errors::specs::Errors::form_of))]
pub fn truncate_illegal_fk(
    alloc: Global,
    child: &ObjName,
    constraint: &str,
) -> Result<Stop, AllocError>
    ensures { IfOk result (λ stop. stop ≡ Stop.Refused (truncate_illegal_fk child.now constraint.now)) }
{
    Ok(Stop::Refused(SqlError::of(
        1701,
        three(
            alloc,
            child.schema.as_str(),
            child.name.as_str(),
            constraint,
        )?,
    )))
}
