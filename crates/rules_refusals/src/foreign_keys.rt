// Refusals of foreign keys, each with the arguments of its text (MySQL 8.0 Error Reference, 2).
ghost use Rattle.std.specs.Prelude.{◌≡◌, IfOk};
ghost use Rattle.rules_refusals.specs.Refusals.{fk_cannot_drop_parent, fk_cannot_open_parent, fk_column_cannot_drop, fk_column_cannot_drop_child, fk_column_not_null, fk_dup_name, fk_incompatible_columns, fk_no_index_parent, wrong_fk_def};

use crate::arguments::{one, three, two};
use dd_catalog::Stop;
use dd_errors::SqlError;
use dd_names::Name;
use std::alloc::{AllocError, Global};

/// 1239: a foreign key has more or fewer columns than its parent columns.
#[tactic(auto, unfolding(dd_errors::specs::Errors::form_of))]
pub fn wrong_fk_def(alloc: Global, constraint: &str) -> Result<Stop, AllocError>
    ensures { IfOk result (λ stop. stop ≡ Stop.Refused (wrong_fk_def constraint.now)) }
{
    Ok(Stop::Refused(SqlError::of(1239, one(alloc, constraint)?)))
}

/// 1822: no index of the parent begins with the parent columns.
#[tactic(auto, unfolding(dd_errors::specs::Errors::form_of))]
pub fn fk_no_index_parent(
    alloc: Global,
    constraint: &Name,
    parent: &Name,
) -> Result<Stop, AllocError>
    ensures { IfOk result (λ stop. stop ≡ Stop.Refused (fk_no_index_parent constraint.now parent.now)) }
{
    Ok(Stop::Refused(SqlError::of(1822, two(alloc, constraint.as_str(), parent.as_str())?)))
}

/// 1824: the parent is no table that is there.
#[tactic(auto, unfolding(dd_errors::specs::Errors::form_of))]
pub fn fk_cannot_open_parent(alloc: Global, parent: &Name) -> Result<Stop, AllocError>
    ensures { IfOk result (λ stop. stop ≡ Stop.Refused (fk_cannot_open_parent parent.now)) }
{
    Ok(Stop::Refused(SqlError::of(1824, one(alloc, parent.as_str())?)))
}

/// 1826: a constraint of that name is there.
#[tactic(auto, unfolding(dd_errors::specs::Errors::form_of))]
pub fn fk_dup_name(alloc: Global, constraint: &Name) -> Result<Stop, AllocError>
    ensures { IfOk result (λ stop. stop ≡ Stop.Refused (fk_dup_name constraint.now)) }
{
    Ok(Stop::Refused(SqlError::of(1826, one(alloc, constraint.as_str())?)))
}

/// 1828: a foreign key of the table has the column.
#[tactic(auto, unfolding(dd_errors::specs::Errors::form_of))]
pub fn fk_column_cannot_drop(
    alloc: Global,
    column: &Name,
    constraint: &Name,
) -> Result<Stop, AllocError>
    ensures { IfOk result (λ stop. stop ≡ Stop.Refused (fk_column_cannot_drop column.now constraint.now)) }
{
    Ok(Stop::Refused(SqlError::of(1828, two(alloc, column.as_str(), constraint.as_str())?)))
}

/// 1829: a foreign key of a child refers to the column.
#[tactic(auto, unfolding(dd_errors::specs::Errors::form_of))]
pub fn fk_column_cannot_drop_child(
    alloc: Global,
    column: &Name,
    constraint: &Name,
    child: &Name,
) -> Result<Stop, AllocError>
    ensures { IfOk result (λ stop. stop ≡ Stop.Refused (fk_column_cannot_drop_child column.now constraint.now child.now)) }
{
    Ok(Stop::Refused(SqlError::of(
        1829,
        three(alloc, column.as_str(), constraint.as_str(), child.as_str())?,
    )))
}

/// 1830: SET NULL on a column that is NOT NULL.
#[tactic(auto, unfolding(dd_errors::specs::Errors::form_of))]
pub fn fk_column_not_null(
    alloc: Global,
    column: &Name,
    constraint: &Name,
) -> Result<Stop, AllocError>
    ensures { IfOk result (λ stop. stop ≡ Stop.Refused (fk_column_not_null column.now constraint.now)) }
{
    Ok(Stop::Refused(SqlError::of(1830, two(alloc, column.as_str(), constraint.as_str())?)))
}

/// 3730: a foreign key of a child refers to the table.
#[tactic(auto, unfolding(dd_errors::specs::Errors::form_of))]
pub fn fk_cannot_drop_parent(
    alloc: Global,
    table: &Name,
    constraint: &str,
    child: &Name,
) -> Result<Stop, AllocError>
    ensures { IfOk result (λ stop. stop ≡ Stop.Refused (fk_cannot_drop_parent table.now constraint.now child.now)) }
{
    Ok(Stop::Refused(SqlError::of(
        3730,
        three(alloc, table.as_str(), constraint, child.as_str())?,
    )))
}

/// 3780: a column and its parent column are of different kinds.
#[tactic(auto, unfolding(dd_errors::specs::Errors::form_of))]
pub fn fk_incompatible_columns(
    alloc: Global,
    column: &Name,
    parent_column: &Name,
    constraint: &Name,
) -> Result<Stop, AllocError>
    ensures { IfOk result (λ stop. stop ≡ Stop.Refused (fk_incompatible_columns column.now parent_column.now constraint.now)) }
{
    Ok(Stop::Refused(SqlError::of(
        3780,
        three(
            alloc,
            column.as_str(),
            parent_column.as_str(),
            constraint.as_str(),
        )?,
    )))
}
