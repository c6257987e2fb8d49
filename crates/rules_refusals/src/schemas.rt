// Refusals by schemas, each with the arguments of its text (MySQL 8.0 Error Reference, 2).
ghost use Rattle.std.specs.Prelude.{◌≡◌, IfOk};
ghost use Rattle.rules_refusals.specs.Refusals.{bad_db, db_create_exists, db_drop_exists, no_db};

use crate::arguments::one;
use dd_catalog::Stop;
use dd_errors::SqlError;
use dd_names::{List, Name};
use std::alloc::{AllocError, Global};

/// 1007: a schema of that name is there.
#[tactic(auto, unfolding(dd_errors::specs::Errors::form_of))]
pub fn db_create_exists(alloc: Global, schema: &Name) -> Result<Stop, AllocError>
    ensures { IfOk result (λ stop. stop ≡ Stop.Refused (db_create_exists schema.now)) }
{
    Ok(Stop::Refused(SqlError::of(1007, one(alloc, schema.as_str())?)))
}

/// 1008: the schema to be dropped isn't there.
#[tactic(auto, unfolding(dd_errors::specs::Errors::form_of))]
pub fn db_drop_exists(alloc: Global, schema: &Name) -> Result<Stop, AllocError>
    ensures { IfOk result (λ stop. stop ≡ Stop.Refused (db_drop_exists schema.now)) }
{
    Ok(Stop::Refused(SqlError::of(1008, one(alloc, schema.as_str())?)))
}

/// 1046: a name has no schema, and there is no current one.
#[tactic(auto, unfolding(dd_errors::specs::Errors::form_of))]
pub fn no_db(alloc: Global) -> Stop
    ensures { result ≡ Stop.Refused no_db }
{
    Stop::Refused(SqlError::of(1046, List::new(alloc)))
}

/// 1049: the schema isn't there.
#[tactic(auto, unfolding(dd_errors::specs::Errors::form_of))]
pub fn bad_db(alloc: Global, schema: &Name) -> Result<Stop, AllocError>
    ensures { IfOk result (λ stop. stop ≡ Stop.Refused (bad_db schema.now)) }
{
    Ok(Stop::Refused(SqlError::of(1049, one(alloc, schema.as_str())?)))
}
