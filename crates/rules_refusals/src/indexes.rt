// Refusals of indexes, each with the arguments of its text (MySQL 8.0 Error Reference, 2).
ghost use Rattle.std.specs.Prelude.{◌≡◌, IfOk};
ghost use Rattle.rules_refusals.specs.Refusals.{drop_index_fk, dup_keyname, key_column_does_not_exist, multiple_pri_key, primary_cant_have_null, too_long_ident, too_many_key_parts, too_many_keys, wrong_name_for_index};

use crate::arguments::one;
use dd_catalog::Stop;
use dd_errors::SqlError;
use dd_names::{List, Name};
use std::alloc::{AllocError, Global};

/// 1059: a name has more than 64 characters.
#[tactic(auto, unfolding(dd_errors::specs::Errors::form_of))]
pub fn too_long_ident(alloc: Global, name: &str) -> Result<Stop, AllocError>
    ensures { IfOk result (λ stop. stop ≡ Stop.Refused (too_long_ident name.now)) }
{
    Ok(Stop::Refused(SqlError::of(1059, one(alloc, name)?)))
}

/// 1061: an index of that name is there.
#[tactic(auto, unfolding(dd_errors::specs::Errors::form_of))]
pub fn dup_keyname(alloc: Global, name: &Name) -> Result<Stop, AllocError>
    ensures { IfOk result (λ stop. stop ≡ Stop.Refused (dup_keyname name.now)) }
{
    Ok(Stop::Refused(SqlError::of(1061, one(alloc, name.as_str())?)))
}

/// 1068: a second primary key.
#[tactic(auto, unfolding(dd_errors::specs::Errors::form_of))]
pub fn multiple_pri_key(alloc: Global) -> Stop
    ensures { result ≡ Stop.Refused multiple_pri_key }
{
    Stop::Refused(SqlError::of(1068, List::new(alloc)))
}

/// 1069: a table has too many indexes.
#[tactic(auto, unfolding(dd_errors::specs::Errors::form_of))]
pub fn too_many_keys(alloc: Global) -> Stop
    ensures { result ≡ Stop.Refused too_many_keys }
{
    Stop::Refused(SqlError::of(1069, List::new(alloc)))
}

/// 1070: a key has more than 16 columns.
#[tactic(auto, unfolding(dd_errors::specs::Errors::form_of))]
pub fn too_many_key_parts(alloc: Global) -> Stop
    ensures { result ≡ Stop.Refused too_many_key_parts }
{
    Stop::Refused(SqlError::of(1070, List::new(alloc)))
}

/// 1072: a column of a key isn't in the table.
#[tactic(auto, unfolding(dd_errors::specs::Errors::form_of))]
pub fn key_column_does_not_exist(alloc: Global, name: &str) -> Result<Stop, AllocError>
    ensures { IfOk result (λ stop. stop ≡ Stop.Refused (key_column_does_not_exist name.now)) }
{
    Ok(Stop::Refused(SqlError::of(1072, one(alloc, name)?)))
}

/// 1171: a column of a primary key may be NULL.
#[tactic(auto, unfolding(dd_errors::specs::Errors::form_of))]
pub fn primary_cant_have_null(alloc: Global) -> Stop
    ensures { result ≡ Stop.Refused primary_cant_have_null }
{
    Stop::Refused(SqlError::of(1171, List::new(alloc)))
}

/// 1280: an index that isn't primary would be named `PRIMARY`.
#[tactic(auto, unfolding(dd_errors::specs::Errors::form_of))]
pub fn wrong_name_for_index(alloc: Global, name: &Name) -> Result<Stop, AllocError>
    ensures { IfOk result (λ stop. stop ≡ Stop.Refused (wrong_name_for_index name.now)) }
{
    Ok(Stop::Refused(SqlError::of(1280, one(alloc, name.as_str())?)))
}

/// 1553: a foreign key needs the index.
#[tactic(auto, unfolding(dd_errors::specs::Errors::form_of))]
pub fn drop_index_fk(alloc: Global, index: &Name) -> Result<Stop, AllocError>
    ensures { IfOk result (λ stop. stop ≡ Stop.Refused (drop_index_fk index.now)) }
{
    Ok(Stop::Refused(SqlError::of(1553, one(alloc, index.as_str())?)))
}
