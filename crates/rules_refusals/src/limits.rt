// Refusals by the limits of this dictionary, each with the arguments of its text (MySQL 8.0 Error Reference, 2).
ghost use Rattle.std.specs.Prelude.{◌≡◌, [], ◌∷◌, IfOk};
ghost use Rattle.rules_refusals.specs.Refusals.{error_with, views_too_deep};

use crate::arguments::one;
use dd_catalog::Stop;
use dd_errors::SqlError;
use dd_names::List;
use std::alloc::{AllocError, Global};

/// 9001: more than the limit, which is written in decimal.
#[tactic(auto, unfolding(dd_errors::specs::Errors::form_of))]
pub fn beyond_limit(alloc: Global, limit: &str) -> Result<Stop, AllocError>
    ensures { IfOk result (λ stop. stop ≡ Stop.Refused (error_with 9001 (limit.now ∷ []))) }
{
    Ok(Stop::Refused(SqlError::of(9001, one(alloc, limit)?)))
}

/// 9003: more than 32 views, each on the next.
#[tactic(auto, unfolding(dd_errors::specs::Errors::form_of))]
pub fn views_too_deep(alloc: Global) -> Stop
    ensures { result ≡ Stop.Refused views_too_deep }
{
    Stop::Refused(SqlError::of(9003, List::new(alloc)))
}
