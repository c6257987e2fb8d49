// The locks of a statement, as far as they are known.
ghost use Rattle.std.specs.Prelude.{◌≡◌, ◌++◌, [], IfOk, List as Listed, OnOk, map};
ghost use Rattle.std.specs.List.{flat_map};
ghost use Rattle.rules_locks.specs.Claims.{with_claims};
ghost use Rattle.rules_locks.specs.Steps.{Step};
ghost use Rattle.rules_footprint.specs.Coded.{claims_of, requests_of};
ghost use Rattle.rules_footprint.specs.Footprints.{asked_claims, IsFitting};
ghost use Rattle.rules_intents.specs.Intents.{intent};
ghost use Rattle.rules_footprint.specs.Plans.{AreTold, decided_claims};
ghost use Rattle.rules_footprint.specs.Steps.{step_of};

use crate::asked::Requests;
use crate::claims::Claim;
use crate::looks::{add_front, add_looks};
use crate::plans::add_choice;
use crate::texts::add_text;
use dd_catalog::{Object, Stop};
use dd_names::{List, ObjectKey};
use rules_intents::grip_of;
use rules_outcome::Decided;
use sql_ast::{SessionState, Statement};
use std::alloc::{AllocError, Global};

/// What a client was told of a key that its statement needed.
#[derive(Drop)]
pub struct Told<'a> {
    pub key: &'a ObjectKey,
    /// What stands there; `Object::Absent` where nothing does.
    pub object: &'a Object,
}

/// The locks that a statement asks for whose client was told this, in the order in which the statement needed it, and that was
/// then decided so: those that its text says, those of each key that was told, and those of what is changed, or of the key
/// that is needed next.
pub fn footprint(
    alloc: Global,
    session: &SessionState,
    statement: &Statement,
    told: &[Told<'_>],
    decided: &Result<Decided, Stop>,
) -> Result<Requests, AllocError>
    requires before { AreTold told.now decided.now }
    ensures { IfOk result (λ asked. requests_of asked ≡ with_claims [] (asked_claims (intent session.now statement.now) (map step_of told.now) decided.now)) }
{
    let mut claims = List::new(alloc);
    add_text(&mut claims, &session.current, statement)?;
    add_looks(&mut claims, grip_of(statement), told)?;
    add_end(&mut claims, decided)?;
    let mut asked = Requests::new(alloc);
    asked.add_claims(claims.as_slice())?;
    Ok(asked)
}

fn add_end(claims: &mut List<Claim>, decided: &Result<Decided, Stop>) -> Result<(), AllocError>
    ensures { (steps : Listed Step) → IsFitting steps decided.now → OnOk result (claims_of claims.new ≡ claims_of claims.old ++ decided_claims steps decided.now) }
{
    match decided {
        Ok(decided) => add_choice(claims, decided),
        Err(Stop::Need(key)) => add_front(claims, key),
        Err(_) => Ok(()),
    }
}
