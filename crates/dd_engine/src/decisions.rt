// What a statement comes to over a whole catalog.
ghost use Rattle.std.specs.Prelude.{◌≡◌, ◌≤◌, ◌+◌, IfOk, OnOk, None, Some, true};
ghost use Rattle.dd_catalog.specs.Catalog.{sight_of};
ghost use Rattle.dd_catalog.specs.Sights.{Sight, sight};
ghost use Rattle.dd_catalog.specs.WalkLaws.{Extends, IsOf};
ghost use Rattle.dd_names.specs.declared.object_name.ObjectKey.{ObjectKey as Key};
ghost use Rattle.rules_decide.specs.Outcome.{DecidesIf, is_decided, outcome, outcome_over};
ghost use Rattle.dd_engine.specs.Known.{IsKnown, Turned, looks_of, seen_in};

use crate::foresee::{Bringing, add_brought, bringing_of, first_keys};
use dd_catalog::{Known, Lookup, Object, Stop};
use dd_names::{List, ObjectKey, TryCopy};
use plain_catalog::{Part, PlainCatalog};
use rules_decide::decide;
use rules_outcome::Decided;
use sql_ast::{SessionState, Statement};
use std::alloc::{AllocError, Global};

/// What a statement came to over a whole catalog.
#[derive(Drop)]
pub struct Decision {
    /// What is decided of it, or why it isn't done.
    pub outcome: Result<Decided, Stop>,
    /// How often its decision began: once, and once more for each key that it needed and that was not foreseen.
    pub begun: u32,
}

/// What the statement comes to over the catalog. It looks at the keys that the text names and at what these bring, round by
/// round, and then at each key that is needed besides, for which the decision begins again.
pub fn decided_over(
    alloc: Global,
    catalog: &PlainCatalog,
    session: &SessionState,
    statement: &Statement,
) -> Decision
    requires { is_decided statement.now ≡ true }
    ensures outcome { DecidesIf result.outcome (outcome_over catalog.now session.now statement.now) }
    ensures begun { result.begun ≤ 1 + looks_of catalog.now (outcome session.now statement.now) }
{
    match foreseen(alloc, catalog, session, statement) {
        Ok(part) => decided_from(alloc, catalog, session, statement, part),
        Err(AllocError) => Decision {
            outcome: Err(Stop::Memory),
            begun: 0,
        },
    }
}

// Begins with this part of the catalog.
fn decided_from(
    alloc: Global,
    catalog: &PlainCatalog,
    session: &SessionState,
    statement: &Statement,
    mut part: Part,
) -> Decision
    requires decided { is_decided statement.now ≡ true }
    requires known { IsKnown catalog.now part }
    ensures outcome { DecidesIf result.outcome (outcome_over catalog.now session.now statement.now) }
    ensures begun { result.begun ≤ 1 + looks_of catalog.now (outcome session.now statement.now) }
{
    let mut begun = 0u32;
    'turns: loop {
        begun = begun.saturating_add(1);
        if let Some(outcome) = turn(alloc, catalog, session, statement, &mut part) {
            return Decision { outcome, begun };
        }
    }
}

// What the statement looks at by its text, and what this brings with it.
fn foreseen(
    alloc: Global,
    catalog: &PlainCatalog,
    session: &SessionState,
    statement: &Statement,
) -> Result<Part, AllocError>
    ensures { IfOk result (λ part. IsKnown catalog.now part) }
{
    let bringing = bringing_of(statement);
    let mut part = Part::new(alloc);
    let mut keys = first_keys(alloc, session, statement)?;
    'rounds: for _round in 0..4 {
        keys = learn_all(alloc, catalog, bringing, keys, &mut part)?;
    }
    Ok(part)
}

// Makes it known what stands at the keys. What they bring with them is the next round.
fn learn_all(
    alloc: Global,
    catalog: &PlainCatalog,
    bringing: Bringing,
    keys: List<ObjectKey>,
    part: &mut Part,
) -> Result<List<ObjectKey>, AllocError>
    requires known { IsKnown catalog.now part.old }
    ensures { OnOk result (IsKnown catalog.now part.new) }
{
    let mut next = List::new(alloc);
    'keys: for key in keys.as_slice() {
        learn_once(alloc, catalog, bringing, key, part, &mut next)?;
    }
    Ok(next)
}

fn learn_once(
    alloc: Global,
    catalog: &PlainCatalog,
    bringing: Bringing,
    key: &ObjectKey,
    part: &mut Part,
    next: &mut List<ObjectKey>,
) -> Result<(), AllocError>
    ensures { IsKnown catalog.now part.old → OnOk result (IsKnown catalog.now part.new) }
{
    if is_known(part, key) {
        return Ok(());
    }
    learn(alloc, catalog, key.copy()?, part)?;
    note(bringing, key, part, next)
}

// Notes the keys that this one brings with it.
fn note(
    bringing: Bringing,
    key: &ObjectKey,
    part: &Part,
    next: &mut List<ObjectKey>,
) -> Result<(), AllocError> {
    match part.look(key) {
        Known::Here(object) => add_brought(bringing, key, object, next),
        Known::Unknown => Ok(()),
    }
}

fn is_known(part: &Part, key: &ObjectKey) -> bool {
    match part.look(key) {
        Known::Here(_) => true,
        Known::Unknown => false,
    }
}

// Decides the statement over what is known, or makes one more key known that it needs.
fn turn(
    alloc: Global,
    catalog: &PlainCatalog,
    session: &SessionState,
    statement: &Statement,
    part: &mut Part,
) -> Option<Result<Decided, Stop>>
    requires decided { is_decided statement.now ≡ true }
    requires known { IsKnown catalog.now part.old }
    ensures { Turned catalog.now (outcome session.now statement.now) part.old part.new result }
{
    match decide(alloc, session, statement, part) {
        Ok(decided) => Some(Ok(decided)),
        Err(Stop::Need(key)) => match learn(alloc, catalog, key, part) {
            Ok(()) => None,
            Err(AllocError) => Some(Err(Stop::Memory)),
        },
        Err(Stop::Refused(error)) => Some(Err(Stop::Refused(error))),
        Err(Stop::Memory) => Some(Err(Stop::Memory)),
    }
}

// Makes it known what stands at the key.
fn learn(
    alloc: Global,
    catalog: &PlainCatalog,
    key: ObjectKey,
    part: &mut Part,
) -> Result<(), AllocError>
    ensures here { OnOk result (seen_in part.new key ≡ Some (sight_of catalog.now key)) }
    ensures more { OnOk result (seen_in part.old key ≡ None → Extends (seen_in part.old) (seen_in part.new)) }
    ensures known { OnOk result (IsKnown catalog.now part.old → IsKnown catalog.now part.new) }
{
    let object = catalog.at(alloc, &key);
    add_standing(part, key, object)
}

// Makes it known that this stands at the key, where there was memory for it.
fn add_standing(
    part: &mut Part,
    key: ObjectKey,
    object: Result<Object, AllocError>,
) -> Result<(), AllocError>
    ensures here { (full : Key → Sight) → IfOk object (λ o. sight o ≡ full key) → OnOk result (seen_in part.new key ≡ Some (full key)) }
    ensures more { OnOk result (seen_in part.old key ≡ None → Extends (seen_in part.old) (seen_in part.new)) }
    ensures known { (full : Key → Sight) → IfOk object (λ o. sight o ≡ full key) → OnOk result (IsOf full (seen_in part.old) → IsOf full (seen_in part.new)) }
{
    match object {
        Ok(object) => part.add(key, object),
        Err(error) => Err(error),
    }
}
