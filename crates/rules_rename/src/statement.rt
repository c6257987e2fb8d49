// RENAME TABLE (MySQL 8.0 Reference Manual, 13.1.36).
ghost use Rattle.std.specs.Prelude.{◌≡◌, true, is_some, IfOk, IsTrue, Option, length, map, nat_lt};
ghost use Rattle.dd_names.specs.declared.object_name.ObjectKey.TheVariants as keys;
ghost use Rattle.dd_catalog.specs.Walks.{run, each, every, refuse_if};
ghost use Rattle.dd_catalog.specs.WalkLaws.{Look};
ghost use Rattle.dd_catalog.specs.Follow.{Follows, sights};
ghost use Rattle.rules_outcome.specs.Decided.{Decides, there, AreBefore, HaveIds};
ghost use Rattle.rules_refusals.specs.Refusals.{beyond_limit};
ghost use Rattle.rules_rename.specs.Renames.{named_pair, schemas_there, rename};
ghost use Rattle.rules_rename.specs.Puts.{are_in_order, IsKnown, AreKnown};
ghost use Rattle.rules_rename.specs.Pairs.{edit_of, before_at};

use crate::all_pairs::all_pairs;
use crate::left::Left;
use crate::overlay::Overlay;
use dd_catalog::{Lookup, Object, Stop, object_at};
use dd_names::{List, Name, ObjName, ObjectKey, TryCopy};
use rules_named::{resolved, schema_there};
use rules_outcome::{Decided, Edit, Edits};
use sql_ast::{RenamePair, SessionState};
use std::alloc::{AllocError, Global};

/// What RENAME TABLE comes to: pair by pair the object has its new name, its constraints and its children follow, and a pair
/// sees what those before it have left.
pub fn rename<L: Lookup>(
    alloc: Global,
    session: &SessionState,
    pairs: &[RenamePair],
    look: &L,
) -> Result<Decided, Stop>
    ensures exact { Decides result (run (sights (L.known look.now)) (rename session.now pairs.now)) }
    ensures before { IfOk result (λ d. AreBefore (L.known look.now) d) }
    ensures ids { IfOk result (λ d. HaveIds (L.known look.now) d) }
{
    let named = named_pairs(alloc, &session.current, pairs)?;
    all_schemas_there(alloc, named.as_slice(), look)?;
    allow_count(alloc, named.len())?;
    let renaming = all_pairs(alloc, named.as_slice(), look)?;
    allow_count(alloc, renaming.children.len())?;
    Ok(Decided::Edits(Edits {
        puts: edits_of(alloc, renaming.overlay, look)?,
        session: session.copy()?,
    }))
}

fn named_pairs(
    alloc: Global,
    current: &Option<Name>,
    pairs: &[RenamePair],
) -> Result<List<(ObjName, ObjName)>, Stop>
    ensures { (look : Look) → Follows (λ named. named) result (run look (each (named_pair current.now) pairs.now)) }
{
    let mut named = List::new(alloc);
    'pairs: for pair in pairs {
        named.push(named_pair(alloc, current, pair)?)?;
    }
    Ok(named)
}

fn named_pair(
    alloc: Global,
    current: &Option<Name>,
    pair: &RenamePair,
) -> Result<(ObjName, ObjName), Stop>
    ensures { (look : Look) → Follows (λ named. named) result (run look (named_pair current.now pair.now)) }
{
    let from = resolved(alloc, current, &pair.from)?;
    let to = resolved(alloc, current, &pair.to)?;
    Ok((from, to))
}

fn all_schemas_there<L: Lookup>(
    alloc: Global,
    pairs: &[(ObjName, ObjName)],
    look: &L,
) -> Result<(), Stop>
    ensures { Follows (λ _. tt) result (run (sights (L.known look.now)) (every schemas_there pairs.now)) }
{
    'pairs: for pair in pairs {
        schemas_there(alloc, pair, look)?;
    }
    Ok(())
}

#[tactic(auto, using(dd_catalog::specs::WalkLaws::run_bind), unfolding(crate::specs::Renames::schemas_there))]
fn schemas_there<L: Lookup>(alloc: Global, pair: &(ObjName, ObjName), look: &L) -> Result<(), Stop>
    ensures { Follows (λ _. tt) result (run (sights (L.known look.now)) (schemas_there pair.now)) }
{
    schema_there(alloc, &pair.0.schema, look)?;
    schema_there(alloc, &pair.1.schema, look)?;
    Ok(())
}

/// More than 4,096 pairs or children: 9001.
fn allow_count(alloc: Global, count: usize) -> Result<(), Stop>
    ensures { (look : Look) → Follows (λ _. tt) result (run look (refuse_if (nat_lt 4096 count) (beyond_limit "4096"))) }
{
    if count > 4096 {
        return Err(rules_refusals::beyond_limit(alloc, "4096")?);
    }
    Ok(())
}

fn edits_of<L: Lookup>(alloc: Global, overlay: Overlay, look: &L) -> Result<List<Edit>, AllocError>
    ensures edits { IfOk result (λ edits. edits ≡ map (edit_of (L.known look.now)) overlay) }
    ensures known { IfOk result (λ _. AreKnown (L.known look.now) overlay) }
    ensures in_order { IsTrue (are_in_order overlay) }
{
    let mut edits = List::new(alloc);
    let mut rest = overlay.into_vec()?;
    rest.reverse();
    'rest: while let Some((name, after)) = rest.pop() {
        edits.push(edit_of(name, after, look)?)?;
    }
    Ok(edits)
}

fn edit_of<L: Lookup>(name: ObjName, after: Left, look: &L) -> Result<Edit, AllocError>
    ensures edit { IfOk result (λ edit. edit ≡ edit_of (L.known look.now) (name, after)) }
    ensures known { IfOk result (λ _. IsKnown (L.known look.now) (name, after)) }
{
    match before_at(&name, look) {
        Ok(before) => Ok(Edit {
            key: ObjectKey::Object(name),
            before,
            after: after.into_after(),
        }),
        Err(error) => Err(error),
    }
}

/// What stood at the name, as was looked at by the pairs.
fn before_at<L: Lookup>(name: &ObjName, look: &L) -> Result<Option<Object>, AllocError>
    ensures before { IfOk result (λ before. before ≡ before_at (L.known look.now (keys.Object name.now))) }
    ensures known { IfOk result (λ _. is_some (L.known look.now (keys.Object name.now)) ≡ true) }
{
    match object_at(look, name) {
        Ok(object) => there(object),
        Err(_) => Err(AllocError),
    }
}

fn there(object: &Object) -> Result<Option<Object>, AllocError>
    ensures { IfOk result (λ before. before ≡ there object.now) }
{
    match object {
        Object::Absent => Ok(None),
        object => Ok(Some(object.copy()?)),
    }
}
