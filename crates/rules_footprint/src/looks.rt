// What a statement's looks claim.
ghost use Rattle.std.specs.Prelude.{◌≡◌, ◌++◌, ◌∷◌, [], IfOk, OnOk, map};
ghost use Rattle.std.specs.List.{flat_map};
ghost use Rattle.dd_names.specs.declared.object_name.ObjectKey.TheVariants as keys;
ghost use Rattle.dd_catalog.specs.Sights.{sight};
ghost use Rattle.rules_locks.specs.Locks.{child_claim, front_claims, look_claims, owner_claims, seen_claims, step_claims};
ghost use Rattle.rules_footprint.specs.Coded.{claim_of, claims_of};
ghost use Rattle.rules_intents.specs.Grips.{grip as as_grip};
ghost use Rattle.rules_footprint.specs.Steps.{step_of};

use crate::claims::Claim;
use crate::footprints::Told;
use dd_catalog::Object;
use dd_names::{List, Name, ObjName, ObjectKey, TryCopy, both};
use rules_intents::Grip;
use rules_schema::children_seen;
use std::alloc::AllocError;

/// What all looks claim, in their order.
pub(crate) fn add_looks(
    claims: &mut List<Claim>,
    grip: Grip,
    told: &[Told<'_>],
) -> Result<(), AllocError>
    ensures { OnOk result (claims_of claims.new ≡ claims_of claims.old ++ flat_map (step_claims (as_grip grip)) (map step_of told.now)) }
{
    'told: for one in told {
        add_look(claims, grip, one.key, one.object)?;
    }
    Ok(())
}

fn add_look(
    claims: &mut List<Claim>,
    grip: Grip,
    key: &ObjectKey,
    object: &Object,
) -> Result<(), AllocError>
    ensures { OnOk result (claims_of claims.new ≡ claims_of claims.old ++ look_claims (as_grip grip) key.now (sight object.now)) }
{
    add_front(claims, key)?;
    add_seen(claims, grip, key, object)
}

/// What a look claims before anything is seen.
pub(crate) fn add_front(claims: &mut List<Claim>, key: &ObjectKey) -> Result<(), AllocError>
    ensures { OnOk result (claims_of claims.new ≡ claims_of claims.old ++ front_claims key.now) }
{
    match key {
        ObjectKey::Schemas => add(claims, Claim::KeepSchemas),
        ObjectKey::Schema(name) => add(claims, Claim::KeepSchema(name.copy()?)),
        ObjectKey::Objects(schema) => add(claims, Claim::KeepObjects(schema.copy()?)),
        ObjectKey::Object(object) => add(claims, Claim::KeepObject(object.copy()?)),
        ObjectKey::Children(parent) => add(claims, Claim::KeepChildren(parent.copy()?)),
        ObjectKey::Constraint { .. } => Ok(()),
    }
}

pub(crate) fn add(claims: &mut List<Claim>, claim: Claim) -> Result<(), AllocError>
    ensures { OnOk result (claims_of claims.new ≡ claims_of claims.old ++ claim_of claim ∷ []) }
{
    claims.push(claim)?;
    Ok(())
}

/// What a look claims by what is seen.
fn add_seen(
    claims: &mut List<Claim>,
    grip: Grip,
    key: &ObjectKey,
    object: &Object,
) -> Result<(), AllocError>
    ensures { OnOk result (claims_of claims.new ≡ claims_of claims.old ++ seen_claims (as_grip grip) key.now (sight object.now)) }
{
    match key {
        ObjectKey::Children(_) => add_children(claims, grip, children_seen(object)),
        ObjectKey::Constraint { schema, folded } => add_owner(claims, schema, folded, object),
        _ => Ok(()),
    }
}

fn add_children(
    claims: &mut List<Claim>,
    grip: Grip,
    children: &[ObjName],
) -> Result<(), AllocError>
    ensures { OnOk result (claims_of claims.new ≡ claims_of claims.old ++ map (child_claim (as_grip grip)) children.now) }
{
    'children: for child in children {
        add_child(claims, grip, child)?;
    }
    Ok(())
}

fn add_child(claims: &mut List<Claim>, grip: Grip, child: &ObjName) -> Result<(), AllocError>
    ensures { OnOk result (claims_of claims.new ≡ claims_of claims.old ++ child_claim (as_grip grip) child.now ∷ []) }
{
    match grip {
        Grip::Reads => add(claims, Claim::KeepObject(child.copy()?)),
        Grip::Writes => add(claims, Claim::ChangeObject(child.copy()?)),
    }
}

fn add_owner(
    claims: &mut List<Claim>,
    schema: &Name,
    folded: &Name,
    object: &Object,
) -> Result<(), AllocError>
    ensures { OnOk result (claims_of claims.new ≡ claims_of claims.old ++ owner_claims schema.now folded.now (sight object.now)) }
{
    match object {
        Object::Constraint { table } => add(claims, Claim::KeepObject(table.copy()?)),
        _ => add(claims, kept_free(schema, folded)?),
    }
}

fn kept_free(schema: &Name, folded: &Name) -> Result<Claim, AllocError>
    ensures { IfOk result (λ claim. claim ≡ Claim.KeepFree schema.now folded.now) }
{
    match both(schema.copy(), folded.copy()) {
        Ok((schema, folded)) => Ok(Claim::KeepFree { schema, folded }),
        Err(error) => Err(error),
    }
}
