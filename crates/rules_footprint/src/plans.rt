// What the changes of a statement claim.
ghost use Rattle.std.specs.Prelude.{◌≡◌, ◌++◌, ◌∷◌, [], Bool, IfOk, List as Listed, OnOk, map};
ghost use Rattle.std.specs.List.{AllByRecursion, flat_map};
ghost use Rattle.dd_names.specs.Names.{fold};
ghost use Rattle.dd_catalog.specs.Catalog.{is_same_object};
ghost use Rattle.rules_outcome.specs.Decided.{after_of, change_of, chosen};
ghost use Rattle.rules_locks.specs.Locks.{change_claims, choice_claims, key_claims, keys_left, name_claims, names_in, parent_claims, refers_in};
ghost use Rattle.rules_locks.specs.Steps.{Step};
ghost use Rattle.rules_footprint.specs.Coded.{claims_of};
ghost use Rattle.rules_footprint.specs.Plans.{AllFit, Fits, keys_of};

use crate::claims::Claim;
use crate::looks::add;
use dd_catalog::Object;
use dd_definitions::ForeignKeyDef;
use dd_names::{List, Name, ObjName, ObjectKey, TryCopy, both};
use rules_elements::is_same_object;
use rules_outcome::{After, Decided, Edit};
use std::alloc::{AllocError, Global};

/// What the changes of what is decided claim.
pub fn claims_of_changes(alloc: Global, decided: &Decided) -> Result<List<Claim>, AllocError>
    ensures { (steps : Listed Step) → AllFit steps decided.now → IfOk result (λ claims. claims_of claims ≡ choice_claims steps (chosen decided.now)) }
{
    let mut claims = List::new(alloc);
    add_choice(&mut claims, decided)?;
    Ok(claims)
}

/// What is changed of the catalog.
pub(crate) fn add_choice(claims: &mut List<Claim>, decided: &Decided) -> Result<(), AllocError>
    ensures { (steps : Listed Step) → AllFit steps decided.now → OnOk result (claims_of claims.new ≡ claims_of claims.old ++ choice_claims steps (chosen decided.now)) }
{
    match decided {
        Decided::Edits(edits) => add_edits(claims, edits.puts.as_slice()),
        Decided::Same | Decided::Rows(_) => Ok(()),
    }
}

fn add_edits(claims: &mut List<Claim>, edits: &[Edit]) -> Result<(), AllocError>
    ensures { (steps : Listed Step) → AllByRecursion (Fits steps) edits.now → OnOk result (claims_of claims.new ≡ claims_of claims.old ++ flat_map (change_claims steps) (map change_of edits.now)) }
{
    'edits: for edit in edits {
        add_edit(claims, edit)?;
    }
    Ok(())
}

fn add_edit(claims: &mut List<Claim>, edit: &Edit) -> Result<(), AllocError>
    ensures { (steps : Listed Step) → Fits steps edit.now → OnOk result (claims_of claims.new ≡ claims_of claims.old ++ change_claims steps (change_of edit.now)) }
{
    match &edit.key {
        ObjectKey::Schema(name) => add_schema(claims, name),
        ObjectKey::Object(object) => {
            add_object(
                claims,
                object,
                keys_of(&edit.before),
                keys_left(&edit.after),
            )
        }
        _ => Ok(()),
    }
}

pub(crate) fn add_schema(claims: &mut List<Claim>, name: &Name) -> Result<(), AllocError>
    ensures { OnOk result (claims_of claims.new ≡ claims_of claims.old ++ claims_of (Claim.ChangeCatalog ∷ Claim.ChangeSchema name.now ∷ [])) }
{
    add(claims, Claim::ChangeCatalog)?;
    add(claims, Claim::ChangeSchema(name.copy()?))
}

/// The object, with the parents and the names of constraints that it didn't have.
fn add_object(
    claims: &mut List<Claim>,
    object: &ObjName,
    before: &[ForeignKeyDef],
    left: &[ForeignKeyDef],
) -> Result<(), AllocError>
    ensures { OnOk result (claims_of claims.new ≡ claims_of claims.old ++ (claims_of (Claim.ChangeCatalog ∷ Claim.ChangeObject object.now ∷ []) ++ flat_map (key_claims object.now before.now) left.now)) }
{
    add(claims, Claim::ChangeCatalog)?;
    add(claims, Claim::ChangeObject(object.copy()?))?;
    add_keys(claims, object, before, left)
}

fn add_keys(
    claims: &mut List<Claim>,
    object: &ObjName,
    before: &[ForeignKeyDef],
    left: &[ForeignKeyDef],
) -> Result<(), AllocError>
    ensures { OnOk result (claims_of claims.new ≡ claims_of claims.old ++ flat_map (key_claims object.now before.now) left.now) }
{
    'left: for key in left {
        add_key(claims, object, before, key)?;
    }
    Ok(())
}

fn add_key(
    claims: &mut List<Claim>,
    object: &ObjName,
    before: &[ForeignKeyDef],
    key: &ForeignKeyDef,
) -> Result<(), AllocError>
    ensures { OnOk result (claims_of claims.new ≡ claims_of claims.old ++ key_claims object.now before.now key.now) }
{
    add_parent(claims, object, before, &key.parent)?;
    add_name(claims, object, before, &key.name)
}

/// A parent that the object didn't have, other than itself.
fn add_parent(
    claims: &mut List<Claim>,
    object: &ObjName,
    before: &[ForeignKeyDef],
    parent: &ObjName,
) -> Result<(), AllocError>
    ensures { OnOk result (claims_of claims.new ≡ claims_of claims.old ++ parent_claims object.now before.now parent.now) }
{
    if is_same_object(object, parent) || refers_in(before, parent) {
        return Ok(());
    }
    add(claims, Claim::JoinParent(parent.copy()?))
}

fn refers_in(keys: &[ForeignKeyDef], parent: &ObjName) -> bool
    ensures { result ≡ refers_in keys.now parent.now }
{
    keys.iter().any(|key| is_same_object(&key.parent, parent))
}

/// A constraint's name that the object didn't have.
fn add_name(
    claims: &mut List<Claim>,
    object: &ObjName,
    before: &[ForeignKeyDef],
    name: &Name,
) -> Result<(), AllocError>
    ensures { OnOk result (claims_of claims.new ≡ claims_of claims.old ++ name_claims object.now before.now (fold name.now)) }
{
    if names_in(before, name) {
        return Ok(());
    }
    add(claims, taken_name(&object.schema, name)?)
}

fn names_in(keys: &[ForeignKeyDef], name: &Name) -> bool
    ensures { result ≡ names_in keys.now (fold name.now) }
{
    keys.iter().any(|key| key.name.same(name))
}

/// The name of a constraint in a schema is taken.
pub(crate) fn taken_name(schema: &Name, name: &Name) -> Result<Claim, AllocError>
    ensures { IfOk result (λ claim. claim ≡ Claim.TakeName schema.now (fold name.now)) }
{
    match both(schema.copy(), name.fold()) {
        Ok((schema, folded)) => Ok(Claim::TakeName { schema, folded }),
        Err(error) => Err(error),
    }
}

fn keys_of(before: &Option<Object>) -> &[ForeignKeyDef]
    ensures { result.now ≡ keys_of before.now }
{
    match before {
        Some(Object::Table { def, .. }) => def.parts().foreign_keys.as_slice(),
        _ => &[],
    }
}

fn keys_left(after: &After) -> &[ForeignKeyDef]
    ensures { result.now ≡ keys_left (after_of after.now) }
{
    match after {
        After::NewTable { def, .. }
        | After::KeptTable { def, .. }
        | After::RebuiltTable { def, .. } => def.parts().foreign_keys.as_slice(),
        _ => &[],
    }
}
