// The keys that a plan changes, and whether they hit what stands at a key.
ghost use Rattle.std.specs.Prelude.{◌≡◌, ◌∷◌, [], IfOk, List as Listed, OnOk};
ghost use Rattle.dd_names.specs.declared.object_name.ObjectKey.TheVariants as keys;
ghost use Rattle.dd_catalog.specs.Sights.{sight};
ghost use Rattle.rules_outcome.specs.Decided.{chosen};
ghost use Rattle.rules_locks.specs.Claims as claims;
ghost use Rattle.rules_locks.specs.Evictions.{is_hit};
ghost use Rattle.rules_locks.specs.Locks.{choice_claims};
ghost use Rattle.rules_locks.specs.Steps.{Step};
ghost use Rattle.rules_footprint.specs.Coded.{claim_of, claims_of};
ghost use Rattle.rules_footprint.specs.Plans.{AllFit};
ghost use Rattle.rules_evictions.specs.Evicted.{Adds, AreOf, has_key, has_object, has_one, hit_at, owner_hit};

use dd_catalog::Object;
use dd_names::{Name, ObjName, ObjectKey, TryCopy, both};
use rules_footprint::{Claim, claims_of_changes};
use rules_outcome::Decided;
use rules_schema::children_seen;
use std::alloc::{AllocError, Global};
use std::collections::BTreeSet;

/// The keys that a plan changes of what others know.
#[derive(Drop)]
pub struct Evictions {
    /// The keys, each once, in their order.
    pub keys: BTreeSet<ObjectKey>,
    /// The objects among them.
    pub(crate) objects: BTreeSet<ObjName>,
}

/// The keys that the changes of what is decided hit.
pub fn evictions_of(alloc: Global, decided: &Decided) -> Result<Evictions, AllocError>
    ensures { (steps : Listed Step) → AllFit steps decided.now → IfOk result (λ evicted. AreOf evicted (choice_claims steps (chosen decided.now))) }
{
    let claims = claims_of_changes(alloc, decided)?;
    let mut evicted = Evictions::new(alloc);
    evicted.add_all(claims.as_slice())?;
    Ok(evicted)
}

impl Evictions {
    fn new(alloc: Global) -> Evictions
        ensures { AreOf result [] }
    {
        Evictions {
            keys: BTreeSet::new(alloc),
            objects: BTreeSet::new(alloc),
        }
    }

    /// Whether what is known to stand at a key changes.
    pub fn hits(&self, key: &ObjectKey, object: &Object) -> bool
        ensures { (all : Listed claims.Claim) → AreOf self.now all → result ≡ is_hit all key.now (sight object.now) }
    {
        self.hits_at(key, object)
    }

    fn hits_at(&self, key: &ObjectKey, object: &Object) -> bool
        ensures { result ≡ hit_at self.now.keys.keys self.now.objects.keys key.now (sight object.now) }
    {
        match key {
            ObjectKey::Children(_) => self.has_key(key) || self.has_one(children_seen(object)),
            ObjectKey::Constraint { .. } => self.hits_owner(key, object),
            _ => self.has_key(key),
        }
    }

    /// The table that has the constraint, or the constraint's name where none has it.
    fn hits_owner(&self, key: &ObjectKey, object: &Object) -> bool
        ensures { result ≡ owner_hit self.now.keys.keys self.now.objects.keys key.now (sight object.now) }
    {
        match object {
            Object::Constraint { table } => self.has_object(table),
            _ => self.has_key(key),
        }
    }

    fn has_key(&self, key: &ObjectKey) -> bool
        ensures { result ≡ has_key self.now.keys.keys key.now }
    {
        self.keys.contains(key)
    }

    fn has_object(&self, object: &ObjName) -> bool
        ensures { result ≡ has_object self.now.objects.keys object.now }
    {
        self.objects.contains(object)
    }

    fn has_one(&self, objects: &[ObjName]) -> bool
        ensures { result ≡ has_one self.now.objects.keys objects.now }
    {
        objects.iter().any(|object| self.objects.contains(object))
    }

    fn add_all(&mut self, claims: &[Claim]) -> Result<(), AllocError>
        ensures { OnOk result (Adds self.old self.new (claims_of claims.now)) }
    {
        'claims: for claim in claims {
            self.add(claim)?;
        }
        Ok(())
    }

    /// What the claim changes.
    fn add(&mut self, claim: &Claim) -> Result<(), AllocError>
        ensures { OnOk result (Adds self.old self.new (claim_of claim.now ∷ [])) }
    {
        match claim {
            Claim::ChangeSchema(name) => self.add_schema(name),
            Claim::ChangeObject(object) => self.add_object(object),
            Claim::JoinParent(parent) => self.add_parent(parent),
            Claim::TakeName { schema, folded } => self.add_name(schema, folded),
            _ => Ok(()),
        }
    }

    /// The schema, and the list of all schemas.
    fn add_schema(&mut self, name: &Name) -> Result<(), AllocError>
        ensures { OnOk result (Adds self.old self.new (claims.ChangeSchema name.now ∷ [])) }
    {
        self.keys.insert(ObjectKey::Schemas)?;
        self.keys.insert(ObjectKey::Schema(name.copy()?))?;
        Ok(())
    }

    /// The object, and the list of its schema's objects.
    fn add_object(&mut self, object: &ObjName) -> Result<(), AllocError>
        ensures { OnOk result (Adds self.old self.new (claims.ChangeObject object.now ∷ [])) }
    {
        self.keys.insert(ObjectKey::Objects(object.schema.copy()?))?;
        self.keys.insert(ObjectKey::Object(object.copy()?))?;
        self.objects.insert(object.copy()?)?;
        Ok(())
    }

    /// The list of the table's children.
    fn add_parent(&mut self, parent: &ObjName) -> Result<(), AllocError>
        ensures { OnOk result (Adds self.old self.new (claims.JoinParent parent.now ∷ [])) }
    {
        self.keys.insert(ObjectKey::Children(parent.copy()?))?;
        Ok(())
    }

    fn add_name(&mut self, schema: &Name, folded: &Name) -> Result<(), AllocError>
        ensures { OnOk result (Adds self.old self.new (claims.TakeName schema.now folded.now ∷ [])) }
    {
        self.keys.insert(constraint_key(schema, folded)?)?;
        Ok(())
    }
}

fn constraint_key(schema: &Name, folded: &Name) -> Result<ObjectKey, AllocError>
    ensures { IfOk result (λ key. key ≡ keys.Constraint schema.now folded.now) }
{
    match both(schema.copy(), folded.copy()) {
        Ok((schema, folded)) => Ok(ObjectKey::Constraint { schema, folded }),
        Err(error) => Err(error),
    }
}
