// The locks that are asked for so far.
ghost use Rattle.std.specs.Prelude.{◌≡◌, ◌||◌, [], ◌∷◌, IfOk, OnOk};
ghost use Rattle.metadata_locks.specs.declared.request.LockKey.TheVariants as on;
ghost use Rattle.metadata_locks.specs.declared.request.Mode.TheVariants.{IX, S, X};
ghost use Rattle.rules_locks.specs.Claims.{below, changes_object, is_covered, reads, reads_object, requests_for, with_claim, with_claims};
ghost use Rattle.rules_locks.specs.Holdings.{holding, request, with_request, with_requests};
ghost use Rattle.rules_footprint.specs.Coded.{claim_of, claims_of, requests_of};

use crate::claims::Claim;
use dd_names::{List, Name, ObjName, TryCopy, both};
use metadata_locks::{LockKey, Mode, Request};
use std::alloc::{AllocError, Global};
use std::collections::BTreeSet;

/// The locks that a statement asks for, in the order of their keys and modes, each once.
#[derive(Drop)]
pub struct Requests {
    pub(crate) all: BTreeSet<Request>,
}

impl Requests {
    pub(crate) fn new(alloc: Global) -> Requests
        ensures { requests_of result ≡ [] }
    {
        Requests {
            all: BTreeSet::new(alloc),
        }
    }

    /// The requests, in the order of their keys and modes.
    pub fn into_list(self, alloc: Global) -> Result<List<Request>, AllocError>
        ensures { IfOk result (λ list. list ≡ requests_of self) }
    {
        let mut list = List::new(alloc);
        'all: for request in self.all {
            list.push(request)?;
        }
        Ok(list)
    }

    /// Asks for what the claims want beyond what is asked for, one after another.
    pub(crate) fn add_claims(&mut self, claims: &[Claim]) -> Result<(), AllocError>
        ensures { OnOk result (requests_of self.new ≡ with_claims (requests_of self.old) (claims_of claims.now)) }
    {
        'claims: for claim in claims {
            self.add_claim(claim)?;
        }
        Ok(())
    }

    fn add_claim(&mut self, claim: &Claim) -> Result<(), AllocError>
        ensures { OnOk result (requests_of self.new ≡ with_claim (requests_of self.old) (claim_of claim.now)) }
    {
        if self.covers(claim)? {
            return Ok(());
        }
        self.ask_for(claim)
    }

    /// Whether what is asked for is enough for the claim.
    fn covers(&self, claim: &Claim) -> Result<bool, AllocError>
        ensures { IfOk result (λ covers. covers ≡ is_covered (holding (requests_of self.now)) (claim_of claim.now)) }
    {
        match claim {
            Claim::KeepSchemas => self.has(&LockKey::All, Mode::S),
            Claim::KeepSchema(name) => self.keeps_schema(name),
            Claim::KeepObjects(schema) => self.keeps_objects(schema),
            Claim::KeepObject(object) => self.keeps_object(object),
            Claim::KeepChildren(parent) => self.keeps_children(parent),
            Claim::KeepFree { schema, folded } => self.keeps_free(schema, folded),
            Claim::ChangeCatalog => self.has(&LockKey::All, Mode::IX),
            Claim::ChangeSchema(name) => self.changes_schema(name),
            Claim::ChangeObject(object) => self.changes_object(object),
            Claim::JoinParent(parent) => self.reads_object(parent),
            Claim::TakeName { schema, folded } => self.takes_name(schema, folded),
        }
    }

    fn has(&self, key: &LockKey, mode: Mode) -> Result<bool, AllocError>
        ensures { IfOk result (λ has. has ≡ holding (requests_of self.now) key.now mode) }
    {
        let key = key.copy()?;
        Ok(self.all.contains(&Request { key, mode }))
    }

    fn reads(&self, key: &LockKey) -> Result<bool, AllocError>
        ensures { IfOk result (λ does. does ≡ reads (holding (requests_of self.now)) key.now) }
    {
        let shared = self.has(key, Mode::S)?;
        let exclusive = self.has(key, Mode::X)?;
        Ok(shared || exclusive)
    }

    /// Whether the schema of the object is locked as a whole, or from within where the object itself is.
    fn below(&self, object: &ObjName, own: bool) -> Result<bool, AllocError>
        ensures { IfOk result (λ does. does ≡ below (holding (requests_of self.now)) object.now own) }
    {
        let schema = LockKey::Schema(object.schema.copy()?);
        let whole = self.has(&schema, Mode::X)?;
        let within = self.has(&schema, Mode::IX)?;
        Ok(whole || (within && own))
    }

    fn reads_object(&self, object: &ObjName) -> Result<bool, AllocError>
        ensures { IfOk result (λ does. does ≡ reads_object (holding (requests_of self.now)) object.now) }
    {
        let own = self.reads(&LockKey::Object(object.copy()?))?;
        self.below(object, own)
    }

    fn changes_object(&self, object: &ObjName) -> Result<bool, AllocError>
        ensures { IfOk result (λ does. does ≡ changes_object (holding (requests_of self.now)) object.now) }
    {
        let own = self.has(&LockKey::Object(object.copy()?), Mode::X)?;
        self.below(object, own)
    }

    fn changes_schema(&self, name: &Name) -> Result<bool, AllocError>
        ensures { IfOk result (λ does. does ≡ holding (requests_of self.now) (on.Schema name.now) X) }
    {
        self.has(&LockKey::Schema(name.copy()?), Mode::X)
    }

    fn takes_name(&self, schema: &Name, folded: &Name) -> Result<bool, AllocError>
        ensures { IfOk result (λ does. does ≡ holding (requests_of self.now) (on.Constraint schema.now folded.now) X) }
    {
        self.has(&constraint_key(schema, folded)?, Mode::X)
    }

    /// Whether the whole catalog is read.
    fn keeps_all(&self) -> Result<bool, AllocError>
        ensures { IfOk result (λ does. does ≡ holding (requests_of self.now) on.All S) }
    {
        self.has(&LockKey::All, Mode::S)
    }

    fn keeps_schema(&self, name: &Name) -> Result<bool, AllocError>
        ensures { IfOk result (λ does. does ≡ (holding (requests_of self.now) on.All S || (holding (requests_of self.now) (on.Schema name.now) IX || reads (holding (requests_of self.now)) (on.Schema name.now)))) }
    {
        let schema = LockKey::Schema(name.copy()?);
        let all = self.keeps_all()?;
        let within = self.has(&schema, Mode::IX)?;
        let whole = self.reads(&schema)?;
        Ok(all || (within || whole))
    }

    fn keeps_objects(&self, schema: &Name) -> Result<bool, AllocError>
        ensures { IfOk result (λ does. does ≡ (holding (requests_of self.now) on.All S || reads (holding (requests_of self.now)) (on.Schema schema.now))) }
    {
        let schema = LockKey::Schema(schema.copy()?);
        let all = self.keeps_all()?;
        let whole = self.reads(&schema)?;
        Ok(all || whole)
    }

    fn keeps_object(&self, object: &ObjName) -> Result<bool, AllocError>
        ensures { IfOk result (λ does. does ≡ (holding (requests_of self.now) on.All S || reads_object (holding (requests_of self.now)) object.now)) }
    {
        let all = self.keeps_all()?;
        let own = self.reads_object(object)?;
        Ok(all || own)
    }

    fn keeps_children(&self, parent: &ObjName) -> Result<bool, AllocError>
        ensures { IfOk result (λ does. does ≡ (holding (requests_of self.now) on.All S || changes_object (holding (requests_of self.now)) parent.now)) }
    {
        let all = self.keeps_all()?;
        let own = self.changes_object(parent)?;
        Ok(all || own)
    }

    fn keeps_free(&self, schema: &Name, folded: &Name) -> Result<bool, AllocError>
        ensures { IfOk result (λ does. does ≡ (holding (requests_of self.now) on.All S || holding (requests_of self.now) (on.Constraint schema.now folded.now) X)) }
    {
        let all = self.keeps_all()?;
        let own = self.takes_name(schema, folded)?;
        Ok(all || own)
    }

    /// Asks for the locks of the claim.
    fn ask_for(&mut self, claim: &Claim) -> Result<(), AllocError>
        ensures { OnOk result (requests_of self.new ≡ with_requests (requests_of self.old) (requests_for (claim_of claim.now))) }
    {
        match claim {
            Claim::KeepSchemas => self.add(LockKey::All, Mode::S),
            Claim::KeepSchema(name) => self.add(LockKey::Schema(name.copy()?), Mode::IX),
            Claim::KeepObjects(schema) => self.add(LockKey::Schema(schema.copy()?), Mode::S),
            Claim::KeepObject(object) => self.add_object(object, Mode::S),
            Claim::KeepChildren(parent) => self.add_object(parent, Mode::X),
            Claim::KeepFree { schema, folded } => self.add(
                constraint_key(schema, folded)?,
                Mode::X,
            ),
            Claim::ChangeCatalog => self.add(LockKey::All, Mode::IX),
            Claim::ChangeSchema(name) => self.add(LockKey::Schema(name.copy()?), Mode::X),
            Claim::ChangeObject(object) => self.add_object(object, Mode::X),
            Claim::JoinParent(parent) => self.add_object(parent, Mode::S),
            Claim::TakeName { schema, folded } => self.add(
                constraint_key(schema, folded)?,
                Mode::X,
            ),
        }
    }

    fn add(&mut self, key: LockKey, mode: Mode) -> Result<(), AllocError>
        ensures { OnOk result (requests_of self.new ≡ with_request (requests_of self.old) (request mode key)) }
    {
        self.all.insert(Request { key, mode })?;
        Ok(())
    }

    /// The object, and its schema from within.
    fn add_object(&mut self, object: &ObjName, mode: Mode) -> Result<(), AllocError>
        ensures { OnOk result (requests_of self.new ≡ with_requests (requests_of self.old) (request IX (on.Schema object.now.schema) ∷ request mode (on.Object object.now) ∷ [])) }
    {
        self.add(LockKey::Schema(object.schema.copy()?), Mode::IX)?;
        self.add(LockKey::Object(object.copy()?), mode)
    }
}

fn constraint_key(schema: &Name, folded: &Name) -> Result<LockKey, AllocError>
    ensures { IfOk result (λ key. key ≡ on.Constraint schema.now folded.now) }
{
    match both(schema.copy(), folded.copy()) {
        Ok((schema, folded)) => Ok(LockKey::Constraint { schema, folded }),
        Err(error) => Err(error),
    }
}
