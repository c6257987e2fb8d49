ghost use Rattle.std.specs.Prelude.{◌≡◌, true, false, Some, None, cond, OnOk, OnErr};
ghost use Rattle.std.specs.Arc.{arc_value};
ghost use Rattle.dd_names.specs.declared.object_name.ObjectKey.{ObjectKey as Key};
ghost use Rattle.client_cache.specs.Registries.{is_key, committed, uncommitted, is_dropped, holds};
ghost use Rattle.client_cache.specs.Cleared.{AreUsed, AllReleased};

use crate::absence::Absence;
use crate::held::{Held, release_all};
use dd_catalog::{Known, Lookup, Object};
use dd_names::{ObjectKey, TryCopy};
use indexmap::{IndexMap, IndexSet};
use shared_cache::Shared;
use std::alloc::{AllocError, Global};
use std::sync::Arc;

/// What a session sees of the dictionary: the shared objects that it holds, the objects that its statement has made, and
/// the keys that its statement has dropped.
#[derive(Drop)]
pub struct Client {
    committed: Held,
    uncommitted: IndexMap<ObjectKey, Object>,
    dropped: IndexSet<ObjectKey>,
    absence: Absence,
}

impl Client {
    /// Nothing is held, made or dropped.
    pub fn new(alloc: Global) -> Client
        ensures committed { (key : Key) → committed result key ≡ None }
        ensures uncommitted { (key : Key) → uncommitted result key ≡ None }
        ensures dropped { (key : Key) → is_dropped result key ≡ false }
    {
        Client {
            committed: IndexMap::new(alloc),
            uncommitted: IndexMap::new(alloc),
            dropped: IndexSet::new(alloc),
            absence: Absence::new(),
        }
    }

    /// Holds the shared object under the key, in the place of one that is held there. For want of memory all stays as it is.
    pub fn hold(&mut self, key: ObjectKey, object: Arc<Object>) -> Result<(), AllocError>
        ensures committed { OnOk result ((other : Key) → committed self.new other ≡ cond (is_key key other) (Some (arc_value object)) (committed self.old other)) }
        ensures uncommitted { (other : Key) → uncommitted self.new other ≡ uncommitted self.old other }
        ensures dropped { (other : Key) → is_dropped self.new other ≡ is_dropped self.old other }
        ensures err { OnErr result ((other : Key) → committed self.new other ≡ committed self.old other) }
    {
        self.committed.insert(key, object)?;
        Ok(())
    }

    /// From now on the session sees this object at the key, whether or not the key was dropped. For want of memory all
    /// stays as it is.
    pub fn store(&mut self, key: ObjectKey, object: Object) -> Result<(), AllocError>
        ensures uncommitted { OnOk result ((other : Key) → uncommitted self.new other ≡ cond (is_key key other) (Some object) (uncommitted self.old other)) }
        ensures dropped { OnOk result ((other : Key) → is_dropped self.new other ≡ cond (is_key key other) false (is_dropped self.old other)) }
        ensures committed { (other : Key) → committed self.new other ≡ committed self.old other }
        ensures err { OnErr result ((other : Key) → (uncommitted self.new other ≡ uncommitted self.old other) × (is_dropped self.new other ≡ is_dropped self.old other)) }
    {
        self.uncommitted.insert(key.copy()?, object)?;
        self.dropped.swap_remove(&key);
        Ok(())
    }

    /// From now on the session sees nothing at the key. For want of memory all stays as it is.
    pub fn drop_object(&mut self, key: ObjectKey) -> Result<(), AllocError>
        ensures dropped { OnOk result ((other : Key) → is_dropped self.new other ≡ cond (is_key key other) true (is_dropped self.old other)) }
        ensures uncommitted { OnOk result ((other : Key) → uncommitted self.new other ≡ cond (is_key key other) None (uncommitted self.old other)) }
        ensures committed { (other : Key) → committed self.new other ≡ committed self.old other }
        ensures err { OnErr result ((other : Key) → (uncommitted self.new other ≡ uncommitted self.old other) × (is_dropped self.new other ≡ is_dropped self.old other)) }
    {
        self.dropped.insert(key.copy()?)?;
        self.uncommitted.swap_remove(&key);
        Ok(())
    }

    /// Ends one use of each key that is held, and forgets all. The last key that was first held is released first.
    pub fn clear(&mut self, shared: &mut Shared)
        requires used { AreUsed (holds self.old) shared.old }
        ensures released { AllReleased (holds self.old) shared.old shared.new }
        ensures committed { (key : Key) → committed self.new key ≡ None }
        ensures uncommitted { (key : Key) → uncommitted self.new key ≡ None }
        ensures dropped { (key : Key) → is_dropped self.new key ≡ false }
    {
        release_all(&mut self.committed, shared);
        self.uncommitted.clear();
        self.dropped.clear();
    }
}

impl Lookup for Client {
    ghost use Rattle.client_cache.specs.Registries.{known_at};

    ghost known = { known_at };

    fn look(&self, key: &ObjectKey) -> Known<'_> {
        if let Some(object) = self.uncommitted.get(key) {
            return Known::Here(object);
        }
        if self.dropped.contains(key) {
            return Known::Here(self.absence.object());
        }
        match self.committed.get(key) {
            Some(object) => Known::Here(&**object),
            None => Known::Unknown,
        }
    }
}
