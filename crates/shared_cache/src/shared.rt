ghost use Rattle.std.specs.Prelude.{◌≡◌, ◌≢◌, ◌<◌, length, Some, None, IfOk, OnErr, IsSome};
ghost use Rattle.std.specs.Arc.{arc_value};
ghost use Rattle.shared_cache.specs.State.{listed, uses, loader, without, IsSound};
ghost use Rattle.shared_cache.specs.Calls.{found_told, found_after, use_ended, IsAt, IsEmpty, IsSame};

use crate::found::{Found, find};
use crate::slots::{Slots, ends_last, fill, is_listed, leave, take_back};
use crate::unused::{Unused, rest, take_out};
use dd_catalog::Object;
use dd_names::{ObjectKey, TryCopy};
use lru::LruCache;
use miss_table::Ticket;
use std::alloc::{AllocError, Global};
use std::collections::BTreeMap;
use std::marker::Model;
use std::sync::Arc;

/// The objects that all sessions share, one a key at most, also what is absent. An object has as many uses as sessions
/// have said; one without use stays while there is capacity for it.
#[derive(Drop)]
pub struct Shared {
    slots: Slots,
    unused: Unused,
    capacity: usize,
}

impl Model for Shared {
    ghost use Rattle.shared_cache.specs.State.{Cache};

    ghost Value = { Cache };

    ghost use Rattle.shared_cache.specs.Fields.{cache_of, AreSound};

    ghost view = { λ s. cache_of s.slots s.unused s.capacity };

    ghost invariant = { λ s. AreSound s.slots s.unused s.capacity };
}

impl Shared {
    /// Nothing is listed, and at most so many objects without use will be kept.
    pub fn new(alloc: Global, capacity: usize) -> Result<Shared, AllocError>
        ensures { IfOk result (λ shared. IsEmpty shared capacity) }
    {
        Ok(Shared {
            slots: BTreeMap::new(alloc),
            unused: LruCache::unbounded(alloc)?,
            capacity,
        })
    }

    /// The object at the key with one use more, or who loads it, or a ticket to load it. For want of memory all stays
    /// as it is.
    pub fn get(&mut self, key: &ObjectKey, session: u32) -> Result<Found, AllocError>
        requires once { loader self.old key.now ≢ Some session }
        ensures told { IfOk result (λ found. found_told found self.old key.now session) }
        ensures after { IfOk result (λ found. found_after found self.old self.new key.now session) }
        ensures err { OnErr result (IsSame self.old self.new) }
    {
        find(&mut self.slots, &mut self.unused, key, session)
    }

    /// Lists the object that was loaded, with one use, and takes the ticket back.
    pub fn put(&mut self, ticket: Ticket, object: Arc<Object>)
        requires ticket { loader self.old ticket.key ≡ Some ticket.session }
        ensures { IsAt self.old self.new ticket.key (Some (arc_value object)) 1 None self.old.unused }
    {
        fill(&mut self.slots, ticket, object);
    }

    /// Takes the ticket back where nothing could be loaded.
    pub fn fail(&mut self, ticket: Ticket)
        requires ticket { loader self.old ticket.key ≡ Some ticket.session }
        ensures { IsAt self.old self.new ticket.key None 0 None self.old.unused }
    {
        leave(&mut self.slots, &ticket.key);
        take_back(ticket);
    }

    /// Takes the object at the key away, whatever its uses. Who loads the key has the ticket as before.
    pub fn drop_key(&mut self, key: &ObjectKey)
        ensures { IsAt self.old self.new key.now None 0 (loader self.old key.now) (without key.now self.old.unused) }
    {
        if is_listed(&self.slots, key) {
            leave(&mut self.slots, key);
            take_out(&mut self.unused, key);
        }
    }

    /// Ends a use of the object that is listed at the key; where none is listed nothing changes. After its last use it
    /// is the first of those without use, and what the capacity has no place for leaves; for want of memory it leaves
    /// itself.
    pub fn release(&mut self, key: &ObjectKey)
        requires used { IsSome (listed self.old key.now) → 0 < uses self.old key.now }
        ensures { use_ended (uses self.old key.now) self.old self.new key.now }
    {
        if ends_last(&mut self.slots, key) {
            rest(&mut self.slots, &mut self.unused, self.capacity, key);
        }
    }

    /// How many objects without use are kept.
    pub fn unused_len(&self) -> usize
        ensures len { result ≡ length self.now.unused }
        ensures sound { IsSound self.now }
    {
        self.unused.len()
    }
}
