ghost use Rattle.std.specs.Prelude.{ℕ, ◌≡◌, ◌≢◌, Option, Some, None, cond, OnOk, OnErr, IfOk};
ghost use Rattle.std.specs.Ordering.{is_eq};
ghost use Rattle.dd_names.specs.declared.object_name.ObjectKey.{ObjectKey as Key};
ghost use Rattle.miss_table.specs.Tickets.{key_cmp, loader, begun_told, tickets_after};
ghost use Rattle.miss_table.specs.declared.misses.Begun.TheVariants.{Yours};

use dd_names::{ObjectKey, TryCopy};
use std::alloc::{AllocError, Global};
use std::collections::BTreeMap;

/// That a session loads what stands at a key. It is given back by `Misses::end`.
pub struct Ticket {
    /// What is loaded.
    pub key: ObjectKey,
    /// Who loads it.
    pub session: u32,
}

/// What a session is told that wants to load a key.
pub enum Begun {
    /// It may load it, and has the ticket.
    Yours(Ticket),
    /// Another session is loading it.
    Loading { by: u32 },
}

/// The tickets that are out, one a key at most.
#[derive(Drop)]
pub struct Misses {
    tickets: BTreeMap<ObjectKey, u32>,
}

impl Misses {
    /// No ticket is out.
    pub fn new(alloc: Global) -> Misses
        ensures { (key : Key) → loader result key ≡ None }
    {
        Misses {
            tickets: BTreeMap::new(alloc),
        }
    }

    /// Gives the session a ticket for the key, or tells who has one. For want of memory all stays as it is.
    pub fn begin(&mut self, key: &ObjectKey, session: u32) -> Result<Begun, AllocError>
        requires once { loader self.old key.now ≢ Some session }
        ensures told { IfOk result (λ begun. begun_told begun key.now session (loader self.old key.now)) }
        ensures tickets { IfOk result (λ begun. tickets_after begun self.old self.new) }
        ensures err { OnErr result ((other : Key) → loader self.new other ≡ loader self.old other) }
    {
        match self.tickets.get(key) {
            Some(by) => Ok(Begun::Loading { by: *by }),
            None => self.add(key.copy()?, session),
        }
    }

    fn add(&mut self, key: ObjectKey, session: u32) -> Result<Begun, AllocError>
        ensures told { IfOk result (λ begun. begun ≡ Yours (record { key = key; session = session })) }
        ensures tickets { OnOk result ((other : Key) → loader self.new other ≡ cond (is_eq (key_cmp key other)) (Some session) (loader self.old other)) }
        ensures err { OnErr result ((other : Key) → loader self.new other ≡ loader self.old other) }
    {
        self.tickets.insert(key.copy()?, session)?;
        Ok(Begun::Yours(Ticket { key, session }))
    }

    /// Takes the ticket back.
    pub fn end(&mut self, ticket: Ticket)
        requires { loader self.old ticket.key ≡ Some ticket.session }
        ensures { (other : Key) → loader self.new other ≡ cond (is_eq (key_cmp ticket.key other)) None (loader self.old other) }
    {
        let Ticket { key, session: _ } = ticket;
        self.tickets.remove(&key);
    }
}
