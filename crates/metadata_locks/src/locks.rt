// Locks of sessions.
ghost use Rattle.std.specs.Prelude.{ℕ, ◌≡◌, ◌==◌, ◌&&◌, ◌||◌, false, None, Some, OnOk, OnErr, IfErr, if◌then◌else◌};
ghost use Rattle.metadata_locks.specs.declared.request.LockKey.{LockKey as Key};
ghost use Rattle.metadata_locks.specs.declared.request.Mode.{Mode as AMode};
ghost use Rattle.metadata_locks.specs.declared.locks.TryFault.TheVariants.{Conflict};
ghost use Rattle.metadata_locks.specs.Held.{holds, ask_for, IsCompatible};
ghost use Rattle.metadata_locks.specs.Conflicts.{first_conflict};
ghost use Rattle.metadata_locks.specs.Tried.{conflict_told};

use crate::conflicts::first_conflict;
use crate::held::{Held, lock_held, modes_at};
use crate::request::Request;
use std::alloc::{AllocError, Global};
use std::collections::BTreeMap;

/// What each session has locked. A session is a number.
#[derive(Drop)]
pub struct Locks {
    alloc: Global,
    pub(crate) sessions: BTreeMap<u32, Held>,
}

/// Why a session was given none of the locks that it asked for.
#[derive(Drop, Clone, Copy, PartialEq, Eq, Debug)]
pub enum TryFault {
    /// Another session has locked what the request at this place asks for, in a mode that doesn't go with it.
    Conflict { request: usize, holder: u32 },
    /// There was no memory.
    Memory,
}

impl Locks {
    /// Nothing is locked.
    pub fn new(alloc: Global) -> Locks
        ensures none { (session : ℕ) (key : Key) (mode : AMode) → holds result session key mode ≡ false }
        ensures compatible { IsCompatible result }
    {
        Locks {
            alloc,
            sessions: BTreeMap::new(alloc),
        }
    }

    /// Whether the session has locked what the request asks for, in its mode.
    pub fn holds(&self, session: u32, request: &Request) -> bool
        ensures { result ≡ holds self.now session request.now.key request.now.mode }
    {
        match self.sessions.get(&session) {
            None => false,
            Some(held) => modes_at(held, &request.key).has(request.mode),
        }
    }

    /// Locks all that is asked for, or none of it: a conflict where another session has locked against a request, with the least
    /// place of such a request and then the least such session. What the session has locked before stays, and is never against it.
    pub fn try_all(&mut self, session: u32, requests: &[Request]) -> Result<(), TryFault>
        ensures conflict { conflict_told result (first_conflict self.old session requests.now) }
        ensures granted { OnOk result ((other : ℕ) (key : Key) (mode : AMode) → holds self.new other key mode ≡ ((other == session && ask_for requests.now key mode) || holds self.old other key mode)) }
        ensures same { OnErr result ((other : ℕ) (key : Key) (mode : AMode) → holds self.new other key mode ≡ holds self.old other key mode) }
        ensures compatible { IsCompatible self.old → IsCompatible self.new }
    {
        match first_conflict(self, session, requests) {
            Some(conflict) => Err(TryFault::Conflict {
                request: conflict.place,
                holder: conflict.holder,
            }),
            None => match self.lock_all(session, requests) {
                Ok(()) => Ok(()),
                Err(_) => Err(TryFault::Memory),
            },
        }
    }

    /// Locks what nothing is against.
    fn lock_all(&mut self, session: u32, requests: &[Request]) -> Result<(), AllocError>
        ensures granted { OnOk result ((other : ℕ) (key : Key) (mode : AMode) → holds self.new other key mode ≡ ((other == session && ask_for requests.now key mode) || holds self.old other key mode)) }
        ensures same { OnErr result ((other : ℕ) (key : Key) (mode : AMode) → holds self.new other key mode ≡ holds self.old other key mode) }
    {
        self.make_session(session)?;
        match self.sessions.get_mut(&session) {
            None => Err(AllocError),
            Some(held) => lock_held(held, requests),
        }
    }

    /// Makes a place for what the session locks.
    fn make_session(&mut self, session: u32) -> Result<(), AllocError>
        ensures same { (other : ℕ) (key : Key) (mode : AMode) → holds self.new other key mode ≡ holds self.old other key mode }
    {
        if !self.sessions.contains_key(&session) {
            self.sessions.insert(session, BTreeMap::new(self.alloc))?;
        }
        Ok(())
    }

    /// Gives back all that the session has locked.
    pub fn release_all(&mut self, session: u32)
        ensures released { (other : ℕ) (key : Key) (mode : AMode) → holds self.new other key mode ≡ (if other == session then false else holds self.old other key mode) }
        ensures compatible { IsCompatible self.old → IsCompatible self.new }
    {
        self.sessions.remove(&session);
    }
}
