// Requests that don't go with what other sessions have locked.
ghost use Rattle.std.specs.Prelude.{◌≡◌};
ghost use Rattle.std.specs.Option.{option_map};
ghost use Rattle.metadata_locks.specs.Conflicts.{is_held_against, holder_against, first_conflict};

use crate::held::{Held, modes_at};
use crate::locks::Locks;
use crate::request::Request;

/// A request that another session has locked against.
#[derive(Clone, Copy, Drop)]
pub(crate) struct Conflict {
    pub(crate) place: usize,
    pub(crate) holder: u32,
}

/// The first of the requests that another session has locked against, with the least such session.
pub(crate) fn first_conflict(locks: &Locks, session: u32, requests: &[Request]) -> Option<Conflict>
    ensures { option_map (λ conflict. (conflict.place, conflict.holder)) result ≡ first_conflict locks.now session requests.now }
{
    'places: for place in 0..requests.len() {
        if let Some(holder) = holder_against(locks, session, &requests[place]) {
            return Some(Conflict { place, holder });
        }
    }
    None
}

fn holder_against(locks: &Locks, session: u32, request: &Request) -> Option<u32>
    ensures { result ≡ holder_against locks.now session request.now }
{
    'sessions: for (other, held) in locks.sessions.iter() {
        if is_held_against(session, request, *other, held) {
            return Some(*other);
        }
    }
    None
}

fn is_held_against(session: u32, request: &Request, other: u32, held: &Held) -> bool
    ensures { result ≡ is_held_against session request.now (other, held.now) }
{
    other != session && modes_at(held, &request.key).is_against(request.mode)
}
