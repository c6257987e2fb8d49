// What one session has locked.
ghost use Rattle.std.specs.Prelude.{◌≡◌, ◌||◌, OnOk, OnErr};
ghost use Rattle.metadata_locks.specs.declared.request.LockKey.{LockKey as Key};
ghost use Rattle.metadata_locks.specs.declared.request.Mode.{Mode as AMode};
ghost use Rattle.metadata_locks.specs.Modes.{has, with_mode};
ghost use Rattle.metadata_locks.specs.Held.{modes_at, HasPlace, HavePlaces, is_for, ask_for};

use crate::modes::Modes;
use crate::request::{LockKey, Mode, Request};
use dd_names::TryCopy;
use std::alloc::AllocError;
use std::collections::BTreeMap;

/// Keys with the modes in which one session has locked each; a place with no mode says nothing.
pub(crate) type Held = BTreeMap<LockKey, Modes>;

pub(crate) fn modes_at(held: &Held, key: &LockKey) -> Modes
    ensures { result ≡ modes_at held.now key.now }
{
    match held.get(key) {
        Some(modes) => *modes,
        None => Modes::none(),
    }
}

/// Locks all that is asked for; for want of memory nothing is locked besides.
pub(crate) fn lock_held(held: &mut Held, requests: &[Request]) -> Result<(), AllocError>
    ensures granted { OnOk result ((key : Key) (mode : AMode) → has (modes_at held.new key) mode ≡ (ask_for requests.now key mode || has (modes_at held.old key) mode)) }
    ensures same { OnErr result ((key : Key) → modes_at held.new key ≡ modes_at held.old key) }
{
    make_places(held, requests)?;
    grant_all(held, requests);
    Ok(())
}

/// Makes a place for each key that is asked for.
fn make_places(held: &mut Held, requests: &[Request]) -> Result<(), AllocError>
    ensures same { (key : Key) → modes_at held.new key ≡ modes_at held.old key }
    ensures places { OnOk result (HavePlaces held.new requests.now) }
{
    'places: for place in 0..requests.len() {
        make_place(held, &requests[place].key)?;
    }
    Ok(())
}

fn make_place(held: &mut Held, key: &LockKey) -> Result<(), AllocError>
    ensures same { (other : Key) → modes_at held.new other ≡ modes_at held.old other }
    ensures place { OnOk result (HasPlace held.new key.now) }
    ensures others { (other : Key) → HasPlace held.old other → HasPlace held.new other }
{
    if !held.contains_key(key) {
        held.insert(key.copy()?, Modes::none())?;
    }
    Ok(())
}

/// Locks what is asked for, where there is a place for it.
fn grant_all(held: &mut Held, requests: &[Request])
    requires places { HavePlaces held.old requests.now }
    ensures granted { (key : Key) (mode : AMode) → has (modes_at held.new key) mode ≡ (ask_for requests.now key mode || has (modes_at held.old key) mode) }
{
    'places: for place in 0..requests.len() {
        grant(held, &requests[place]);
    }
}

fn grant(held: &mut Held, request: &Request)
    requires place { HasPlace held.old request.now.key }
    ensures granted { (key : Key) (mode : AMode) → has (modes_at held.new key) mode ≡ (is_for key mode request.now || has (modes_at held.old key) mode) }
    ensures others { (other : Key) → HasPlace held.old other → HasPlace held.new other }
{
    if let Some(modes) = held.get_mut(&request.key) {
        modes.add(request.mode);
    }
}
