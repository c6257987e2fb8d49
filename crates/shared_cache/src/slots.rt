// What stands at each key.
ghost use Rattle.std.specs.Prelude.{◌≡◌, ◌<◌, ◌==◌, Some, None, IfOk, OnOk, OnErr, IsSome, is_some};
ghost use Rattle.std.specs.Option.{option_map};
ghost use Rattle.shared_cache.specs.declared.slots.Slot.TheVariants.{Room, Listed};
ghost use Rattle.shared_cache.specs.State.{slot_at, object_in, uses_in, loader_in};
ghost use Rattle.shared_cache.specs.Fields.{AreSlots, IsSlot};
ghost use Rattle.shared_cache.specs.Uses.{is_used, one_less};

use dd_catalog::Object;
use dd_names::{ObjectKey, TryCopy, both};
use miss_table::Ticket;
use std::alloc::AllocError;
use std::collections::BTreeMap;
use std::sync::Arc;

/// What stands at a key of a cache.
#[derive(Drop)]
pub enum Slot {
    /// Room for the object that a session loads.
    Room { by: u32 },
    /// The object, and how many uses it has.
    Listed { object: Arc<Object>, uses: u64 },
}

/// What a look at a slot comes to.
#[derive(Drop)]
pub(crate) enum Seen {
    /// The object, which has one use more.
    Hit(Arc<Object>),
    /// The session that loads it.
    Loading { by: u32 },
}

pub(crate) type Slots = BTreeMap<ObjectKey, Slot>;

/// Makes room for the object of a key at which nothing stands. For want of memory all stays as it is.
pub(crate) fn make_room(
    slots: &mut Slots,
    key: &ObjectKey,
    session: u32,
) -> Result<Ticket, AllocError>
    ensures ticket { IfOk result (λ ticket. ticket ≡ record { key = key.now; session = session }) }
    ensures room { OnOk result (IsSlot slots.old slots.new key.now (Some (Room session))) }
    ensures err { OnErr result (AreSlots slots.old slots.new) }
{
    match both(key.copy(), key.copy()) {
        Ok((stored, told)) => enter(slots, stored, told, session),
        Err(error) => Err(error),
    }
}

fn enter(
    slots: &mut Slots,
    stored: ObjectKey,
    told: ObjectKey,
    session: u32,
) -> Result<Ticket, AllocError>
    ensures ticket { IfOk result (λ ticket. ticket ≡ record { key = told; session = session }) }
    ensures room { OnOk result (IsSlot slots.old slots.new stored (Some (Room session))) }
    ensures err { OnErr result (AreSlots slots.old slots.new) }
{
    match insert_room(slots, stored, session) {
        Ok(()) => Ok(Ticket { key: told, session }),
        Err(error) => {
            drop(told);
            Err(error)
        }
    }
}

fn insert_room(slots: &mut Slots, key: ObjectKey, session: u32) -> Result<(), AllocError>
    ensures room { OnOk result (IsSlot slots.old slots.new key (Some (Room session))) }
    ensures err { OnErr result (AreSlots slots.old slots.new) }
{
    slots.insert(key, Slot::Room { by: session })?;
    Ok(())
}

/// One use more of what is listed, or who loads it.
pub(crate) fn one_more(slot: &mut Slot) -> Result<Seen, AllocError>
    ensures used { IfOk result (λ seen. is_used seen slot.old slot.new) }
    ensures err { OnErr result (slot.new ≡ slot.old) }
{
    match slot {
        Slot::Room { by } => Ok(Seen::Loading { by: *by }),
        Slot::Listed { object, uses } => match uses.checked_add(1) {
            Some(more) => {
                let hit = Arc::try_clone(object)?;
                *uses = more;
                Ok(Seen::Hit(hit))
            }
            None => Err(AllocError),
        },
    }
}

/// Lists the object in its room, with one use.
pub(crate) fn fill(slots: &mut Slots, ticket: Ticket, object: Arc<Object>)
    requires { loader_in (slot_at slots.old.entries ticket.key) ≡ Some ticket.session }
    ensures { IsSlot slots.old slots.new ticket.key (Some (Listed object 1)) }
{
    put_at(slots, &ticket.key, object);
    take_back(ticket);
}

/// Nobody has the ticket any more.
pub(crate) fn take_back(ticket: Ticket) {
    let Ticket { key, session: _ } = ticket;
    drop(key);
}

fn put_at(slots: &mut Slots, key: &ObjectKey, object: Arc<Object>)
    requires { IsSome (slot_at slots.old.entries key.now) }
    ensures { IsSlot slots.old slots.new key.now (Some (Listed object 1)) }
{
    if let Some(slot) = slots.get_mut(key) {
        list(slot, object);
    }
}

fn list(slot: &mut Slot, object: Arc<Object>)
    ensures { slot.new ≡ Listed object 1 }
{
    *slot = Slot::Listed { object, uses: 1 };
}

/// Nothing is at the key any more.
pub(crate) fn leave(slots: &mut Slots, key: &ObjectKey)
    ensures { IsSlot slots.old slots.new key.now None }
{
    slots.remove(key);
}

/// Whether an object is listed at the key.
pub(crate) fn is_listed(slots: &Slots, key: &ObjectKey) -> bool
    ensures { result ≡ is_some (object_in (slot_at slots.now.entries key.now)) }
{
    match slots.get(key) {
        Some(Slot::Listed { object: _, uses: _ }) => true,
        _ => false,
    }
}

/// Ends a use of what is listed at the key, and tells whether it was the last.
pub(crate) fn ends_last(slots: &mut Slots, key: &ObjectKey) -> bool
    requires { IsSome (object_in (slot_at slots.old.entries key.now)) → 0 < uses_in (slot_at slots.old.entries key.now) }
    ensures last { result ≡ (uses_in (slot_at slots.old.entries key.now) == 1) }
    ensures slot { IsSlot slots.old slots.new key.now (option_map one_less (slot_at slots.old.entries key.now)) }
{
    match slots.get_mut(key) {
        Some(slot) => ends_use(slot),
        None => false,
    }
}

fn ends_use(slot: &mut Slot) -> bool
    requires { IsSome (object_in (Some slot.old)) → 0 < uses_in (Some slot.old) }
    ensures last { result ≡ (uses_in (Some slot.old) == 1) }
    ensures slot { slot.new ≡ one_less slot.old }
{
    match slot {
        Slot::Room { by: _ } => false,
        Slot::Listed { object: _, uses } => {
            *uses -= 1;
            *uses == 0
        }
    }
}
