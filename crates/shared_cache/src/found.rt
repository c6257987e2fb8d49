// What a session finds at a key.
ghost use Rattle.std.specs.Prelude.{◌≡◌, ◌≢◌, Some, None, IfOk, OnErr};
ghost use Rattle.std.specs.Map.{keys_of};
ghost use Rattle.shared_cache.specs.State.{slot_at, loader_in, without};
ghost use Rattle.shared_cache.specs.Fields.{AreSlots};
ghost use Rattle.shared_cache.specs.Uses.{found_in, used_in};

use crate::slots::{Seen, Slot, Slots, make_room, one_more};
use crate::unused::{Unused, take_out};
use dd_catalog::Object;
use dd_names::ObjectKey;
use miss_table::Ticket;
use std::alloc::AllocError;
use std::sync::Arc;

/// What a session finds at a key.
pub enum Found {
    /// The object, which has one use more.
    Hit(Arc<Object>),
    /// Another session is loading it.
    Loading { by: u32 },
    /// Nothing is there, and the session may load it: it has the ticket, and there is room for the object.
    Miss(Ticket),
}

/// The object at the key with one use more, or who loads it, or a ticket. For want of memory all stays as it is.
pub(crate) fn find(
    slots: &mut Slots,
    unused: &mut Unused,
    key: &ObjectKey,
    session: u32,
) -> Result<Found, AllocError>
    ensures found { IfOk result (λ found. found_in found slots.old slots.new unused.old unused.new key.now session) }
    ensures cap { unused.new.cap ≡ unused.old.cap }
    ensures err { OnErr result (AreSlots slots.old slots.new × (unused.new ≡ unused.old)) }
{
    match slots.get_mut(key) {
        Some(slot) => use_slot(slot, unused, key),
        None => match make_room(slots, key, session) {
            Ok(ticket) => Ok(Found::Miss(ticket)),
            Err(error) => Err(error),
        },
    }
}

fn use_slot(slot: &mut Slot, unused: &mut Unused, key: &ObjectKey) -> Result<Found, AllocError>
    ensures used { IfOk result (λ found. used_in found slot.old slot.new unused.old unused.new key.now) }
    ensures cap { unused.new.cap ≡ unused.old.cap }
    ensures err { OnErr result ((slot.new ≡ slot.old) × (unused.new ≡ unused.old)) }
{
    match one_more(slot)? {
        Seen::Hit(hit) => {
            take_out(unused, key);
            Ok(Found::Hit(hit))
        }
        Seen::Loading { by } => Ok(Found::Loading { by }),
    }
}
