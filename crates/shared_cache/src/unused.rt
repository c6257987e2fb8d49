// The keys of the objects without use, the one that lost its last use latest first.
ghost use Rattle.std.specs.Prelude.{◌≡◌, ◌≤◌, ◌-◌, ◌^◌, ◌∷◌, false, take, drop, length, IfOk, OnOk, OnErr};
ghost use Rattle.std.specs.Option.{option_to_list};
ghost use Rattle.std.specs.Map.{keys_of};
ghost use Rattle.std.specs.List.{IsDistinct};
ghost use Rattle.shared_cache.specs.State.{among, without};
ghost use Rattle.shared_cache.specs.Fields.{key_eq};
ghost use Rattle.shared_cache.specs.Uses.{has_rested};

use crate::slots::{Slots, leave};
use dd_names::{ObjectKey, TryCopy};
use lru::LruCache;
use std::alloc::AllocError;

pub(crate) type Unused = LruCache<ObjectKey, ()>;

/// The key is not among them any more.
pub(crate) fn take_out(unused: &mut Unused, key: &ObjectKey)
    ensures keys { keys_of unused.new.entries ≡ without key.now (keys_of unused.old.entries) }
    ensures cap { unused.new.cap ≡ unused.old.cap }
{
    let _ = unused.len();
    unused.pop(key);
}

/// The object of the key has lost its last use, and is the first of those without use. What the capacity has no
/// place for leaves the cache; for want of memory the object itself leaves it.
pub(crate) fn rest(slots: &mut Slots, unused: &mut Unused, capacity: usize, key: &ObjectKey)
    requires absent { among (keys_of unused.old.entries) key.now ≡ false }
    requires fits { length unused.old.entries ≤ capacity }
    requires unbounded { unused.old.cap ≡ 2 ^ 64 - 1 }
    ensures rests { has_rested slots.old slots.new unused.old unused.new capacity key.now }
    ensures apart { IsDistinct key_eq (key.now ∷ keys_of unused.old.entries) }
    ensures cap { unused.new.cap ≡ unused.old.cap }
{
    let _ = unused.len();
    match put_first(unused, capacity, key) {
        Ok(None) => {}
        Ok(Some(last)) => {
            leave(slots, &last);
            drop(last);
        }
        Err(_) => leave(slots, key),
    }
}

// The key is the first, and the last that has no place is handed out.
fn put_first(
    unused: &mut Unused,
    capacity: usize,
    key: &ObjectKey,
) -> Result<Option<ObjectKey>, AllocError>
    requires absent { among (keys_of unused.old.entries) key.now ≡ false }
    requires fits { length unused.old.entries ≤ capacity }
    requires unbounded { unused.old.cap ≡ 2 ^ 64 - 1 }
    ensures kept { OnOk result (keys_of unused.new.entries ≡ take capacity (key.now ∷ keys_of unused.old.entries)) }
    ensures last { IfOk result (λ last. drop capacity (key.now ∷ keys_of unused.old.entries) ≡ option_to_list last) }
    ensures err { OnErr result (unused.new ≡ unused.old) }
    ensures cap { unused.new.cap ≡ unused.old.cap }
{
    add_first(unused, key)?;
    match unused.len() > capacity {
        true => Ok(pop_last(unused)),
        false => Ok(None),
    }
}

fn add_first(unused: &mut Unused, key: &ObjectKey) -> Result<(), AllocError>
    requires absent { among (keys_of unused.old.entries) key.now ≡ false }
    requires unbounded { unused.old.cap ≡ 2 ^ 64 - 1 }
    ensures added { OnOk result (keys_of unused.new.entries ≡ key.now ∷ keys_of unused.old.entries) }
    ensures err { OnErr result (unused.new ≡ unused.old) }
    ensures cap { unused.new.cap ≡ unused.old.cap }
{
    let _ = unused.len();
    unused.put(key.copy()?, ())?;
    Ok(())
}

fn pop_last(unused: &mut Unused) -> Option<ObjectKey>
    ensures kept { keys_of unused.new.entries ≡ take (length unused.old.entries - 1) (keys_of unused.old.entries) }
    ensures last { drop (length unused.old.entries - 1) (keys_of unused.old.entries) ≡ option_to_list result }
    ensures cap { unused.new.cap ≡ unused.old.cap }
{
    match unused.pop_lru() {
        Some((last, _)) => Some(last),
        None => None,
    }
}
