// The shared objects that a client holds.
ghost use Rattle.std.specs.Prelude.{◌≡◌, ◌-◌};
ghost use Rattle.indexmap.specs.IndexMap.{IsEmpty, index_map_len};
ghost use Rattle.client_cache.specs.Registries.{holds_in};
ghost use Rattle.client_cache.specs.Cleared.{AreUsed, Released};

use dd_catalog::Object;
use dd_names::ObjectKey;
use indexmap::IndexMap;
use shared_cache::Shared;
use std::sync::Arc;

/// Shared objects under their keys, in the order in which they were first held.
pub(crate) type Held = IndexMap<ObjectKey, Arc<Object>>;

/// Ends one use for each key, and holds nothing any more.
pub(crate) fn release_all(held: &mut Held, shared: &mut Shared)
    requires used { AreUsed (holds_in held.old) shared.old }
    ensures empty { IsEmpty held.new }
    ensures released { Released (holds_in held.old) (holds_in held.new) shared.old shared.new }
{
    'keys: while !held.is_empty() {
        release_last(held, shared);
    }
}

/// Ends the use of the last key, and holds it no more.
fn release_last(held: &mut Held, shared: &mut Shared)
    requires used { AreUsed (holds_in held.old) shared.old }
    ensures len { index_map_len held.new ≡ index_map_len held.old - 1 }
    ensures released { Released (holds_in held.old) (holds_in held.new) shared.old shared.new }
{
    if let Some((key, _object)) = held.pop() {
        shared.release(&key);
    }
}
