ghost use Rattle.std.specs.Prelude.{◌≡◌, ◌≢◌, Some, None, OnOk, OnErr};
ghost use Rattle.dd_names.specs.declared.object_name.ObjectKey.{ObjectKey as Key};
ghost use Rattle.dd_catalog.specs.Sights.{Sight, sight};
ghost use Rattle.dd_catalog.specs.Follow.{sights};
ghost use Rattle.dd_catalog.specs.WalkLaws.{Extends, IsOf};
ghost use Rattle.plain_catalog.specs.Known.{known_in};

use dd_catalog::{Known, Lookup, Object};
use dd_names::ObjectKey;
use std::alloc::{AllocError, Global};
use std::collections::BTreeMap;

/// Keys with what stands at each, as far as it is known.
#[derive(Drop)]
pub struct Part {
    objects: BTreeMap<ObjectKey, Object>,
}

impl Part {
    /// Nothing is known.
    pub fn new(alloc: Global) -> Part
        ensures { (key : Key) → known_in result key ≡ None }
    {
        Part {
            objects: BTreeMap::new(alloc),
        }
    }

    /// From now on it is known that this stands at the key. For want of memory no more is known than before.
    pub fn add(&mut self, key: ObjectKey, object: Object) -> Result<(), AllocError>
        ensures known { OnOk result (known_in self.new key ≡ Some object) }
        ensures others { (other : Key) → other ≢ key → known_in self.new other ≡ known_in self.old other }
        ensures err { OnErr result ((other : Key) → known_in self.new other ≡ known_in self.old other) }
        // What was known is still known, and what is known stands there.
        ensures more { known_in self.old key ≡ None → Extends (sights (known_in self.old)) (sights (known_in self.new)) }
        ensures stands { (full : Key → Sight) → sight object ≡ full key → IsOf full (sights (known_in self.old)) → IsOf full (sights (known_in self.new)) }
    {
        self.objects.insert(key, object)?;
        Ok(())
    }
}

impl Lookup for Part {
    ghost use Rattle.plain_catalog.specs.Known.{known_in};

    ghost known = { known_in };

    fn look(&self, key: &ObjectKey) -> Known<'_> {
        match self.objects.get(key) {
            Some(object) => Known::Here(object),
            None => Known::Unknown,
        }
    }
}
