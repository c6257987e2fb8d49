ghost use Rattle.std.specs.Prelude.{◌≡◌};
ghost use Rattle.dd_catalog.specs.declared.object.Object.TheVariants as objects;

use dd_catalog::Object;
use std::marker::Model;

/// The object `Absent`, to be lent.
#[derive(Drop)]
pub(crate) struct Absence {
    object: Object,
}

impl Model for Absence {
    ghost use Rattle.std.specs.Prelude.{◌≡◌};
    ghost use Rattle.dd_catalog.specs.declared.object.Object.TheVariants as variants;

    ghost Value = { Unit {0} };

    ghost view = { λ a. tt };

    ghost invariant = { λ a. a.object ≡ variants.Absent };
}

impl Absence {
    pub(crate) fn new() -> Absence {
        Absence {
            object: Object::Absent,
        }
    }

    pub(crate) fn object(&self) -> &Object
        ensures { result.now ≡ objects.Absent }
    {
        &self.object
    }
}
