ghost use Rattle.std.specs.Prelude.{◌≡◌, [], OnOk, length};
ghost use Rattle.rules_rename.specs.Renames.{with_child, with_all};
ghost use Rattle.rules_rename.specs.Pairs.{AreSame};

use dd_names::{List, ObjName, TryCopy};
use std::alloc::{AllocError, Global};
use std::collections::BTreeSet;

/// Different names in the order in which they came, and the same as a set.
#[derive(Drop)]
pub(crate) struct ChildNames {
    names: List<ObjName>,
    known: BTreeSet<ObjName>,
}

impl ChildNames {
    pub(crate) fn new(alloc: Global) -> ChildNames
        ensures none { result.names ≡ [] }
        ensures same { AreSame result }
    {
        ChildNames {
            names: List::new(alloc),
            known: BTreeSet::new(alloc),
        }
    }

    pub(crate) fn len(&self) -> usize
        ensures { result ≡ length self.now.names }
    {
        self.names.len()
    }

    /// Adds those that aren't there.
    pub(crate) fn add_all(&mut self, more: &[ObjName]) -> Result<(), AllocError>
        ensures added { AreSame self.old → OnOk result (self.new.names ≡ with_all self.old.names more.now) }
        ensures same { AreSame self.old → OnOk result (AreSame self.new) }
    {
        'more: for name in more {
            self.add(name)?;
        }
        Ok(())
    }

    fn add(&mut self, name: &ObjName) -> Result<(), AllocError>
        ensures added { AreSame self.old → OnOk result (self.new.names ≡ with_child self.old.names name.now) }
        ensures same { AreSame self.old → OnOk result (AreSame self.new) }
    {
        if self.known.contains(name) {
            return Ok(());
        }
        self.names.push(name.copy()?)?;
        self.known.insert(name.copy()?)?;
        Ok(())
    }
}
