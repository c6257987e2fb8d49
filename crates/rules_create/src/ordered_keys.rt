// The foreign keys that a table has so far, in the order of their folded names.
ghost use Rattle.std.specs.Prelude.{◌≡◌, ℕ, ◌+◌, ◌++◌, ◌^◌, ◌<◌, [], false, List, IfOk, OnOk};
ghost use Rattle.std.specs.Fmt.{decimal};
ghost use Rattle.dd_names.specs.Names.{fold};
ghost use Rattle.dd_catalog.specs.WalkLaws.{Look};
ghost use Rattle.dd_catalog.specs.Walks.{run};
ghost use Rattle.dd_catalog.specs.Follow.{Follows};
ghost use Rattle.rules_elements.specs.ForeignKeys.{has_constraint_named};
ghost use Rattle.rules_create.specs.Tables.{put_in_order};
ghost use Rattle.rules_create.specs.Drafts.{keys_in, AreOrdered, added_key};

use crate::constraints::{behind, constraint_front};
use crate::numbers::{greater, number_of, with_number};
use dd_catalog::Stop;
use dd_definitions::ForeignKeyDef;
use dd_names::{List, Name, Text};
use std::alloc::{AllocError, Global};
use std::collections::BTreeMap;

/// The foreign keys by their folded names, with the greatest number that their names have behind `<table>_ibfk_`.
#[derive(Drop)]
pub(crate) struct OrderedKeys {
    by_name: BTreeMap<Name, ForeignKeyDef>,
    front: Text,
    greatest: u128,
}

impl OrderedKeys {
    /// None, of a table of this name.
    pub(crate) fn none(alloc: Global, table: &Name) -> Result<OrderedKeys, AllocError>
        ensures none { IfOk result (λ keys. keys_in keys ≡ []) }
        ensures ordered { IfOk result (λ keys. AreOrdered keys table.now) }
    {
        let front = constraint_front(alloc, table)?;
        Ok(OrderedKeys {
            by_name: BTreeMap::new(alloc),
            front,
            greatest: 0,
        })
    }

    /// Adds one. A name that is there: 1826.
    pub(crate) fn add(&mut self, alloc: Global, key: ForeignKeyDef) -> Result<(), Stop>
        ensures exact { (look : Look) (table : List ℕ) → AreOrdered self.old table → Follows (λ _. keys_in self.new) result (run look (added_key (keys_in self.old) key)) }
        ensures ordered { (table : List ℕ) → AreOrdered self.old table → OnOk result (AreOrdered self.new table) }
    {
        let folded = key.name.fold()?;
        if self.by_name.contains_key(&folded) {
            return Err(rules_refusals::fk_dup_name(alloc, &key.name)?);
        }
        self.put(folded, key)?;
        Ok(())
    }

    /// Puts one whose name isn't there in its place.
    fn put(&mut self, folded: Name, key: ForeignKeyDef) -> Result<(), AllocError>
        ensures keys { (table : List ℕ) → AreOrdered self.old table → folded ≡ fold key.name → has_constraint_named (keys_in self.old) key.name ≡ false → OnOk result (keys_in self.new ≡ put_in_order key (keys_in self.old)) }
        ensures ordered { (table : List ℕ) → AreOrdered self.old table → folded ≡ fold key.name → has_constraint_named (keys_in self.old) key.name ≡ false → OnOk result (AreOrdered self.new table) }
    {
        let number = number_of(behind(self.front.as_str(), key.name.as_str()));
        self.by_name.insert(folded, key)?;
        self.greatest = greater(self.greatest, number);
        Ok(())
    }

    /// The name of one that isn't given any: the front and one more than the greatest number.
    pub(crate) fn next_name(&self, alloc: Global) -> Result<Text, AllocError>
        requires { self.now.greatest < 10 ^ 38 }
        ensures { IfOk result (λ name. name ≡ self.now.front ++ decimal (self.now.greatest + 1)) }
    {
        with_number(alloc, self.front.as_str(), self.greatest + 1)
    }

    /// All in order.
    pub(crate) fn into_list(self, alloc: Global) -> Result<List<ForeignKeyDef>, AllocError>
        ensures { IfOk result (λ keys. keys ≡ keys_in self) }
    {
        let OrderedKeys {
            by_name,
            front: _,
            greatest: _,
        } = self;
        Ok(List::from_vec(by_name.into_values().collect(alloc)?))
    }
}
