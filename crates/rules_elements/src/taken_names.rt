// The names that a table's indexes have so far.
ghost use Rattle.std.specs.Prelude.{◌≡◌, ℕ, [], ◌∷◌, ◌++◌, List, IfOk, OnOk};
ghost use Rattle.dd_names.specs.Names.{fold};
ghost use Rattle.dd_definitions.specs.declared.indexes.IndexDef.{IndexDef as Index};
ghost use Rattle.rules_elements.specs.Keys.{has_index_named, is_taken, numbered, free_name};
ghost use Rattle.rules_elements.specs.Taken.{AreNamesOf, IsTried};

use crate::index_names::is_primary_name;
use dd_definitions::IndexDef;
use dd_names::{Name, Text, TryCopy};
use std::alloc::{AllocError, Global};
use std::collections::{BTreeMap, BTreeSet};

/// The names of a table's indexes, so that none of them is looked at again for a new one: the names themselves, folded, and for
/// a column's name the number at which the search for a free name with it goes on.
#[derive(Drop)]
pub struct TakenNames {
    folded: BTreeSet<Text>,
    tried: BTreeMap<Name, usize>,
}

impl TakenNames {
    /// Those of no index.
    pub fn new(alloc: Global) -> TakenNames
        ensures { AreNamesOf result [] }
    {
        TakenNames {
            folded: BTreeSet::new(alloc),
            tried: BTreeMap::new(alloc),
        }
    }

    /// Those of the indexes.
    pub fn of(alloc: Global, indexes: &[IndexDef]) -> Result<TakenNames, AllocError>
        ensures { IfOk result (λ names. AreNamesOf names indexes.now) }
    {
        let mut names = TakenNames::new(alloc);
        'indexes: for index in indexes {
            names.add(alloc, &index.name)?;
        }
        Ok(names)
    }

    /// Adds the name of one index more, which stands behind the others.
    pub fn add(&mut self, alloc: Global, name: &Name) -> Result<(), AllocError>
        ensures { (indexes : List Index) (index : Index) → index.name ≡ name.now → AreNamesOf self.old indexes → OnOk result (AreNamesOf self.new (indexes ++ index ∷ [])) }
    {
        let name = folded(alloc, name.as_str())?;
        self.folded.insert(name)?;
        Ok(())
    }

    /// Whether an index has the name, in any case.
    pub(crate) fn has(&self, alloc: Global, name: &str) -> Result<bool, AllocError>
        ensures { (indexes : List Index) → AreNamesOf self.now indexes → IfOk result (λ has. has ≡ has_index_named indexes name.now) }
    {
        let name = folded(alloc, name)?;
        Ok(self.folded.contains(&name))
    }

    /// Whether an index has the name, or the primary key would have it.
    fn is_taken(&self, alloc: Global, name: &str) -> Result<bool, AllocError>
        ensures { (indexes : List Index) → AreNamesOf self.now indexes → IfOk result (λ is. is ≡ is_taken indexes name.now) }
    {
        let has = self.has(alloc, name)?;
        Ok(has || is_primary_name(name))
    }

    /// The first name that is free of this one by itself and with `_2`, `_3` and so on.
    pub(crate) fn free_name(
        &mut self,
        alloc: Global,
        indexes: &[IndexDef],
        base: &Name,
    ) -> Result<Text, AllocError>
        requires { AreNamesOf self.old indexes.now }
        ensures free { IfOk result (λ name. name ≡ free_name indexes.now base.now) }
        ensures names { OnOk result (AreNamesOf self.new indexes.now) }
    {
        let number = self.free_number(alloc, indexes, base)?;
        self.tried.insert(base.copy()?, number)?;
        Ok(numbered(alloc, base.as_str(), number)?)
    }

    /// The number of the first name that is free.
    fn free_number(
        &self,
        alloc: Global,
        indexes: &[IndexDef],
        base: &Name,
    ) -> Result<usize, AllocError>
        requires { AreNamesOf self.now indexes.now }
        ensures free { IfOk result (λ number. numbered base.now number ≡ free_name indexes.now base.now) }
        ensures tried { IfOk result (λ number. IsTried indexes.now base.now number) }
    {
        let last = indexes.len() + 2;
        let first = self.first_untried(base);
        'numbers: for number in first..last {
            let name = numbered(alloc, base.as_str(), number)?;
            if !self.is_taken(alloc, name.as_str())? {
                return Ok(number);
            }
        }
        Ok(last)
    }

    /// A number at which the search goes on: with each below it the name is taken.
    fn first_untried(&self, base: &Name) -> usize
        ensures { (indexes : List Index) → AreNamesOf self.now indexes → IsTried indexes base.now result }
    {
        match self.tried.get(base) {
            Some(number) => *number,
            None => 1,
        }
    }
}

/// The name by itself at number 1, then with `_2`, `_3` and so on.
fn numbered(alloc: Global, base: &str, number: usize) -> Result<Text, AllocError>
    ensures { IfOk result (λ name. name ≡ numbered base.now number) }
{
    if number == 1 {
        return Text::of(alloc, base);
    }
    Ok(Text::from_string(format!(in alloc; "{base}_{number}")?))
}

fn folded(alloc: Global, name: &str) -> Result<Text, AllocError>
    ensures { IfOk result (λ text. text ≡ fold name.now) }
{
    Text::of(alloc, name)?.lowered()
}
