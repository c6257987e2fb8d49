// The names of constraints, and the order of foreign keys by them.
ghost use Rattle.std.specs.Prelude.{◌≡◌, ◌≤◌, IfOk, OnOk, length};
ghost use Rattle.std.specs.List.{insert};
ghost use Rattle.std.specs.Option.{option_copied};
ghost use Rattle.std.specs.Ordering.{is_le};
ghost use Rattle.dd_names.specs.Names.{fold, name_cmp};
ghost use Rattle.dd_definitions.specs.declared.foreign_keys.ForeignKeyDef.{ForeignKeyDef as Key};
ghost use Rattle.rules_create.specs.Tables.{behind, constraint_front, put_in_order};

use dd_definitions::ForeignKeyDef;
use dd_names::{List, Name, Text};
use std::alloc::{AllocError, Global};
use std::mem;

/// What stands in front of the number in the names that constraints of the table are given: `<table>_ibfk_`.
pub fn constraint_front(alloc: Global, table: &Name) -> Result<Text, AllocError>
    ensures { IfOk result (λ front. front ≡ constraint_front table.now) }
{
    let table = table.as_str();
    Ok(Text::from_string(format!(in alloc; "{table}_ibfk_")?))
}

/// What stands behind the front, where the text begins with it.
pub fn behind<'a>(front: &str, text: &'a str) -> Option<&'a str>
    ensures { option_copied result ≡ behind front.now text.now }
{
    text.strip_prefix(front)
}

/// Puts a foreign key among others, which are in the byte order of their folded names: in front of the first that comes behind
/// it.
pub fn put_in_order(
    alloc: Global,
    key: ForeignKeyDef,
    keys: &mut List<ForeignKeyDef>,
) -> Result<(), AllocError>
    ensures { OnOk result (keys.new ≡ put_in_order key keys.old) }
{
    let place = place_in_order(&key.name, keys.as_slice())?;
    let mut items = mem::replace(keys, List::new(alloc)).into_vec();
    items.insert(place, key)?;
    *keys = List::from_vec(items);
    Ok(())
}

/// The number of foreign keys that stand in front of one of that name.
fn place_in_order(name: &Name, keys: &[ForeignKeyDef]) -> Result<usize, AllocError>
    ensures within { IfOk result (λ place. place ≤ length keys.now) }
    ensures place { (key : Key) → name.now ≡ key.name → IfOk result (λ place. insert keys.now place key ≡ put_in_order key keys.now) }
{
    let folded = name.fold()?;
    'keys: for place in 0..keys.len() {
        if !is_at_most(&keys[place].name, &folded)? {
            return Ok(place);
        }
    }
    Ok(keys.len())
}

/// Whether the name, folded, comes no later than a folded name.
fn is_at_most(name: &Name, folded: &Name) -> Result<bool, AllocError>
    ensures { IfOk result (λ is. is ≡ is_le (name_cmp (fold name.now) folded.now)) }
{
    Ok(name.fold()?.cmp(folded).is_le())
}
