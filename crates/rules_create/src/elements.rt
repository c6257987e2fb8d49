// The keys that columns say.
ghost use Rattle.std.specs.Prelude.{◌≡◌, [], ◌∷◌, if◌then◌else◌, IfOk};
ghost use Rattle.std.specs.List.{flat_map};
ghost use Rattle.rules_create.specs.Tables.{own_key, own_keys};
ghost use Rattle.rules_create.specs.Made.{own_keys_in};

use dd_names::{List, Name, TryCopy};
use sql_ast::Element;
use sql_types::{ColumnWords, IndexClass, KeyWords};
use std::alloc::{AllocError, Global};

/// The keys that the columns say, in the order of the columns.
pub(crate) fn keys_of_columns(
    alloc: Global,
    elements: &[Element],
) -> Result<List<KeyWords>, AllocError>
    ensures { IfOk result (λ keys. keys ≡ flat_map own_keys_in elements.now) }
{
    let mut keys = List::new(alloc);
    'elements: for element in elements {
        keys.append(own_keys_in(alloc, element)?)?;
    }
    Ok(keys)
}

fn own_keys_in(alloc: Global, element: &Element) -> Result<List<KeyWords>, AllocError>
    ensures { IfOk result (λ keys. keys ≡ own_keys_in element.now) }
{
    match element {
        Element::Column(words) => own_keys(alloc, words),
        _ => Ok(List::new(alloc)),
    }
}

/// The keys that a column says, the primary first.
pub fn own_keys(alloc: Global, words: &ColumnWords) -> Result<List<KeyWords>, AllocError>
    ensures { IfOk result (λ keys. keys ≡ own_keys words.now) }
{
    let mut keys = key_if(alloc, words.primary, IndexClass::Primary, &words.name)?;
    keys.append(key_if(alloc, words.unique, IndexClass::Unique, &words.name)?)?;
    Ok(keys)
}

fn key_if(
    alloc: Global,
    said: bool,
    class: IndexClass,
    column: &Name,
) -> Result<List<KeyWords>, AllocError>
    ensures { IfOk result (λ keys. keys ≡ (if said then own_key class column.now ∷ [] else [])) }
{
    let mut keys = List::new(alloc);
    if said {
        keys.push(own_key(alloc, class, column)?)?;
    }
    Ok(keys)
}

fn own_key(alloc: Global, class: IndexClass, column: &Name) -> Result<KeyWords, AllocError>
    ensures { IfOk result (λ key. key ≡ own_key class column.now) }
{
    let mut columns = List::new(alloc);
    columns.push(column.copy()?)?;
    Ok(KeyWords {
        class,
        constraint: None,
        name: None,
        columns,
    })
}
