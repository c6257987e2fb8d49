ghost use Rattle.std.specs.Prelude.{◌≡◌, ◌++◌, ◌∷◌, List, OnOk, flat_map};
ghost use Rattle.sql_pieces.specs.Pieces.{Piece, Adds, behind};
ghost use Rattle.sql_text.specs.Parts.{comma, divided, names_pieces, name_pieces};

use crate::parts::put_name;
use dd_names::{List, Name, Text};
use std::alloc::{AllocError, Global};

/// What stands in lists.
pub trait Spelled {
    /// Its tokens.
    ghost pieces: { Self → List Piece };

    /// Adds them, each behind a blank.
    fn put(&self, alloc: Global, out: &mut Text) -> Result<(), AllocError>
        ensures { OnOk result (Adds out.old out.new (pieces self.now)) };
}

impl Spelled for Name {
    ghost use Rattle.sql_text.specs.Parts.{name_pieces};

    ghost pieces = { name_pieces };

    fn put(&self, _alloc: Global, out: &mut Text) -> Result<(), AllocError> {
        put_name(out, self)
    }
}

/// Adds a comma and a value.
fn put_behind_comma<T: Spelled>(alloc: Global, out: &mut Text, item: &T) -> Result<(), AllocError>
    ensures { OnOk result (out.new ≡ out.old ++ behind (comma ∷ T.pieces item.now)) }
{
    out.push_str(" ,")?;
    item.put(alloc, out)
}

/// Adds values, each behind a comma.
fn put_behind_commas<T: Spelled>(
    alloc: Global,
    out: &mut Text,
    items: &[T],
) -> Result<(), AllocError>
    ensures { OnOk result (out.new ≡ out.old ++ flat_map (λ x. behind (comma ∷ T.pieces x)) items.now) }
{
    'items: for item in items {
        put_behind_comma(alloc, out, item)?;
    }
    Ok(())
}

/// Adds values divided by commas.
pub fn put_divided<T: Spelled>(
    alloc: Global,
    out: &mut Text,
    items: &List<T>,
) -> Result<(), AllocError>
    ensures { OnOk result (Adds out.old out.new (divided T.pieces items.now)) }
{
    if let [first, rest @ ..] = items.as_slice() {
        first.put(alloc, out)?;
        put_behind_commas(alloc, out, rest)?;
    }
    Ok(())
}

/// Adds names between parentheses.
pub fn put_names(alloc: Global, out: &mut Text, names: &List<Name>) -> Result<(), AllocError>
    ensures { OnOk result (Adds out.old out.new (names_pieces names.now)) }
{
    out.push_str(" (")?;
    put_divided(alloc, out, names)?;
    out.push_str(" )")?;
    Ok(())
}
