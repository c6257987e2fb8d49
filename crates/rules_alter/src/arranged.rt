// The order of the indexes behind an action.
ghost use Rattle.std.specs.Prelude.{◌≡◌, ◌++◌, [], ◌∷◌, filter, if◌then◌else◌, map, IfOk, OnOk};
ghost use Rattle.std.specs.List.{find};
ghost use Rattle.std.specs.Option.{option_copied};
ghost use Rattle.std.specs.Str.{bytes_eq};
ghost use Rattle.rules_alter.specs.Arranged.{arranged_by, in_turn, is_standing, ranked, ranks_of, standing, standing_at, standing_so, stands_so};

use dd_definitions::{ColumnDef, IndexDef, TableParts};
use dd_names::{List, Name, TryCopy};
use rules_create::{by_class, rank};
use std::alloc::{AllocError, Global};

/// An index by its name, and the rank of its class among the classes.
#[derive(Drop)]
pub struct Ranked {
    pub name: Name,
    pub rank: u8,
}

/// How an index stands behind an action: in the class in which it stood, in another one, or it is new.
#[derive(Clone, Copy)]
pub enum Standing {
    Stays,
    Moves,
    Comes,
}

/// The ranks of the table's indexes.
pub(crate) fn ranks_of(alloc: Global, parts: &TableParts) -> Result<List<Ranked>, AllocError>
    ensures { IfOk result (λ ranks. ranks ≡ ranks_of parts.now) }
{
    let columns = parts.columns.as_slice();
    let mut ranks = List::new(alloc);
    'indexes: for index in parts.indexes.as_slice() {
        ranks.push(rank_of(columns, index)?)?;
    }
    Ok(ranks)
}

fn rank_of(columns: &[ColumnDef], index: &IndexDef) -> Result<Ranked, AllocError>
    ensures { IfOk result (λ found. found ≡ ranked columns.now index.now) }
{
    Ok(Ranked {
        name: index.name.copy()?,
        rank: rank(columns, index),
    })
}

/// Puts the indexes in order behind an action, where these were their ranks before it.
pub(crate) fn arrange(
    alloc: Global,
    before: &List<Ranked>,
    parts: &mut TableParts,
) -> Result<(), AllocError>
    ensures { OnOk result (parts.new ≡ arranged_by before.now parts.old) }
{
    let columns = parts.columns.as_slice();
    let turned = in_turn(alloc, before.as_slice(), columns, parts.indexes.as_slice())?;
    let indexes = by_class(alloc, columns, turned.as_slice())?;
    parts.indexes = indexes;
    Ok(())
}

fn in_turn(
    alloc: Global,
    before: &[Ranked],
    columns: &[ColumnDef],
    indexes: &[IndexDef],
) -> Result<List<IndexDef>, AllocError>
    ensures { IfOk result (λ found. found ≡ in_turn before.now columns.now indexes.now) }
{
    let mut found = standing_so(alloc, before, columns, indexes, Standing::Stays)?;
    add_standing(alloc, before, columns, indexes, Standing::Moves, &mut found)?;
    add_standing(alloc, before, columns, indexes, Standing::Comes, &mut found)?;
    Ok(found)
}

fn add_standing(
    alloc: Global,
    before: &[Ranked],
    columns: &[ColumnDef],
    indexes: &[IndexDef],
    wanted: Standing,
    found: &mut List<IndexDef>,
) -> Result<(), AllocError>
    ensures { OnOk result (found.new ≡ found.old ++ standing_so before.now columns.now indexes.now wanted) }
{
    found.append(standing_so(alloc, before, columns, indexes, wanted)?)?;
    Ok(())
}

fn standing_so(
    alloc: Global,
    before: &[Ranked],
    columns: &[ColumnDef],
    indexes: &[IndexDef],
    wanted: Standing,
) -> Result<List<IndexDef>, AllocError>
    ensures { IfOk result (λ found. found ≡ standing_so before.now columns.now indexes.now wanted) }
{
    let mut found = List::new(alloc);
    'indexes: for index in indexes {
        found.append(if_standing(alloc, before, columns, wanted, index)?)?;
    }
    Ok(found)
}

/// The index by itself, where it stands so.
fn if_standing(
    alloc: Global,
    before: &[Ranked],
    columns: &[ColumnDef],
    wanted: Standing,
    index: &IndexDef,
) -> Result<List<IndexDef>, AllocError>
    ensures { IfOk result (λ found. found ≡ (if stands_so before.now columns.now wanted index.now then index.now ∷ [] else [])) }
{
    let mut found = List::new(alloc);
    if is_standing(standing_of(before, columns, index), wanted) {
        found.push(index.copy()?)?;
    }
    Ok(found)
}

fn is_standing(a: Standing, b: Standing) -> bool
    ensures { result ≡ is_standing a b }
{
    matches!(
        (a, b),
        (Standing::Stays, Standing::Stays)
            | (Standing::Moves, Standing::Moves)
            | (Standing::Comes, Standing::Comes)
    )
}

fn standing_of(before: &[Ranked], columns: &[ColumnDef], index: &IndexDef) -> Standing
    ensures { result ≡ standing before.now columns.now index.now }
{
    let now = rank(columns, index);
    match ranked_before(before, &index.name) {
        None => Standing::Comes,
        Some(stood) => standing_at(stood.rank, now),
    }
}

fn standing_at(stood: u8, now: u8) -> Standing
    ensures { result ≡ standing_at stood now }
{
    if stood == now {
        Standing::Stays
    } else {
        Standing::Moves
    }
}

fn ranked_before<'a>(before: &'a [Ranked], name: &Name) -> Option<&'a Ranked>
    ensures { option_copied result ≡ find (λ stood. bytes_eq stood.name name.now) before.now }
{
    before.iter().find(|stood| stood.name == *name)
}
