// What one pair changes.
ghost use Rattle.std.specs.Prelude.{◌≡◌, ℕ, [], ◌∷◌, ◌++◌, not, IfOk, OnOk, Option, map};
ghost use Rattle.std.specs.Str.{bytes_eq};
ghost use Rattle.dd_names.specs.declared.object_name.ObjName.{ObjName as NameOf};
ghost use Rattle.dd_names.specs.declared.object_name.ObjectKey.{ObjectKey as Key};
ghost use Rattle.dd_catalog.specs.declared.object.Object.{Object as Standing};
ghost use Rattle.dd_catalog.specs.Sights.{sight};
ghost use Rattle.dd_catalog.specs.Walks.{run, refuse_if, each};
ghost use Rattle.dd_catalog.specs.WalkLaws.{Look};
ghost use Rattle.dd_catalog.specs.Follow.{Follows};
ghost use Rattle.rules_outcome.specs.Decided.{KnownTable, KnownView, HasIdsAt};
ghost use Rattle.rules_refusals.specs.Refusals.{forbid_schema_change};
ghost use Rattle.rules_rename.specs.Renames.{child_after, renamed_child, renamed_table, renamed_view, renamed_seen, renamed_object};
ghost use Rattle.rules_rename.specs.Left.{after_left, kept};
ghost use Rattle.rules_rename.specs.Ids.{IsWithIds, AreWithIds};
ghost use Rattle.rules_rename.specs.Puts.{entry_of, behind};
ghost use Rattle.rules_rename.specs.Pairs.{renamed_of, moved_to};

use crate::children::children_at;
use crate::foreign_keys::{renamed_def, with_parents};
use crate::left::Left;
use crate::objects::{name_is_free, object_at, schema_id};
use crate::overlay::Overlay;
use crate::pairs::Renamed;
use dd_catalog::{Lookup, Object, Stop};
use dd_definitions::{TableDef, ViewDef, ViewParts};
use dd_names::{List, Name, ObjName, TryCopy, both};
use std::alloc::{AllocError, Global};

/// The object has the new name, its constraints and its children follow. Absent: 1146; a view to another schema: 1450; the new
/// name taken: 1050; its constraints: 1059, 1826.
pub(crate) fn renamed_object<L: Lookup>(
    alloc: Global,
    overlay: &Overlay,
    from: &ObjName,
    to: &ObjName,
    look: &L,
) -> Result<Renamed, Stop>
    ensures exact { Follows renamed_of result (run (behind (L.known look.now) overlay.now) (renamed_object from.now to.now)) }
    ensures ids { AreWithIds (L.known look.now) overlay.now → IfOk result (λ renamed. AreWithIds (L.known look.now) renamed.changes) }
{
    let now = object_at(overlay, from, look)?;
    renamed_seen(alloc, overlay, from, to, now, look)
}

fn renamed_seen<L: Lookup>(
    alloc: Global,
    overlay: &Overlay,
    from: &ObjName,
    to: &ObjName,
    now: &Object,
    look: &L,
) -> Result<Renamed, Stop>
    ensures exact { Follows renamed_of result (run (behind (L.known look.now) overlay.now) (renamed_seen from.now to.now (sight now.now))) }
    ensures ids { HasIdsAt (L.known look.now) from.now (kept now.now) → AreWithIds (L.known look.now) overlay.now → IfOk result (λ renamed. AreWithIds (L.known look.now) renamed.changes) }
{
    match now {
        Object::Table { id, space, def, .. } => {
            let ids = TableIds {
                id: *id,
                space: *space,
            };
            renamed_table(alloc, overlay, from, to, ids, def, look)
        }
        Object::View { id, def, .. } => { renamed_view(alloc, overlay, from, to, *id, def, look) }
        _ => Err(rules_refusals::no_such_table(alloc, from)?),
    }
}

/// The ids of a table.
#[derive(Clone, Copy)]
struct TableIds {
    id: u32,
    space: u32,
}

fn renamed_table<L: Lookup>(
    alloc: Global,
    overlay: &Overlay,
    from: &ObjName,
    to: &ObjName,
    ids: TableIds,
    def: &TableDef,
    look: &L,
) -> Result<Renamed, Stop>
    ensures exact { Follows renamed_of result (run (behind (L.known look.now) overlay.now) (renamed_table from.now to.now ids.space def.now)) }
    ensures ids { ((own : ℕ) × KnownTable (L.known look.now) ids.id own ids.space) → AreWithIds (L.known look.now) overlay.now → IfOk result (λ renamed. AreWithIds (L.known look.now) renamed.changes) }
{
    let schema = schema_id(&to.schema, look)?;
    name_is_free(alloc, overlay, to, look)?;
    let table = renamed_def(alloc, overlay, from, to, def, look)?;
    let after = Left::table(ids.id, schema, ids.space, table);
    let mut changes = moved(alloc, from, to, after)?;
    let children = children_at(alloc, overlay, from, look)?;
    changes.append(renamed_children(alloc, overlay, from, to, children.as_slice(), look)?)?;
    Ok(Renamed { changes, children })
}

fn renamed_view<L: Lookup>(
    alloc: Global,
    overlay: &Overlay,
    from: &ObjName,
    to: &ObjName,
    id: u32,
    def: &ViewDef,
    look: &L,
) -> Result<Renamed, Stop>
    ensures exact { Follows renamed_of result (run (behind (L.known look.now) overlay.now) (renamed_view from.now to.now def.now)) }
    ensures ids { ((own : ℕ) × KnownView (L.known look.now) id own) → IfOk result (λ renamed. AreWithIds (L.known look.now) renamed.changes) }
{
    let schema = schema_id(&to.schema, look)?;
    same_schema(alloc, &from.schema, &to.schema)?;
    name_is_free(alloc, overlay, to, look)?;
    let after = Left::view(id, schema, view_named(to, def)?);
    Ok(Renamed {
        changes: moved(alloc, from, to, after)?,
        children: List::new(alloc),
    })
}

/// A view doesn't go to another schema: 1450.
fn same_schema(alloc: Global, from: &Name, to: &Name) -> Result<(), Stop>
    ensures { (look : Look) → Follows (λ _. tt) result (run look (refuse_if (not (bytes_eq from.now to.now)) (forbid_schema_change from.now to.now))) }
{
    if *from == *to {
        return Ok(());
    }
    Err(rules_refusals::forbid_schema_change(alloc, from, to)?)
}

fn view_named(to: &ObjName, def: &ViewDef) -> Result<ViewDef, AllocError>
    ensures { IfOk result (λ renamed. renamed ≡ record def.now { name = to.now }) }
{
    let parts = def.parts();
    match ViewDef::of(ViewParts {
        name: to.copy()?,
        sources: parts.sources.copy()?,
        outputs: parts.outputs.copy()?,
    }) {
        Ok(renamed) => Ok(renamed),
        Err(_) => Err(AllocError),
    }
}

/// The old name has nothing, and the new one has this.
fn moved(
    alloc: Global,
    from: &ObjName,
    to: &ObjName,
    after: Left,
) -> Result<List<(ObjName, Left)>, AllocError>
    ensures { IfOk result (λ puts. puts ≡ moved_to from.now to.now after) }
{
    let mut puts = List::new(alloc);
    add(&mut puts, from, Left::nothing())?;
    add(&mut puts, to, after)?;
    Ok(puts)
}

fn add(puts: &mut List<(ObjName, Left)>, name: &ObjName, after: Left) -> Result<(), AllocError>
    ensures { OnOk result (puts.new ≡ puts.old ++ (name.now, after) ∷ []) }
{
    puts.push((name.copy()?, after))?;
    Ok(())
}

fn renamed_children<L: Lookup>(
    alloc: Global,
    overlay: &Overlay,
    from: &ObjName,
    to: &ObjName,
    children: &[ObjName],
    look: &L,
) -> Result<List<(ObjName, Left)>, Stop>
    ensures exact { Follows (λ puts. map entry_of puts) result (run (behind (L.known look.now) overlay.now) (each (renamed_child from.now to.now) children.now)) }
    ensures ids { AreWithIds (L.known look.now) overlay.now → IfOk result (λ puts. AreWithIds (L.known look.now) puts) }
{
    let mut puts = List::new(alloc);
    'children: for child in children {
        puts.push(renamed_child(alloc, overlay, from, to, child, look)?)?;
    }
    Ok(puts)
}

/// The child, which refers to the table by its new name.
fn renamed_child<L: Lookup>(
    alloc: Global,
    overlay: &Overlay,
    from: &ObjName,
    to: &ObjName,
    child: &ObjName,
    look: &L,
) -> Result<(ObjName, Left), Stop>
    ensures exact { Follows entry_of result (run (behind (L.known look.now) overlay.now) (renamed_child from.now to.now child.now)) }
    ensures ids { AreWithIds (L.known look.now) overlay.now → IfOk result (λ put. IsWithIds (L.known look.now) put) }
{
    let now = object_at(overlay, child, look)?;
    Ok(both(child.copy(), child_after(alloc, from, to, now))?)
}

fn child_after(
    alloc: Global,
    from: &ObjName,
    to: &ObjName,
    object: &Object,
) -> Result<Left, AllocError>
    ensures after { IfOk result (λ left. after_left left ≡ child_after from.now to.now (sight object.now)) }
    ensures ids { (known : Key → Option Standing) → (name : NameOf) → HasIdsAt known name (kept object.now) → IfOk result (λ left. HasIdsAt known name (kept left)) }
{
    match object {
        Object::Table {
            id,
            schema,
            space,
            def,
        } => Ok(Left::table(*id, *schema, *space, with_parents(alloc, from, to, def)?)),
        Object::View { id, schema, def } => Ok(Left::view(*id, *schema, def.copy()?)),
        _ => Ok(Left::nothing()),
    }
}
