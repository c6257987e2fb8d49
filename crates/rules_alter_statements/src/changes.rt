// What is changed: the table and its children, in place or under a new name.
ghost use Rattle.std.specs.Prelude.{◌≡◌, ◌++◌, [], ◌∷◌, false, IfOk, OnOk, filter, map};
ghost use Rattle.dd_names.specs.declared.object_name.ObjectKey.TheVariants as keys;
ghost use Rattle.dd_catalog.specs.Walks.{run};
ghost use Rattle.dd_catalog.specs.Follow.{Follows, sights};
ghost use Rattle.rules_outcome.specs.Choices.{Gone, change};
ghost use Rattle.rules_outcome.specs.Decided.{change_of};
ghost use Rattle.rules_named.specs.Answers.{AllBefore, AllIds};
ghost use Rattle.rules_alter.specs.Statements.{changes_in_place, changes_moved, changes_of, child_change, child_moved, is_child_changed, table_behind};
ghost use Rattle.rules_rename.specs.Renames.{with_parents};
ghost use Rattle.rules_alter_statements.specs.Moved.{moved_changes};

use crate::constraints::{name_is_free, renamed_keys};
use crate::edits::{Shape, def_of, edit_gone, edit_in_place, edit_moved};
use dd_catalog::{Lookup, Stop};
use dd_definitions::{ForeignKeyDef, TableParts};
use dd_names::{List, ObjName, TryCopy};
use rules_alter::{Altering, Child};
use rules_named::add_edit;
use rules_outcome::Edit;
use rules_rename::with_parents;
use std::alloc::{AllocError, Global};

/// What is changed behind all actions; the new name is given as one pair of RENAME TABLE is: 1050, 1059, 1826.
pub(crate) fn edits_of<L: Lookup>(
    alloc: Global,
    space: u32,
    state: Altering,
    target: &Option<ObjName>,
    look: &L,
) -> Result<List<Edit>, Stop>
    ensures exact { Follows (map change_of) result (run (sights (L.known look.now)) (changes_of space state target.now)) }
    ensures before { IfOk result (λ edits. AllBefore (L.known look.now) edits) }
    ensures ids { IfOk result (λ edits. AllIds (L.known look.now) edits) }
{
    match target {
        None => Ok(edits_in_place(alloc, space, state, look)?),
        Some(to) => edits_moved(alloc, space, state, to, look),
    }
}

/// The table, and the children that an action has changed.
fn edits_in_place<L: Lookup>(
    alloc: Global,
    space: u32,
    state: Altering,
    look: &L,
) -> Result<List<Edit>, AllocError>
    ensures made { IfOk result (λ edits. map change_of edits ≡ changes_in_place space state) }
    ensures before { IfOk result (λ edits. AllBefore (L.known look.now) edits) }
    ensures ids { IfOk result (λ edits. AllIds (L.known look.now) edits) }
{
    let Altering {
        parts,
        children,
        nulls: _,
        is_rebuilt,
    } = state;
    let mut edits = List::new(alloc);
    add_table(&mut edits, space, is_rebuilt, parts, look)?;
    add_changed(&mut edits, children.as_slice(), look)?;
    Ok(edits)
}

/// The table where it stands.
fn add_table<L: Lookup>(
    edits: &mut List<Edit>,
    space: u32,
    is_rebuilt: bool,
    parts: TableParts,
    look: &L,
) -> Result<(), AllocError>
    ensures changes { OnOk result (map change_of edits.new ≡ map change_of edits.old ++ change (keys.Object parts.name) (table_behind space is_rebuilt parts) ∷ []) }
    ensures before { AllBefore (L.known look.now) edits.old → IfOk result (λ _. AllBefore (L.known look.now) edits.new) }
    ensures ids { AllIds (L.known look.now) edits.old → IfOk result (λ _. AllIds (L.known look.now) edits.new) }
{
    let name = parts.name.copy()?;
    let edit = edit_in_place(&name, shape_of(space, is_rebuilt, parts)?, look)?;
    add_edit(edits, edit)
}

fn shape_of(space: u32, is_rebuilt: bool, parts: TableParts) -> Result<Shape, AllocError>
    ensures { IfOk result (λ shape. (shape.space ≡ space) × (shape.is_rebuilt ≡ is_rebuilt) × (shape.def ≡ parts)) }
{
    match def_of(parts) {
        Ok(def) => Ok(Shape {
            space,
            is_rebuilt,
            def,
        }),
        Err(error) => Err(error),
    }
}

/// The children that an action has changed.
fn add_changed<L: Lookup>(
    edits: &mut List<Edit>,
    children: &[Child],
    look: &L,
) -> Result<(), AllocError>
    ensures changes { OnOk result (map change_of edits.new ≡ map change_of edits.old ++ map child_change (filter is_child_changed children.now)) }
    ensures before { AllBefore (L.known look.now) edits.old → IfOk result (λ _. AllBefore (L.known look.now) edits.new) }
    ensures ids { AllIds (L.known look.now) edits.old → IfOk result (λ _. AllIds (L.known look.now) edits.new) }
{
    'children: for child in children {
        add_if_changed(edits, child, look)?;
    }
    Ok(())
}

fn add_if_changed<L: Lookup>(
    edits: &mut List<Edit>,
    child: &Child,
    look: &L,
) -> Result<(), AllocError>
    ensures changes { OnOk result (map change_of edits.new ≡ map change_of edits.old ++ map child_change (filter is_child_changed (child.now ∷ []))) }
    ensures before { AllBefore (L.known look.now) edits.old → IfOk result (λ _. AllBefore (L.known look.now) edits.new) }
    ensures ids { AllIds (L.known look.now) edits.old → IfOk result (λ _. AllIds (L.known look.now) edits.new) }
{
    if !child.is_changed {
        return Ok(());
    }
    add_child(edits, child, look)
}

fn add_child<L: Lookup>(edits: &mut List<Edit>, child: &Child, look: &L) -> Result<(), AllocError>
    ensures changes { OnOk result (map change_of edits.new ≡ map change_of edits.old ++ child_change child.now ∷ []) }
    ensures before { AllBefore (L.known look.now) edits.old → IfOk result (λ _. AllBefore (L.known look.now) edits.new) }
    ensures ids { AllIds (L.known look.now) edits.old → IfOk result (λ _. AllIds (L.known look.now) edits.new) }
{
    let shape = shape_of(child.space, false, child.parts.copy()?)?;
    add_edit(edits, edit_in_place(&child.name, shape, look)?)
}

/// The table under its new name, and all its children.
#[tactic(auto, using(dd_catalog::specs::WalkLaws::run_bind), unfolding(rules_alter::specs::Statements::changes_moved))]
fn edits_moved<L: Lookup>(
    alloc: Global,
    space: u32,
    state: Altering,
    to: &ObjName,
    look: &L,
) -> Result<List<Edit>, Stop>
    ensures exact { Follows (map change_of) result (run (sights (L.known look.now)) (changes_moved space state to.now)) }
    ensures before { IfOk result (λ edits. AllBefore (L.known look.now) edits) }
    ensures ids { IfOk result (λ edits. AllIds (L.known look.now) edits) }
{
    name_is_free(alloc, to, look)?;
    let from = &state.parts.name;
    let keys = renamed_keys(alloc, from, to, state.parts.foreign_keys.as_slice(), look)?;
    Ok(all_moved(alloc, space, state, to, keys, look)?)
}

fn all_moved<L: Lookup>(
    alloc: Global,
    space: u32,
    state: Altering,
    to: &ObjName,
    foreign_keys: List<ForeignKeyDef>,
    look: &L,
) -> Result<List<Edit>, AllocError>
    ensures made { IfOk result (λ edits. map change_of edits ≡ moved_changes space state to.now foreign_keys) }
    ensures before { IfOk result (λ edits. AllBefore (L.known look.now) edits) }
    ensures ids { IfOk result (λ edits. AllIds (L.known look.now) edits) }
{
    let Altering {
        parts,
        children,
        nulls: _,
        is_rebuilt,
    } = state;
    let mut edits = List::new(alloc);
    let from = parts.name.copy()?;
    let shape = shape_of(space, is_rebuilt, moved_parts(parts, to, foreign_keys)?)?;
    add_moved(&mut edits, &from, to, shape, look)?;
    add_children(alloc, &mut edits, &from, to, children.as_slice(), look)?;
    Ok(edits)
}

fn moved_parts(
    parts: TableParts,
    to: &ObjName,
    foreign_keys: List<ForeignKeyDef>,
) -> Result<TableParts, AllocError>
    ensures { IfOk result (λ moved. moved ≡ record parts { name = to.now; foreign_keys = foreign_keys }) }
{
    match to.copy() {
        Ok(name) => Ok(TableParts {
            name,
            foreign_keys,
            ..parts
        }),
        Err(error) => Err(error),
    }
}

/// Nothing at the old name, and the table at the new one.
fn add_moved<L: Lookup>(
    edits: &mut List<Edit>,
    from: &ObjName,
    to: &ObjName,
    shape: Shape,
    look: &L,
) -> Result<(), AllocError>
    ensures changes { OnOk result (map change_of edits.new ≡ (map change_of edits.old ++ change (keys.Object from.now) Gone ∷ []) ++ change (keys.Object to.now) (table_behind shape.space shape.is_rebuilt shape.def) ∷ []) }
    ensures before { AllBefore (L.known look.now) edits.old → IfOk result (λ _. AllBefore (L.known look.now) edits.new) }
    ensures ids { AllIds (L.known look.now) edits.old → IfOk result (λ _. AllIds (L.known look.now) edits.new) }
{
    add_edit(edits, edit_gone(from, look)?)?;
    add_edit(edits, edit_moved(from, to, shape, look)?)
}

/// The children, which refer to the table by its new name.
fn add_children<L: Lookup>(
    alloc: Global,
    edits: &mut List<Edit>,
    from: &ObjName,
    to: &ObjName,
    children: &[Child],
    look: &L,
) -> Result<(), AllocError>
    ensures changes { OnOk result (map change_of edits.new ≡ map change_of edits.old ++ map (child_moved from.now to.now) children.now) }
    ensures before { AllBefore (L.known look.now) edits.old → IfOk result (λ _. AllBefore (L.known look.now) edits.new) }
    ensures ids { AllIds (L.known look.now) edits.old → IfOk result (λ _. AllIds (L.known look.now) edits.new) }
{
    'children: for child in children {
        add_child_moved(alloc, edits, from, to, child, look)?;
    }
    Ok(())
}

fn add_child_moved<L: Lookup>(
    alloc: Global,
    edits: &mut List<Edit>,
    from: &ObjName,
    to: &ObjName,
    child: &Child,
    look: &L,
) -> Result<(), AllocError>
    ensures changes { OnOk result (map change_of edits.new ≡ map change_of edits.old ++ child_moved from.now to.now child.now ∷ []) }
    ensures before { AllBefore (L.known look.now) edits.old → IfOk result (λ _. AllBefore (L.known look.now) edits.new) }
    ensures ids { AllIds (L.known look.now) edits.old → IfOk result (λ _. AllIds (L.known look.now) edits.new) }
{
    let shape = moved_shape(alloc, from, to, child)?;
    add_edit(edits, edit_in_place(&child.name, shape, look)?)
}

fn moved_shape(
    alloc: Global,
    from: &ObjName,
    to: &ObjName,
    child: &Child,
) -> Result<Shape, AllocError>
    ensures { IfOk result (λ shape. (shape.space ≡ child.now.space) × (shape.is_rebuilt ≡ false) × (shape.def ≡ with_parents from.now to.now child.now.parts)) }
{
    let def = def_of(child.parts.copy()?)?;
    match with_parents(alloc, from, to, &def) {
        Ok(def) => Ok(Shape {
            space: child.space,
            is_rebuilt: false,
            def,
        }),
        Err(error) => Err(error),
    }
}
