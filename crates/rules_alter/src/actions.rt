// The actions of ALTER TABLE, each on the table that the actions before it left (MySQL 8.0 Reference Manual, 13.1.9).
ghost use Rattle.dd_catalog.specs.WalkLaws.{Look};
ghost use Rattle.dd_catalog.specs.Walks.{over, run};
ghost use Rattle.dd_catalog.specs.Follow.{Follows, sights};
ghost use Rattle.dd_definitions.specs.Indexes.{primary_name};
ghost use Rattle.rules_alter.specs.Keys.{drop_index};
ghost use Rattle.rules_alter.specs.Actions.{acted, one_action};

use crate::added_keys::add_foreign_key;
use crate::changes::{change_column, rename_column};
use crate::columns::{add_column, add_columns};
use crate::defaults::{drop_default, set_default};
use crate::drops::drop_column;
use crate::foreign_keys::drop_foreign_key;
use crate::keys::{add_key, drop_index, rename_index};
use crate::rebuilds::{asks_rebuild, shape_before};
use crate::states::Altering;
use dd_catalog::{Lookup, Stop};
use rules_elements::primary_name;
use sql_ast::AlterAction;
use std::alloc::Global;

/// The actions, from left to right.
pub(crate) fn all_actions<L: Lookup>(
    alloc: Global,
    state: &mut Altering,
    actions: &[AlterAction],
    look: &L,
) -> Result<(), Stop>
    ensures { Follows (λ _. state.new) result (run (sights (L.known look.now)) (over one_action state.old actions.now)) }
{
    'actions: for action in actions {
        one_action(alloc, state, action, look)?;
    }
    Ok(())
}

/// One action. A table is rebuilt once, however many actions ask for it.
#[tactic(auto, using(dd_catalog::specs::WalkLaws::run_bind), unfolding(crate::specs::Actions::one_action))]
fn one_action<L: Lookup>(
    alloc: Global,
    state: &mut Altering,
    action: &AlterAction,
    look: &L,
) -> Result<(), Stop>
    ensures { Follows (λ _. state.new) result (run (sights (L.known look.now)) (one_action state.old action.now)) }
{
    let before = shape_before(alloc, action, &state.parts)?;
    let was_rebuilt = state.is_rebuilt;
    acted(alloc, state, action, look)?;
    state.is_rebuilt = was_rebuilt || asks_rebuild(action, &before, &state.parts);
    Ok(())
}

/// What the action makes of the table.
fn acted<L: Lookup>(
    alloc: Global,
    state: &mut Altering,
    action: &AlterAction,
    look: &L,
) -> Result<(), Stop>
    ensures { Follows (λ _. state.new) result (run (sights (L.known look.now)) (acted action.now state.old)) }
{
    match action {
        AlterAction::AddColumn { column, place } => add_column(alloc, state, column, place),
        AlterAction::AddColumns { columns } => add_columns(alloc, state, columns.as_slice()),
        AlterAction::AddKey(words) => add_key(alloc, state, words),
        AlterAction::AddForeignKey(words) => add_foreign_key(alloc, state, words, look),
        AlterAction::DropColumn { name } => drop_column(alloc, state, name),
        AlterAction::ModifyColumn { column, place } => {
            change_column(alloc, state, &column.name, column, place)
        }
        AlterAction::ChangeColumn {
            name,
            column,
            place,
        } => change_column(alloc, state, name, column, place),
        AlterAction::RenameColumn { from, to } => rename_column(alloc, state, from, to),
        AlterAction::SetDefault { name, value } => set_default(alloc, state, name, value),
        AlterAction::DropDefault { name } => drop_default(alloc, state, name),
        AlterAction::DropIndex { name } => drop_index(alloc, state, name),
        AlterAction::DropPrimaryKey => drop_primary(alloc, state),
        AlterAction::DropForeignKey { name } => drop_foreign_key(alloc, state, name),
        AlterAction::RenameIndex { from, to } => rename_index(alloc, state, from, to),
        AlterAction::RenameTable { .. } | AlterAction::Force | AlterAction::Engine => Ok(()),
    }
}

/// DROP PRIMARY KEY.
fn drop_primary(alloc: Global, state: &mut Altering) -> Result<(), Stop>
    ensures { (look : Look) → Follows (λ _. state.new) result (run look (drop_index primary_name state.old)) }
{
    let name = primary_name(alloc)?;
    drop_index(alloc, state, &name)
}
