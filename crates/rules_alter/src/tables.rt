// A table behind the actions of ALTER TABLE, and what holds of it as a whole (MySQL 8.0 Reference Manual, 13.1.9).
ghost use Rattle.std.specs.Prelude.{◌≡◌, nat_lt, not, length};
ghost use Rattle.std.specs.List.{count_by};
ghost use Rattle.dd_definitions.specs.Indexes.{is_secondary};
ghost use Rattle.dd_catalog.specs.WalkLaws.{Look};
ghost use Rattle.dd_catalog.specs.Walks.{refuse_if, run};
ghost use Rattle.dd_catalog.specs.Follow.{Follows, sights};
ghost use Rattle.rules_refusals.specs.Refusals.{beyond_limit, too_many_fields, too_many_keys, wrong_auto_key};
ghost use Rattle.rules_create.specs.Tables.{are_autos_led};
ghost use Rattle.rules_alter.specs.Statements.{all_acted, start_of, within_limits};

use crate::actions::all_actions;
use crate::foreign_keys::all_keys_fit;
use crate::states::{Altering, Child};
use dd_catalog::{Lookup, Stop};
use dd_definitions::TableParts;
use dd_names::List;
use rules_create::{are_autos_led, secondary_count};
use sql_ast::AlterAction;
use std::alloc::Global;

/// What the actions make of a table and of its children, from left to right, each of what the actions before it left; or the first
/// refusal, or the next key that must be known. Behind all actions: more than 1017 columns, 1117; more than 64 secondary indexes,
/// 1069; an AUTO_INCREMENT column that isn't the only one or leads no index, 1075; each foreign key of the table and then each
/// child's, 3780 and 1830; more than 1,024 foreign keys, 9001. A new name of the table is no matter of the actions.
pub fn altered<L: Lookup>(
    alloc: Global,
    parts: TableParts,
    children: List<Child>,
    actions: &[AlterAction],
    look: &L,
) -> Result<Altering, Stop>
    ensures { Follows (λ state. state) result (run (sights (L.known look.now)) (all_acted (start_of parts children) actions.now)) }
{
    let mut state = start_of(alloc, parts, children);
    all_acted(alloc, &mut state, actions, look)?;
    Ok(state)
}

fn start_of(alloc: Global, parts: TableParts, children: List<Child>) -> Altering
    ensures { result ≡ start_of parts children }
{
    Altering {
        parts,
        children,
        nulls: List::new(alloc),
        is_rebuilt: false,
    }
}

#[tactic(auto, using(dd_catalog::specs::WalkLaws::run_bind), unfolding(crate::specs::Statements::all_acted))]
fn all_acted<L: Lookup>(
    alloc: Global,
    state: &mut Altering,
    actions: &[AlterAction],
    look: &L,
) -> Result<(), Stop>
    ensures { Follows (λ _. state.new) result (run (sights (L.known look.now)) (all_acted state.old actions.now)) }
{
    all_actions(alloc, state, actions, look)?;
    within_limits(alloc, state, look)?;
    Ok(())
}

#[tactic(auto, using(dd_catalog::specs::WalkLaws::run_bind), unfolding(crate::specs::Statements::within_limits))]
fn within_limits<L: Lookup>(alloc: Global, state: &Altering, look: &L) -> Result<(), Stop>
    ensures { Follows (λ _. tt) result (run (sights (L.known look.now)) (within_limits state.now)) }
{
    allow_columns(alloc, &state.parts)?;
    allow_indexes(alloc, &state.parts)?;
    allow_autos(alloc, &state.parts)?;
    all_keys_fit(alloc, state, look)?;
    allow_keys(alloc, &state.parts)
}

fn allow_columns(alloc: Global, parts: &TableParts) -> Result<(), Stop>
    ensures { (look : Look) → Follows (λ _. tt) result (run look (refuse_if (nat_lt 1017 (length parts.now.columns)) too_many_fields)) }
{
    if parts.columns.len() > 1017 {
        return Err(rules_refusals::too_many_fields(alloc));
    }
    Ok(())
}

fn allow_indexes(alloc: Global, parts: &TableParts) -> Result<(), Stop>
    ensures { (look : Look) → Follows (λ _. tt) result (run look (refuse_if (nat_lt 64 (count_by is_secondary parts.now.indexes)) too_many_keys)) }
{
    if secondary_count(parts.indexes.as_slice()) > 64 {
        return Err(rules_refusals::too_many_keys(alloc));
    }
    Ok(())
}

fn allow_autos(alloc: Global, parts: &TableParts) -> Result<(), Stop>
    ensures { (look : Look) → Follows (λ _. tt) result (run look (refuse_if (not (are_autos_led parts.now)) wrong_auto_key)) }
{
    if !are_autos_led(parts) {
        return Err(rules_refusals::wrong_auto_key(alloc));
    }
    Ok(())
}

fn allow_keys(alloc: Global, parts: &TableParts) -> Result<(), Stop>
    ensures { (look : Look) → Follows (λ _. tt) result (run look (refuse_if (nat_lt 1024 (length parts.now.foreign_keys)) (beyond_limit "1024"))) }
{
    if parts.foreign_keys.len() > 1024 {
        return Err(rules_refusals::beyond_limit(alloc, "1024")?);
    }
    Ok(())
}
