// What a decided statement is answered, and the state that it leaves.
ghost use Rattle.std.specs.Prelude.{◌≡◌, ◌<◌, IfOk, OnErr, None, Some, map, true};
ghost use Rattle.std.specs.List.{list_any};
ghost use Rattle.dd_errors.specs.Errors.{ErrorValue};
ghost use Rattle.dd_catalog.specs.Walks.{Found, fine};
ghost use Rattle.rules_outcome.specs.Choices.{Choice, Lists, Same, applied, draws, makes_space, takes_number, takes_space};
ghost use Rattle.rules_outcome.specs.declared.decided.Edit.{Edit};
ghost use Rattle.rules_outcome.specs.Decided.{change_of, choice_of, chosen};
ghost use Rattle.rules_decide.specs.Outcome.{DecidesIf, is_decided, outcome_over};
ghost use Rattle.dd_engine.specs.Drawn.{IsOutAt, spaces_of};
ghost use Rattle.dd_engine.specs.Engine.{Alters, Answered, MayLose, Settles, Steps};
ghost use Rattle.dd_engine.specs.Listed.{answer_size};
ghost use Rattle.dd_engine.specs.History.{AnswersFound, choice_found, done_of, space_in};

use crate::decisions::{Decision, decided_over};
use crate::history::Answer;
use crate::listed::room_behind;
use crate::state::State;
use dd_catalog::Stop;
use dd_names::List;
use plain_catalog::PlainCatalog;
use rules_outcome::{After, Decided, Edit, Edits};
use sql_ast::Statement;
use sql_types::Listing;
use std::alloc::{AllocError, Global};

/// A statement's answer, with the numbers of tablespaces that it took.
#[derive(Drop)]
pub struct Told {
    pub answer: Answer,
    pub spaces: List<u32>,
}

// With the state that it leaves.
#[derive(Drop)]
struct Settled {
    answer: Answer,
    spaces: List<u32>,
    state: State,
}

/// Answers a statement, and leaves the state as the answer says. For want of memory while its changes are made the state may be
/// lost, and without it no statement is answered.
pub fn step(
    alloc: Global,
    state: &mut Option<State>,
    statement: &Statement,
) -> Result<Told, AllocError>
    requires { is_decided statement.now ≡ true }
    ensures ok { IfOk result (λ told. Steps state.old statement.now told.answer state.new told.spaces) }
    ensures err { OnErr result ((state.new ≡ None) × MayLose state.old statement.now) }
{
    let Some(old) = state.take() else {
        return Err(AllocError);
    };
    let settled = answered(alloc, old, statement)?;
    *state = Some(settled.state);
    Ok(Told {
        answer: settled.answer,
        spaces: settled.spaces,
    })
}

fn answered(alloc: Global, state: State, statement: &Statement) -> Result<Settled, AllocError>
    requires { is_decided statement.now ≡ true }
    ensures answered { IfOk result (λ settled. Answered state statement.now settled.answer settled.state settled.spaces) }
    ensures lost { OnErr result (MayLose (Some state) statement.now) }
{
    match outcome_of(alloc, &state, statement) {
        Ok(decided) => settle(alloc, state, decided),
        Err(Stop::Refused(error)) => Ok(unchanged(alloc, state, Answer::Error(error))),
        Err(Stop::Memory) => Ok(unchanged(alloc, state, Answer::Memory)),
        Err(Stop::Need(_)) => unreachable!(),
    }
}

fn outcome_of(alloc: Global, state: &State, statement: &Statement) -> Result<Decided, Stop>
    requires { is_decided statement.now ≡ true }
    ensures { DecidesIf result (outcome_over state.now.catalog state.now.session statement.now) }
{
    let Decision { outcome, begun: _ } = decided_over(
        alloc,
        &state.catalog,
        &state.session,
        statement,
    );
    outcome
}

fn settle(alloc: Global, state: State, decided: Decided) -> Result<Settled, AllocError>
    ensures settles { IfOk result (λ settled. Settles (fine (chosen decided)) state settled.answer settled.state settled.spaces) }
    ensures lost { OnErr result (Alters (chosen decided)) }
{
    match decided {
        Decided::Edits(edits) => settle_edits(alloc, state, edits),
        Decided::Same => Ok(unchanged(alloc, state, Answer::Done)),
        Decided::Rows(listing) => Ok(listed(alloc, state, listing)),
    }
}

// Lists, where the history has room for it.
fn listed(alloc: Global, mut state: State, listing: Listing) -> Settled
    ensures { Settles (fine (Lists listing)) state result.answer result.state result.spaces }
{
    match room_behind(&listing, state.room) {
        Some(room) => {
            state.room = room;
            Settled {
                answer: Answer::Rows(listing),
                spaces: List::new(alloc),
                state,
            }
        }
        None => unchanged(alloc, state, Answer::Memory),
    }
}

fn unchanged(alloc: Global, state: State, answer: Answer) -> Settled
    ensures { (found : Found ErrorValue Choice) → AnswersFound found answer → IsOutAt state.next answer → answer_size answer ≡ 0 → done_of (choice_found found) answer ≡ Same → Settles found state result.answer result.state result.spaces }
{
    Settled {
        answer,
        spaces: List::new(alloc),
        state,
    }
}

// Without a number that is left, or without memory for the numbers, nothing is changed.
fn settle_edits(alloc: Global, state: State, edits: Edits) -> Result<Settled, AllocError>
    ensures { IfOk result (λ settled. Settles (fine (choice_of edits)) state settled.answer settled.state settled.spaces) }
{
    let next = state.next;
    let numbered = draws_number(&edits);
    if numbered && next == u32::MAX {
        return Ok(unchanged(alloc, state, Answer::NoSpaceId { next }));
    }
    settle_drawn(alloc, state, edits, numbered)
}

// Takes the numbers for tablespaces.
fn settle_drawn(
    alloc: Global,
    state: State,
    edits: Edits,
    numbered: bool,
) -> Result<Settled, AllocError>
    requires numbered { numbered ≡ draws (choice_of edits) }
    requires room { numbered ≡ true → state.next < 4294967295 }
    ensures { IfOk result (λ settled. Settles (fine (choice_of edits)) state settled.answer settled.state settled.spaces) }
{
    match spaces_of(alloc, makes_spaces(&edits), state.next) {
        Ok(spaces) => changed(state, edits, spaces, numbered),
        Err(_) => Ok(unchanged(alloc, state, Answer::Memory)),
    }
}

// Makes the changes, with these numbers for tablespaces.
fn changed(
    state: State,
    edits: Edits,
    spaces: List<u32>,
    numbered: bool,
) -> Result<Settled, AllocError>
    requires numbered { numbered ≡ draws (choice_of edits) }
    requires room { numbered ≡ true → state.next < 4294967295 }
    requires spaces { spaces ≡ spaces_of (takes_space (choice_of edits)) state.next }
    ensures { IfOk result (λ settled. Settles (fine (choice_of edits)) state settled.answer settled.state settled.spaces) }
{
    let State {
        catalog,
        session,
        next,
        room,
    } = state;
    drop(session);
    let Edits { puts, session } = edits;
    let catalog = applied(catalog, puts, space_in(spaces.as_slice()))?;
    let next = if numbered { next + 1 } else { next };
    Ok(Settled {
        answer: Answer::Done,
        spaces,
        state: State {
            catalog,
            session,
            next,
            room,
        },
    })
}

fn applied(
    mut catalog: PlainCatalog,
    puts: List<Edit>,
    space: u32,
) -> Result<PlainCatalog, AllocError>
    ensures { IfOk result (λ left. left ≡ applied space (map change_of puts) catalog) }
{
    match catalog.apply(puts, space) {
        Ok(()) => Ok(catalog),
        Err(error) => Err(error),
    }
}

// The numbers of tablespaces that are taken.
fn spaces_of(alloc: Global, made: bool, next: u32) -> Result<List<u32>, AllocError>
    ensures { IfOk result (λ spaces. spaces ≡ spaces_of made next) }
{
    let mut spaces = List::new(alloc);
    if made {
        spaces.push(next)?;
    }
    Ok(spaces)
}

fn space_in(spaces: &[u32]) -> u32
    ensures { result ≡ space_in spaces.now }
{
    match spaces {
        [] => 0,
        [space, ..] => *space,
    }
}

fn draws_number(edits: &Edits) -> bool
    ensures { result ≡ draws (choice_of edits.now) }
{
    any_numbered(edits.puts.as_slice())
}

fn makes_spaces(edits: &Edits) -> bool
    ensures { result ≡ takes_space (choice_of edits.now) }
{
    any_spaced(edits.puts.as_slice())
}

fn any_numbered(edits: &[Edit]) -> bool
    ensures { result ≡ list_any (λ (edit : Edit). takes_number (change_of edit).after) edits.now }
{
    edits.iter().any(|edit| takes_number(edit))
}

fn any_spaced(edits: &[Edit]) -> bool
    ensures { result ≡ list_any (λ (edit : Edit). makes_space (change_of edit).after) edits.now }
{
    edits.iter().any(|edit| makes_space(edit))
}

fn takes_number(edit: &Edit) -> bool
    ensures { result ≡ takes_number (change_of edit.now).after }
{
    match &edit.after {
        After::NewSchema
        | After::NewTable { .. }
        | After::RebuiltTable { .. }
        | After::NewView { .. } => true,
        After::Gone | After::KeptTable { .. } | After::KeptView { .. } => false,
    }
}

fn makes_space(edit: &Edit) -> bool
    ensures { result ≡ makes_space (change_of edit.now).after }
{
    matches!(
        &edit.after,
        After::NewTable { .. } | After::RebuiltTable { .. }
    )
}
