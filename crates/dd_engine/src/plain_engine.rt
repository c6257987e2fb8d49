ghost use Rattle.std.specs.Prelude.{◌≡◌, ◌<◌, ◌^◌, [], IfErr, OnOk, length, true};
ghost use Rattle.sql_ast.specs.Names.{says_names};
ghost use Rattle.dd_catalog.specs.Catalog.{empty_catalog};
ghost use Rattle.rules_decide.specs.Outcome.{is_decided};
ghost use Rattle.dd_engine.specs.Catalog.{new_session};
ghost use Rattle.dd_engine.specs.Engine.{Adds, IsPlainHistory};

use crate::history::{Entry, History};
use crate::listed::MAX_LISTED;
use crate::settle::step;
use crate::state::State;
use dd_names::List;
use plain_catalog::PlainCatalog;
use sql_ast::{SessionState, Statement};
use std::alloc::{AllocError, Global};
use std::marker::Model;

/// A dictionary of one session over a catalog in memory, which begins without schemas. Contracts see its history.
///
/// Where there is no memory for what a statement changes, the catalog may be left with a part of it. Then it is dropped, and
/// the statement and each later one are handed back.
#[derive(Drop)]
pub struct PlainEngine {
    alloc: Global,
    state: Option<State>,
    entries: Vec<Entry>,
}

impl Model for PlainEngine {
    ghost use Rattle.std.specs.Prelude.{List};
    ghost use Rattle.dd_engine.specs.declared.history.Entry.{Entry};
    ghost use Rattle.dd_engine.specs.Engine.{IsSound};

    ghost Value = { List Entry };

    ghost view = { λ e. e.entries.items };

    ghost invariant = { λ e. IsSound e.state e.entries.items };
}

impl PlainEngine {
    /// An engine that has answered nothing.
    pub fn new(alloc: Global) -> PlainEngine
        ensures { result ≡ [] }
    {
        PlainEngine {
            alloc,
            state: Some(first_state(alloc)),
            entries: Vec::new(alloc),
        }
    }

    /// Answers a statement that is decided and says names by one entry more, or hands it back for want of memory, and its
    /// history stays as it is.
    pub fn answer(&mut self, statement: Statement) -> Result<(), (Statement, AllocError)>
        requires room { length self.old < 2 ^ 32 }
        requires run { is_decided statement ≡ true }
        requires names { says_names statement ≡ true }
        ensures ok { OnOk result (Adds self.old self.new statement) }
        ensures err { IfErr result (λ back. (back.0 ≡ statement) × (self.new ≡ self.old)) }
        ensures said { IsPlainHistory self.new }
    {
        if let Err(error) = self.entries.try_reserve(1) {
            return Err((statement, error));
        }
        let number = self.entries.len() as u32;
        let told = match step(self.alloc, &mut self.state, &statement) {
            Ok(told) => told,
            Err(error) => return Err((statement, error)),
        };
        let entry = Entry {
            session: 0,
            number,
            statement,
            answer: told.answer,
            spaces: told.spaces,
            stamp: 0,
        };
        match self.entries.push(entry) {
            Ok(()) => Ok(()),
            Err(_) => unreachable!(),
        }
    }

    /// The entries so far, in order.
    pub fn history(&self) -> &[Entry]
        ensures { result.now ≡ self.now }
    {
        &self.entries
    }

    /// The history that the engine has made. It takes no memory.
    pub fn take(self) -> History
        ensures { result ≡ self }
    {
        let PlainEngine {
            alloc: _,
            state: _,
            entries,
        } = self;
        List::from_vec(entries)
    }
}

// No schema is there, and no number was drawn.
fn first_state(alloc: Global) -> State
    ensures catalog { result.catalog ≡ empty_catalog }
    ensures session { result.session ≡ new_session 0 }
    ensures next { result.next ≡ 1 }
    ensures room { result.room ≡ MAX_LISTED }
{
    State {
        catalog: PlainCatalog::new(alloc),
        session: SessionState {
            number: 0,
            current: None,
            tries: 31_536_000,
        },
        next: 1,
        room: MAX_LISTED,
    }
}
