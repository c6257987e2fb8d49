//! A catalog in memory and a session, over which statements are answered one after another.
use crate::answers::{push_error, push_listing};
use crate::made::view_edits;
use dd_catalog::{Object, Stop};
use dd_errors::SqlError;
use dd_names::{List, ObjectKey};
use plain_catalog::{Part, PlainCatalog};
use rules_decide::{decide, is_decided};
use rules_outcome::{Decided, Edits};
use sql_ast::{SessionState, Statement};
use sql_parse::statement_of;
use sql_types::Listing;
use std::alloc::{AllocError, Global};
use std::marker::Model;

// How many keys a statement may need.
const TURNS: u32 = 2000;

/// A catalog in memory, a session, the number of the next tablespace, and the last answer. Contracts see nothing of it.
#[derive(Drop)]
pub struct World {
    alloc: Global,
    catalog: PlainCatalog,
    session: SessionState,
    next: u32,
    last: String,
}

impl Model for World {
    ghost Value = { Unit {0} };

    ghost view = { λ _. tt };
}

impl World {
    ghost use Rattle.std.specs.Prelude.{◌≡◌, true};
    ghost use Rattle.rules_decide.specs.Outcome.{is_decided};

    /// No schemas, a session without a current one, and no answer.
    pub fn new(alloc: Global) -> World {
        World {
            alloc,
            catalog: PlainCatalog::new(alloc),
            session: SessionState {
                number: 0,
                current: None,
                tries: 31_536_000,
            },
            next: 1,
            last: String::new(alloc),
        }
    }

    pub fn alloc(&self) -> Global {
        self.alloc
    }

    /// The last answer: `OK`, or `SAME` where nothing changes, the lines of a listing, or number and text of an error.
    pub fn last(&self) -> &str {
        self.last.as_str()
    }

    /// Answers statements, between two of which `;` stands.
    pub fn answer_all(&mut self, script: &str) -> Result<(), AllocError> {
        'statements: for text in script.split(';') {
            self.answer(text.trim_start())?;
        }
        Ok(())
    }

    /// Answers one statement.
    pub fn answer(&mut self, text: &str) -> Result<(), AllocError> {
        self.last.clear();
        let read = read(self.alloc, text)?;
        self.answer_first(read.as_slice())
    }

    fn answer_first(&mut self, statements: &[Statement]) -> Result<(), AllocError> {
        match statements {
            [statement, ..] => self.answer_read(statement),
            [] => Ok(()),
        }
    }

    fn answer_read(&mut self, statement: &Statement) -> Result<(), AllocError> {
        if !is_decided(statement) {
            return self.last.push_str("a statement of another kind");
        }
        let mut part = Part::new(self.alloc);
        'turns: for _turn in 0..TURNS {
            if self.turn(statement, &mut part)? {
                return Ok(());
            }
        }
        self.last.push_str("more keys are needed")
    }

    // Whether the statement is answered. Else one more key is known.
    fn turn(&mut self, statement: &Statement, part: &mut Part) -> Result<bool, AllocError>
        requires { is_decided statement.now ≡ true }
    {
        match decide(self.alloc, &self.session, statement, part) {
            Ok(decided) => self.take(decided),
            Err(Stop::Need(key)) => self.learn(key, part),
            Err(Stop::Refused(error)) => self.refuse(&error),
            Err(Stop::Memory) => Err(AllocError),
        }
    }

    fn learn(&self, key: ObjectKey, part: &mut Part) -> Result<bool, AllocError> {
        match self.catalog.at(self.alloc, &key) {
            Ok(object) => add(part, key, object),
            Err(error) => Err(error),
        }
    }

    fn refuse(&mut self, error: &SqlError) -> Result<bool, AllocError> {
        push_error(self.alloc, &mut self.last, error)?;
        Ok(true)
    }

    fn take(&mut self, decided: Decided) -> Result<bool, AllocError> {
        match decided {
            Decided::Edits(edits) => self.apply(edits),
            Decided::Same => self.say("SAME"),
            Decided::Rows(listing) => self.list(&listing),
        }
    }

    fn apply(&mut self, edits: Edits) -> Result<bool, AllocError> {
        let Edits { puts, session } = edits;
        self.session = session;
        self.catalog.apply(puts, self.next)?;
        self.next = self.next.saturating_add(1);
        self.say("OK")
    }

    fn say(&mut self, word: &str) -> Result<bool, AllocError> {
        self.last.push_str(word)?;
        Ok(true)
    }

    fn list(&mut self, listing: &Listing) -> Result<bool, AllocError> {
        push_listing(&mut self.last, listing)?;
        Ok(true)
    }

    /// Makes the view `d.v`, which shows the column `i` of `d.t`.
    pub fn make_view(&mut self) -> Result<(), AllocError> {
        let edits = view_edits(self.alloc)?;
        self.catalog.apply(edits, 0)
    }
}

// The statement that a text is, in a list: it is dropped with less to prove there.
fn read(alloc: Global, text: &str) -> Result<List<Statement>, AllocError> {
    let mut read = List::new(alloc);
    read.push(statement_of(alloc, text)?)?;
    Ok(read)
}

// What stands at a key is known. It answers nothing.
fn add(part: &mut Part, key: ObjectKey, object: Object) -> Result<bool, AllocError> {
    part.add(key, object)?;
    Ok(false)
}
