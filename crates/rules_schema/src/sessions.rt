// USE and SET (MySQL 8.0 Reference Manual, 13.8.4 and 5.1.8).
ghost use Rattle.std.specs.Prelude.{IfOk};
ghost use Rattle.dd_catalog.specs.Walks.{run};
ghost use Rattle.dd_catalog.specs.Follow.{sights};
ghost use Rattle.rules_outcome.specs.Decided.{Decides, AreBefore, HaveIds};
ghost use Rattle.rules_schema.specs.Sessions.{use_schema, set_tries};

use dd_catalog::{Lookup, Stop};
use dd_names::{List, Name, TryCopy};
use rules_named::schema_there;
use rules_outcome::{Decided, Edits};
use sql_ast::SessionState;
use std::alloc::Global;

/// What USE comes to: 1049 where the schema isn't there.
#[tactic(auto, using(dd_catalog::specs::WalkLaws::run_bind), unfolding(crate::specs::Sessions::use_schema))]
pub fn use_schema<L: Lookup>(
    alloc: Global,
    session: &SessionState,
    name: &Name,
    look: &L,
) -> Result<Decided, Stop>
    ensures exact { Decides result (run (sights (L.known look.now)) (use_schema session.now name.now)) }
    ensures before { IfOk result (λ d. AreBefore (L.known look.now) d) }
    ensures ids { IfOk result (λ d. HaveIds (L.known look.now) d) }
{
    schema_there(alloc, name, look)?;
    let session = SessionState {
        number: session.number,
        current: Some(name.copy()?),
        tries: session.tries,
    };
    Ok(Decided::Edits(Edits {
        puts: List::new(alloc),
        session,
    }))
}

/// What SET lock_wait_timeout comes to; it is never refused.
#[tactic(auto, unfolding(crate::specs::Sessions::set_tries))]
pub fn set_tries<L: Lookup>(
    alloc: Global,
    session: &SessionState,
    value: u128,
    look: &L,
) -> Result<Decided, Stop>
    ensures exact { Decides result (run (sights (L.known look.now)) (set_tries session.now value)) }
    ensures before { IfOk result (λ d. AreBefore (L.known look.now) d) }
    ensures ids { IfOk result (λ d. HaveIds (L.known look.now) d) }
{
    let session = SessionState {
        number: session.number,
        current: session.current.copy()?,
        tries: value.min(31_536_000).max(1) as u32,
    };
    Ok(Decided::Edits(Edits {
        puts: List::new(alloc),
        session,
    }))
}
