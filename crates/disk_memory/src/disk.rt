// The disk in memory as a value: its files are what its record tells.
ghost use Rattle.std.specs.Prelude.{◌≡◌, ◌≤◌, ℕ, List, IsTrue};
ghost use Rattle.std.proofs.Props.{props};
ghost use Rattle.disk_trait.specs.Crash.{state, last_event};
ghost use Rattle.disk_memory.specs.Record.{directory_of, told};

use crate::clock::Clock;
use crate::files::Files;
use crate::record::Record;
use std::alloc::Global;

/// A disk in memory, whose calls can be made to fail. Where it keeps a record of its calls it tells its content, and can be
/// stopped at any moment.
#[derive(Drop)]
pub struct MemoryDisk {
    pub(crate) alloc: Global,
    /// The files that it began with.
    pub(crate) start: Files,
    pub(crate) files: Files,
    pub(crate) calls: Record,
    pub(crate) clock: Clock,
    ghost tie: { IsTrue calls.keep → (path : List ℕ) → directory_of files path ≡ (state (directory_of start) (told calls)).reads path } by { Prim.hlevel props },
    ghost current: { last_event (told calls) ≤ clock.moment },
}
