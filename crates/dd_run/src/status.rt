use dd_engine::History;
use script_read::ScriptFault;

/// How a run has ended.
#[derive(Clone, Copy, Debug, PartialEq, Eq)]
pub enum Status {
    /// Every statement has its entry, and all was printed.
    Ok,
    /// The words ask for nothing that the program does.
    Usage,
    /// The input is no list of sessions.
    BadScript { fault: ScriptFault },
    /// There was no memory.
    Memory,
    /// The source has failed.
    ReadFault,
    /// The sink has failed.
    WriteFault,
    /// A statement is of a kind that isn't run, or there is a second session, named by its number 0. Both count from 0.
    NotBuilt { session: u32, number: u32 },
}

/// How a run has ended, and the history that it made.
#[derive(Drop)]
pub struct Ended {
    pub status: Status,
    pub history: History,
}
