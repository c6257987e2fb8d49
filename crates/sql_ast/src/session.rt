use dd_names::{Name, TryCopy};
use std::alloc::AllocError;

/// A statement that changes what is kept for its client alone.
#[derive(Drop)]
pub enum SessionStatement {
    /// USE (MySQL 8.0 Reference Manual, 13.8.4).
    Use { name: Name },
    /// SET lock_wait_timeout (MySQL 8.0 Reference Manual, 5.1.8). A number that 128 bits don't hold is kept as the greatest
    /// that they do.
    SetTries { value: u128 },
}

/// What the dictionary keeps for a client (MySQL 8.0 Reference Manual, 5.1.8, for the tries).
#[derive(Drop)]
pub struct SessionState {
    /// The session, counted from 0.
    pub number: u32,
    /// The current schema, if there is one.
    pub current: Option<Name>,
    /// How many failed tries for locks end a statement.
    pub tries: u32,
}

impl TryCopy for SessionState {
    fn copy(&self) -> Result<SessionState, AllocError> {
        Ok(SessionState {
            number: self.number,
            current: self.current.copy()?,
            tries: self.tries,
        })
    }
}
