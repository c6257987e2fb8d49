use dd_names::{Name, ObjName, TryCopy, both};
use std::alloc::AllocError;

/// What is locked (MySQL 8.0 Reference Manual, 8.11.4). Keys are in the order of their variants, and within one in that of
/// their names, each byte by byte.
#[derive(Drop, PartialEq, Eq, PartialOrd, Ord)]
pub enum LockKey {
    /// The whole catalog.
    All,
    /// The schema of that name.
    Schema(Name),
    /// The table or view of that name.
    Object(ObjName),
    /// A constraint's name in a schema, folded.
    Constraint { schema: Name, folded: Name },
}

impl TryCopy for LockKey {
    fn copy(&self) -> Result<LockKey, AllocError> {
        match self {
            LockKey::All => Ok(LockKey::All),
            LockKey::Schema(name) => name.copy().map(LockKey::Schema),
            LockKey::Object(name) => name.copy().map(LockKey::Object),
            LockKey::Constraint { schema, folded } => match both(schema.copy(), folded.copy()) {
                Ok((schema, folded)) => Ok(LockKey::Constraint { schema, folded }),
                Err(error) => Err(error),
            },
        }
    }
}

/// How a key is locked. The modes are in this order.
#[derive(Clone, Copy, Drop, PartialEq, Eq, PartialOrd, Ord, Debug)]
pub enum Mode {
    /// Something within may be locked or changed.
    IX,
    /// It is read.
    S,
    /// It is changed.
    X,
}

/// A lock that a statement asks for. Requests are in the order of their keys, and those for one key in that of their modes.
#[derive(Drop, PartialEq, Eq, PartialOrd, Ord)]
pub struct Request {
    /// What is to be locked.
    pub key: LockKey,
    /// How.
    pub mode: Mode,
}
