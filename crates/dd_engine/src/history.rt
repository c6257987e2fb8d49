use dd_errors::SqlError;
use dd_names::List;
use sql_ast::Statement;
use sql_types::Listing;

/// What a statement was answered.
#[derive(Drop)]
pub enum Answer {
    /// It was done, with its changes if it has any.
    Done,
    /// It lists these rows, and changes nothing.
    Rows(Listing),
    /// It is refused, and changes nothing.
    Error(SqlError),
    /// There was no memory for it, and it changes nothing.
    Memory,
    /// It makes a schema or a table, for which no number is left, and it changes nothing.
    NoSpaceId {
        /// The number behind the last one.
        next: u32,
    },
}

/// A statement with its answer.
#[derive(Drop)]
pub struct Entry {
    /// The session, counted from 0.
    pub session: u32,
    /// The number of the statement in its session, counted from 0.
    pub number: u32,
    pub statement: Statement,
    pub answer: Answer,
    /// The numbers of tablespaces that the statement took.
    pub spaces: List<u32>,
    /// The disk's moment as the entry was added.
    pub stamp: u64,
}

/// The entries in the order in which they were answered.
pub type History = List<Entry>;
