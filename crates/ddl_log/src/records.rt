use dd_names::Text;

/// What a record asks for.
#[derive(Clone, Copy, Debug, PartialEq, Eq)]
pub enum Kind {
    /// The file of the old path is removed.
    DeleteSpace,
    /// The file of the old path gets the new path.
    RenameSpace,
    /// The file of the old path, which is a table's, is written anew.
    WriteSdi,
}

/// A file operation that is to be done once, however often it is begun (MySQL 8.0 Reference Manual, 15.1.1). Records are
/// done in the order of their ids.
#[derive(Drop)]
pub struct LogRecord {
    /// The thread's number times 4,294,967,296, and the record's place in the thread's statement.
    pub id: u64,
    /// The number of the session whose statement it is.
    pub thread: u32,
    pub kind: Kind,
    /// The tablespace's number.
    pub space: u32,
    /// The path of the file.
    pub old_path: Text,
    /// The path that a renamed file gets; empty for the other kinds.
    pub new_path: Text,
}
