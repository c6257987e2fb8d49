/// Why an input isn't a list of sessions. Each place is a byte of the input, counted from 0.
#[derive(Clone, Copy, Debug, PartialEq, Eq)]
pub enum ScriptFault {
    /// The byte isn't UTF-8.
    NotUtf8 { at: usize },
    /// A statement begins before any session line.
    NoSession { at: usize },
    /// A session line has no name, or something beside it.
    BadName { at: usize },
    /// A session line has the name of an earlier one.
    Repeated { at: usize },
    /// The input's end cuts a statement or a comment that begins here.
    Unended { at: usize },
    /// The input, a session line or a statement is beyond a limit.
    Limit { at: usize },
    /// There was no memory.
    Memory,
}
