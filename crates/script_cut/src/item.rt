/// A part of an input, by the places of its bytes.
#[derive(Clone, Copy, Debug, PartialEq, Eq)]
pub enum Item {
    /// A session line, with the place where it begins and those of its name.
    SessionLine { line: usize, from: usize, to: usize },
    /// What begins as a session line and isn't one. Nothing is read behind it.
    BadLine { line: usize },
    /// A statement, from its first byte to the byte before its `;`.
    Statement { from: usize, to: usize },
    /// A statement that the input's end cuts.
    CutStatement { from: usize },
    /// A comment between statements that the input's end cuts.
    CutComment { at: usize },
}
