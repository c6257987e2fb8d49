use crate::number_text::NumberText;
use dd_names::{Text, TryCopy};
use std::alloc::AllocError;

/// A value that a statement writes (MySQL 8.0 Reference Manual, 9.1).
#[derive(Drop)]
pub enum Literal {
    Null,
    /// A number as it is written.
    Number(NumberText),
    /// The text that a string means.
    Str(Text),
}

impl TryCopy for Literal {
    fn copy(&self) -> Result<Literal, AllocError> {
        match self {
            Literal::Null => Ok(Literal::Null),
            Literal::Number(number) => number.copy().map(Literal::Number),
            Literal::Str(text) => text.copy().map(Literal::Str),
        }
    }
}
