//! The tokens of a text, or the least place at which it has none; and what a string means.
#![tactic(auto)]

mod lex;
mod piece;
mod reach;
mod string_part;
mod text_laws;
mod token;

pub use lex::{Lexed, tokens, tokens_before};
pub use piece::{Piece, Shape, are_digits, inside_after, is_name_byte, piece_at};
pub use string_part::{meaning, means};
pub use text_laws::reading_laws;
pub use token::{LexFault, Token, TokenKind};
