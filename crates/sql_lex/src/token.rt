/// What a token is.
#[derive(Clone, Copy, Debug, PartialEq, Eq)]
pub enum TokenKind {
    /// The longest run of ASCII letters, digits and `_`, not of digits alone.
    Word,
    /// A run of digits alone.
    Number,
    /// One or more letters, digits and `_` between back quotes.
    Quoted,
    /// A string between `'` or `"`.
    Str,
    /// One of `( ) , . ; = * + - @`.
    Sign,
}

/// A token by where it stands in its text, in bytes: from its first one to the one behind its last, its quotes with it.
#[derive(Clone, Copy, Debug, PartialEq, Eq)]
pub struct Token {
    pub kind: TokenKind,
    pub from: usize,
    pub to: usize,
}

/// Why there are no tokens.
#[derive(Clone, Copy, Debug, PartialEq, Eq)]
pub enum LexFault {
    /// The least byte at which the text has no token.
    Bad { at: usize },
    /// There was no memory for the tokens.
    Memory,
}
