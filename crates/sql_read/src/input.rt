ghost use Rattle.std.specs.Prelude.{All};
ghost use Rattle.sql_read.specs.Tokens.{IsTokenOf};

use sql_lex::Token;

/// The tokens of a text that are still to be read. Contracts see them by `seen`, as a list of lexemes.
#[derive(Clone, Copy)]
pub struct Input<'a> {
    /// The bytes of the whole text.
    pub text: &'a [u8],
    /// The tokens that are left.
    pub tokens: &'a [Token],
    /// Whether a place without a token follows them.
    pub broken: bool,
    ghost of_text: { All (IsTokenOf text.now) tokens.now },
}
