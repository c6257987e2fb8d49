/// A token by its content.
#[derive(Clone, Copy)]
pub enum Content<'a> {
    /// A word.
    Word(&'a str),
    /// Decimal digits.
    Number(&'a [u8]),
    /// A name without its back quotes.
    Quoted(&'a str),
    /// A string as it is written, with its quotes.
    Text(&'a [u8]),
    /// A sign.
    Sign(u8),
    /// A place without a token.
    Broken,
}
