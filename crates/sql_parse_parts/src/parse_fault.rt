use dd_names::Text;

/// Why a text isn't what a parser reads.
#[derive(Drop)]
pub enum ParseFault {
    /// The byte at which the first token stands that no text of the grammar goes on with, or the text's end.
    Syntax { at: usize },
    /// A name of more than 64 characters, without its back quotes.
    TooLong { name: Text },
    /// There was no memory.
    Memory,
}
