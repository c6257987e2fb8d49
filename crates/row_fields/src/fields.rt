use row_batch::Bytes;

/// A part of a row's key or value. Numbers have their highest byte first.
#[derive(Drop)]
pub enum Field {
    /// A number of one byte.
    Byte(u8),
    /// A number of two bytes.
    Short(u16),
    /// A number of four bytes.
    Long(u32),
    /// A number of eight bytes.
    Huge(u64),
    /// A length of two bytes, and that many bytes.
    Text(Bytes),
    /// Bytes other than 0, and then a byte 0.
    Ended(Bytes),
    /// Nothing is a byte 0; some bytes are a byte 1, a length of four bytes, and that many bytes.
    Maybe(Option<Bytes>),
}

/// Which variant of `Field` a field is, which says how its bytes are read.
#[derive(Clone, Copy, Debug, PartialEq, Eq)]
pub enum Kind {
    Byte,
    Short,
    Long,
    Huge,
    Text,
    Ended,
    Maybe,
}
