use dd_names::{List, Text};

/// A tablespace file that is to be made.
#[derive(Drop)]
pub struct NewFile {
    pub path: Text,
    /// The tablespace's number.
    pub space: u32,
    pub bytes: List<u8>,
}
