use dd_names::Name;

/// A statement that makes or drops a schema (MySQL 8.0 Reference Manual, 13.1.12 and 13.1.24).
#[derive(Drop)]
pub enum SchemaStatement {
    /// CREATE DATABASE.
    Create { if_not_exists: bool, name: Name },
    /// DROP DATABASE.
    Drop { if_exists: bool, name: Name },
}
