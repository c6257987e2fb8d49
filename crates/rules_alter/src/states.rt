// A table and its children, as the actions so far leave them.
use dd_definitions::TableParts;
use dd_names::{List, Name, ObjName};

/// A child of the table that is altered.
#[derive(Drop)]
pub struct Child {
    pub name: ObjName,
    /// The id of its tablespace.
    pub space: u32,
    pub parts: TableParts,
    /// An action has changed it.
    pub is_changed: bool,
}

/// A table that is altered, with its children.
#[derive(Drop)]
pub struct Altering {
    pub parts: TableParts,
    pub children: List<Child>,
    /// The columns, as the table spells them, for which the statement writes NULL or DEFAULT NULL.
    pub nulls: List<Name>,
    /// An action asks for a new tablespace.
    pub is_rebuilt: bool,
}
