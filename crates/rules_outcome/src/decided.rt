use dd_catalog::Object;
use dd_definitions::{TableDef, ViewDef};
use dd_names::{List, ObjectKey};
use sql_ast::SessionState;
use sql_types::Listing;

/// What stands at a key behind a statement. What is new gets its id, and its tablespace, when the change is made.
#[derive(Drop)]
pub enum After {
    /// Nothing.
    Gone,
    NewSchema,
    NewTable {
        /// The id of its schema.
        schema: u32,
        def: TableDef,
    },
    /// A table that was there, and keeps its tablespace.
    KeptTable {
        id: u32,
        /// The id of its schema.
        schema: u32,
        /// The id of its tablespace.
        space: u32,
        def: TableDef,
    },
    /// A table that was there, and gets a new tablespace.
    RebuiltTable {
        id: u32,
        /// The id of its schema.
        schema: u32,
        def: TableDef,
    },
    NewView {
        /// The id of its schema.
        schema: u32,
        def: ViewDef,
    },
    /// A view that was there.
    KeptView {
        id: u32,
        /// The id of its schema.
        schema: u32,
        def: ViewDef,
    },
}

/// What a statement changes at one key.
#[derive(Drop)]
pub struct Edit {
    /// The key of a schema, a table or a view.
    pub key: ObjectKey,
    /// What stood there, or None where nothing did.
    pub before: Option<Object>,
    pub after: After,
}

/// All that a statement changes.
#[derive(Drop)]
pub struct Edits {
    /// The changes, in order.
    pub puts: List<Edit>,
    /// What the session is behind the statement.
    pub session: SessionState,
}

/// What is decided of a statement that isn't refused.
#[derive(Drop)]
pub enum Decided {
    /// It is done, with these changes.
    Edits(Edits),
    /// It is done, and changes nothing.
    Same,
    /// It lists this.
    Rows(Listing),
}
