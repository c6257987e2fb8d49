// Statements that make or drop views, and the query of a view (MySQL 8.0 Reference Manual, 13.1.23, 13.1.35 and 13.2.13).
use dd_names::{List, Name};
use sql_types::ObjRef;

/// A statement that makes or drops views.
#[derive(Drop)]
pub enum ViewStatement {
    /// CREATE VIEW.
    Create {
        view: ObjRef,
        columns: Option<List<Name>>,
        query: Select,
    },
    /// DROP VIEW.
    Drop {
        if_exists: bool,
        views: List<ObjRef>,
    },
}

/// What a view shows.
#[derive(Drop)]
pub enum Item {
    /// All columns of all sources.
    All,
    /// All columns of the source with this alias.
    AllOf(Name),
    /// A column, of the source with the alias where one is written, and the name under which it is shown where one is.
    Column {
        alias: Option<Name>,
        column: Name,
        output: Option<Name>,
    },
}

/// Where a view's columns come from. Without an alias a source goes by its own name.
#[derive(Drop)]
pub struct SelectSource {
    pub object: ObjRef,
    pub alias: Option<Name>,
}

/// A view's query. There is an item, and a source.
#[derive(Drop)]
pub struct Select {
    pub items: List<Item>,
    pub sources: List<SelectSource>,
}
