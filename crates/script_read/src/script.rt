use dd_names::{List, Name};
use sql_ast::Statement;

/// A session of the input: its name and its statements in order.
#[derive(Drop)]
pub struct Script {
    pub name: Name,
    pub statements: List<Statement>,
}
