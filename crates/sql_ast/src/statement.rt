use crate::schema::SchemaStatement;
use crate::session::SessionStatement;
use crate::show::ShowStatement;
use crate::table::TableStatement;
use crate::view::ViewStatement;
use dd_errors::SqlError;

/// A statement as it was read, without the parts that have no effect (MySQL 8.0 Reference Manual, 13.1, 13.7.7 and 13.8.4).
///
/// A value but `Bad` is read from some text where no list of it is empty, each key is as `KeyWords` says, no name but one in
/// quotes would be needed, and each string is one that a text can write.
#[derive(Drop)]
pub enum Statement {
    Schema(SchemaStatement),
    Table(TableStatement),
    View(ViewStatement),
    Show(ShowStatement),
    Session(SessionStatement),
    /// A text outside the grammar.
    Bad(SqlError),
}
