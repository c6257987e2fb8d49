// Which statements are decided.
ghost use Rattle.std.specs.Prelude.{◌≡◌};
ghost use Rattle.rules_decide.specs.Outcome.{is_decided, is_table_decided};

use sql_ast::{Statement, TableStatement};

/// Whether a statement is decided: all are but ALTER TABLE and the statements of indexes and views.
pub fn is_decided(statement: &Statement) -> bool
    ensures { result ≡ is_decided statement.now }
{
    match statement {
        Statement::Schema(_) | Statement::Show(_) | Statement::Session(_) | Statement::Bad(_) => {
            true
        }
        Statement::Table(statement) => is_table_decided(statement),
        Statement::View(_) => false,
    }
}

fn is_table_decided(statement: &TableStatement) -> bool
    ensures { result ≡ is_table_decided statement.now }
{
    match statement {
        TableStatement::Create(_)
        | TableStatement::Drop { .. }
        | TableStatement::Rename { .. }
        | TableStatement::Truncate { .. } => true,
        TableStatement::Alter { .. } | TableStatement::Index(_) => false,
    }
}
