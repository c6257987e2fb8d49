ghost use Rattle.std.specs.Prelude.{◌≡◌};
ghost use Rattle.rules_intents.specs.Grips.{grip};
ghost use Rattle.rules_intents.specs.Intents.{table_grip, text_grip};

use sql_ast::{Statement, TableStatement};

/// How a statement claims the children of its tables.
#[derive(Clone, Copy, Drop)]
pub enum Grip {
    /// They stay as they are.
    Reads,
    /// They change.
    Writes,
}

/// How a statement claims the children of its tables: RENAME TABLE, ALTER TABLE and the statements of indexes write them.
pub fn grip_of(statement: &Statement) -> Grip
    ensures { grip result ≡ text_grip statement.now }
{
    match statement {
        Statement::Table(statement) => table_grip(statement),
        _ => Grip::Reads,
    }
}

fn table_grip(statement: &TableStatement) -> Grip
    ensures { grip result ≡ table_grip statement.now }
{
    match statement {
        TableStatement::Rename { .. } | TableStatement::Alter { .. } | TableStatement::Index(_) =>
            Grip::Writes,
        _ => Grip::Reads,
    }
}
