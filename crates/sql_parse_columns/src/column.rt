ghost use Rattle.std.specs.Prelude.{◌≡◌};
ghost use Rattle.sql_grammar.specs.Reading.{read};
ghost use Rattle.sql_grammar.specs.Answers.{Gives};
ghost use Rattle.sql_ast.specs.GrammarColumns.{named_column, plain_column};
ghost use Rattle.sql_read.specs.Seen.{seen, stop_of};

use crate::attribute::attributes;
use crate::types::column_type;
use dd_names::Name;
use sql_read::{Input, ReadFault, name};
use sql_types::{ColumnWords, TypeWords};
use std::alloc::Global;

/// A column of which only its type is said.
fn plain_column(name: Name, kind: TypeWords) -> ColumnWords
    ensures { result ≡ plain_column name kind }
{
    ColumnWords {
        name,
        kind,
        nullable: None,
        default: None,
        auto: false,
        unique: false,
        primary: false,
    }
}

/// A name, a type and attributes, of which the last of each kind holds.
#[tactic(auto, unfolding(sql_ast::specs::GrammarColumns::named_column))]
pub fn named_column(
    alloc: Global,
    input: Input<'_>,
) -> Result<(ColumnWords, Input<'_>), ReadFault<'_>>
    ensures { Gives (λ x. (x.0, seen x.1)) stop_of result (read named_column (seen input.entry)) }
{
    let (name, rest) = name(alloc, input)?;
    let (kind, rest) = column_type(rest)?;
    match attributes(alloc, plain_column(name, kind), rest) {
        Ok(read) => Ok(read),
        Err(fault) => Err(fault),
    }
}
