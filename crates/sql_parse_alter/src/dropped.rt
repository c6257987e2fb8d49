ghost use Rattle.sql_grammar.specs.Grammar.{means};
ghost use Rattle.sql_grammar.specs.Reading.{read};
ghost use Rattle.sql_grammar.specs.Rules.{gives, ◌⊳◌};
ghost use Rattle.sql_grammar.specs.Answers.{Gives};
ghost use Rattle.sql_ast.specs.GrammarParts.{the, a_name, index_or_key};
ghost use Rattle.sql_ast.specs.GrammarActions.{drop_action};
ghost use Rattle.sql_read.specs.Seen.{seen, stop_of};

use sql_ast::AlterAction;
use sql_parse_columns::at_index_or_key;
use sql_parse_parts::index_or_key;
use sql_read::{Input, ReadFault, at_name, at_word, name, word};
use std::alloc::Global;

/// `COLUMN name`
fn column_behind_word(
    alloc: Global,
    input: Input<'_>,
) -> Result<(AlterAction, Input<'_>), ReadFault<'_>>
    ensures { Gives (λ x. (x.0, seen x.1)) stop_of result (read (means (λ n. AlterAction.DropColumn n) (the "COLUMN" ⊳ a_name)) (seen input.entry)) }
{
    let rest = word(input, "COLUMN")?;
    let (name, rest) = name(alloc, rest)?;
    Ok((AlterAction::DropColumn { name }, rest))
}

/// `name`
fn column(alloc: Global, input: Input<'_>) -> Result<(AlterAction, Input<'_>), ReadFault<'_>>
    ensures { Gives (λ x. (x.0, seen x.1)) stop_of result (read (means (λ n. AlterAction.DropColumn n) a_name) (seen input.entry)) }
{
    let (name, rest) = name(alloc, input)?;
    Ok((AlterAction::DropColumn { name }, rest))
}

/// `(INDEX|KEY) name`
fn index(alloc: Global, input: Input<'_>) -> Result<(AlterAction, Input<'_>), ReadFault<'_>>
    ensures { Gives (λ x. (x.0, seen x.1)) stop_of result (read (means (λ n. AlterAction.DropIndex n) (index_or_key ⊳ a_name)) (seen input.entry)) }
{
    let rest = index_or_key(input)?;
    let (name, rest) = name(alloc, rest)?;
    Ok((AlterAction::DropIndex { name }, rest))
}

/// `PRIMARY KEY`
fn primary_key(input: Input<'_>) -> Result<(AlterAction, Input<'_>), ReadFault<'_>>
    ensures { Gives (λ x. (x.0, seen x.1)) stop_of result (read (gives AlterAction.DropPrimaryKey (the "PRIMARY" ⊳ the "KEY")) (seen input.entry)) }
{
    let rest = word(input, "PRIMARY")?;
    let rest = word(rest, "KEY")?;
    Ok((AlterAction::DropPrimaryKey, rest))
}

/// `FOREIGN KEY name`
fn foreign_key(alloc: Global, input: Input<'_>) -> Result<(AlterAction, Input<'_>), ReadFault<'_>>
    ensures { Gives (λ x. (x.0, seen x.1)) stop_of result
        (read (means (λ n. AlterAction.DropForeignKey n) (the "FOREIGN" ⊳ the "KEY" ⊳ a_name)) (seen input.entry)) }
{
    let rest = word(input, "FOREIGN")?;
    let rest = word(rest, "KEY")?;
    let (name, rest) = name(alloc, rest)?;
    Ok((AlterAction::DropForeignKey { name }, rest))
}

/// `DROP` and a column, an index, the primary key or a foreign key.
#[tactic(auto, unfolding(sql_ast::specs::GrammarActions::drop_action, sql_ast::specs::GrammarParts::index_or_key))]
pub fn drop_action(
    alloc: Global,
    input: Input<'_>,
) -> Result<(AlterAction, Input<'_>), ReadFault<'_>>
    ensures { Gives (λ x. (x.0, seen x.1)) stop_of result (read drop_action (seen input.entry)) }
{
    let rest = word(input, "DROP")?;
    if at_word(rest, "COLUMN") {
        column_behind_word(alloc, rest)
    } else if at_name(rest) {
        column(alloc, rest)
    } else if at_index_or_key(rest) {
        index(alloc, rest)
    } else if at_word(rest, "PRIMARY") {
        primary_key(rest)
    } else {
        foreign_key(alloc, rest)
    }
}
