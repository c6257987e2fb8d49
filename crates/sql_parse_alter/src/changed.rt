ghost use Rattle.std.specs.Prelude.{◌≡◌, List, ℕ, Option, Some, None};
ghost use Rattle.sql_grammar.specs.Lexemes.{begins};
ghost use Rattle.sql_grammar.specs.Grammar.{means};
ghost use Rattle.sql_grammar.specs.Reading.{read, first};
ghost use Rattle.sql_grammar.specs.Rules.{gives, ◌⊳◌};
ghost use Rattle.sql_grammar.specs.Answers.{Gives};
ghost use Rattle.sql_ast.specs.GrammarParts.{the, a_name, maybe, object, index_or_key, ◌∣◌};
ghost use Rattle.sql_ast.specs.GrammarColumns.{literal};
ghost use Rattle.sql_ast.specs.GrammarActions.{modify_action, change_action, name_to_name, rename_action, default_action, alter_action};
ghost use Rattle.sql_read.specs.Seen.{seen, stop_of};

use crate::added::place;
use dd_names::Name;
use sql_ast::AlterAction;
use sql_parse_columns::{at_index_or_key, literal, named_column};
use sql_parse_parts::{index_or_key, maybe_word, object};
use sql_read::{Input, ReadFault, at_word, name, word};
use sql_types::Literal;
use std::alloc::Global;

/// `MODIFY [COLUMN] name column [place]`
#[tactic(auto, unfolding(sql_ast::specs::GrammarActions::modify_action, sql_ast::specs::GrammarActions::maybe_column))]
pub fn modify_action(
    alloc: Global,
    input: Input<'_>,
) -> Result<(AlterAction, Input<'_>), ReadFault<'_>>
    ensures { Gives (λ x. (x.0, seen x.1)) stop_of result (read modify_action (seen input.entry)) }
{
    let rest = word(input, "MODIFY")?;
    let rest = maybe_word(rest, "COLUMN")?;
    let (column, rest) = named_column(alloc, rest)?;
    let (place, rest) = place(alloc, rest)?;
    Ok((AlterAction::ModifyColumn { column, place }, rest))
}

/// `CHANGE [COLUMN] name name column [place]`
#[tactic(auto, unfolding(sql_ast::specs::GrammarActions::change_action, sql_ast::specs::GrammarActions::maybe_column))]
pub fn change_action(
    alloc: Global,
    input: Input<'_>,
) -> Result<(AlterAction, Input<'_>), ReadFault<'_>>
    ensures { Gives (λ x. (x.0, seen x.1)) stop_of result (read change_action (seen input.entry)) }
{
    let rest = word(input, "CHANGE")?;
    let rest = maybe_word(rest, "COLUMN")?;
    let (name, rest) = name(alloc, rest)?;
    let (column, rest) = named_column(alloc, rest)?;
    let (place, rest) = place(alloc, rest)?;
    Ok((
        AlterAction::ChangeColumn {
            name,
            column,
            place,
        },
        rest,
    ))
}

/// `name TO name`
#[tactic(auto, unfolding(sql_ast::specs::GrammarActions::name_to_name))]
fn name_to_name(alloc: Global, input: Input<'_>) -> Result<((Name, Name), Input<'_>), ReadFault<'_>>
    ensures { Gives (λ x. ((x.0.0, x.0.1), seen x.1)) stop_of result (read name_to_name (seen input.entry)) }
{
    let (from, rest) = name(alloc, input)?;
    let rest = word(rest, "TO")?;
    let (to, rest) = name(alloc, rest)?;
    Ok(((from, to), rest))
}

/// Whether `TO` or `AS` is next.
#[tactic(auto, using(sql_grammar::proofs::Firsts::begins_more))]
fn at_to(input: Input<'_>) -> bool
    ensures { result ≡ begins (first (the "TO" ∣ the "AS")) (seen input.entry) }
{
    if at_word(input, "TO") {
        return true;
    }
    at_word(input, "AS")
}

/// `TO | AS`
fn to(input: Input<'_>) -> Result<Input<'_>, ReadFault<'_>>
    ensures { Gives (λ rest. (tt, seen rest)) stop_of result (read (the "TO" ∣ the "AS") (seen input.entry)) }
{
    if at_word(input, "TO") {
        word(input, "TO")
    } else {
        word(input, "AS")
    }
}

/// `[TO|AS]`
fn optional_to(input: Input<'_>) -> Result<Input<'_>, ReadFault<'_>>
    ensures { Gives (λ rest. (tt, seen rest)) stop_of result (read (maybe (the "TO" ∣ the "AS")) (seen input.entry)) }
{
    if at_to(input) { to(input) } else { Ok(input) }
}

/// `[TO|AS] object`
fn renamed_table(alloc: Global, input: Input<'_>) -> Result<(AlterAction, Input<'_>), ReadFault<'_>>
    ensures { Gives (λ x. (x.0, seen x.1)) stop_of result
        (read (means (λ o. AlterAction.RenameTable o) (maybe (the "TO" ∣ the "AS") ⊳ object)) (seen input.entry)) }
{
    let rest = optional_to(input)?;
    let (to, rest) = object(alloc, rest)?;
    Ok((AlterAction::RenameTable { to }, rest))
}

/// `COLUMN name TO name`
fn renamed_column(
    alloc: Global,
    input: Input<'_>,
) -> Result<(AlterAction, Input<'_>), ReadFault<'_>>
    ensures { Gives (λ x. (x.0, seen x.1)) stop_of result
        (read (means (λ p. AlterAction.RenameColumn p.0 p.1) (the "COLUMN" ⊳ name_to_name)) (seen input.entry)) }
{
    let rest = word(input, "COLUMN")?;
    let ((from, to), rest) = name_to_name(alloc, rest)?;
    Ok((AlterAction::RenameColumn { from, to }, rest))
}

/// `(INDEX|KEY) name TO name`
fn renamed_index(alloc: Global, input: Input<'_>) -> Result<(AlterAction, Input<'_>), ReadFault<'_>>
    ensures { Gives (λ x. (x.0, seen x.1)) stop_of result
        (read (means (λ p. AlterAction.RenameIndex p.0 p.1) (index_or_key ⊳ name_to_name)) (seen input.entry)) }
{
    let rest = index_or_key(input)?;
    let ((from, to), rest) = name_to_name(alloc, rest)?;
    Ok((AlterAction::RenameIndex { from, to }, rest))
}

/// `RENAME` and a column, an index or the table.
#[tactic(auto, unfolding(sql_ast::specs::GrammarActions::rename_action, sql_ast::specs::GrammarParts::index_or_key))]
pub fn rename_action(
    alloc: Global,
    input: Input<'_>,
) -> Result<(AlterAction, Input<'_>), ReadFault<'_>>
    ensures { Gives (λ x. (x.0, seen x.1)) stop_of result (read rename_action (seen input.entry)) }
{
    let rest = word(input, "RENAME")?;
    if at_word(rest, "COLUMN") {
        renamed_column(alloc, rest)
    } else if at_index_or_key(rest) {
        renamed_index(alloc, rest)
    } else {
        renamed_table(alloc, rest)
    }
}

/// `SET DEFAULT literal`
fn set_default(
    alloc: Global,
    input: Input<'_>,
) -> Result<(Option<Literal>, Input<'_>), ReadFault<'_>>
    ensures { Gives (λ x. (x.0, seen x.1)) stop_of result
        (read (means (λ v. Some v) (the "SET" ⊳ the "DEFAULT" ⊳ literal)) (seen input.entry)) }
{
    let rest = word(input, "SET")?;
    let rest = word(rest, "DEFAULT")?;
    let (value, rest) = literal(alloc, rest)?;
    Ok((Some(value), rest))
}

/// `DROP DEFAULT`
fn no_default(input: Input<'_>) -> Result<(Option<Literal>, Input<'_>), ReadFault<'_>>
    ensures { Gives (λ x. (x.0, seen x.1)) stop_of result
        (read (gives None (the "DROP" ⊳ the "DEFAULT")) (seen input.entry)) }
{
    let rest = word(input, "DROP")?;
    let rest = word(rest, "DEFAULT")?;
    Ok((None, rest))
}

/// `SET DEFAULT literal | DROP DEFAULT`
fn new_default(
    alloc: Global,
    input: Input<'_>,
) -> Result<(Option<Literal>, Input<'_>), ReadFault<'_>>
    ensures { Gives (λ x. (x.0, seen x.1)) stop_of result
        (read (means (λ v. Some v) (the "SET" ⊳ the "DEFAULT" ⊳ literal) ∣ gives None (the "DROP" ⊳ the "DEFAULT")) (seen input.entry)) }
{
    if at_word(input, "SET") {
        set_default(alloc, input)
    } else {
        no_default(input)
    }
}

/// The action that gives a column a default, or takes it away.
fn default_action(name: Name, default: Option<Literal>) -> AlterAction
    ensures { result ≡ default_action name default }
{
    match default {
        Some(value) => AlterAction::SetDefault { name, value },
        None => AlterAction::DropDefault { name },
    }
}

/// `ALTER [COLUMN] name SET DEFAULT literal | ALTER [COLUMN] name DROP DEFAULT`
#[tactic(auto, unfolding(sql_ast::specs::GrammarActions::alter_action, sql_ast::specs::GrammarActions::maybe_column))]
pub fn alter_action(
    alloc: Global,
    input: Input<'_>,
) -> Result<(AlterAction, Input<'_>), ReadFault<'_>>
    ensures { Gives (λ x. (x.0, seen x.1)) stop_of result (read alter_action (seen input.entry)) }
{
    let rest = word(input, "ALTER")?;
    let rest = maybe_word(rest, "COLUMN")?;
    let (name, rest) = name(alloc, rest)?;
    let (default, rest) = new_default(alloc, rest)?;
    Ok((default_action(name, default), rest))
}
