ghost use Rattle.std.specs.Prelude.{◌≡◌, None};
ghost use Rattle.sql_grammar.specs.Lexemes.{begins};
ghost use Rattle.sql_grammar.specs.Grammar.{means};
ghost use Rattle.sql_grammar.specs.Reading.{read, first};
ghost use Rattle.sql_grammar.specs.Rules.{gives, listed, in_parentheses, ◌⊳◌};
ghost use Rattle.sql_grammar.specs.Answers.{Gives};
ghost use Rattle.sql_ast.specs.GrammarParts.{the, a_name, ◌∣◌, ◌&◌};
ghost use Rattle.sql_ast.specs.GrammarColumns.{named_column};
ghost use Rattle.sql_ast.specs.GrammarActions.{place, adds, added_columns, add_action};
ghost use Rattle.sql_read.specs.Seen.{seen, stop_of};

use sql_ast::{AlterAction, Element, Place};
use sql_parse_columns::{ColumnItem, key, named_column};
use sql_read::{Input, ReadFault, at_name, at_sign, at_word, listed, name, sign, word};
use std::alloc::Global;

/// Whether `FIRST` or `AFTER` is next.
#[tactic(auto, using(sql_grammar::proofs::Firsts::begins_more))]
fn at_place(input: Input<'_>) -> bool
    ensures { result ≡ begins (first (gives Place.First (the "FIRST") ∣ means (λ n. Place.After n) (the "AFTER" ⊳ a_name))) (seen input.entry) }
{
    if at_word(input, "FIRST") {
        return true;
    }
    at_word(input, "AFTER")
}

/// `FIRST | AFTER name`
fn written_place(alloc: Global, input: Input<'_>) -> Result<(Place, Input<'_>), ReadFault<'_>>
    ensures { Gives (λ x. (x.0, seen x.1)) stop_of result
        (read (gives Place.First (the "FIRST") ∣ means (λ n. Place.After n) (the "AFTER" ⊳ a_name)) (seen input.entry)) }
{
    if at_word(input, "FIRST") {
        return Ok((Place::First, word(input, "FIRST")?));
    }
    let rest = word(input, "AFTER")?;
    let (name, rest) = name(alloc, rest)?;
    Ok((Place::After(name), rest))
}

/// `[FIRST | AFTER name]`
#[tactic(auto, unfolding(sql_ast::specs::GrammarActions::place))]
pub fn place(alloc: Global, input: Input<'_>) -> Result<(Option<Place>, Input<'_>), ReadFault<'_>>
    ensures { Gives (λ x. (x.0, seen x.1)) stop_of result (read place (seen input.entry)) }
{
    if !at_place(input) {
        return Ok((None, input));
    }
    let (place, rest) = written_place(alloc, input)?;
    Ok((Some(place), rest))
}

/// `name column [place]`
fn added_column(alloc: Global, input: Input<'_>) -> Result<(AlterAction, Input<'_>), ReadFault<'_>>
    ensures { Gives (λ x. (x.0, seen x.1)) stop_of result
        (read (means (λ p. AlterAction.AddColumn p.0 p.1) (named_column & place)) (seen input.entry)) }
{
    let (column, rest) = named_column(alloc, input)?;
    let (place, rest) = place(alloc, rest)?;
    Ok((AlterAction::AddColumn { column, place }, rest))
}

/// `( name column {, name column} )`
fn column_list(alloc: Global, input: Input<'_>) -> Result<(AlterAction, Input<'_>), ReadFault<'_>>
    ensures { Gives (λ x. (x.0, seen x.1)) stop_of result
        (read (means (λ c. AlterAction.AddColumns c) (in_parentheses (listed named_column))) (seen input.entry)) }
{
    let rest = sign(input, b'(')?;
    let (columns, rest) = listed::<ColumnItem>(alloc, rest)?;
    let rest = sign(rest, b')')?;
    Ok((AlterAction::AddColumns { columns }, rest))
}

/// `name column [place] | ( name column {, name column} )`
#[tactic(auto, unfolding(sql_ast::specs::GrammarActions::added_columns, sql_ast::specs::GrammarColumns::named_column))]
fn added_columns(alloc: Global, input: Input<'_>) -> Result<(AlterAction, Input<'_>), ReadFault<'_>>
    ensures { Gives (λ x. (x.0, seen x.1)) stop_of result (read added_columns (seen input.entry)) }
{
    if at_name(input) {
        return added_column(alloc, input);
    }
    column_list(alloc, input)
}

/// Whether a name or a parenthesis is next.
#[tactic(auto, unfolding(sql_ast::specs::GrammarActions::added_columns, sql_ast::specs::GrammarColumns::named_column), using(sql_grammar::proofs::Firsts::begins_more))]
fn at_added_columns(input: Input<'_>) -> bool
    ensures { result ≡ begins (first added_columns) (seen input.entry) }
{
    if at_name(input) {
        return true;
    }
    at_sign(input, b'(')
}

/// An element that is added.
fn adds(element: Element) -> AlterAction
    ensures { result ≡ adds element }
{
    match element {
        Element::Column(column) => AlterAction::AddColumn {
            column,
            place: None,
        },
        Element::Key(key) => AlterAction::AddKey(key),
        Element::ForeignKey(key) => AlterAction::AddForeignKey(key),
    }
}

/// `ADD` and a column, columns, or a key.
#[tactic(auto, unfolding(sql_ast::specs::GrammarActions::add_action))]
pub fn add_action(
    alloc: Global,
    input: Input<'_>,
) -> Result<(AlterAction, Input<'_>), ReadFault<'_>>
    ensures { Gives (λ x. (x.0, seen x.1)) stop_of result (read add_action (seen input.entry)) }
{
    let rest = word(input, "ADD")?;
    if at_word(rest, "COLUMN") {
        let rest = word(rest, "COLUMN")?;
        return added_columns(alloc, rest);
    }
    if at_added_columns(rest) {
        return added_columns(alloc, rest);
    }
    let (element, rest) = key(alloc, rest)?;
    Ok((adds(element), rest))
}
