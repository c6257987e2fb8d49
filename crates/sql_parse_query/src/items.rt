ghost use Rattle.std.specs.Prelude.{◌≡◌};
ghost use Rattle.sql_grammar.specs.Reading.{read};
ghost use Rattle.sql_grammar.specs.Rules.{◌⊳◌};
ghost use Rattle.sql_grammar.specs.Answers.{Gives};
ghost use Rattle.sql_ast.specs.GrammarParts.{the, a_name};
ghost use Rattle.sql_ast.specs.GrammarViews.{another_name, tail, item_of, item};
ghost use Rattle.sql_read.specs.Seen.{seen, stop_of};
ghost use Rattle.sql_parse_query.specs.Decided.{items_decided};
ghost use Rattle.sql_parse_query.specs.Tails.{tail_seen, column_tail, tail_behind_dot};

use dd_names::Name;
use sql_ast::Item;
use sql_read::{Input, ReadFault, at_name, at_sign, at_word, name, sign, word};
use std::alloc::Global;

/// `[[AS] name]`
#[tactic(auto, unfolding(sql_ast::specs::GrammarViews::another_name), using(sql_grammar::proofs::Firsts::begins_more))]
pub fn another_name(
    alloc: Global,
    input: Input<'_>,
) -> Result<(Option<Name>, Input<'_>), ReadFault<'_>>
    ensures { Gives (λ x. (x.0, seen x.1)) stop_of result (read another_name (seen input.entry)) }
{
    if at_word(input, "AS") {
        let (name, rest) = name_behind_as(alloc, input)?;
        return Ok((Some(name), rest));
    }
    if at_name(input) {
        let (name, rest) = name(alloc, input)?;
        return Ok((Some(name), rest));
    }
    Ok((None, input))
}

/// `AS name`
fn name_behind_as(alloc: Global, input: Input<'_>) -> Result<(Name, Input<'_>), ReadFault<'_>>
    ensures { Gives (λ x. (x.0, seen x.1)) stop_of result (read (the "AS" ⊳ a_name) (seen input.entry)) }
{
    let rest = word(input, "AS")?;
    name(alloc, rest)
}

/// What follows the first name of an item.
#[derive(Drop)]
enum Tail {
    /// A dot and a star.
    AllOf,
    /// A dot, a column, and the name under which it is shown where one is written.
    ColumnOf(Name, Option<Name>),
    /// The name under which the column is shown, where one is written.
    NoMore(Option<Name>),
}

/// `name [[AS] name]`
fn column_tail(alloc: Global, input: Input<'_>) -> Result<(Tail, Input<'_>), ReadFault<'_>>
    ensures { Gives (λ x. (tail_seen x.0, seen x.1)) stop_of result (read column_tail (seen input.entry)) }
{
    let (column, rest) = name(alloc, input)?;
    let (output, rest) = another_name(alloc, rest)?;
    Ok((Tail::ColumnOf(column, output), rest))
}

/// `* | name [[AS] name]`
fn tail_behind_dot(alloc: Global, input: Input<'_>) -> Result<(Tail, Input<'_>), ReadFault<'_>>
    ensures { Gives (λ x. (tail_seen x.0, seen x.1)) stop_of result (read tail_behind_dot (seen input.entry)) }
{
    if at_sign(input, b'*') {
        let rest = sign(input, b'*')?;
        return Ok((Tail::AllOf, rest));
    }
    column_tail(alloc, input)
}

/// `. * | . name [[AS] name] | [[AS] name]`
#[tactic(auto, unfolding(sql_ast::specs::GrammarViews::tail))]
fn item_tail(alloc: Global, input: Input<'_>) -> Result<(Tail, Input<'_>), ReadFault<'_>>
    ensures { Gives (λ x. (tail_seen x.0, seen x.1)) stop_of result (read tail (seen input.entry)) }
{
    if at_sign(input, b'.') {
        let rest = sign(input, b'.')?;
        return tail_behind_dot(alloc, rest);
    }
    let (output, rest) = another_name(alloc, input)?;
    Ok((Tail::NoMore(output), rest))
}

/// The item of a name and of what follows it.
fn item_of(first: Name, tail: Tail) -> Item
    ensures { result ≡ item_of first (tail_seen tail) }
{
    match tail {
        Tail::AllOf => Item::AllOf(first),
        Tail::ColumnOf(column, output) => Item::Column {
            alias: Some(first),
            column,
            output,
        },
        Tail::NoMore(output) => Item::Column {
            alias: None,
            column: first,
            output,
        },
    }
}

/// `* | name . * | [name .] name [[AS] name]`
#[tactic(auto, unfolding(sql_ast::specs::GrammarViews::item))]
pub fn item(alloc: Global, input: Input<'_>) -> Result<(Item, Input<'_>), ReadFault<'_>>
    ensures { Gives (λ x. (x.0, seen x.1)) stop_of result (read item (seen input.entry)) }
{
    if at_sign(input, b'*') {
        let rest = sign(input, b'*')?;
        return Ok((Item::All, rest));
    }
    let (first, rest) = name(alloc, input)?;
    let (tail, rest) = item_tail(alloc, rest)?;
    Ok((item_of(first, tail), rest))
}

/// The items of a query.
pub struct ItemList {}

impl sql_read::Item for ItemList {
    type Value = Item;

    ghost rule = { item };

    ghost decided = { items_decided };

    fn read<'a>(alloc: Global, input: Input<'a>) -> Result<(Item, Input<'a>), ReadFault<'a>> {
        item(alloc, input)
    }
}
