ghost use Rattle.std.specs.Prelude.{◌≡◌, refl};
ghost use Rattle.sql_grammar.specs.Lexemes.{name};
ghost use Rattle.sql_grammar.specs.Grammar.{one};
ghost use Rattle.sql_grammar.specs.Reading.{read};
ghost use Rattle.sql_grammar.specs.Rules.{opt, sign_of, listed, in_parentheses, ◌⊲◌, ◌⊳◌};
ghost use Rattle.sql_grammar.specs.Answers.{Gives};
ghost use Rattle.sql_ast.specs.GrammarParts.{a_name, a_number, in_schema, object, names, cols, the, maybe};
ghost use Rattle.sql_read.specs.Seen.{seen, stop_of};
ghost use Rattle.sql_parse_parts.specs.Decided.{columns_decided};

use crate::small_words::maybe_word;
use dd_names::{List, Name};
use sql_read::{
    Input, Item, ReadFault, at_name, at_sign, at_word, digits, listed, name, number_of, sign, word,
};
use sql_types::ObjRef;
use std::alloc::Global;

/// A name, where one is next.
pub fn optional_name(
    alloc: Global,
    input: Input<'_>,
) -> Result<(Option<Name>, Input<'_>), ReadFault<'_>>
    ensures { Gives (λ x. (x.0, seen x.1)) stop_of result (read (opt a_name) (seen input.entry)) }
{
    if !at_name(input) {
        return Ok((None, input));
    }
    let (name, rest) = name(alloc, input)?;
    Ok((Some(name), rest))
}

/// Decimal digits, as the number that they write, or 2^128 - 1 for every wider one.
pub fn number(input: Input<'_>) -> Result<(u128, Input<'_>), ReadFault<'_>>
    ensures { Gives (λ x. (x.0, seen x.1)) stop_of result (read a_number (seen input.entry)) }
{
    let (digits, rest) = digits(input)?;
    Ok((number_of(digits), rest))
}

/// `[name .] name`
#[tactic(auto, unfolding(sql_ast::specs::GrammarParts::object))]
pub fn object(alloc: Global, input: Input<'_>) -> Result<(ObjRef, Input<'_>), ReadFault<'_>>
    ensures { Gives (λ x. (x.0, seen x.1)) stop_of result (read object (seen input.entry)) }
{
    let (first, rest) = name(alloc, input)?;
    let (second, rest) = name_behind_dot(alloc, rest)?;
    Ok((in_schema(first, second), rest))
}

/// `[. name]`
fn name_behind_dot(
    alloc: Global,
    input: Input<'_>,
) -> Result<(Option<Name>, Input<'_>), ReadFault<'_>>
    ensures { Gives (λ x. (x.0, seen x.1)) stop_of result (read (opt (sign_of 46 ⊳ a_name)) (seen input.entry)) }
{
    if !at_sign(input, b'.') {
        return Ok((None, input));
    }
    let rest = sign(input, b'.')?;
    let (name, rest) = name(alloc, rest)?;
    Ok((Some(name), rest))
}

/// The object of one name, or of a schema's name and its own.
fn in_schema(first: Name, second: Option<Name>) -> ObjRef
    ensures { result ≡ in_schema first second }
{
    match second {
        None => ObjRef {
            schema: None,
            name: first,
        },
        Some(name) => ObjRef {
            schema: Some(first),
            name,
        },
    }
}

/// Names of a list.
struct NameItem {}

impl Item for NameItem {
    type Value = Name;

    ghost rule = { one name };

    ghost decided = { refl };

    fn read<'a>(alloc: Global, input: Input<'a>) -> Result<(Name, Input<'a>), ReadFault<'a>> {
        name(alloc, input)
    }
}

/// `( name {, name} )`
#[tactic(auto, unfolding(sql_ast::specs::GrammarParts::names))]
pub fn names(alloc: Global, input: Input<'_>) -> Result<(List<Name>, Input<'_>), ReadFault<'_>>
    ensures { Gives (λ x. (x.0, seen x.1)) stop_of result (read names (seen input.entry)) }
{
    let rest = sign(input, b'(')?;
    let (names, rest) = listed::<NameItem>(alloc, rest)?;
    let rest = sign(rest, b')')?;
    Ok((names, rest))
}

/// The names of a key's columns.
struct ColumnItem {}

impl Item for ColumnItem {
    type Value = Name;

    ghost rule = { a_name ⊲ maybe (the "ASC") };

    ghost decided = { columns_decided };

    fn read<'a>(alloc: Global, input: Input<'a>) -> Result<(Name, Input<'a>), ReadFault<'a>> {
        let (name, rest) = name(alloc, input)?;
        let rest = maybe_word(rest, "ASC")?;
        Ok((name, rest))
    }
}

/// `[USING BTREE]`
fn index_kind(input: Input<'_>) -> Result<Input<'_>, ReadFault<'_>>
    ensures { Gives (λ rest. (tt, seen rest)) stop_of result (read (maybe (the "USING" ⊳ the "BTREE")) (seen input.entry)) }
{
    if !at_word(input, "USING") {
        return Ok(input);
    }
    let rest = word(input, "USING")?;
    word(rest, "BTREE")
}

/// `( name [ASC] {, name [ASC]} ) [USING BTREE]`
#[tactic(auto, unfolding(sql_ast::specs::GrammarParts::cols))]
pub fn columns(alloc: Global, input: Input<'_>) -> Result<(List<Name>, Input<'_>), ReadFault<'_>>
    ensures { Gives (λ x. (x.0, seen x.1)) stop_of result (read cols (seen input.entry)) }
{
    let (names, rest) = column_names(alloc, input)?;
    let rest = index_kind(rest)?;
    Ok((names, rest))
}

/// `( name [ASC] {, name [ASC]} )`
fn column_names(alloc: Global, input: Input<'_>) -> Result<(List<Name>, Input<'_>), ReadFault<'_>>
    ensures { Gives (λ x. (x.0, seen x.1)) stop_of result (read (in_parentheses (listed (a_name ⊲ maybe (the "ASC")))) (seen input.entry)) }
{
    let rest = sign(input, b'(')?;
    let (names, rest) = listed::<ColumnItem>(alloc, rest)?;
    let rest = sign(rest, b')')?;
    Ok((names, rest))
}
