ghost use Rattle.std.specs.Prelude.{◌≡◌};
ghost use Rattle.sql_grammar.specs.Lexemes.{begins};
ghost use Rattle.sql_grammar.specs.Grammar.{means};
ghost use Rattle.sql_grammar.specs.Reading.{read, first};
ghost use Rattle.sql_grammar.specs.Rules.{opt, ◌⊳◌};
ghost use Rattle.sql_grammar.specs.Answers.{Gives};
ghost use Rattle.sql_ast.specs.GrammarParts.{the, a_name, maybe, cols, index_or_key, ◌&◌};
ghost use Rattle.sql_ast.specs.GrammarKeys.{key_of, primary_key, unique_key, plain_key, with_constraint, constraint_key, key};
ghost use Rattle.sql_read.specs.Seen.{seen, stop_of};

use crate::foreign_key::foreign_key;
use dd_names::{List, Name};
use sql_ast::Element;
use sql_parse_parts::{columns, index_or_key, optional_name};
use sql_read::{Input, ReadFault, at_word, word};
use sql_types::{FkWords, IndexClass, KeyWords};
use std::alloc::Global;

/// Whether `INDEX` or `KEY` is next.
#[tactic(auto, unfolding(sql_ast::specs::GrammarParts::index_or_key), using(sql_grammar::proofs::Firsts::begins_more))]
pub fn at_index_or_key(input: Input<'_>) -> bool
    ensures { result ≡ begins (first index_or_key) (seen input.entry) }
{
    if at_word(input, "INDEX") {
        return true;
    }
    at_word(input, "KEY")
}

/// `[INDEX|KEY]`
fn optional_index_or_key(input: Input<'_>) -> Result<Input<'_>, ReadFault<'_>>
    ensures { Gives (λ rest. (tt, seen rest)) stop_of result (read (maybe index_or_key) (seen input.entry)) }
{
    if at_index_or_key(input) {
        index_or_key(input)
    } else {
        Ok(input)
    }
}

/// A key without a constraint's name.
fn key_of(class: IndexClass, name: Option<Name>, columns: List<Name>) -> Element
    ensures { result ≡ key_of class name columns }
{
    Element::Key(KeyWords {
        class,
        constraint: None,
        name,
        columns,
    })
}

/// `PRIMARY KEY cols`
#[tactic(auto, unfolding(sql_ast::specs::GrammarKeys::primary_key))]
fn primary_key(alloc: Global, input: Input<'_>) -> Result<(Element, Input<'_>), ReadFault<'_>>
    ensures { Gives (λ x. (x.0, seen x.1)) stop_of result (read primary_key (seen input.entry)) }
{
    let rest = word(input, "PRIMARY")?;
    let rest = word(rest, "KEY")?;
    let (columns, rest) = columns(alloc, rest)?;
    Ok((key_of(IndexClass::Primary, None, columns), rest))
}

/// `[name] cols`
fn name_and_columns(
    alloc: Global,
    input: Input<'_>,
) -> Result<((Option<Name>, List<Name>), Input<'_>), ReadFault<'_>>
    ensures { Gives (λ x. ((x.0.0, x.0.1), seen x.1)) stop_of result (read (opt a_name & cols) (seen input.entry)) }
{
    let (name, rest) = optional_name(alloc, input)?;
    let (columns, rest) = columns(alloc, rest)?;
    Ok(((name, columns), rest))
}

/// `UNIQUE [INDEX|KEY] [name] cols`
#[tactic(auto, unfolding(sql_ast::specs::GrammarKeys::unique_key))]
fn unique_key(alloc: Global, input: Input<'_>) -> Result<(Element, Input<'_>), ReadFault<'_>>
    ensures { Gives (λ x. (x.0, seen x.1)) stop_of result (read unique_key (seen input.entry)) }
{
    let rest = word(input, "UNIQUE")?;
    let rest = optional_index_or_key(rest)?;
    let ((name, columns), rest) = name_and_columns(alloc, rest)?;
    Ok((key_of(IndexClass::Unique, name, columns), rest))
}

/// `(INDEX|KEY) [name] cols`
#[tactic(auto, unfolding(sql_ast::specs::GrammarKeys::plain_key))]
fn plain_key(alloc: Global, input: Input<'_>) -> Result<(Element, Input<'_>), ReadFault<'_>>
    ensures { Gives (λ x. (x.0, seen x.1)) stop_of result (read plain_key (seen input.entry)) }
{
    let rest = index_or_key(input)?;
    let ((name, columns), rest) = name_and_columns(alloc, rest)?;
    Ok((key_of(IndexClass::Plain, name, columns), rest))
}

/// What `[CONSTRAINT [name]]` may stand before.
#[tactic(auto, unfolding(sql_ast::specs::GrammarKeys::constraint_key, sql_ast::specs::GrammarKeys::primary_key, sql_ast::specs::GrammarKeys::unique_key))]
fn constraint_key(alloc: Global, input: Input<'_>) -> Result<(Element, Input<'_>), ReadFault<'_>>
    ensures { Gives (λ x. (x.0, seen x.1)) stop_of result (read constraint_key (seen input.entry)) }
{
    if at_word(input, "PRIMARY") {
        return primary_key(alloc, input);
    }
    if at_word(input, "UNIQUE") {
        return unique_key(alloc, input);
    }
    foreign_key(alloc, input)
}

/// Whether a word that begins `constraint_key` is next.
#[tactic(auto, unfolding(sql_ast::specs::GrammarKeys::constraint_key, sql_ast::specs::GrammarKeys::primary_key, sql_ast::specs::GrammarKeys::unique_key, sql_ast::specs::GrammarKeys::foreign_key), using(sql_grammar::proofs::Firsts::begins_more))]
fn at_constraint_key(input: Input<'_>) -> bool
    ensures { result ≡ begins (first constraint_key) (seen input.entry) }
{
    if at_word(input, "PRIMARY") {
        return true;
    }
    if at_word(input, "UNIQUE") {
        return true;
    }
    at_word(input, "FOREIGN")
}

/// `CONSTRAINT [name]`
fn constraint(alloc: Global, input: Input<'_>) -> Result<(Option<Name>, Input<'_>), ReadFault<'_>>
    ensures { Gives (λ x. (x.0, seen x.1)) stop_of result (read (the "CONSTRAINT" ⊳ opt a_name) (seen input.entry)) }
{
    let rest = word(input, "CONSTRAINT")?;
    optional_name(alloc, rest)
}

/// A key with its constraint's name, which has no effect on a primary key.
fn with_constraint(constraint: Option<Name>, element: Element) -> Element
    ensures { result ≡ with_constraint constraint element }
{
    match element {
        Element::Key(key) => match key.class {
            IndexClass::Primary => Element::Key(key),
            IndexClass::Unique | IndexClass::Plain => Element::Key(KeyWords { constraint, ..key }),
        },
        Element::ForeignKey(key) => Element::ForeignKey(FkWords { constraint, ..key }),
        Element::Column(column) => Element::Column(column),
    }
}

/// `CONSTRAINT [name]` and a key.
fn constrained_key(alloc: Global, input: Input<'_>) -> Result<(Element, Input<'_>), ReadFault<'_>>
    ensures { Gives (λ x. (x.0, seen x.1)) stop_of result
        (read (means (λ p. with_constraint p.0 p.1) ((the "CONSTRAINT" ⊳ opt a_name) & constraint_key)) (seen input.entry)) }
{
    let (name, rest) = constraint(alloc, input)?;
    let (element, rest) = constraint_key(alloc, rest)?;
    Ok((with_constraint(name, element), rest))
}

/// A key, a foreign key or an index, with or without its constraint's name.
#[tactic(auto, unfolding(sql_ast::specs::GrammarKeys::key))]
pub fn key(alloc: Global, input: Input<'_>) -> Result<(Element, Input<'_>), ReadFault<'_>>
    ensures { Gives (λ x. (x.0, seen x.1)) stop_of result (read key (seen input.entry)) }
{
    if at_word(input, "CONSTRAINT") {
        return constrained_key(alloc, input);
    }
    if at_constraint_key(input) {
        return constraint_key(alloc, input);
    }
    plain_key(alloc, input)
}
