ghost use Rattle.std.specs.Prelude.{◌≡◌};
ghost use Rattle.sql_grammar.specs.Lexemes.{begins};
ghost use Rattle.sql_grammar.specs.Grammar.{means, many};
ghost use Rattle.sql_grammar.specs.Reading.{read, first};
ghost use Rattle.sql_grammar.specs.Rules.{word_of, gives, ◌⊳◌};
ghost use Rattle.sql_grammar.specs.Answers.{Gives, folded};
ghost use Rattle.sql_ast.specs.GrammarParts.{the, object, names, ◌&◌};
ghost use Rattle.sql_ast.specs.GrammarKeys.{what_is_done, rule, with_rule, with_rules, foreign_key, foreign_key_of};
ghost use Rattle.sql_read.specs.Seen.{seen, stop_of};

use crate::word_value::word_value;
use dd_names::{List, Name};
use sql_ast::Element;
use sql_parse_parts::{names, object, optional_name};
use sql_read::{Input, ReadFault, at_word, word};
use sql_types::{FkRule, FkWords, ObjRef};
use std::alloc::Global;

/// `SET NULL`
fn set_null(input: Input<'_>) -> Result<(FkRule, Input<'_>), ReadFault<'_>>
    ensures { Gives (λ x. (x.0, seen x.1)) stop_of result (read (gives FkRule.SetNull (the "SET" ⊳ the "NULL")) (seen input.entry)) }
{
    let rest = word(input, "SET")?;
    word_value(rest, "NULL", FkRule::SetNull)
}

/// `NO ACTION`
fn no_action(input: Input<'_>) -> Result<(FkRule, Input<'_>), ReadFault<'_>>
    ensures { Gives (λ x. (x.0, seen x.1)) stop_of result (read (gives FkRule.NoAction (the "NO" ⊳ the "ACTION")) (seen input.entry)) }
{
    let rest = word(input, "NO")?;
    word_value(rest, "ACTION", FkRule::NoAction)
}

/// `RESTRICT | CASCADE | SET NULL | NO ACTION`
#[tactic(auto, unfolding(sql_ast::specs::GrammarKeys::what_is_done))]
fn what_is_done(input: Input<'_>) -> Result<(FkRule, Input<'_>), ReadFault<'_>>
    ensures { Gives (λ x. (x.0, seen x.1)) stop_of result (read what_is_done (seen input.entry)) }
{
    if at_word(input, "RESTRICT") {
        return word_value(input, "RESTRICT", FkRule::Restrict);
    }
    if at_word(input, "CASCADE") {
        return word_value(input, "CASCADE", FkRule::Cascade);
    }
    if at_word(input, "SET") {
        return set_null(input);
    }
    no_action(input)
}

/// A word, and what is done behind it.
fn done_behind<'a>(input: Input<'a>, expected: &str) -> Result<(FkRule, Input<'a>), ReadFault<'a>>
    ensures { Gives (λ x. (x.0, seen x.1)) stop_of result (read (word_of expected.now ⊳ what_is_done) (seen input.entry)) }
{
    match word(input, expected) {
        Ok(rest) => what_is_done(rest),
        Err(fault) => Err(fault),
    }
}

/// Takes one more rule into a foreign key, in the place of an earlier one of its kind.
#[tactic(auto, unfolding(sql_ast::specs::GrammarKeys::rule))]
fn rule<'a>(words: &mut FkWords, input: Input<'a>) -> Result<Input<'a>, ReadFault<'a>>
    ensures { Gives (λ rest. (words.new, seen rest)) stop_of result (read (means (with_rule words.old) rule) (seen input.entry)) }
{
    let rest = word(input, "ON")?;
    if at_word(rest, "DELETE") {
        let (done, rest) = done_behind(rest, "DELETE")?;
        words.on_delete = done;
        return Ok(rest);
    }
    let (done, rest) = done_behind(rest, "UPDATE")?;
    words.on_update = done;
    Ok(rest)
}

/// Whether the word that begins a rule is next.
#[tactic(auto, unfolding(sql_ast::specs::GrammarKeys::rule))]
fn at_rule(input: Input<'_>) -> bool
    ensures { result ≡ begins (first rule) (seen input.entry) }
{
    at_word(input, "ON")
}

/// A foreign key with all rules that follow, of which the last of each kind holds.
fn rules(words: FkWords, input: Input<'_>) -> Result<(FkWords, Input<'_>), ReadFault<'_>>
    ensures { Gives (λ x. (x.0, seen x.1)) stop_of result (folded with_rules words (read (many rule) (seen input.entry))) }
{
    let mut ruled = words;
    let mut rest = input;
    'rules: while at_rule(rest) {
        let after = match rule(&mut ruled, rest) {
            Ok(read) => read,
            Err(fault) => return Err(fault),
        };
        rest = after;
    }
    Ok((ruled, rest))
}

/// A foreign key without a rule that is written, which is NO ACTION.
fn foreign_key_of(
    name: Option<Name>,
    columns: List<Name>,
    parent: ObjRef,
    parent_columns: List<Name>,
) -> FkWords
    ensures { result ≡ foreign_key_of name columns parent parent_columns }
{
    FkWords {
        constraint: None,
        name,
        columns,
        parent,
        parent_columns,
        on_delete: FkRule::NoAction,
        on_update: FkRule::NoAction,
    }
}

/// `FOREIGN KEY [name] names REFERENCES object names {rule}`
#[tactic(auto, unfolding(sql_ast::specs::GrammarKeys::foreign_key))]
pub fn foreign_key(alloc: Global, input: Input<'_>) -> Result<(Element, Input<'_>), ReadFault<'_>>
    ensures { Gives (λ x. (x.0, seen x.1)) stop_of result (read foreign_key (seen input.entry)) }
{
    let rest = word(input, "FOREIGN")?;
    let rest = word(rest, "KEY")?;
    let (name, rest) = optional_name(alloc, rest)?;
    let (columns, rest) = names(alloc, rest)?;
    referencing(alloc, name, columns, rest)
}

/// `REFERENCES object names {rule}`, behind the key's name and columns.
fn referencing(
    alloc: Global,
    name: Option<Name>,
    columns: List<Name>,
    input: Input<'_>,
) -> Result<(Element, Input<'_>), ReadFault<'_>>
    ensures { Gives (λ x. (x.0, seen x.1)) stop_of result
        (read (means (λ p. Element.ForeignKey (with_rules (foreign_key_of name columns p.0 p.1.0) p.1.1)) (the "REFERENCES" ⊳ (object & names & many rule))) (seen input.entry)) }
{
    let rest = word(input, "REFERENCES")?;
    let (parent, rest) = object(alloc, rest)?;
    let (parent_columns, rest) = names(alloc, rest)?;
    let words = foreign_key_of(name, columns, parent, parent_columns);
    match rules(words, rest) {
        Ok((words, rest)) => Ok((Element::ForeignKey(words), rest)),
        Err(fault) => Err(fault),
    }
}
