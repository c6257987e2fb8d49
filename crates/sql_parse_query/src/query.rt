ghost use Rattle.std.specs.Prelude.{◌≡◌, ◌≤◌, List, length, drop, IfOk, None};
ghost use Rattle.sql_grammar.specs.Lexemes.{Lexeme};
ghost use Rattle.sql_grammar.specs.Grammar.{Says};
ghost use Rattle.sql_grammar.specs.Reading.{read};
ghost use Rattle.sql_grammar.specs.Rules.{listed, ◌⊳◌};
ghost use Rattle.sql_grammar.specs.Answers.{Gives};
ghost use Rattle.sql_lex.specs.Lexing.{tokens_of};
ghost use Rattle.sql_lex.specs.Texts.{lexemes};
ghost use Rattle.sql_ast.specs.GrammarParts.{the};
ghost use Rattle.sql_ast.specs.GrammarViews.{source, select};
ghost use Rattle.sql_read.specs.Seen.{seen, stop_of};
ghost use Rattle.sql_parse_parts.specs.Faults.{IsFront};

use crate::items::ItemList;
use crate::sources::SourceList;
use dd_names::List;
use sql_ast::{Select, SelectSource};
use sql_lex::Token;
use sql_parse_parts::{ParseFault, from_token, told};
use sql_read::{Input, ReadFault, listed, word};
use std::alloc::Global;

/// `SELECT item {, item} FROM source {, source}`
#[tactic(auto, unfolding(sql_ast::specs::GrammarViews::select))]
pub fn select_words(alloc: Global, input: Input<'_>) -> Result<(Select, Input<'_>), ReadFault<'_>>
    ensures { Gives (λ x. (x.0, seen x.1)) stop_of result (read select (seen input.entry)) }
{
    let rest = word(input, "SELECT")?;
    let (items, rest) = listed::<ItemList>(alloc, rest)?;
    let (sources, rest) = sources(alloc, rest)?;
    Ok((Select { items, sources }, rest))
}

/// `FROM source {, source}`
fn sources(
    alloc: Global,
    input: Input<'_>,
) -> Result<(List<SelectSource>, Input<'_>), ReadFault<'_>>
    ensures { Gives (λ x. (x.0, seen x.1)) stop_of result (read (the "FROM" ⊳ listed source) (seen input.entry)) }
{
    let rest = word(input, "FROM")?;
    listed::<SourceList>(alloc, rest)
}

/// The query that the tokens of a text are from one of them on, as far as the grammar goes, or the first fault.
pub fn select(
    alloc: Global,
    tokens: &[Token],
    text: &str,
    from: usize,
) -> Result<Select, ParseFault>
    requires tokens { (tokens.now, None) ≡ tokens_of text.now }
    requires within { from ≤ length tokens.now }
    ensures exact { IsFront text.now result (read select (drop from (lexemes text.now))) }
    ensures says { IfOk result (λ query. (after : List Lexeme) × Says select (drop from (lexemes text.now)) after query) }
{
    match select_words(alloc, from_token(text, tokens, from)) {
        Ok((query, _)) => Ok(query),
        Err(fault) => Err(told(alloc, text, tokens, None, fault)),
    }
}
