ghost use Rattle.std.specs.Prelude.{◌≡◌, ◌<◌, ◌≤◌, length, drop, IfOk, IfErr, None};
ghost use Rattle.sql_grammar.specs.Grammar.{Says};
ghost use Rattle.sql_grammar.specs.Reading.{read};
ghost use Rattle.sql_lex.specs.Lexing.{tokens_of};
ghost use Rattle.sql_lex.specs.Texts.{lexemes};
ghost use Rattle.sql_ast.specs.GrammarKeys.{element};
ghost use Rattle.sql_read.specs.Seen.{seen};
ghost use Rattle.sql_parse_columns.specs.Fronts.{IsFrontTo, IsFirstFault};

use crate::elements::element_words;
use sql_ast::Element;
use sql_lex::Token;
use sql_parse_parts::{ParseFault, from_token, told};
use sql_read::Input;
use std::alloc::Global;

/// How many lexemes are left.
#[tactic(auto, unfolding(sql_read::specs::Seen::seen))]
fn left(input: Input<'_>) -> usize
    ensures { result ≡ length (seen input.entry) }
{
    if input.broken {
        input.tokens.len() + 1
    } else {
        input.tokens.len()
    }
}

/// The element that the tokens of a text are from one of them on, with the number of the token behind it, or the first
/// fault.
pub fn element(
    alloc: Global,
    tokens: &[Token],
    text: &str,
    from: usize,
) -> Result<(Element, usize), ParseFault>
    requires tokens { (tokens.now, None) ≡ tokens_of text.now }
    requires within { from ≤ length tokens.now }
    ensures exact { IsFrontTo text.now result (read element (drop from (lexemes text.now))) }
    ensures says { IfOk result (λ x. Says element (drop from (lexemes text.now)) (drop x.1 (lexemes text.now)) x.0) }
    ensures fault { IfErr result (λ fault. IsFirstFault element text.now (drop from (lexemes text.now)) fault) }
    ensures behind { IfOk result (λ x. (from < x.1) × (x.1 ≤ length tokens.now)) }
{
    match element_words(alloc, from_token(text, tokens, from)) {
        Ok((element, rest)) => Ok((element, tokens.len().saturating_sub(left(rest)))),
        Err(fault) => Err(told(alloc, text, tokens, None, fault)),
    }
}
