ghost use Rattle.std.specs.Prelude.{◌≡◌, ◌≤◌, List, length, drop, IfOk, IfErr, None};
ghost use Rattle.sql_grammar.specs.Lexemes.{Lexeme};
ghost use Rattle.sql_grammar.specs.Grammar.{Says};
ghost use Rattle.sql_grammar.specs.Reading.{read};
ghost use Rattle.sql_grammar.specs.Rules.{listed};
ghost use Rattle.sql_lex.specs.Lexing.{tokens_of};
ghost use Rattle.sql_lex.specs.Texts.{lexemes};
ghost use Rattle.sql_ast.specs.GrammarActions.{action};
ghost use Rattle.sql_parse_parts.specs.Faults.{IsFront};
ghost use Rattle.sql_parse_columns.specs.Fronts.{IsFirstFault};

use crate::action::ActionItem;
use dd_names::List;
use sql_ast::AlterAction;
use sql_lex::Token;
use sql_parse_parts::{ParseFault, from_token, told};
use sql_read::listed;
use std::alloc::Global;

/// The actions that the tokens of a text are from one of them on, as far as the grammar goes, or the first fault.
pub fn actions(
    alloc: Global,
    tokens: &[Token],
    text: &str,
    from: usize,
) -> Result<List<AlterAction>, ParseFault>
    requires tokens { (tokens.now, None) ≡ tokens_of text.now }
    requires within { from ≤ length tokens.now }
    ensures exact { IsFront text.now result (read (listed action) (drop from (lexemes text.now))) }
    ensures says { IfOk result (λ list. (after : List Lexeme) × Says (listed action) (drop from (lexemes text.now)) after list) }
    ensures fault { IfErr result (λ fault. IsFirstFault (listed action) text.now (drop from (lexemes text.now)) fault) }
{
    match listed::<ActionItem>(alloc, from_token(text, tokens, from)) {
        Ok((list, _)) => Ok(list),
        Err(fault) => Err(told(alloc, text, tokens, None, fault)),
    }
}
