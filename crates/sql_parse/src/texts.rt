ghost use Rattle.std.specs.Prelude.{◌≡◌, ◌==◌, [], ◌∷◌, length, IfOk};
ghost use Rattle.sql_grammar.specs.Reading.{read};
ghost use Rattle.sql_grammar.specs.Answers.{Gives};
ghost use Rattle.sql_lex.specs.Lexing.{tokens_of};
ghost use Rattle.sql_ast.specs.Grammar.{statement};
ghost use Rattle.sql_ast.specs.Reads.{Reads, plainly_read, statement_read};
ghost use Rattle.sql_lex.specs.Texts.{syntax_error, name_too_long};
ghost use Rattle.sql_read.specs.Seen.{seen, stop_of};
ghost use Rattle.sql_parse.specs.Parsing.{whole, IsPlainReading, IsReading};

use crate::statement::statement_words;
use dd_errors::SqlError;
use dd_names::{List, Text};
use sql_ast::Statement;
use sql_ast_laws::statement_laws;
use sql_lex::{Lexed, tokens_before};
use sql_parse_parts::{ParseFault, told};
use sql_read::{Input, ReadFault};
use std::alloc::{AllocError, Global};

/// Whether nothing is left to be read.
#[tactic(auto, unfolding(sql_read::specs::Seen::seen))]
fn is_done(input: Input<'_>) -> bool
    ensures { result ≡ (length (seen input.entry) == 0) }
{
    input.tokens.is_empty() && !input.broken
}

/// The statement that the tokens are, all of them.
fn whole(alloc: Global, input: Input<'_>) -> Result<Statement, ReadFault<'_>>
    ensures { Gives (λ s. s) stop_of result (whole (read statement (seen input.entry))) }
{
    let (statement, rest) = statement_words(alloc, input)?;
    if is_done(rest) {
        return Ok(statement);
    }
    drop(statement);
    Err(ReadFault::Syntax { rest })
}

/// The statement that a text is by its tokens, or its first fault.
fn parse_lexed(alloc: Global, text: &str, lexed: &Lexed) -> Result<Statement, ParseFault>
    requires { (lexed.now.tokens, lexed.now.bad) ≡ tokens_of text.now }
    ensures { IsPlainReading result text.now }
{
    match whole(alloc, Input::of(text, lexed)) {
        Ok(statement) => Ok(statement),
        Err(fault) => Err(told(alloc, text, lexed.tokens.as_slice(), lexed.bad, fault)),
    }
}

/// The statement that a text is, or its first fault.
pub fn parse(alloc: Global, text: &str) -> Result<Statement, ParseFault>
    ensures plain { IsPlainReading result text.now }
    ensures reading { IsReading result text.now }
    ensures reads { IfOk result (λ s. Reads text.now s) }
{
    statement_laws();
    match tokens_before(alloc, text) {
        Ok(lexed) => parse_lexed(alloc, text, &lexed),
        Err(_) => Err(ParseFault::Memory),
    }
}

/// A text whose first fault is at a byte.
#[tactic(auto, unfolding(dd_errors::specs::Errors::form_of))]
fn syntax_fault(alloc: Global, at: usize) -> Result<Statement, AllocError>
    ensures { IfOk result (λ s. s ≡ statement_read (syntax_error at)) }
{
    let at = Text::from_string(at.to_string(alloc)?);
    Ok(Statement::Bad(SqlError::of(1064, one(alloc, at)?)))
}

/// A text with a name that is too long.
#[tactic(auto, unfolding(dd_errors::specs::Errors::form_of))]
fn long_name_fault(alloc: Global, name: Text) -> Result<Statement, AllocError>
    ensures { IfOk result (λ s. s ≡ statement_read (name_too_long name)) }
{
    Ok(Statement::Bad(SqlError::of(1059, one(alloc, name)?)))
}

fn one(alloc: Global, text: Text) -> Result<List<Text>, AllocError>
    ensures { IfOk result (λ list. list ≡ text ∷ []) }
{
    let mut list = List::new(alloc);
    list.push(text)?;
    Ok(list)
}

/// The statement as which a text reads: where it is none, `Bad`, with the byte of its first fault or the name that is too long.
pub fn statement_of(alloc: Global, text: &str) -> Result<Statement, AllocError>
    ensures plain { IfOk result (λ s. s ≡ plainly_read text.now) }
    ensures reads { IfOk result (λ s. Reads text.now s) }
{
    match parse(alloc, text) {
        Ok(statement) => Ok(statement),
        Err(ParseFault::Syntax { at }) => syntax_fault(alloc, at),
        Err(ParseFault::TooLong { name }) => long_name_fault(alloc, name),
        Err(ParseFault::Memory) => Err(AllocError),
    }
}
