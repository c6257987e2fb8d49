ghost use Rattle.sql_grammar.specs.Reading.{read};
ghost use Rattle.sql_grammar.specs.Rules.{sign_of, ◌⊳◌};
ghost use Rattle.sql_grammar.specs.Answers.{Gives};
ghost use Rattle.sql_ast.specs.GrammarParts.{the, maybe};
ghost use Rattle.sql_ast.specs.GrammarViews.{part, view_words};
ghost use Rattle.sql_read.specs.Seen.{seen, stop_of};

use sql_read::{Input, ReadFault, at_name, at_word, name, sign, string, word};
use std::alloc::Global;

/// `name | string`
#[tactic(auto, unfolding(sql_ast::specs::GrammarViews::part))]
fn part(alloc: Global, input: Input<'_>) -> Result<Input<'_>, ReadFault<'_>>
    ensures { Gives (λ rest. (tt, seen rest)) stop_of result (read part (seen input.entry)) }
{
    if at_name(input) {
        let (_, rest) = name(alloc, input)?;
        Ok(rest)
    } else {
        let (_, rest) = string(alloc, input)?;
        Ok(rest)
    }
}

/// `[ALGORITHM = UNDEFINED]`
fn algorithm(input: Input<'_>) -> Result<Input<'_>, ReadFault<'_>>
    ensures { Gives (λ rest. (tt, seen rest)) stop_of result
        (read (maybe (the "ALGORITHM" ⊳ sign_of 61 ⊳ the "UNDEFINED")) (seen input.entry)) }
{
    if !at_word(input, "ALGORITHM") {
        return Ok(input);
    }
    let rest = word(input, "ALGORITHM")?;
    let rest = sign(rest, b'=')?;
    word(rest, "UNDEFINED")
}

/// `[DEFINER = part @ part]`
fn definer(alloc: Global, input: Input<'_>) -> Result<Input<'_>, ReadFault<'_>>
    ensures { Gives (λ rest. (tt, seen rest)) stop_of result
        (read (maybe (the "DEFINER" ⊳ sign_of 61 ⊳ part ⊳ sign_of 64 ⊳ part)) (seen input.entry)) }
{
    if at_word(input, "DEFINER") {
        definer_words(alloc, input)
    } else {
        Ok(input)
    }
}

/// `DEFINER = part @ part`
fn definer_words(alloc: Global, input: Input<'_>) -> Result<Input<'_>, ReadFault<'_>>
    ensures { Gives (λ rest. (tt, seen rest)) stop_of result
        (read (the "DEFINER" ⊳ sign_of 61 ⊳ part ⊳ sign_of 64 ⊳ part) (seen input.entry)) }
{
    let rest = word(input, "DEFINER")?;
    let rest = sign(rest, b'=')?;
    account(alloc, rest)
}

/// `part @ part`
fn account(alloc: Global, input: Input<'_>) -> Result<Input<'_>, ReadFault<'_>>
    ensures { Gives (λ rest. (tt, seen rest)) stop_of result (read (part ⊳ sign_of 64 ⊳ part) (seen input.entry)) }
{
    let rest = part(alloc, input)?;
    let rest = sign(rest, b'@')?;
    part(alloc, rest)
}

/// `[SQL SECURITY DEFINER]`
fn security(input: Input<'_>) -> Result<Input<'_>, ReadFault<'_>>
    ensures { Gives (λ rest. (tt, seen rest)) stop_of result
        (read (maybe (the "SQL" ⊳ the "SECURITY" ⊳ the "DEFINER")) (seen input.entry)) }
{
    if !at_word(input, "SQL") {
        return Ok(input);
    }
    let rest = word(input, "SQL")?;
    let rest = word(rest, "SECURITY")?;
    word(rest, "DEFINER")
}

/// `[ALGORITHM = UNDEFINED] [DEFINER = part @ part] [SQL SECURITY DEFINER]`
#[tactic(auto, unfolding(sql_ast::specs::GrammarViews::view_words))]
pub fn view_words(alloc: Global, input: Input<'_>) -> Result<Input<'_>, ReadFault<'_>>
    ensures { Gives (λ rest. (tt, seen rest)) stop_of result (read view_words (seen input.entry)) }
{
    let rest = algorithm(input)?;
    let rest = definer(alloc, rest)?;
    security(rest)
}
