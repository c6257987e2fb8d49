ghost use Rattle.std.specs.Prelude.{◌≡◌, true};
ghost use Rattle.sql_grammar.specs.Lexemes.{begins};
ghost use Rattle.sql_grammar.specs.Grammar.{Grammar, many};
ghost use Rattle.sql_grammar.specs.Rules.{sign_of, listed, ◌⊳◌};
ghost use Rattle.sql_grammar.specs.Checks.{one_token_decides};
ghost use Rattle.sql_grammar.specs.Reading.{read, first};
ghost use Rattle.sql_grammar.specs.Answers.{Gives};
ghost use Rattle.sql_read.specs.Seen.{seen, stop_of};

use crate::fault::ReadFault;
use crate::input::Input;
use crate::reading::{at_sign, sign};
use dd_names::List;
use std::alloc::Global;

/// A rule that is read again and again, as a type.
pub trait Rule {
    /// What the rule stands for.
    type Value: Drop;

    /// The rule.
    ghost rule: { Grammar Self.Value };

    /// Whether the next token begins what the rule reads.
    fn starts(input: Input<'_>) -> bool
        ensures { result ≡ begins (first rule) (seen input.entry) };

    /// Reads by the rule, once.
    fn read<'a>(alloc: Global, input: Input<'a>) -> Result<(Self::Value, Input<'a>), ReadFault<'a>>
        ensures { Gives (λ x. (x.0, seen x.1)) stop_of result (read rule (seen input.entry)) };

    /// The next token tells whether the rule is read once more.
    ghost decided: { one_token_decides (many rule) ≡ true };
}

/// Reads by a rule as often as the next token begins it.
pub fn many<'a, R: Rule>(
    alloc: Global,
    input: Input<'a>,
) -> Result<(List<R::Value>, Input<'a>), ReadFault<'a>>
    ensures { Gives (λ x. (x.0, seen x.1)) stop_of result (read (many R.rule) (seen input.entry)) }
{
    let mut values = List::new(alloc);
    let mut rest = input;
    'values: while R::starts(rest) {
        let (value, after) = match R::read(alloc, rest) {
            Ok(read) => read,
            Err(fault) => return Err(fault),
        };
        if values.push(value).is_err() {
            return Err(ReadFault::Memory);
        }
        rest = after;
    }
    Ok((values, rest))
}

/// A rule whose values stand in lists, divided by commas, as a type.
pub trait Item {
    /// What the rule stands for.
    type Value: Drop;

    /// The rule.
    ghost rule: { Grammar Self.Value };

    /// Reads by the rule, once.
    fn read<'a>(alloc: Global, input: Input<'a>) -> Result<(Self::Value, Input<'a>), ReadFault<'a>>
        ensures { Gives (λ x. (x.0, seen x.1)) stop_of result (read rule (seen input.entry)) };

    /// The next token tells whether the list goes on.
    ghost decided: { one_token_decides (listed rule) ≡ true };
}

/// A comma, and what the rule reads behind it.
fn next_item<'a, I: Item>(
    alloc: Global,
    input: Input<'a>,
) -> Result<(I::Value, Input<'a>), ReadFault<'a>>
    ensures { Gives (λ x. (x.0, seen x.1)) stop_of result (read (sign_of 44 ⊳ I.rule) (seen input.entry)) }
{
    match sign(input, b',') {
        Ok(rest) => I::read(alloc, rest),
        Err(fault) => Err(fault),
    }
}

/// Reads by a rule once, and then again behind each comma.
pub fn listed<'a, I: Item>(
    alloc: Global,
    input: Input<'a>,
) -> Result<(List<I::Value>, Input<'a>), ReadFault<'a>>
    ensures { Gives (λ x. (x.0, seen x.1)) stop_of result (read (listed I.rule) (seen input.entry)) }
{
    let (front, behind) = match I::read(alloc, input) {
        Ok(read) => read,
        Err(fault) => return Err(fault),
    };
    let mut values = List::new(alloc);
    if values.push(front).is_err() {
        return Err(ReadFault::Memory);
    }
    let mut rest = behind;
    'values: while at_sign(rest, b',') {
        let (value, after) = match next_item::<I>(alloc, rest) {
            Ok(read) => read,
            Err(fault) => return Err(fault),
        };
        if values.push(value).is_err() {
            return Err(ReadFault::Memory);
        }
        rest = after;
    }
    Ok((values, rest))
}
