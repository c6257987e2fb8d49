ghost use Rattle.sql_grammar.specs.Reading.{read};
ghost use Rattle.sql_grammar.specs.Rules.{word_of, gives};
ghost use Rattle.sql_grammar.specs.Answers.{Gives};
ghost use Rattle.sql_read.specs.Seen.{seen, stop_of};

use sql_read::{Input, ReadFault, word};

/// Reads a word of the grammar that stands for a value.
pub fn word_value<'a, V: Copy>(
    input: Input<'a>,
    expected: &str,
    value: V,
) -> Result<(V, Input<'a>), ReadFault<'a>>
    ensures { Gives (λ x. (x.0, seen x.1)) stop_of result (read (gives value (word_of expected.now)) (seen input.entry)) }
{
    match word(input, expected) {
        Ok(rest) => Ok((value, rest)),
        Err(fault) => Err(fault),
    }
}
