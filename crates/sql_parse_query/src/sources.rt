ghost use Rattle.sql_grammar.specs.Reading.{read};
ghost use Rattle.sql_grammar.specs.Answers.{Gives};
ghost use Rattle.sql_ast.specs.GrammarViews.{source};
ghost use Rattle.sql_read.specs.Seen.{seen, stop_of};
ghost use Rattle.sql_parse_query.specs.Decided.{sources_decided};

use crate::items::another_name;
use sql_ast::SelectSource;
use sql_parse_parts::object;
use sql_read::{Input, Item, ReadFault};
use std::alloc::Global;

/// `object [[AS] name]`
#[tactic(auto, unfolding(sql_ast::specs::GrammarViews::source))]
pub fn source(alloc: Global, input: Input<'_>) -> Result<(SelectSource, Input<'_>), ReadFault<'_>>
    ensures { Gives (λ x. (x.0, seen x.1)) stop_of result (read source (seen input.entry)) }
{
    let (object, rest) = object(alloc, input)?;
    let (alias, rest) = another_name(alloc, rest)?;
    Ok((SelectSource { object, alias }, rest))
}

/// The sources of a query.
pub struct SourceList {}

impl Item for SourceList {
    type Value = SelectSource;

    ghost rule = { source };

    ghost decided = { sources_decided };

    fn read<'a>(
        alloc: Global,
        input: Input<'a>,
    ) -> Result<(SelectSource, Input<'a>), ReadFault<'a>> {
        source(alloc, input)
    }
}
