ghost use Rattle.std.specs.Prelude.{◌≡◌};
ghost use Rattle.sql_grammar.specs.Reading.{read};
ghost use Rattle.sql_grammar.specs.Answers.{Gives};
ghost use Rattle.sql_ast.specs.GrammarColumns.{named_column};
ghost use Rattle.sql_ast.specs.GrammarKeys.{element};
ghost use Rattle.sql_read.specs.Seen.{seen, stop_of};
ghost use Rattle.sql_parse_columns.specs.Decided.{columns_decided, elements_decided};

use crate::column::named_column;
use crate::keys::key;
use sql_ast::Element;
use sql_read::{Input, Item, ReadFault, at_name};
use sql_types::ColumnWords;
use std::alloc::Global;

/// What stands between the parentheses of CREATE TABLE: a column or a key.
#[tactic(auto, unfolding(sql_ast::specs::GrammarKeys::element, sql_ast::specs::GrammarColumns::named_column))]
pub fn element_words(alloc: Global, input: Input<'_>) -> Result<(Element, Input<'_>), ReadFault<'_>>
    ensures { Gives (λ x. (x.0, seen x.1)) stop_of result (read element (seen input.entry)) }
{
    if at_name(input) {
        let (column, rest) = named_column(alloc, input)?;
        return Ok((Element::Column(column), rest));
    }
    key(alloc, input)
}

/// An element, in a list of them.
pub struct ElementItem {}

impl Item for ElementItem {
    type Value = Element;

    ghost rule = { element };

    ghost decided = { elements_decided };

    fn read<'a>(alloc: Global, input: Input<'a>) -> Result<(Element, Input<'a>), ReadFault<'a>> {
        element_words(alloc, input)
    }
}

/// A column with its name, in a list of them.
pub struct ColumnItem {}

impl Item for ColumnItem {
    type Value = ColumnWords;

    ghost rule = { named_column };

    ghost decided = { columns_decided };

    fn read<'a>(
        alloc: Global,
        input: Input<'a>,
    ) -> Result<(ColumnWords, Input<'a>), ReadFault<'a>> {
        named_column(alloc, input)
    }
}
