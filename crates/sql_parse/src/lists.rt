ghost use Rattle.sql_grammar.specs.Reading.{read};
ghost use Rattle.sql_grammar.specs.Rules.{listed};
ghost use Rattle.sql_grammar.specs.Answers.{Gives};
ghost use Rattle.sql_ast.specs.GrammarParts.{object};
ghost use Rattle.sql_read.specs.Seen.{seen, stop_of};
ghost use Rattle.sql_parse.specs.Subrules.{pair};
ghost use Rattle.sql_parse.specs.Decided.{objects_decided, pairs_decided};

use dd_names::List;
use sql_ast::RenamePair;
use sql_parse_parts::object;
use sql_read::{Input, Item, ReadFault, listed, word};
use sql_types::ObjRef;
use std::alloc::Global;

/// Objects of a list.
struct ObjectItem {}

impl Item for ObjectItem {
    type Value = ObjRef;

    ghost rule = { object };

    ghost decided = { objects_decided };

    fn read<'a>(alloc: Global, input: Input<'a>) -> Result<(ObjRef, Input<'a>), ReadFault<'a>> {
        object(alloc, input)
    }
}

/// `object {, object}`
pub fn objects(alloc: Global, input: Input<'_>) -> Result<(List<ObjRef>, Input<'_>), ReadFault<'_>>
    ensures { Gives (λ x. (x.0, seen x.1)) stop_of result (read (listed object) (seen input.entry)) }
{
    listed::<ObjectItem>(alloc, input)
}

/// Renamings of a list.
struct PairItem {}

impl Item for PairItem {
    type Value = RenamePair;

    ghost rule = { pair };

    ghost decided = { pairs_decided };

    fn read<'a>(alloc: Global, input: Input<'a>) -> Result<(RenamePair, Input<'a>), ReadFault<'a>> {
        let (from, rest) = object(alloc, input)?;
        let rest = word(rest, "TO")?;
        let (to, rest) = object(alloc, rest)?;
        Ok((RenamePair { from, to }, rest))
    }
}

/// `object TO object {, object TO object}`
pub fn pairs(
    alloc: Global,
    input: Input<'_>,
) -> Result<(List<RenamePair>, Input<'_>), ReadFault<'_>>
    ensures { Gives (λ x. (x.0, seen x.1)) stop_of result (read (listed pair) (seen input.entry)) }
{
    listed::<PairItem>(alloc, input)
}
