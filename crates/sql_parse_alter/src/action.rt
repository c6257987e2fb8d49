ghost use Rattle.std.specs.Prelude.{◌≡◌};
ghost use Rattle.sql_grammar.specs.Reading.{read};
ghost use Rattle.sql_grammar.specs.Rules.{gives};
ghost use Rattle.sql_grammar.specs.Answers.{Gives};
ghost use Rattle.sql_ast.specs.GrammarParts.{the, engine_option};
ghost use Rattle.sql_ast.specs.GrammarActions.{action};
ghost use Rattle.sql_read.specs.Seen.{seen, stop_of};
ghost use Rattle.sql_parse_alter.specs.Decided.{actions_decided};

use crate::added::add_action;
use crate::changed::{alter_action, change_action, modify_action, rename_action};
use crate::dropped::drop_action;
use sql_ast::AlterAction;
use sql_parse_parts::engine_option;
use sql_read::{Input, Item, ReadFault, at_word, word};
use std::alloc::Global;

/// An action of ALTER TABLE.
#[tactic(auto, unfolding(sql_ast::specs::GrammarActions::action, sql_ast::specs::GrammarActions::add_action, sql_ast::specs::GrammarActions::drop_action, sql_ast::specs::GrammarActions::modify_action, sql_ast::specs::GrammarActions::change_action, sql_ast::specs::GrammarActions::rename_action, sql_ast::specs::GrammarActions::alter_action))]
pub fn action_words(
    alloc: Global,
    input: Input<'_>,
) -> Result<(AlterAction, Input<'_>), ReadFault<'_>>
    ensures { Gives (λ x. (x.0, seen x.1)) stop_of result (read action (seen input.entry)) }
{
    if at_word(input, "ADD") {
        return add_action(alloc, input);
    }
    if at_word(input, "DROP") {
        return drop_action(alloc, input);
    }
    if at_word(input, "MODIFY") {
        return modify_action(alloc, input);
    }
    if at_word(input, "CHANGE") {
        return change_action(alloc, input);
    }
    if at_word(input, "RENAME") {
        return rename_action(alloc, input);
    }
    if at_word(input, "ALTER") {
        return alter_action(alloc, input);
    }
    if at_word(input, "FORCE") {
        return force(input);
    }
    engine(input)
}

/// `FORCE`
fn force(input: Input<'_>) -> Result<(AlterAction, Input<'_>), ReadFault<'_>>
    ensures { Gives (λ x. (x.0, seen x.1)) stop_of result (read (gives AlterAction.Force (the "FORCE")) (seen input.entry)) }
{
    let rest = word(input, "FORCE")?;
    Ok((AlterAction::Force, rest))
}

/// `ENGINE [=] InnoDB`
fn engine(input: Input<'_>) -> Result<(AlterAction, Input<'_>), ReadFault<'_>>
    ensures { Gives (λ x. (x.0, seen x.1)) stop_of result (read (gives AlterAction.Engine engine_option) (seen input.entry)) }
{
    let rest = engine_option(input)?;
    Ok((AlterAction::Engine, rest))
}

/// An action, in a list of them.
pub struct ActionItem {}

impl Item for ActionItem {
    type Value = AlterAction;

    ghost rule = { action };

    ghost decided = { actions_decided };

    fn read<'a>(
        alloc: Global,
        input: Input<'a>,
    ) -> Result<(AlterAction, Input<'a>), ReadFault<'a>> {
        action_words(alloc, input)
    }
}
