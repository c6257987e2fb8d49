ghost use Rattle.sql_grammar.specs.Reading.{read};
ghost use Rattle.sql_grammar.specs.Answers.{Gives};
ghost use Rattle.sql_ast.specs.Grammar.{statement};
ghost use Rattle.sql_read.specs.Seen.{seen, stop_of};

use crate::creates::create_words;
use crate::drops::drop_words;
use crate::others::{alter_words, rename_words, set_words, table_words, truncate_words, use_words};
use crate::shows::show_words;
use sql_ast::Statement;
use sql_read::{Input, ReadFault, at_word};
use std::alloc::Global;

/// A statement at the front.
#[tactic(auto, unfolding(sql_ast::specs::Grammar::statement, sql_ast::specs::Grammar::create, sql_ast::specs::Grammar::drop, sql_ast::specs::Grammar::show, sql_ast::specs::Grammar::use_schema, sql_ast::specs::Grammar::rename, sql_ast::specs::Grammar::truncate, sql_ast::specs::Grammar::alter, sql_ast::specs::Grammar::table))]
pub fn statement_words(
    alloc: Global,
    input: Input<'_>,
) -> Result<(Statement, Input<'_>), ReadFault<'_>>
    ensures { Gives (λ x. (x.0, seen x.1)) stop_of result (read statement (seen input.entry)) }
{
    if at_word(input, "CREATE") {
        return create_words(alloc, input);
    }
    if at_word(input, "DROP") {
        return drop_words(alloc, input);
    }
    if at_word(input, "SHOW") {
        return show_words(alloc, input);
    }
    if at_word(input, "USE") {
        return use_words(alloc, input);
    }
    if at_word(input, "RENAME") {
        return rename_words(alloc, input);
    }
    if at_word(input, "TRUNCATE") {
        return truncate_words(alloc, input);
    }
    if at_word(input, "ALTER") {
        return alter_words(alloc, input);
    }
    if at_word(input, "TABLE") {
        return table_words(alloc, input);
    }
    set_words(input)
}
