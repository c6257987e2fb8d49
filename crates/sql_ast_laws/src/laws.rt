ghost use Rattle.std.specs.Prelude.{◌≡◌, true};
ghost use Rattle.sql_grammar.specs.Checks.{one_token_decides, has_examples};
ghost use Rattle.sql_ast.specs.Grammar.{statement};
ghost use Rattle.sql_ast.specs.Reads.{EachReads, EachReadSaysNames, EachReadsOnce};

use sql_ast::Statement;
use sql_grammar::Language;
use sql_lex::reading_laws;

/// The grammar of statements.
struct Statements {}

impl Language for Statements {
    ghost use Rattle.sql_ast.specs.declared.statement.Statement.{Statement};

    ghost Tree = { Statement };

    ghost grammar = { statement };
}

/// Each text reads as exactly one statement; in the grammar one token decides each choice, and each rule has an example.
/// It does nothing when it runs.
pub fn statement_laws()
    ensures decided { one_token_decides statement ≡ true }
    ensures shown { has_examples statement ≡ true }
    ensures reads { EachReads }
    ensures once { EachReadsOnce }
{
    reading_laws::<Statements>();
}

/// Each name from which a statement that some text reads as makes a schema, a table or the current schema is a name. It does
/// nothing when it runs.
pub fn what_is_read_says_names()
    ensures { EachReadSaysNames }
{}
