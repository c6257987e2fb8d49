ghost use Rattle.std.specs.Prelude.{◌≡◌, true};
ghost use Rattle.sql_grammar.specs.Checks.{one_token_decides, has_examples};
ghost use Rattle.sql_lex.specs.Texts.{EachTextReads, EachTextReadsOnce};

use sql_grammar::{Language, laws};

/// Each text reads by a grammar in exactly one way, if one token decides each choice of it and each rule has an example.
/// It does nothing when it runs.
pub fn reading_laws<L: Language>()
    requires decided { one_token_decides L.grammar ≡ true }
    requires shown { has_examples L.grammar ≡ true }
    ensures reads { EachTextReads L.grammar }
    ensures once { EachTextReadsOnce L.grammar }
{
    laws::<L>();
}
