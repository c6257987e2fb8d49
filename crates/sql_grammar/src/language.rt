ghost use Rattle.std.specs.Prelude.{◌≡◌, true};
ghost use Rattle.sql_grammar.specs.Grammar.{Grammar};
ghost use Rattle.sql_grammar.specs.Checks.{one_token_decides, has_examples};
ghost use Rattle.sql_grammar.specs.Laws.{IsSound, IsComplete, EachReads, EachReadsOnce};

/// A grammar, as a type that the laws can be asked of.
pub trait Language {
    /// What its sentences stand for.
    ghost Tree: { Type 0 };

    /// The grammar.
    ghost grammar: { Grammar Tree };
}

/// The laws of a grammar in which one token decides each choice and each rule has an example. It does nothing when it runs.
pub fn laws<L: Language>()
    requires decided { one_token_decides L.grammar ≡ true }
    requires shown { has_examples L.grammar ≡ true }
    ensures sound { IsSound L.grammar }
    ensures complete { IsComplete L.grammar }
    ensures reads { EachReads L.grammar }
    ensures once { EachReadsOnce L.grammar }
{}
