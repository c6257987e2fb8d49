ghost use Rattle.rules_locks_examples.specs.Alters as alters;
ghost use Rattle.rules_locks_examples.specs.Asked.{AllAre};
ghost use Rattle.rules_locks_examples.specs.Parts as parts;
ghost use Rattle.rules_locks_examples.specs.Schemas as schemas;
ghost use Rattle.rules_locks_examples.specs.Tables as tables;

/// Each statement asks for the locks that stand beside it. It does nothing when it runs.
pub fn statements_are_locked()
    ensures schemas_made { AllAre schemas.made }
    ensures schemas_gone { AllAre schemas.gone }
    ensures listed { AllAre schemas.listed }
    ensures tables_made { AllAre tables.made }
    ensures copied { AllAre tables.copied }
    ensures tables_gone { AllAre tables.gone }
    ensures renewed { AllAre tables.renewed }
    ensures moved { AllAre tables.moved }
{}

/// Each ALTER TABLE, CREATE INDEX and DROP INDEX asks for the locks that stand beside it. It does nothing when it runs.
pub fn alterations_are_locked()
    ensures of_parent { AllAre alters.of_parent }
    ensures of_child { AllAre alters.of_child }
    ensures referring { AllAre alters.referring }
    ensures moved { AllAre alters.moved }
    ensures absent { AllAre alters.absent }
    ensures keyed { AllAre alters.keyed }
{}

/// `partly_known`: each statement asks for the locks that stand beside it where no more is known than stands there. `viewed`: so do
/// the texts of views. `judged`: each list of locks is enough for its statement, or isn't, as stands beside it. It does nothing when
/// it runs.
pub fn locks_are_judged()
    ensures partly_known { AllAre parts.partly_known }
    ensures viewed { AllAre parts.viewed }
    ensures judged { parts.AllAreJudged parts.judged }
{}
