ghost use Rattle.rules_outcome_examples.specs.Catalogs.{AllCome, known};
ghost use Rattle.rules_outcome_examples.specs.Drops.{dropped_tables, dropped_schemas};
ghost use Rattle.rules_outcome_examples.specs.Renamings.{renamed, not_renamed};
ghost use Rattle.rules_outcome_examples.specs.Shows.{shown};
ghost use Rattle.rules_outcome_examples.specs.Tables.{emptied, liked};

/// Each statement comes to what stands beside it. It does nothing when it runs.
pub fn outcomes_are_judged()
    ensures dropped_tables { AllCome known dropped_tables }
    ensures dropped_schemas { AllCome known dropped_schemas }
    ensures renamed { AllCome known renamed }
    ensures not_renamed { AllCome known not_renamed }
    ensures liked { AllCome known liked }
    ensures emptied { AllCome known emptied }
    ensures shown { AllCome known shown }
{}
