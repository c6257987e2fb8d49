ghost use Rattle.rules_alter_examples.specs.Catalogs.{AllCome};
ghost use Rattle.rules_alter_examples.specs.Definitions.{definitions};
ghost use Rattle.rules_alter_examples.specs.Rebuilds.{AllTake, columns_rebuilt, keys_rebuilt, whole_rebuilt};
ghost use Rattle.rules_alter_examples.specs.Refusals.{columns_refused, foreign_keys_refused, keys_refused, tables_refused};

/// Each statement comes to what stands beside it. It does nothing when it runs.
pub fn alterations_are_judged()
    ensures tables_refused { AllCome tables_refused }
    ensures columns_refused { AllCome columns_refused }
    ensures keys_refused { AllCome keys_refused }
    ensures foreign_keys_refused { AllCome foreign_keys_refused }
    ensures whole_rebuilt { AllTake whole_rebuilt }
    ensures columns_rebuilt { AllTake columns_rebuilt }
    ensures keys_rebuilt { AllTake keys_rebuilt }
    ensures definitions { AllCome definitions }
{}
