ghost use Rattle.rules_examples.specs.Parts.{AllFit, NoneFits};
ghost use Rattle.rules_examples.specs.Tables.{good_columns, bad_columns, bad_defaults, good_indexes, bad_indexes, bad_autos, good_keys, bad_keys};

/// The good tables are well formed, and of the others none is. It does nothing when it runs.
pub fn tables_are_judged()
    ensures good_columns { AllFit good_columns }
    ensures bad_columns { NoneFits bad_columns }
    ensures bad_defaults { NoneFits bad_defaults }
    ensures good_indexes { AllFit good_indexes }
    ensures bad_indexes { NoneFits bad_indexes }
    ensures bad_autos { NoneFits bad_autos }
    ensures good_keys { AllFit good_keys }
    ensures bad_keys { NoneFits bad_keys }
{}
