ghost use Rattle.rules_examples.specs.Words.{AllCome, NoneTells};
ghost use Rattle.rules_examples.specs.ForeignKeys.{family};
ghost use Rattle.rules_examples.specs.Creates.{created, refused_tables, told_as_written, not_told};

/// Each comes to what stands beside it, and 3780 and 1830 name a column as the statement writes it in the foreign key, never as the
/// table spells it. It does nothing when it runs.
pub fn tables_are_created()
    ensures created { AllCome family created }
    ensures refused { AllCome family refused_tables }
    ensures told_as_written { AllCome family told_as_written }
    ensures not_told { NoneTells family not_told }
{}
