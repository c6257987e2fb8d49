ghost use Rattle.rules_examples.specs.Words.{AllCome, nothing_known};
ghost use Rattle.rules_examples.specs.Columns.{kept_defaults, refused_defaults, columns};
ghost use Rattle.rules_examples.specs.Keys.{keys, refused_keys};
ghost use Rattle.rules_examples.specs.ForeignKeys.{foreign_keys, refused_foreign_keys, unknown_parents, unknown_owners, family, parents_alone};

/// Each comes to what stands beside it. It does nothing when it runs.
pub fn words_are_judged()
    ensures kept_defaults { AllCome nothing_known kept_defaults }
    ensures refused_defaults { AllCome nothing_known refused_defaults }
    ensures columns { AllCome nothing_known columns }
    ensures keys { AllCome nothing_known keys }
    ensures refused_keys { AllCome nothing_known refused_keys }
    ensures foreign_keys { AllCome family foreign_keys }
    ensures refused_foreign_keys { AllCome family refused_foreign_keys }
    ensures unknown_parents { AllCome nothing_known unknown_parents }
    ensures unknown_owners { AllCome parents_alone unknown_owners }
{}
