ghost use Rattle.sql_ast_examples.specs.Example.{AllRead};
ghost use Rattle.sql_ast_examples.specs.Databases.{databases_1, databases_2, databases_3};
ghost use Rattle.sql_ast_examples.specs.Tables.{whole_tables_1, whole_tables_2, whole_tables_3, further_tables_1, further_tables_2, further_tables_3};
ghost use Rattle.sql_ast_examples.specs.Columns.{columns_1, columns_2, columns_3, columns_4};
ghost use Rattle.sql_ast_examples.specs.Keys.{keys_1, keys_2};
ghost use Rattle.sql_ast_examples.specs.Actions.{actions_1, actions_2, actions_3};
ghost use Rattle.sql_ast_examples.specs.Views.{views};
ghost use Rattle.sql_ast_examples.specs.Refused.{databases_refused_1, databases_refused_2, databases_refused_3, databases_refused_4, tables_refused_1, tables_refused_2, tables_refused_3, tables_refused_4, changes_refused_1, changes_refused_2, changes_refused_3};
ghost use Rattle.sql_ast_examples.specs.Long.{long_names};

/// Each text of the tables reads as it says: as a statement, as bad at a byte, or as a name that is too long. It does nothing when it
/// runs.
pub fn examples()
    ensures databases_1 { AllRead databases_1 }
    ensures databases_2 { AllRead databases_2 }
    ensures databases_3 { AllRead databases_3 }
    ensures whole_tables_1 { AllRead whole_tables_1 }
    ensures whole_tables_2 { AllRead whole_tables_2 }
    ensures whole_tables_3 { AllRead whole_tables_3 }
    ensures further_tables_1 { AllRead further_tables_1 }
    ensures further_tables_2 { AllRead further_tables_2 }
    ensures further_tables_3 { AllRead further_tables_3 }
    ensures columns_1 { AllRead columns_1 }
    ensures columns_2 { AllRead columns_2 }
    ensures columns_3 { AllRead columns_3 }
    ensures columns_4 { AllRead columns_4 }
    ensures keys_1 { AllRead keys_1 }
    ensures keys_2 { AllRead keys_2 }
    ensures actions_1 { AllRead actions_1 }
    ensures actions_2 { AllRead actions_2 }
    ensures actions_3 { AllRead actions_3 }
    ensures views { AllRead views }
    ensures databases_refused_1 { AllRead databases_refused_1 }
    ensures databases_refused_2 { AllRead databases_refused_2 }
    ensures databases_refused_3 { AllRead databases_refused_3 }
    ensures databases_refused_4 { AllRead databases_refused_4 }
    ensures tables_refused_1 { AllRead tables_refused_1 }
    ensures tables_refused_2 { AllRead tables_refused_2 }
    ensures tables_refused_3 { AllRead tables_refused_3 }
    ensures tables_refused_4 { AllRead tables_refused_4 }
    ensures changes_refused_1 { AllRead changes_refused_1 }
    ensures changes_refused_2 { AllRead changes_refused_2 }
    ensures changes_refused_3 { AllRead changes_refused_3 }
    ensures long_names { AllRead long_names }
{}
