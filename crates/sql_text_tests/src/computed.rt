ghost use Rattle.sql_text_tests.specs.Cases.{AllSpelled};
ghost use Rattle.sql_text_tests.specs.PieceTexts.{piece_texts};
ghost use Rattle.sql_text_tests.specs.CanonicalTexts.{statement_texts, element_texts};
ghost use Rattle.sql_text_tests.specs.ShownTexts.{shown_texts};

/// Each text of the tables is what stands beside it. It does nothing when it runs.
pub fn texts_are_spelled()
    ensures pieces { AllSpelled piece_texts }
    ensures statements { AllSpelled statement_texts }
    ensures elements { AllSpelled element_texts }
    ensures shown { AllSpelled shown_texts }
{}
