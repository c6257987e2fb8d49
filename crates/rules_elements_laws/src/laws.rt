ghost use Rattle.std.specs.Prelude.{◌≡◌, ◌+◌, ◌<◌, ◌^◌, ℕ, List, length, false};
ghost use Rattle.dd_definitions.specs.declared.indexes.IndexDef.{IndexDef};
ghost use Rattle.rules_elements.specs.Keys.{is_taken, free_name};
ghost use Rattle.rules_elements_laws.specs.Indexes.{IndexesAreFit};
ghost use Rattle.rules_elements_laws.specs.MadeNames.{MadeNamesAreNames};
ghost use Rattle.rules_elements_laws.specs.Parents.{ForeignKeysAreFit, TablesAreSpelledWell};
ghost use Rattle.rules_elements_laws.specs.Taken.{ColumnsAreFit};
ghost use Rattle.rules_elements_laws.specs.Written.{ColumnsAreNamedAsWritten};

/// An index without any name gets one that is free: no other index has it in any case, and it isn't `PRIMARY`. What is made of a
/// name is one too, unless it is too long. Each index that the rules take has as many columns as are written, 16 at most and
/// different ones of the table, and a name that is right and its own. It does nothing when it runs.
pub fn key_laws()
    ensures free { (indexes : List IndexDef) (base : List ℕ) → length indexes + 2 < 2 ^ 64 → is_taken indexes (free_name indexes base) ≡ false }
    ensures made { MadeNamesAreNames }
    ensures fit { IndexesAreFit }
{}

/// Each column that the rules take is within the limit of its type, has a default that fits if it has one, and is an integer that
/// is never NULL and has no default where it is AUTO_INCREMENT. It does nothing when it runs.
pub fn column_laws()
    ensures fit { ColumnsAreFit }
{}

/// Each foreign key that the rules take is fit beside its table and its parent, and each well-formed table is a parent whose
/// indexes spell its columns in one way. A refusal names the columns of a key as the statement writes them. It does nothing when it
/// runs.
pub fn foreign_key_laws()
    ensures fit { ForeignKeysAreFit }
    ensures parents { TablesAreSpelledWell }
    ensures written { ColumnsAreNamedAsWritten }
{}
