ghost use Rattle.std.specs.Prelude.{◌≡◌, true, List};
ghost use Rattle.dd_names.specs.declared.object_name.ObjName.{ObjName};
ghost use Rattle.dd_definitions.specs.WellFormed.{is_well_formed};
ghost use Rattle.dd_definitions.specs.declared.foreign_keys.ForeignKeyDef.{ForeignKeyDef};
ghost use Rattle.dd_definitions.specs.declared.parts.TableParts.{TableParts};
ghost use Rattle.sql_ast.specs.declared.session.SessionState.{SessionState};
ghost use Rattle.sql_ast.specs.declared.table.RenamePair.{RenamePair};
ghost use Rattle.dd_catalog.specs.Walks.{fine, run};
ghost use Rattle.dd_catalog.specs.WalkLaws.{Look};
ghost use Rattle.rules_outcome.specs.Choices.{Choice};
ghost use Rattle.rules_create.specs.Leaves.{SeesFormed, LeavesFormed};
ghost use Rattle.rules_rename.specs.Renames.{renamed_keys, with_parents, rename};

/// A well formed table stays so when it is renamed, and so does one that refers to it. So where each table and each view that
/// is known is well formed and has its name, whatever RENAME TABLE changes is so behind it. It does nothing when it runs.
pub fn renamed_tables_are_formed()
    ensures table { (look : Look) (from to : ObjName) (parts : TableParts) (keys : List ForeignKeyDef) → is_well_formed parts ≡ true → run look (renamed_keys from to parts.foreign_keys) ≡ fine keys
        → is_well_formed (record parts { name = to; foreign_keys = keys }) ≡ true }
    ensures child { (from to : ObjName) (parts : TableParts) → is_well_formed parts ≡ true → is_well_formed (with_parents from to parts) ≡ true }
    ensures left { (look : Look) (session : SessionState) (pairs : List RenamePair) (choice : Choice) → SeesFormed look → run look (rename session pairs) ≡ fine choice → LeavesFormed choice }
{}
