ghost use Rattle.std.specs.Prelude.{◌≡◌, Bool, true, List};
ghost use Rattle.dd_names.specs.declared.object_name.ObjName.{ObjName};
ghost use Rattle.sql_types.specs.declared.words.ObjRef.{ObjRef};
ghost use Rattle.sql_ast.specs.declared.session.SessionState.{SessionState};
ghost use Rattle.sql_ast.specs.declared.element.Element.{Element};
ghost use Rattle.dd_definitions.specs.WellFormed.{is_well_formed};
ghost use Rattle.dd_definitions.specs.declared.parts.TableParts.{TableParts};
ghost use Rattle.dd_catalog.specs.Catalog.{Catalog, sight_of};
ghost use Rattle.dd_catalog.specs.Valid.{IsValid};
ghost use Rattle.dd_catalog.specs.Walks.{fine, run};
ghost use Rattle.dd_catalog.specs.WalkLaws.{Look, IsOf};
ghost use Rattle.rules_outcome.specs.Choices.{Choice};
ghost use Rattle.rules_create.specs.Leaves.{SeesFormed, LeavesFormed};
ghost use Rattle.rules_create.specs.Tables.{table_of, create_table};

/// A table that CREATE TABLE makes is well formed and has the name that is written, whatever is known of other tables; so
/// whatever the statement changes is. It does nothing when it runs.
pub fn made_tables_are_formed()
    ensures formed { (look : Look) (table : ObjName) (elements : List Element) (parts : TableParts) → run look (table_of table elements) ≡ fine parts → is_well_formed parts ≡ true }
    ensures named { (look : Look) (table : ObjName) (elements : List Element) (parts : TableParts) → run look (table_of table elements) ≡ fine parts → parts.name ≡ table }
    ensures left { (look : Look) (session : SessionState) (if_not_exists : Bool) (ref : ObjRef) (elements : List Element) (choice : Choice) → run look (create_table session if_not_exists ref elements) ≡ fine choice → LeavesFormed choice }
{}

/// Each table and each view that is known of a valid catalog is well formed and has its name. It does nothing when it runs.
pub fn valid_catalogs_show_formed()
    ensures seen { (cat : Catalog) (look : Look) → IsValid cat → IsOf (sight_of cat) look → SeesFormed look }
{}
