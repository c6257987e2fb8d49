ghost use Rattle.std.specs.Prelude.{◌≡◌, ℕ, Bool, true, List, [], Option};
ghost use Rattle.std.specs.List.{list_all, flat_map};
ghost use Rattle.dd_names.specs.Names.{is_name};
ghost use Rattle.sql_types.specs.declared.words.ObjRef.{ObjRef};
ghost use Rattle.sql_ast.specs.Names.{is_object_named, is_element_named, is_pair_named, session_is_named};
ghost use Rattle.sql_ast.specs.declared.session.SessionState.{SessionState};
ghost use Rattle.sql_ast.specs.declared.action.AlterAction.{AlterAction};
ghost use Rattle.sql_ast.specs.declared.element.Element.{Element};
ghost use Rattle.sql_ast.specs.declared.table.RenamePair.{RenamePair};
ghost use Rattle.dd_catalog.specs.Catalog.{Catalog, all_of, empty_catalog};
ghost use Rattle.dd_catalog.specs.Valid.{IsValid};
ghost use Rattle.rules_schema.specs.Drops.{drop_table};
ghost use Rattle.rules_schema.specs.Listings.{show_databases, show_tables};
ghost use Rattle.rules_schema.specs.Schemas.{create_database, drop_database};
ghost use Rattle.rules_schema.specs.Sessions.{use_schema, set_tries};
ghost use Rattle.dd_catalog.specs.Walks.{fine, run};
ghost use Rattle.rules_outcome.specs.Choices.{Choice, catalog_behind};
ghost use Rattle.rules_create.specs.Tables.{create_table};
ghost use Rattle.rules_tables.specs.Likes.{create_like};
ghost use Rattle.rules_tables.specs.Truncates.{truncate};
ghost use Rattle.rules_rename.specs.Renames.{rename};
ghost use Rattle.rules_alter.specs.Statements.{alter_table, create_index, drop_index, target_in};
ghost use Rattle.rules_valid.specs.Altered.{is_action_named};
ghost use Rattle.rules_valid.specs.Keeps.{KeepsValid, KeepsNamed, MakesOneSpace};

/// The catalog without schemas and objects is valid. It does nothing when it runs.
pub fn empty_catalogs_are_valid()
    ensures empty { IsValid empty_catalog }
{}

/// USE, SET, SHOW DATABASES and SHOW TABLES leave a valid catalog valid. It does nothing when it runs.
pub fn readings_keep_valid()
    ensures used { (session : SessionState) (name : List ℕ) → KeepsValid (use_schema session name) }
    ensures set { (session : SessionState) (value : ℕ) → KeepsValid (set_tries session value) }
    ensures databases { KeepsValid show_databases }
    ensures tables { (session : SessionState) (named : Option (List ℕ)) → KeepsValid (show_tables session named) }
{}

/// CREATE DATABASE of a name and DROP DATABASE leave a valid catalog valid. It does nothing when it runs.
pub fn schemas_keep_valid()
    ensures created { (session : SessionState) (if_not_exists : Bool) (name : List ℕ) → is_name name ≡ true → KeepsValid (create_database session if_not_exists name) }
    ensures dropped { (session : SessionState) (if_exists : Bool) (name : List ℕ) → KeepsValid (drop_database session if_exists name) }
{}

/// CREATE TABLE that says names, also LIKE another, TRUNCATE TABLE and DROP TABLE leave a valid catalog valid. It does nothing when
/// it runs.
pub fn tables_keep_valid()
    ensures created { (session : SessionState) (if_not_exists : Bool) (ref : ObjRef) (elements : List Element) → session_is_named session ≡ true → is_object_named ref ≡ true
        → list_all is_element_named elements ≡ true → KeepsValid (create_table session if_not_exists ref elements) }
    ensures liked { (session : SessionState) (if_not_exists : Bool) (ref source : ObjRef) → session_is_named session ≡ true → is_object_named ref ≡ true → KeepsValid (create_like session if_not_exists ref source) }
    ensures emptied { (session : SessionState) (ref : ObjRef) → KeepsValid (truncate session ref) }
    ensures dropped { (session : SessionState) (if_exists : Bool) (refs : List ObjRef) → KeepsValid (drop_table session if_exists refs) }
{}

/// What RENAME TABLE that says names changes keeps a valid catalog valid. It does nothing when it runs.
pub fn renames_keep_validity()
    ensures kept { (cat : Catalog) (space : ℕ) (session : SessionState) (pairs : List RenamePair) (choice : Choice) → session_is_named session ≡ true → list_all is_pair_named pairs ≡ true
        → IsValid cat → run (all_of cat) (rename session pairs) ≡ fine choice → IsValid (catalog_behind space choice cat) }
{}

/// ALTER TABLE that says names, and gives the table no new one, leaves a valid catalog valid, and takes one number at most for a
/// tablespace. It does nothing when it runs.
pub fn alterations_keep_valid()
    ensures altered { (session : SessionState) (ref : ObjRef) (acts : List AlterAction) → session_is_named session ≡ true → is_object_named ref ≡ true → list_all is_action_named acts ≡ true
        → flat_map target_in acts ≡ [] → KeepsValid (alter_table session ref acts) }
    ensures altered_space { (session : SessionState) (ref : ObjRef) (acts : List AlterAction) → flat_map target_in acts ≡ [] → MakesOneSpace (alter_table session ref acts) }
{}

/// CREATE INDEX and DROP INDEX that say names leave a valid catalog valid, and take one number at most for a tablespace. It does
/// nothing when it runs.
pub fn indexes_keep_valid()
    ensures created { (session : SessionState) (is_unique : Bool) (name : List ℕ) (ref : ObjRef) (columns : List (List ℕ)) → session_is_named session ≡ true → is_object_named ref ≡ true
        → is_name name ≡ true → list_all is_name columns ≡ true → KeepsValid (create_index session is_unique name ref columns) }
    ensures created_space { (session : SessionState) (is_unique : Bool) (name : List ℕ) (ref : ObjRef) (columns : List (List ℕ)) → MakesOneSpace (create_index session is_unique name ref columns) }
    ensures dropped { (session : SessionState) (name : List ℕ) (ref : ObjRef) → session_is_named session ≡ true → is_object_named ref ≡ true → KeepsValid (drop_index session name ref) }
    ensures dropped_space { (session : SessionState) (name : List ℕ) (ref : ObjRef) → MakesOneSpace (drop_index session name ref) }
{}

/// The current schema that a statement leaves is a name, or there is none, where that was so before and USE says a name. It does
/// nothing when it runs.
pub fn sessions_stay_named()
    ensures used { (session : SessionState) (name : List ℕ) → is_name name ≡ true → KeepsNamed session (use_schema session name) }
    ensures set { (session : SessionState) (value : ℕ) → KeepsNamed session (set_tries session value) }
    ensures databases { (session : SessionState) → KeepsNamed session show_databases }
    ensures tables { (session : SessionState) (named : Option (List ℕ)) → KeepsNamed session (show_tables session named) }
    ensures schema_created { (session : SessionState) (if_not_exists : Bool) (name : List ℕ) → KeepsNamed session (create_database session if_not_exists name) }
    ensures schema_dropped { (session : SessionState) (if_exists : Bool) (name : List ℕ) → KeepsNamed session (drop_database session if_exists name) }
    ensures table_created { (session : SessionState) (if_not_exists : Bool) (ref : ObjRef) (elements : List Element) → KeepsNamed session (create_table session if_not_exists ref elements) }
    ensures table_liked { (session : SessionState) (if_not_exists : Bool) (ref source : ObjRef) → KeepsNamed session (create_like session if_not_exists ref source) }
    ensures table_emptied { (session : SessionState) (ref : ObjRef) → KeepsNamed session (truncate session ref) }
    ensures tables_dropped { (session : SessionState) (if_exists : Bool) (refs : List ObjRef) → KeepsNamed session (drop_table session if_exists refs) }
    ensures renamed { (session : SessionState) (pairs : List RenamePair) → KeepsNamed session (rename session pairs) }
{}
