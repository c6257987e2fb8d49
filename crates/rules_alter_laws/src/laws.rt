ghost use Rattle.std.specs.Prelude.{◌≡◌, ℕ, Bool, true, List};
ghost use Rattle.sql_types.specs.declared.words.ObjRef.{ObjRef};
ghost use Rattle.sql_ast.specs.declared.action.AlterAction.{AlterAction};
ghost use Rattle.sql_ast.specs.declared.session.SessionState.{SessionState};
ghost use Rattle.dd_definitions.specs.WellFormed.{is_well_formed};
ghost use Rattle.dd_definitions.specs.declared.parts.TableParts.{TableParts};
ghost use Rattle.dd_catalog.specs.Walks.{fine, run};
ghost use Rattle.dd_catalog.specs.WalkLaws.{Look};
ghost use Rattle.rules_outcome.specs.Choices.{Choice};
ghost use Rattle.rules_create.specs.Leaves.{SeesFormed, LeavesFormed};
ghost use Rattle.rules_alter.specs.Actions.{one_action};
ghost use Rattle.rules_alter.specs.Statements.{all_acted, alter_table, create_index, drop_index};
ghost use Rattle.rules_alter.specs.declared.states.Altering.{Altering};
ghost use Rattle.rules_alter_laws.specs.Stands.{StandsInOrder};

/// A well-formed table stands: its parts fit together, whatever the limits of their numbers. An action leaves a table that stands
/// so, and behind all actions one that is well formed is so again. It does nothing when it runs.
pub fn actions_keep_tables()
    ensures formed { (parts : TableParts) → is_well_formed parts ≡ true → StandsInOrder parts }
    ensures one { (look : Look) (action : AlterAction) (before behind : Altering) → StandsInOrder before.parts → run look (one_action before action) ≡ fine behind → StandsInOrder behind.parts }
    ensures all { (look : Look) (start : Altering) (acts : List AlterAction) (state : Altering) → is_well_formed start.parts ≡ true → run look (all_acted start acts) ≡ fine state → is_well_formed state.parts ≡ true }
{}

/// Where each table that is known is well formed and has its name, so is whatever ALTER TABLE, CREATE INDEX or DROP INDEX changes:
/// the table, also by a new name, and its children. It does nothing when it runs.
pub fn altered_tables_are_formed()
    ensures altered { (look : Look) (session : SessionState) (ref : ObjRef) (acts : List AlterAction) (choice : Choice) → SeesFormed look → run look (alter_table session ref acts) ≡ fine choice → LeavesFormed choice }
    ensures created { (look : Look) (session : SessionState) (is_unique : Bool) (name : List ℕ) (ref : ObjRef) (columns : List (List ℕ)) (choice : Choice) → SeesFormed look
        → run look (create_index session is_unique name ref columns) ≡ fine choice → LeavesFormed choice }
    ensures dropped { (look : Look) (session : SessionState) (name : List ℕ) (ref : ObjRef) (choice : Choice) → SeesFormed look → run look (drop_index session name ref) ≡ fine choice → LeavesFormed choice }
{}
