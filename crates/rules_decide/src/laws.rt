ghost use Rattle.std.specs.Prelude.{◌≡◌, Some, true, is_some};
ghost use Rattle.std.specs.List.{AllByRecursion};
ghost use Rattle.dd_names.specs.declared.object_name.ObjectKey.{ObjectKey};
ghost use Rattle.dd_errors.specs.Errors.{ErrorValue};
ghost use Rattle.sql_ast.specs.Names.{says_names, session_is_named};
ghost use Rattle.sql_ast.specs.declared.session.SessionState.{SessionState};
ghost use Rattle.sql_ast.specs.declared.statement.Statement.{Statement};
ghost use Rattle.dd_catalog.specs.Catalog.{Catalog, sight_of, all_of};
ghost use Rattle.dd_catalog.specs.Walks.{Walk, run, asked};
ghost use Rattle.dd_catalog.specs.WalkLaws.{Look, IsOf, IsSettled};
ghost use Rattle.rules_outcome.specs.Choices.{Choice};
ghost use Rattle.rules_valid.specs.Keeps.{KeepsValid, MakesOneSpace};
ghost use Rattle.rules_decide.specs.Outcome.{outcome, is_decided};

/// What holds of the check of each statement. A kind that is decided has one; over a whole catalog no key is needed; over two
/// catalogs that agree on the keys at which it looks it comes to the same; and what it comes to over a part of a catalog, where
/// no key is needed, it comes to over the whole. It does nothing when it runs.
pub fn outcome_laws()
    ensures decided { (session : SessionState) (statement : Statement) → is_decided statement ≡ true → is_some (outcome session statement) ≡ true }
    ensures settled { (cat : Catalog) (check : Walk ErrorValue Choice) → IsSettled (run (all_of cat) check) }
    ensures agreeing { (cat other : Catalog) (check : Walk ErrorValue Choice) → AllByRecursion (λ key. sight_of cat key ≡ sight_of other key) (asked (all_of cat) check) → run (all_of cat) check ≡ run (all_of other) check }
    ensures known { (cat : Catalog) (look : Look) (check : Walk ErrorValue Choice) → IsOf (sight_of cat) look → IsSettled (run look check) → run (all_of cat) check ≡ run look check }
{}

/// What any statement that says names changes keeps a valid catalog valid, and each table behind it has the space that a table had, or the
/// number that the statement takes. It does nothing when it runs.
pub fn outcomes_keep_validity()
    ensures kept { (session : SessionState) (statement : Statement) (check : Walk ErrorValue Choice) → says_names statement ≡ true → session_is_named session ≡ true → outcome session statement ≡ Some check → KeepsValid check }
    ensures one_space { (session : SessionState) (statement : Statement) (check : Walk ErrorValue Choice) → outcome session statement ≡ Some check → MakesOneSpace check }
{}
