ghost use Rattle.std.specs.Prelude.{◌≡◌, ◌++◌, List, map, Ok, Option, Result};
ghost use Rattle.std.specs.List.{flat_map};
ghost use Rattle.dd_names.specs.declared.object_name.ObjectKey.{ObjectKey};
ghost use Rattle.dd_errors.specs.Errors.{ErrorValue};
ghost use Rattle.sql_ast.specs.declared.session.SessionState.{SessionState};
ghost use Rattle.sql_ast.specs.declared.statement.Statement.{Statement};
ghost use Rattle.dd_catalog.specs.Catalog.{Catalog, all_of, sight_of};
ghost use Rattle.dd_catalog.specs.Follow.{sights};
ghost use Rattle.dd_catalog.specs.declared.object.Object.{Object};
ghost use Rattle.dd_catalog.specs.declared.stop.Stop.{Stop};
ghost use Rattle.dd_catalog.specs.Walks.{Walk, needs, run};
ghost use Rattle.dd_catalog.specs.WalkLaws.{IsOf, IsSettled, Look};
ghost use Rattle.rules_outcome.specs.Choices.{Choice};
ghost use Rattle.rules_outcome.specs.Decided.{AreBefore, Decides, chosen};
ghost use Rattle.rules_outcome.specs.declared.decided.Decided.{Decided};
ghost use Rattle.rules_locks.specs.Held.{AreCovered, HasPlan, IsHeld};
ghost use Rattle.rules_locks.specs.Holdings.{AreAmong, Holding, holding};
ghost use Rattle.rules_locks.specs.Locks.{locks, step_claims};
ghost use Rattle.rules_locks.specs.Steps.{rest, steps};
ghost use Rattle.rules_locks.specs.Told.{IsTold, seen_at};
ghost use Rattle.rules_intents.specs.Intents.{intent};
ghost use Rattle.rules_footprint.specs.Plans.{AreTold, told_at};
ghost use Rattle.rules_footprint.specs.Steps.{step_of};
ghost use Rattle.rules_footprint.specs.declared.footprints.Told.{Told};
ghost use Rattle.rules_footprint_laws.specs.Ahead.{AreNew, ahead, keys_of, looks_at};
ghost use Rattle.rules_footprint_laws.specs.Clients.{HasAnswer, IsClient, requests};

/// What `footprint` gives are the locks of the statement's check. `exact`: of a client that was told each key as the check needed
/// it, over what it knows. `held`: in any catalog that has what the client knows, whoever holds these and no others holds the locks
/// of the first steps of the check; `plan`: and has a plan, where the check came to a choice. It does nothing when it runs.
pub fn footprints_are_locks()
    ensures exact { (session : SessionState) (statement : Statement) (look : Look) (told : List Told) (check : Walk ErrorValue Choice) (decided : Result Decided Stop) → IsClient look told check decided
        → requests session statement told decided ≡ locks (intent session statement) (steps look check) (rest look check) }
    ensures held { (cat : Catalog) (session : SessionState) (statement : Statement) (look : Look) (told : List Told) (check : Walk ErrorValue Choice) (decided : Result Decided Stop) (held : Holding) → IsClient look told check decided → IsOf (sight_of cat) look
        → AreAmong (holding (requests session statement told decided)) held → AreAmong held (holding (requests session statement told decided)) → IsHeld cat (intent session statement) check held (rest look check) }
    ensures plan { (cat : Catalog) (session : SessionState) (statement : Statement) (look : Look) (told : List Told) (check : Walk ErrorValue Choice) (d : Decided) (held : Holding) → IsClient look told check (Ok d) → IsOf (sight_of cat) look
        → AreAmong (holding (requests session statement told (Ok d))) held → AreAmong held (holding (requests session statement told (Ok d))) → HasPlan cat (intent session statement) check held (chosen d) }
{}

/// Looks may be taken ahead of a check, as when a client is told at once what the statement's text names. `found`: behind them the
/// check comes to what it comes to. `needed`: unless one of them is still needed. `whole`: over a catalog the two come to the same.
/// `any`: whatever keys a client was told, each once, it was told them in the order of the check behind looks at them. `locks`: so
/// what `footprint` gives of it are the locks of that check. `covered`: and whoever holds these is covered for all that the text
/// and the looks of the check itself claim. It does nothing when it runs.
pub fn looks_go_ahead()
    ensures found { (look : Look) (first : Walk ErrorValue (Unit {0})) (check : Walk ErrorValue Choice) → IsSettled (run look first) → run look (ahead first check) ≡ run look check }
    ensures needed { (look : Look) (first : Walk ErrorValue (Unit {0})) (check : Walk ErrorValue Choice) (key : ObjectKey) → run look first ≡ needs key → run look (ahead first check) ≡ needs key }
    ensures whole { (cat : Catalog) (first : Walk ErrorValue (Unit {0})) (check : Walk ErrorValue Choice) → run (all_of cat) (ahead first check) ≡ run (all_of cat) check }
    ensures any { (look : Look) (told : List Told) (check : Walk ErrorValue Choice) → ((key : ObjectKey) → look key ≡ seen_at (map step_of told) key) → AreNew told → IsTold look (map step_of told) (ahead (looks_at (keys_of told)) check) }
    ensures locks { (session : SessionState) (statement : Statement) (look : Look) (told : List Told) (check : Walk ErrorValue Choice) (decided : Result Decided Stop) → ((key : ObjectKey) → look key ≡ seen_at (map step_of told) key) → AreNew told
        → Decides decided (run look check) → HasAnswer decided → requests session statement told decided ≡ locks (intent session statement) (steps look (ahead (looks_at (keys_of told)) check)) (rest look (ahead (looks_at (keys_of told)) check)) }
    ensures covered { (session : SessionState) (statement : Statement) (look : Look) (told : List Told) (check : Walk ErrorValue Choice) (decided : Result Decided Stop) (held : Holding) → ((key : ObjectKey) → look key ≡ seen_at (map step_of told) key)
        → AreAmong (holding (requests session statement told decided)) held → AreCovered held ((intent session statement).claims ++ flat_map (step_claims (intent session statement).grip) (steps look check)) }
{}

/// What a client knows that has what it was told. `seen`: this is what its steps saw. `before`: what stood before each edit was
/// told. It does nothing when it runs.
pub fn clients_know()
    ensures seen { (known : ObjectKey → Option Object) (told : List Told) → ((key : ObjectKey) → known key ≡ told_at told key) → (key : ObjectKey) → sights known key ≡ seen_at (map step_of told) key }
    ensures before { (known : ObjectKey → Option Object) (told : List Told) (d : Decided) → ((key : ObjectKey) → known key ≡ told_at told key) → AreBefore known d → AreTold told (Ok d) }
{}
