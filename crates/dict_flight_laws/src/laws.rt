// The laws of the steps of one session among the others.
ghost use Rattle.std.specs.Prelude.{◌≡◌, ℕ, List, [], ◌∷◌, ◌++◌, Option, Some, true, false};
ghost use Rattle.disk_trait.specs.Change.{Directory};
ghost use Rattle.disk_trait.specs.Story.{Images, Story};
ghost use Rattle.row_batch.specs.declared.operation.Operation.{Operation};
ghost use Rattle.row_store.specs.Value.{StoreValue};
ghost use Rattle.ddl_log.specs.declared.records.LogRecord.{LogRecord as Item};
ghost use Rattle.ddl_log.specs.Effect.{by_id};
ghost use Rattle.dict_store_laws.specs.System.{IsOrdinary, is_system};
ghost use Rattle.dict_store_laws.specs.Kept.{IsKept};
ghost use Rattle.dict_store_laws.specs.Steps.{IsWith, MayCommit, MayMake, MayPrepare, MayRemove, MayReplay, with_made, with_records};
ghost use Rattle.dict_store_laws.specs.Plans.{Writes};
ghost use Rattle.dict_flight_laws.specs.Phases.{Creation, Idle, Left, Performed, Phase, Plan, Planned, Prepared, Replayed, all_claims, finished, idles, log, made, made_by, owned, records_of, work_of};
ghost use Rattle.dict_flight_laws.specs.Flight.{AreClear, In, IsInFlight, IsReady, IsRightPlan};
ghost use Rattle.std.specs.List.{flat_map};

/// The steps of a session that make no call: it gets a plan, gives it up, rolls a creation back, and ends. `begins`: no
/// session has a statement. It does nothing when it runs.
pub fn sessions_begin_and_end()
    ensures begins { (s : Option Story) (store : StoreValue) (wanted : Directory) (n : ℕ) → IsKept s store (record { items = []; wanted = wanted; finished = []; made = [] }) → IsInFlight s store wanted (idles n) }
    ensures plans { (s : Option Story) (store : StoreValue) (wanted : Directory) (before after : List Phase) (plan : Plan) → IsInFlight s store wanted (before ++ Idle ∷ after)
        → AreClear (records_of plan) (all_claims before) → AreClear (records_of plan) (all_claims after) → ((item : Item) → In (records_of plan) item → IsOrdinary item) → IsRightPlan plan wanted
        → IsInFlight s store wanted (before ++ Planned plan ∷ after) }
    ensures gives_up { (s : Option Story) (store : StoreValue) (wanted : Directory) (before after : List Phase) (plan : Plan) → IsInFlight s store wanted (before ++ Planned plan ∷ after) → IsInFlight s store wanted (before ++ Idle ∷ after) }
    ensures rolls_back { (s : Option Story) (store : StoreValue) (wanted : Directory) (before after : List Phase) (c : Creation) (plan : Plan) (texts : List ℕ → List ℕ)
        → IsInFlight s store wanted (before ++ Prepared c plan ∷ after) → IsInFlight s store wanted (before ++ Left texts (c.item ∷ []) ∷ after) }
    ensures rolls_back_made { (s : Option Story) (store : StoreValue) (wanted : Directory) (before after : List Phase) (c : Creation) (plan : Plan) (texts : List ℕ → List ℕ)
        → IsInFlight s store wanted (before ++ Performed c plan ∷ after) → IsInFlight s store wanted (before ++ Left texts (c.item ∷ []) ∷ after) }
    ensures ends { (s : Option Story) (store : StoreValue) (wanted : Directory) (before after : List Phase) (texts : List ℕ → List ℕ) → IsInFlight s store wanted (before ++ Left texts [] ∷ after) → IsInFlight s store wanted (before ++ Idle ∷ after) }
{}

/// A creation: its record may be prepared and its file made (`may_prepare`, `may_make`), and then the session is further
/// (`prepared`, `made`). It does nothing when it runs.
pub fn creations_go_on()
    ensures may_prepare { (s : Option Story) (store : StoreValue) (wanted : Directory) (before after : List Phase) (c : Creation) (plan : Plan) → plan.creates ≡ Some c → IsInFlight s store wanted (before ++ Planned plan ∷ after)
        → by_id (log (before ++ Prepared c plan ∷ after)) ≡ true → MayPrepare c.item (work_of wanted (before ++ Planned plan ∷ after)) (log (before ++ Prepared c plan ∷ after)) }
    ensures prepared { (s t : Option Story) (store grown : StoreValue) (wanted : Directory) (before after : List Phase) (c : Creation) (plan : Plan) → plan.creates ≡ Some c → IsInFlight s store wanted (before ++ Planned plan ∷ after)
        → IsKept t grown (with_records (work_of wanted (before ++ Planned plan ∷ after)) (log (before ++ Prepared c plan ∷ after)) (flat_map finished (before ++ Planned plan ∷ after))) → IsInFlight t grown wanted (before ++ Prepared c plan ∷ after) }
    ensures may_make { (s : Option Story) (store : StoreValue) (wanted : Directory) (before after : List Phase) (c : Creation) (plan : Plan) → IsInFlight s store wanted (before ++ Prepared c plan ∷ after)
        → MayMake c.item.old_path (work_of wanted (before ++ Prepared c plan ∷ after)) × IsWith (made_by c) (flat_map made (before ++ Prepared c plan ∷ after)) (flat_map made (before ++ Performed c plan ∷ after)) }
    ensures made { (s t : Option Story) (store grown : StoreValue) (wanted : Directory) (before after : List Phase) (c : Creation) (plan : Plan) → IsInFlight s store wanted (before ++ Prepared c plan ∷ after)
        → IsKept t grown (with_made (work_of wanted (before ++ Prepared c plan ∷ after)) (flat_map made (before ++ Performed c plan ∷ after))) → IsInFlight t grown wanted (before ++ Performed c plan ∷ after) }
    ensures stays { (s t : Option Story) (store grown : StoreValue) (wanted : Directory) (phases : List Phase) → IsInFlight s store wanted phases → IsKept t grown (work_of wanted phases) → IsInFlight t grown wanted phases }
{}

/// A plan may be committed by a batch that puts its records in the place of the session's (`may_commit`), and then its
/// records are left to do (`committed`). It does nothing when it runs.
pub fn plans_go_on()
    ensures may_commit { (s : Option Story) (store : StoreValue) (wanted : Directory) (before after : List Phase) (p : Phase) (plan : Plan) (batch : List Operation) → IsReady p plan → IsInFlight s store wanted (before ++ p ∷ after)
        → Writes (owned p) plan.records batch (work_of (plan.change wanted) (before ++ Left plan.texts plan.records ∷ after)) → MayCommit s store.rows batch (work_of (plan.change wanted) (before ++ Left plan.texts plan.records ∷ after)) }
    ensures committed { (s t : Option Story) (store grown : StoreValue) (wanted : Directory) (before after : List Phase) (p : Phase) (plan : Plan) → IsReady p plan → IsInFlight s store wanted (before ++ p ∷ after)
        → IsKept t grown (work_of (plan.change wanted) (before ++ Left plan.texts plan.records ∷ after)) → IsInFlight t grown (plan.change wanted) (before ++ Left plan.texts plan.records ∷ after) }
{}

/// The first of a session's records may be replayed and then removed (`may_replay`, `may_remove`), and then the session is
/// further (`replayed`, `removed`). It does nothing when it runs.
pub fn records_go_on()
    ensures may_replay { (s : Option Story) (store : StoreValue) (wanted : Directory) (before after : List Phase) (texts : List ℕ → List ℕ) (item : Item) (items : List Item) → IsInFlight s store wanted (before ++ Left texts (item ∷ items) ∷ after)
        → MayReplay item (texts item.old_path) (work_of wanted (before ++ Left texts (item ∷ items) ∷ after)) × IsWith item (flat_map finished (before ++ Left texts (item ∷ items) ∷ after)) (flat_map finished (before ++ Replayed texts item items ∷ after)) }
    ensures replayed { (s t : Option Story) (store grown : StoreValue) (wanted : Directory) (before after : List Phase) (texts : List ℕ → List ℕ) (item : Item) (items : List Item) → IsInFlight s store wanted (before ++ Left texts (item ∷ items) ∷ after)
        → IsKept t grown (with_records (work_of wanted (before ++ Left texts (item ∷ items) ∷ after)) (log (before ++ Left texts (item ∷ items) ∷ after)) (flat_map finished (before ++ Replayed texts item items ∷ after)))
        → IsInFlight t grown wanted (before ++ Replayed texts item items ∷ after) }
    ensures may_remove { (s : Option Story) (store : StoreValue) (wanted : Directory) (before after : List Phase) (texts : List ℕ → List ℕ) (item : Item) (items : List Item) → IsInFlight s store wanted (before ++ Replayed texts item items ∷ after)
        → MayRemove item (work_of wanted (before ++ Replayed texts item items ∷ after)) (log (before ++ Left texts items ∷ after)) (flat_map finished (before ++ Left texts items ∷ after)) }
    ensures removed { (s t : Option Story) (store grown : StoreValue) (wanted : Directory) (before after : List Phase) (texts : List ℕ → List ℕ) (item : Item) (items : List Item) → IsInFlight s store wanted (before ++ Replayed texts item items ∷ after)
        → IsKept t grown (with_records (work_of wanted (before ++ Replayed texts item items ∷ after)) (log (before ++ Left texts items ∷ after)) (flat_map finished (before ++ Left texts items ∷ after))) → IsInFlight t grown wanted (before ++ Left texts items ∷ after) }
{}

/// While no session has a statement, each crash leaves just the wanted files beside the system files. It does nothing when
/// it runs.
pub fn wanted_files_are_there()
    ensures { (s : Option Story) (store : StoreValue) (wanted : Directory) (n : ℕ) → IsInFlight s store wanted (idles n) → (image : Directory) → Images s image → (path : List ℕ) → is_system path ≡ false → image path ≡ wanted path }
{}
