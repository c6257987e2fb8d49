ghost use Rattle.std.specs.Prelude.{◌≡◌, ℕ, List, [], ◌∷◌, ◌++◌};
ghost use Rattle.dd_names.specs.declared.object_name.ObjectKey.{ObjectKey};
ghost use Rattle.dd_catalog.specs.Catalog.{Catalog, all_of, sight_of};
ghost use Rattle.dd_catalog.specs.Valid.{IsValid};
ghost use Rattle.dd_catalog.specs.Walks.{done, fine, needs, run};
ghost use Rattle.metadata_locks.specs.declared.request.Request.{Request};
ghost use Rattle.rules_outcome.specs.Choices.{Choice, catalog_behind};
ghost use Rattle.rules_locks.specs.Held.{HasPlan};
ghost use Rattle.rules_locks.specs.Holdings.{AreAmong, holding};
ghost use Rattle.rules_locks.specs.Locks.{choice_claims, locks};
ghost use Rattle.rules_locks.specs.Steps.{Step, rest, step};
ghost use Rattle.rules_locks.specs.Told.{seen_at};
ghost use Rattle.rules_locks_sessions.specs.Sessions.{Answered, Common, Finished, Fits, Idle, IsSound, IsWhole, Moves, Phase, Planned, Task, Trying, Working, Works, World, begun_over, committed, evicted, gave_back, granted, looks, moved, same, view};

/// Sessions without statements are sound over a valid catalog; behind an event that fits each session to its phase all are sound;
/// and then the plan of a session is what its check comes to. It does nothing when it runs.
pub fn worlds_stay_sound()
    ensures begins { (cat : Catalog) → IsValid cat → IsSound (begun_over cat) }
    ensures right { (w : World) (s : ℕ) (task : Task) (choice : Choice) → IsSound w → w.phases s ≡ Planned task choice → run (all_of w.common.catalog) task.check ≡ fine choice }
    ensures stays { (w : World) (s : ℕ) (others : Phase → Phase) (new : Common) (next : Phase) → IsSound w → Moves s others w.common new next → IsSound (moved s others new next w) }
{}

/// What each event of a session leaves of it and of the others. It does nothing when it runs.
pub fn session_laws()
    // A statement begins.
    ensures begun { (s : ℕ) (c : Common) (task : Task) → IsWhole c → Fits (view s c) Idle → Moves s same c c (Trying task) }
    // Its first locks are granted.
    ensures first { (s : ℕ) (requests : List Request) (c : Common) (task : Task) → IsWhole c → IsWhole (granted s requests c)
        → AreAmong (holding (locks task.intent [] (rest (seen_at []) (looks task)))) ((granted s requests c).locked s)
        → AreAmong ((granted s requests c).locked s) (holding (locks task.intent [] (rest (seen_at []) (looks task))))
        → Moves s same c (granted s requests c) (Working task []) }
    // The locks for what its client was told are granted.
    ensures more { (s : ℕ) (requests : List Request) (c : Common) (task : Task) (told : List Step) → IsWhole (granted s requests c) → Works (view s c) task told
        → AreAmong (holding (locks task.intent told (rest (seen_at told) (looks task)))) ((granted s requests c).locked s)
        → AreAmong ((granted s requests c).locked s) (holding (locks task.intent told (rest (seen_at told) (looks task))))
        → Moves s same c (granted s requests c) (Working task told) }
    // After a conflict all is given back.
    ensures conflict { (s : ℕ) (c : Common) (task : Task) → IsWhole c → Moves s same c (gave_back s c) (Trying task) }
    // The client is told what stands at the key that the check needs.
    ensures told { (s : ℕ) (c : Common) (task : Task) (told : List Step) (key : ObjectKey) → IsWhole c → Works (view s c) task told → run (seen_at told) task.check ≡ needs key
        → Moves s same c c (Working task (told ++ step key (sight_of c.catalog key) ∷ [])) }
    // The check comes to a choice, and all locks for it are held.
    ensures planned { (s : ℕ) (c : Common) (task : Task) (told : List Step) (choice : Choice) → IsWhole c → Works (view s c) task told → run (seen_at told) task.check ≡ fine choice
        → AreAmong (holding (locks task.intent told (done choice))) (c.locked s) → AreAmong (c.locked s) (holding (locks task.intent told (done choice))) → Moves s same c c (Planned task choice) }
    // The statement is answered without a plan.
    ensures answered { (s : ℕ) (c : Common) (task : Task) (told : List Step) → IsWhole c → Works (view s c) task told → Moves s same c c (Answered task c.catalog) }
    // The plan is given up.
    ensures given_up { (s : ℕ) (c : Common) (task : Task) (choice : Choice) → IsWhole c → HasPlan c.catalog task.intent (looks task) (c.locked s) choice → Moves s same c c (Finished task c.catalog) }
    // The plan is committed, and whoever knows what it hits is told anew.
    ensures committed { (s space : ℕ) (c : Common) (task : Task) (choice : Choice) → (plan : HasPlan c.catalog task.intent (looks task) (c.locked s) choice) → IsWhole c → IsValid (catalog_behind space choice c.catalog)
        → Moves s (evicted (choice_claims plan.steps choice)) c (committed space choice c) (Finished task c.catalog) }
    // All is given back.
    ensures released { (s : ℕ) (c : Common) → IsWhole c → Moves s same c (gave_back s c) Idle }
{}
