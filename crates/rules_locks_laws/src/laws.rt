ghost use Rattle.std.specs.Prelude.{◌≡◌, ℕ, false};
ghost use Rattle.dd_names.specs.declared.object_name.ObjectKey.{ObjectKey};
ghost use Rattle.dd_errors.specs.Errors.{ErrorValue};
ghost use Rattle.dd_catalog.specs.Catalog.{Catalog, all_of, sight_of};
ghost use Rattle.dd_catalog.specs.Valid.{IsValid};
ghost use Rattle.dd_catalog.specs.WalkLaws.{IsOf, Look};
ghost use Rattle.dd_catalog.specs.Walks.{Walk, fine, run};
ghost use Rattle.rules_outcome.specs.Choices.{Choice, catalog_behind};
ghost use Rattle.rules_locks.specs.Evictions.{is_hit};
ghost use Rattle.rules_locks.specs.Held.{Agrees, HasPlan, IsHeld, all_locks};
ghost use Rattle.rules_locks.specs.Holdings.{AreAmong, GoTogether, Holding, holding};
ghost use Rattle.rules_locks.specs.Locks.{Intent, choice_claims, locks};
ghost use Rattle.rules_locks.specs.Steps.{rest, steps};
ghost use Rattle.rules_locks_laws.specs.Reach.{Reaches};

/// Why locks suffice, for each check and whatever it comes to. `kept`: where a session commits its plan, the catalog stays the same
/// at all that locks keep which go together with those of the session. `held`: in a catalog that is the same at what a session's
/// locks keep, they are the locks of the same steps, behind which the same is left, be it a choice, a refusal or a further look.
/// `agreeing`: so a plan is right in each such catalog. `right`: what is left is what the check comes to. `part`: held locks are
/// among those of the check over the whole catalog. `whole`: with a plan they are all of these. It does nothing when it runs.
pub fn locks_suffice()
    ensures kept { (cat : Catalog) (space : ℕ) (held others : Holding) (intent : Intent) (check : Walk ErrorValue Choice) (choice : Choice) → IsValid cat → IsValid (catalog_behind space choice cat)
        → HasPlan cat intent check others choice → GoTogether held others → Agrees cat (catalog_behind space choice cat) held }
    ensures held { (cat next : Catalog) (intent : Intent) (check : Walk ErrorValue Choice) (held : Holding) (left : Walk ErrorValue Choice) → IsHeld cat intent check held left → Agrees cat next held → IsHeld next intent check held left }
    ensures agreeing { (cat next : Catalog) (intent : Intent) (check : Walk ErrorValue Choice) (held : Holding) (choice : Choice) → HasPlan cat intent check held choice → Agrees cat next held → run (all_of next) check ≡ fine choice }
    ensures right { (cat : Catalog) (intent : Intent) (check : Walk ErrorValue Choice) (held : Holding) (left : Walk ErrorValue Choice) → IsHeld cat intent check held left → run (all_of cat) check ≡ run (all_of cat) left }
    ensures part { (cat : Catalog) (intent : Intent) (check : Walk ErrorValue Choice) (held : Holding) (left : Walk ErrorValue Choice) → IsHeld cat intent check held left → AreAmong held (holding (all_locks cat intent check)) }
    ensures whole { (cat : Catalog) (intent : Intent) (check : Walk ErrorValue Choice) (held : Holding) (choice : Choice) → HasPlan cat intent check held choice → AreAmong (holding (all_locks cat intent check)) held }
{}

/// A plan changes nothing in the catalog but what its locks are for. It does nothing when it runs.
pub fn plans_reach()
    ensures { (cat : Catalog) (space : ℕ) (held : Holding) (intent : Intent) (check : Walk ErrorValue Choice) (choice : Choice) → HasPlan cat intent check held choice → Reaches held cat (catalog_behind space choice cat) }
{}

/// What a session may say that knows a part of a catalog: where it holds the locks for what it knows, they are those of the first
/// steps of its check over the catalog; and where the check comes to a choice over the part, the session has a plan. It does
/// nothing when it runs.
pub fn known_locks_suffice()
    ensures held { (cat : Catalog) (intent : Intent) (look : Look) (check : Walk ErrorValue Choice) (held : Holding) → IsOf (sight_of cat) look
        → AreAmong (holding (locks intent (steps look check) (rest look check))) held → AreAmong held (holding (locks intent (steps look check) (rest look check))) → IsHeld cat intent check held (rest look check) }
    ensures plan { (cat : Catalog) (intent : Intent) (look : Look) (check : Walk ErrorValue Choice) (held : Holding) (choice : Choice) → IsOf (sight_of cat) look → run look check ≡ fine choice
        → AreAmong (holding (locks intent (steps look check) (rest look check))) held → AreAmong held (holding (locks intent (steps look check) (rest look check))) → HasPlan cat intent check held choice }
{}

/// What isn't hit by the claims of a plan stays as it is where the plan is committed. It does nothing when it runs.
pub fn evictions_suffice()
    ensures { (cat : Catalog) (space : ℕ) (held : Holding) (intent : Intent) (check : Walk ErrorValue Choice) (choice : Choice) → IsValid cat → IsValid (catalog_behind space choice cat)
        → (plan : HasPlan cat intent check held choice) → (key : ObjectKey) → is_hit (choice_claims plan.steps choice) key (sight_of cat key) ≡ false
        → sight_of (catalog_behind space choice cat) key ≡ sight_of cat key }
{}
