ghost use Rattle.std.specs.Prelude.{◌≡◌, false, true, List, [], ◌∷◌, ◌++◌, None, Some};
ghost use Rattle.dd_names.specs.declared.object_name.ObjectKey.{ObjectKey};
ghost use Rattle.dd_errors.specs.Errors.{ErrorValue};
ghost use Rattle.dd_catalog.specs.Sights.{Sight};
ghost use Rattle.dd_catalog.specs.Walks.{Walk, needs, run};
ghost use Rattle.dd_catalog.specs.WalkLaws.{Look};
ghost use Rattle.metadata_locks.specs.declared.request.Request.{Request};
ghost use Rattle.rules_outcome.specs.Choices.{Choice};
ghost use Rattle.rules_locks.specs.Claims.{Claim, is_covered, with_claim, with_claims};
ghost use Rattle.rules_locks.specs.Holdings.{AreAmong, Holding, holding};
ghost use Rattle.rules_locks.specs.Held.{AreCovered};
ghost use Rattle.rules_locks.specs.Locks.{Intent, all_claims, locks};
ghost use Rattle.rules_locks.specs.Steps.{Step, step};
ghost use Rattle.rules_locks.specs.Told.{IsTold, is_same_place, once};

/// Whoever holds the locks of a check is covered for all that its looks and its changes claim; whoever holds more is so too; and
/// what is covered isn't asked for again. It does nothing when it runs.
pub fn locks_cover()
    ensures covered { (intent : Intent) (steps : List Step) (left : Walk ErrorValue Choice) (held : Holding) → AreAmong (holding (locks intent steps left)) held → AreCovered held (all_claims intent steps left) }
    ensures more { (less more : Holding) (claim : Claim) → AreAmong less more → is_covered less claim ≡ true → is_covered more claim ≡ true }
    ensures growing { (requests : List Request) (claims : List Claim) → AreAmong (holding requests) (holding (with_claims requests claims)) }
    ensures needed { (requests : List Request) (claim : Claim) → is_covered (holding requests) claim ≡ true → with_claim requests claim ≡ requests }
{}

/// A client that is told each key as its check needs it has the steps of the check in its list: of the check without a second look
/// at any key, which comes to the same. So the locks follow from the list of what the client was told. It does nothing when it runs.
pub fn told_in_order()
    ensures nothing { (look : Look) (check : Walk ErrorValue Choice) → ((key : ObjectKey) → look key ≡ None) → IsTold look [] check }
    ensures more { (look more : Look) (told : List Step) (check : Walk ErrorValue Choice) (key : ObjectKey) (seen : Sight) → IsTold look told check → run look check ≡ needs key
        → more key ≡ Some seen → ((other : ObjectKey) → is_same_place key other ≡ false → more other ≡ look other) → IsTold more (told ++ step key seen ∷ []) check }
    ensures same { (look : Look) (check : Walk ErrorValue Choice) → run look (once [] check) ≡ run look check }
{}
