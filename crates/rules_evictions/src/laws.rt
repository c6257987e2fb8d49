ghost use Rattle.std.specs.Prelude.{◌≡◌, ℕ, List, Ok, false, map};
ghost use Rattle.dd_names.specs.declared.object_name.ObjName.{ObjName};
ghost use Rattle.dd_names.specs.declared.object_name.ObjectKey.{ObjectKey};
ghost use Rattle.dd_names.specs.declared.object_name.ObjectKey.TheVariants as keys;
ghost use Rattle.dd_errors.specs.Errors.{ErrorValue};
ghost use Rattle.dd_catalog.specs.Catalog.{Catalog, sight_of};
ghost use Rattle.dd_catalog.specs.Sights.{Sight};
ghost use Rattle.dd_catalog.specs.Valid.{IsValid};
ghost use Rattle.dd_catalog.specs.Walks.{Walk};
ghost use Rattle.dd_catalog.specs.WalkLaws.{IsOf, Look};
ghost use Rattle.rules_outcome.specs.Choices.{Choice, catalog_behind};
ghost use Rattle.rules_outcome.specs.Decided.{chosen};
ghost use Rattle.rules_outcome.specs.declared.decided.Decided.{Decided};
ghost use Rattle.rules_locks.specs.Claims.{Claim};
ghost use Rattle.rules_locks.specs.Evictions.{is_hit};
ghost use Rattle.rules_locks.specs.Locks.{choice_claims};
ghost use Rattle.rules_footprint.specs.Steps.{step_of};
ghost use Rattle.rules_footprint.specs.declared.footprints.Told.{Told};
ghost use Rattle.rules_footprint_laws.specs.Clients.{IsClient};
ghost use Rattle.rules_evictions.specs.declared.evicting.Evictions.{Evictions};
ghost use Rattle.rules_evictions.specs.Evicted.{AreOf, has_key};

/// `stays`: what isn't hit stays as it is where the plan is committed of a client that was told what its check needed. `schemas`,
/// `objects`: of a schema and of an object it is enough to look its key up. It does nothing when it runs.
pub fn evictions_are_enough()
    ensures stays { (cat : Catalog) (space : ℕ) (look : Look) (told : List Told) (check : Walk ErrorValue Choice) (d : Decided) → IsClient look told check (Ok d) → IsOf (sight_of cat) look → IsValid cat → IsValid (catalog_behind space (chosen d) cat)
        → (key : ObjectKey) → is_hit (choice_claims (map step_of told) (chosen d)) key (sight_of cat key) ≡ false → sight_of (catalog_behind space (chosen d) cat) key ≡ sight_of cat key }
    ensures schemas { (evicted : Evictions) (all : List Claim) (name : List ℕ) (seen : Sight) → AreOf evicted all → has_key evicted.keys.keys (keys.Schema name) ≡ is_hit all (keys.Schema name) seen }
    ensures objects { (evicted : Evictions) (all : List Claim) (name : ObjName) (seen : Sight) → AreOf evicted all → has_key evicted.keys.keys (keys.Object name) ≡ is_hit all (keys.Object name) seen }
{}
