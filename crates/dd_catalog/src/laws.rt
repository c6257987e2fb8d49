ghost use Rattle.std.specs.Prelude.{◌≡◌, ◌<◌, None, Some};
ghost use Rattle.std.specs.List.{AllByRecursion};
ghost use Rattle.dd_names.specs.Paths.{path};
ghost use Rattle.dd_names.specs.declared.object_name.ObjName.{ObjName};
ghost use Rattle.dd_names.specs.declared.object_name.ObjectKey.{ObjectKey};
ghost use Rattle.dd_errors.specs.Errors.{ErrorValue};
ghost use Rattle.dd_catalog.specs.Catalog.{Catalog, Placed};
ghost use Rattle.dd_catalog.specs.Sights.{Sight};
ghost use Rattle.dd_catalog.specs.Valid.{Has, IsValid};
ghost use Rattle.dd_catalog.specs.Walks.{Walk, ◌>>=◌ as followed_by, needs, run, asked};
ghost use Rattle.dd_catalog.specs.WalkLaws.{Look, go_on, Extends, IsSettled, left, IsOf};

/// What holds of each check, whatever value it comes to: `binding` of a check that another follows; a key is needed only
/// where nothing is known of it; where no key is needed, knowing more changes nothing; nor does a look-up that agrees on the
/// keys at which the check looks; and each key that is told as it is needed lowers a number. It does nothing when it runs.
pub fn walk_laws<A, B>()
    ensures binding { (look : Look) (check : Walk ErrorValue A) (next : A → Walk ErrorValue B) → run look (followed_by check next) ≡ go_on (run look check) (λ x. run look (next x)) }
    ensures need { (look : Look) (check : Walk ErrorValue A) (needed : ObjectKey) → run look check ≡ needs needed → look needed ≡ None }
    ensures more { (look more : Look) (check : Walk ErrorValue A) → Extends look more → IsSettled (run look check) → run more check ≡ run look check }
    ensures agreeing { (one other : Look) (check : Walk ErrorValue A) → AllByRecursion (λ key. one key ≡ other key) (asked one check) → run one check ≡ run other check }
    ensures ending { (full : ObjectKey → Sight) (look more : Look) (check : Walk ErrorValue A) (needed : ObjectKey) → IsOf full look → Extends look more
        → more needed ≡ Some (full needed) → run look check ≡ needs needed → left full more check < left full look check }
{}

/// Each object of a valid catalog has a path of its own: where two have one path, they have one name and are the same. It does
/// nothing when it runs.
pub fn objects_have_own_paths()
    ensures apart { (cat : Catalog) (a b : ObjName) (placed other : Placed) → IsValid cat → Has cat a placed → Has cat b other → path a ≡ path b → (a ≡ b) × (placed ≡ other) }
{}
