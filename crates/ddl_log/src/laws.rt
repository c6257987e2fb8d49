// The laws of what records do to a directory.
ghost use Rattle.std.specs.Prelude.{◌≡◌, ℕ, List, ◌∷◌, ◌++◌};
ghost use Rattle.disk_trait.specs.Change.{Directory};
ghost use Rattle.ddl_log.specs.declared.records.Kind.TheVariants.{DeleteSpace};
ghost use Rattle.ddl_log.specs.declared.records.LogRecord.{LogRecord as Item};
ghost use Rattle.ddl_log.specs.Effect.{effect_of, effect, Differs, IsOff, IsFree, IsApart, Agrees, IsDone, IsUnder};

/// What one record does: done twice it is done once, and paths that it doesn't name stay. What it does at a path rests on
/// that path and on its old path alone. It does nothing.
pub fn one_record()
    ensures twice { (item : Item) (wanted d : Directory) → effect_of item wanted (effect_of item wanted d) ≡ effect_of item wanted d }
    ensures others { (item : Item) (wanted d : Directory) (path : List ℕ) → IsOff item path → effect_of item wanted d path ≡ d path }
    ensures local { (item : Item) (wanted d e : Directory) (path : List ℕ) → e item.old_path ≡ d item.old_path → e path ≡ d path →
        effect_of item wanted e path ≡ effect_of item wanted d path }
    ensures done { (item : Item) (wanted d e : Directory) → e ≡ effect_of item wanted d → IsDone item wanted e }
    ensures under { (item : Item) (wanted d e : Directory) → e ≡ effect_of item wanted d → IsUnder item wanted d e }
{}

/// What several records do: the one after the other, and paths that none names stay. A record that names no path of the
/// others may be done before or after them. Which files are wanted matters where they are written anew alone. It does
/// nothing.
pub fn several_records()
    ensures in_turn { (xs ys : List Item) (wanted d : Directory) → effect (xs ++ ys) wanted d ≡ effect ys wanted (effect xs wanted d) }
    ensures others { (path : List ℕ) (items : List Item) (wanted d : Directory) → IsFree path items → effect items wanted d path ≡ d path }
    ensures commutes { (item : Item) (items : List Item) (wanted d : Directory) → IsApart item items →
        effect items wanted (effect_of item wanted d) ≡ effect_of item wanted (effect items wanted d) }
    ensures wants { (items : List Item) (wanted others d : Directory) → Agrees items wanted others → effect items others d ≡ effect items wanted d }
{}

/// A record among others that name no path of it. One that is done may be left out, and as long as its operation is under
/// way they all have the effect that they had. Where it deletes a file, it doesn't matter how that file changes. It does
/// nothing.
pub fn record_among_others()
    ensures done { (item : Item) (xs ys : List Item) (wanted d : Directory) → IsApart item xs → IsDone item wanted d →
        effect (xs ++ item ∷ ys) wanted d ≡ effect (xs ++ ys) wanted d }
    ensures under { (item : Item) (xs ys : List Item) (wanted d e : Directory) → IsApart item xs → IsUnder item wanted d e →
        effect (xs ++ item ∷ ys) wanted e ≡ effect (xs ++ item ∷ ys) wanted d }
    ensures covered { (item : Item) (xs ys : List Item) (wanted d e : Directory) → item.kind ≡ DeleteSpace → IsFree item.old_path xs →
        ((path : List ℕ) → Differs item.old_path path → e path ≡ d path) → effect (xs ++ item ∷ ys) wanted e ≡ effect (xs ++ item ∷ ys) wanted d }
{}
