// The laws of the dictionary's steps.
ghost use Rattle.std.specs.Prelude.{◌≡◌, ◌+◌, ◌≤◌, ℕ, List, [], Option, Some, false, true};
ghost use Rattle.disk_trait.specs.Change.{Directory};
ghost use Rattle.disk_trait.specs.Story.{Images, IsSoundStory, Story, reads};
ghost use Rattle.disk_trait.specs.Carried.{Leaves};
ghost use Rattle.row_batch.specs.declared.operation.Operation.{Operation};
ghost use Rattle.row_batch.specs.Rows.{Rows, applied};
ghost use Rattle.row_store.specs.Value.{StoreValue};
ghost use Rattle.row_store.specs.OnDisk.{IsOnDisk};
ghost use Rattle.ddl_log.specs.declared.records.LogRecord.{LogRecord as Item};
ghost use Rattle.ddl_log.specs.Effect.{IsFree};
ghost use Rattle.log_rows.specs.Logs.{IsLog};
ghost use Rattle.dict_store_laws.specs.System.{is_system, system_path};
ghost use Rattle.dict_store_laws.specs.Recovers.{Holds, HoldsEither, IsOrderly, Recovers, RecoversEither};
ghost use Rattle.dict_store_laws.specs.Kept.{File, IsKept, Work};
ghost use Rattle.dict_store_laws.specs.Steps.{MayCommit, MayPrepare, MayRemove, with_records};
ghost use Rattle.dict_store_laws.specs.Plans.{MayCreate, MayExchange};
ghost use Rattle.dict_store_laws.specs.Safe.{Grows, IsPrefix, IsStamped, Safe};

use crate::Dictionary;

/// A store on the disk is kept, without work that is under way, where each crash leaves its rows and files that fit: so a
/// store that was opened begins. It does nothing when it runs.
pub fn opened_stores_are_kept()
    ensures { (s : Option Story) (store : StoreValue) (items : List Item) (wanted : Directory) → store.journal.path ≡ system_path → IsOnDisk s store → IsLog store.rows items → IsOrderly items
        → ((image : Directory) → Images s image → Holds store.rows wanted image) → IsKept s store (record { items = items; wanted = wanted; finished = []; made = [] }) }
{}

/// The batches that may be committed while a session has a record of its own in the log: `prepare`, which puts it, and
/// `remove`, which takes it away once it is done. It does nothing when it runs.
pub fn steps_may_be_committed()
    ensures prepare { (s : Option Story) (store : StoreValue) (work : Work) (item : Item) (items : List Item) (batch : List Operation) → IsKept s store work → MayPrepare item work items → IsLog (applied batch store.rows) items
        → MayCommit s store.rows batch (with_records work items work.finished) }
    ensures remove { (s : Option Story) (store : StoreValue) (work : Work) (item : Item) (items finished : List Item) (batch : List Operation) → IsKept s store work → MayRemove item work items finished → IsLog (applied batch store.rows) items
        → MayCommit s store.rows batch (with_records work items finished) }
{}

/// The batch of a plan may be committed, whatever other sessions have under way: `exchange`, of a plan that made no file,
/// and `create`, of one that did. It does nothing when it runs.
pub fn plans_may_be_committed()
    ensures exchange { (s : Option Story) (store : StoreValue) (work next : Work) (planned : List Item) (batch : List Operation) → IsKept s store work → MayExchange planned batch work next → MayCommit s store.rows batch next }
    ensures create { (s : Option Story) (store : StoreValue) (work next : Work) (item : Item) (file : File) (planned : List Item) (batch : List Operation) → IsKept s store work → MayCreate item file planned batch work next → MayCommit s store.rows batch next }
{}

/// What a crash leaves, and what the disk reads, has the wanted files and no others, but for the system files and the paths
/// that records name: `images`, `reads`; and `holds`, of any directory that recovers. It does nothing when it runs.
pub fn files_are_accounted()
    ensures images { (s : Option Story) (store : StoreValue) (work : Work) → IsKept s store work → (image : Directory) → Images s image → (path : List ℕ) → is_system path ≡ false → IsFree path work.items → image path ≡ work.wanted path }
    ensures reads { (s : Story) (now : ℕ) (store : StoreValue) (work : Work) → IsSoundStory (Some s) now → IsKept (Some s) store work → (path : List ℕ) → is_system path ≡ false → IsFree path work.items → reads s path ≡ work.wanted path }
    ensures holds { (rows : Rows) (wanted directory : Directory) (it : Holds rows wanted directory) (path : List ℕ) → is_system path ≡ false → IsFree path it.items → directory path ≡ wanted path }
{}

/// A directory recovers to the catalog that its rows stand for: `one`. So does each that a crash leaves of a store that is
/// kept (`kept`), and what a crash leaves after calls that leave rows and files that fit (`leaves`, `leaves_either`). It
/// does nothing when it runs.
pub fn directories_recover<M: Dictionary>()
    ensures one { (rows : Rows) (catalog : M.Catalog) (image : Directory) → M.meaning.stands rows catalog → Holds rows (M.meaning.files catalog) image → Recovers M.meaning image catalog }
    ensures kept { (s : Option Story) (store : StoreValue) (work : Work) (catalog : M.Catalog) → IsKept s store work → M.meaning.stands store.rows catalog → M.meaning.files catalog ≡ work.wanted → (image : Directory) → Images s image → Recovers M.meaning image catalog }
    ensures leaves { (before now : ℕ) (old new : Option Story) (rows : Rows) (catalog : M.Catalog) → M.meaning.stands rows catalog → Leaves before now old new (Holds rows (M.meaning.files catalog)) → Leaves before now old new (λ image. Recovers M.meaning image catalog) }
    ensures leaves_either { (before now : ℕ) (old new : Option Story) (rows later : Rows) (catalog next : M.Catalog) → M.meaning.stands rows catalog → M.meaning.stands later next
        → Leaves before now old new (HoldsEither rows (M.meaning.files catalog) later (M.meaning.files next)) → Leaves before now old new (RecoversEither M.meaning catalog next) }
{}

/// A history stays safe. `begins`: without entries, where each crash leaves the base. `goes_on`: through calls that leave
/// catalogs of its end, from the last one of before on. `step` and `commit` say that calls without a change and a commit
/// leave these, and `acknowledged`, when an entry may be acknowledged. It does nothing when it runs.
pub fn histories_stay_safe<M: Dictionary>()
    ensures begins { (s : Option Story) (now : ℕ) (base : M.Catalog) (stamp : ℕ → Option ℕ) → IsSoundStory s now → ((image : Directory) → Images s image → Recovers M.meaning image base) → Safe M.meaning s now (λ k. base) 0 stamp }
    ensures goes_on { (before now begun : ℕ) (old new : Option Story) (after later : ℕ → M.Catalog) (n m : ℕ) (stamp marked : ℕ → Option ℕ)
        → begun ≤ before → IsStamped n stamp before → IsSoundStory new now → Leaves before now old new (IsPrefix M.meaning later n m) → Grows M.meaning new now after later n m stamp marked
        → Safe M.meaning old begun after n stamp → Safe M.meaning new begun later m marked }
    ensures step { (before now : ℕ) (old new : Option Story) (later : ℕ → M.Catalog) (n m : ℕ) (catalog : M.Catalog) → n ≤ m → later n ≡ catalog
        → Leaves before now old new (λ image. Recovers M.meaning image catalog) → Leaves before now old new (IsPrefix M.meaning later n m) }
    ensures commit { (before now : ℕ) (old new : Option Story) (later : ℕ → M.Catalog) (n : ℕ) (catalog next : M.Catalog) → later n ≡ catalog → later (n + 1) ≡ next
        → Leaves before now old new (RecoversEither M.meaning catalog next) → Leaves before now old new (IsPrefix M.meaning later n (n + 1)) }
    ensures acknowledged { (s : Option Story) (later : ℕ → M.Catalog) (n : ℕ) (catalog : M.Catalog) → later n ≡ catalog → ((image : Directory) → Images s image → Recovers M.meaning image catalog)
        → (image : Directory) → Images s image → IsPrefix M.meaning later n n image }
{}
