// The laws of records among rows.
ghost use Rattle.std.specs.Prelude.{◌≡◌, true, List, [], ◌∷◌, ◌++◌};
ghost use Rattle.std.specs.List.{AllByRecursion};
ghost use Rattle.row_batch.specs.declared.operation.Operation.{Operation};
ghost use Rattle.row_batch.specs.Order.{in_order};
ghost use Rattle.row_batch.specs.Rows.{Rows, no_rows, applied};
ghost use Rattle.ddl_log.specs.declared.records.LogRecord.{LogRecord as Item};
ghost use Rattle.ddl_log.specs.Records.{IsRecord};
ghost use Rattle.ddl_log.specs.Effect.{by_id};
ghost use Rattle.log_rows.specs.Logs.{ChangesLog, IsLog, LeavesLog, LeavesOthers, delete_row, put_row};

/// What a batch changes of the log, as it grows by what calls add to it. `begins`: the empty batch changes nothing.
/// `puts` and `drops`: with the put of a record behind the others one more comes, and with a deletion one more goes.
/// `others`: what is done to other rows changes nothing; `alone`: and what is done to records changes no other row. It
/// does nothing when it runs.
pub fn batches_change_logs()
    ensures begins { ChangesLog [] [] [] }
    ensures puts { (operations : List Operation) (gone come : List Item) (item : Item) → ChangesLog operations gone come → AllByRecursion IsRecord (come ++ item ∷ []) → by_id (come ++ item ∷ []) ≡ true
        → ChangesLog (operations ++ put_row item ∷ []) gone (come ++ item ∷ []) }
    ensures drops { (operations : List Operation) (gone come : List Item) (item : Item) → ChangesLog operations gone come → ChangesLog (operations ++ delete_row item ∷ []) (item ∷ gone) come }
    ensures others { (old new : List Operation) (gone come : List Item) → ChangesLog old gone come → LeavesLog old new → ChangesLog new gone come }
    ensures alone_put { (operations : List Operation) (item : Item) → LeavesOthers operations (operations ++ put_row item ∷ []) }
    ensures alone_drop { (operations : List Operation) (item : Item) → LeavesOthers operations (operations ++ delete_row item ∷ []) }
{}

/// `none`: without rows the log is empty. `one`: rows have one log alone. `follows`: where a batch takes a run of
/// records away and puts others in their place, the log behind it has these in place of those. `put` and `dropped`: so
/// it is with a put or a deletion alone. It does nothing when it runs.
pub fn logs_follow_batches()
    ensures none { IsLog no_rows [] }
    ensures one { (rows : Rows) (xs ys : List Item) → IsLog rows xs → IsLog rows ys → xs ≡ ys }
    ensures follows { (operations : List Operation) (rows : Rows) (earlier gone come later : List Item) → IsLog rows (earlier ++ (gone ++ later)) → ChangesLog operations gone come → in_order operations ≡ true
        → AllByRecursion IsRecord come → by_id (earlier ++ (come ++ later)) ≡ true → IsLog (applied operations rows) (earlier ++ (come ++ later)) }
    ensures put { (rows : Rows) (item : Item) (earlier later : List Item) → IsRecord item → IsLog rows (earlier ++ later) → by_id (earlier ++ item ∷ later) ≡ true → IsLog (applied (put_row item ∷ []) rows) (earlier ++ item ∷ later) }
    ensures dropped { (rows : Rows) (item : Item) (earlier later : List Item) → IsLog rows (earlier ++ item ∷ later) → IsLog (applied (delete_row item ∷ []) rows) (earlier ++ later) }
{}
