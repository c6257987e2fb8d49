ghost use Rattle.std.specs.Prelude.{◌≡◌, ℕ, true, false, List, [], ◌∷◌, ◌++◌, Option, Some, None};
ghost use Rattle.std.specs.FinMap as finite_map;
ghost use Rattle.dd_names.specs.Names.{IsName};
ghost use Rattle.dd_names.specs.Reserved.{is_system_schema};
ghost use Rattle.dd_names.specs.declared.object_name.ObjectKey.{ObjectKey};
ghost use Rattle.dd_catalog.specs.Catalog.{Catalog, empty_catalog, sight_of};
ghost use Rattle.dd_catalog.specs.Valid.{IsValid};
ghost use Rattle.row_batch.specs.declared.operation.Operation.{Operation};
ghost use Rattle.row_batch.specs.Rows.{Rows, no_rows};
ghost use Rattle.catalog_rows.specs.Owners.{Owner, SchemaIs};
ghost use Rattle.catalog_rows.specs.Lists.{rows_of, rows_of_all};
ghost use Rattle.catalog_rows.specs.Stands.{Counts, IsApart, IsBelow, IsOf, Numbered, Stands, StandsWith, counter_key, counter_row, is_others};
ghost use Rattle.catalog_rows.specs.Changes.{Exchanges, Follows, IsOne, MakesOf, is_erased, next_after, no_put, put_behind};
ghost use Rattle.catalog_rows.specs.Objects.{is_erased_if, rows_if};
ghost use Rattle.catalog_rows.specs.Adding.{Adds, Takes};
ghost use Rattle.catalog_rows_laws.specs.Behind.{CanExchange, catalog_behind, numbered_behind};
ghost use Rattle.catalog_rows_laws.specs.Beside.{ExchangesBeside, RecordsAlone, is_record, one_if};
ghost use Rattle.catalog_rows_laws.specs.Changing.{ComeNumbered, LeadsTo};
ghost use Rattle.catalog_rows_laws.specs.Laws.{AreHad, ListsOwners, no_numbered, owners_in};

/// Without rows the catalog is empty, and the next number is 1 (`none`). `first`: behind the puts of the row of a
/// schema with the id 1, and of the counter, rows stand for the catalog with this schema alone. It does nothing when it
/// runs.
pub fn rows_begin()
    ensures none { StandsWith no_rows no_numbered 1 empty_catalog }
    ensures first { (name : List ℕ) (operations : List Operation) (after : Rows) → IsName name → is_system_schema name ≡ false → ExchangesBeside operations [] (SchemaIs name 1 ∷ []) (Some 2) → MakesOf operations no_rows after
        → StandsWith after (numbered_behind [] (SchemaIs name 1 ∷ []) no_numbered) 2 (catalog_behind [] (SchemaIs name 1 ∷ []) empty_catalog) }
{}

/// The same rows stand for one catalog alone. `numbers`: with one id for each of its schemas and objects, and with one
/// next number. `sights`: at each key the same stands in the one as in the other. It does nothing when it runs.
pub fn rows_determine_catalogs()
    ensures numbers { (rows : Rows) (n m : Numbered) (next more : ℕ) (cat other : Catalog) → StandsWith rows n next cat → StandsWith rows m more other → (n ≡ m) × (next ≡ more) × (cat ≡ other) }
    ensures sights { (rows : Rows) (cat other : Catalog) (key : ObjectKey) → Stands rows cat → Stands rows other → sight_of cat key ≡ sight_of other key }
{}

/// Where rows stand for a catalog, a batch that takes away the rows of the schemas and objects that go, and puts those
/// of the ones that come, makes rows that stand for the catalog behind the change, whatever the change is. `stands`:
/// where what comes has numbers as they are drawn. `keeps`: or where ids are apart, and below the next number, for
/// another reason. `records`: where the batch does no more, the records of the log stay. It does nothing when it runs.
pub fn rows_follow_changes()
    ensures stands { (operations : List Operation) (rows after : Rows) (n next : Numbered) (before : ℕ) (cat now : Catalog) (gone come : List Owner) (counter : Option ℕ)
        → StandsWith rows n before cat → LeadsTo n next now gone come → ComeNumbered before (next_after counter before) gone come → ExchangesBeside operations gone come counter → MakesOf operations rows after
        → StandsWith after next (next_after counter before) now }
    ensures keeps { (operations : List Operation) (rows after : Rows) (n next : Numbered) (before : ℕ) (cat now : Catalog) (gone come : List Owner) (counter : Option ℕ)
        → StandsWith rows n before cat → Follows n next gone come → IsOf next now → IsValid now → IsApart next → IsBelow next (next_after counter before) → ExchangesBeside operations gone come counter → MakesOf operations rows after
        → StandsWith after next (next_after counter before) now }
    ensures records { (operations : List Operation) (rows after : Rows) (gone come : List Owner) (counter : Option ℕ) → Exchanges operations gone come counter → MakesOf operations rows after
        → (key : List ℕ) → is_record key ≡ true → finite_map.get after key ≡ finite_map.get rows key }
{}

/// Where a change can be made of a valid catalog and leaves a valid one, those that go and those that come lead from
/// the one to the other, as `rows_follow_changes` wants it. It does nothing when it runs.
pub fn exchanges_lead()
    ensures { (n : Numbered) (cat : Catalog) (gone come : List Owner) → IsOf n cat → IsValid cat → CanExchange n gone come → IsValid (catalog_behind gone come cat)
        → LeadsTo n (numbered_behind gone come n) (catalog_behind gone come cat) gone come }
{}

/// Where what comes has numbers as they are drawn: `below`, the next number stays above each id and space id; `apart`,
/// no two schemas and no two objects have one id. It does nothing when it runs.
pub fn numbers_stay_apart()
    ensures below { (n next : Numbered) (before behind : ℕ) (now : Catalog) (gone come : List Owner) → LeadsTo n next now gone come → IsBelow n before → ComeNumbered before behind gone come → IsBelow next behind }
    ensures apart { (n next : Numbered) (before behind : ℕ) (now : Catalog) (gone come : List Owner) → LeadsTo n next now gone come → IsApart n → IsBelow n before → ComeNumbered before behind gone come → IsApart next }
{}

/// What a batch exchanges, and no more, as it grows by what calls add to it. `begins`: the empty batch exchanges
/// nothing. `goes`: with an erasure one more goes. `comes`: with the puts of its rows one more comes. `counts`: then
/// the counter may be put. It does nothing when it runs.
pub fn batches_grow()
    ensures begins { Exchanges [] [] [] None }
    ensures goes { (old new : List Operation) (gone come : List Owner) (counter : Option ℕ) (owner : Owner) → Exchanges old gone come counter → Takes old new (is_erased owner) → Exchanges new (owner ∷ gone) come counter }
    ensures comes { (old new : List Operation) (gone come : List Owner) (owner : Owner) → Exchanges old gone come None → Adds old new (rows_of owner) → Exchanges new gone (come ++ owner ∷ []) None }
    ensures counts { (old new : List Operation) (gone come : List Owner) (next : ℕ) → Exchanges old gone come None → Adds old new (counter_row next ∷ []) → Exchanges new gone come (Some next) }
{}

/// The same of batches that do more beside with records of the log, in whatever order calls come, and of what may have no
/// rows. `exact`: what exchanges, and no more, is one. `begins`, `goes`, `comes`, `counts`: as in `batches_grow`.
/// `records`: what is done to records alone changes nothing else. It does nothing when it runs.
pub fn batches_grow_beside()
    ensures exact { (operations : List Operation) (gone come : List Owner) (counter : Option ℕ) → Exchanges operations gone come counter → ExchangesBeside operations gone come counter }
    ensures begins { ExchangesBeside [] [] [] None }
    ensures goes { (old new : List Operation) (gone come : List Owner) (counter : Option ℕ) (owner : Option Owner) → ExchangesBeside old gone come counter → Takes old new (is_erased_if owner) → ExchangesBeside new (one_if owner ++ gone) come counter }
    ensures comes { (old new : List Operation) (gone come : List Owner) (counter : Option ℕ) (owner : Option Owner) → ExchangesBeside old gone come counter → Adds old new (rows_if owner) → ExchangesBeside new gone (come ++ one_if owner) counter }
    ensures counts { (old new : List Operation) (gone come : List Owner) (counter : Option ℕ) (next : ℕ) → ExchangesBeside old gone come counter → Adds old new (counter_row next ∷ []) → ExchangesBeside new gone come (Some next) }
    ensures records { (old new : List Operation) (gone come : List Owner) (counter : Option ℕ) → ExchangesBeside old gone come counter → RecordsAlone old new → ExchangesBeside new gone come counter }
{}

/// Rows that stand for a catalog are those that its schemas and objects write, beside the counter and the records of
/// the log. `listed`: each catalog has a list of its schemas and objects. `written`: under each key of theirs is just
/// what is written. `told`: and where that is so, the rows stand for the catalog. `again`: what some of them write,
/// written again, be it behind an erasure, changes nothing. `beside`: nor, but for records, where the batch does more
/// with these. It does nothing when it runs.
pub fn rows_are_as_written()
    ensures listed { (n : Numbered) → ListsOwners n (owners_in n) }
    ensures written { (rows : Rows) (n : Numbered) (next : ℕ) (cat : Catalog) (owners : List Owner) → StandsWith rows n next cat → ListsOwners n owners
        → (key : List ℕ) → is_others key ≡ false → finite_map.get rows key ≡ put_behind (rows_of_all owners) no_put key }
    ensures told { (rows : Rows) (n : Numbered) (next : ℕ) (cat : Catalog) (owners : List Owner) → IsOf n cat → IsValid cat → IsApart n → IsBelow n next → ListsOwners n owners → Counts next (finite_map.get rows counter_key)
        → ((key : List ℕ) → is_others key ≡ false → finite_map.get rows key ≡ put_behind (rows_of_all owners) no_put key) → StandsWith rows n next cat }
    ensures again { (operations : List Operation) (rows after : Rows) (n : Numbered) (next : ℕ) (cat : Catalog) (gone owners : List Owner) → StandsWith rows n next cat → AreHad n owners
        → ((owner : Owner) → IsOne owner gone → IsOne owner owners) → Exchanges operations gone owners None → MakesOf operations rows after → after ≡ rows }
    ensures beside { (operations : List Operation) (rows after : Rows) (n : Numbered) (next : ℕ) (cat : Catalog) (gone owners : List Owner) → StandsWith rows n next cat → AreHad n owners
        → ((owner : Owner) → IsOne owner gone → IsOne owner owners) → ExchangesBeside operations gone owners None → MakesOf operations rows after
        → (key : List ℕ) → is_record key ≡ false → finite_map.get after key ≡ finite_map.get rows key }
{}
