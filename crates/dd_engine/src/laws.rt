ghost use Rattle.std.specs.Prelude.{List};
ghost use Rattle.dd_catalog.specs.Catalog.{Catalog};
ghost use Rattle.dd_catalog.specs.Valid.{IsValid};
ghost use Rattle.dd_engine.specs.declared.history.Entry.{Entry};
ghost use Rattle.dd_engine.specs.History.{AllSayNames, LegalHistory, after_all};

/// A legal history whose statements say names leaves a valid catalog where it begins with one. It does nothing when it runs.
pub fn histories_keep_validity()
    ensures kept { (base : Catalog) (history : List Entry) → IsValid base → LegalHistory base history → AllSayNames history → IsValid (after_all base history) }
{}
