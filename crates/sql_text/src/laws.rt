ghost use Rattle.sql_text.specs.Laws.{EachReadsBack};

/// The canonical text of a statement that has one reads as the statement. It does nothing when it runs.
pub fn canonical_laws()
    ensures { EachReadsBack }
{}
