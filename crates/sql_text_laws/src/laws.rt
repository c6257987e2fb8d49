ghost use Rattle.sql_text_laws.specs.Laws.{EachReadIsSpellable};

/// Each statement that some text in the grammar reads as has a canonical text. It does nothing when it runs.
pub fn what_is_read_is_spellable()
    ensures { EachReadIsSpellable }
{}
