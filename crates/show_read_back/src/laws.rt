ghost use Rattle.show_read_back.specs.Laws.{EachReadsBack};
ghost use Rattle.show_read_back.specs.ReadBack.{EachTextMakes};
ghost use Rattle.show_read_back.specs.Without.{EachIsSeenWithout};

/// The text of SHOW CREATE TABLE of a table of a valid catalog reads as a CREATE TABLE that makes an equal table, where the table
/// isn't there. It does nothing when it runs.
pub fn tables_read_back()
    ensures same { EachReadsBack }
    ensures makes { EachTextMakes }
    ensures seen { EachIsSeenWithout }
{}
