ghost use Rattle.show_text_laws.specs.Laws.{EachTextIsWritten, EachTextReads};

/// The text of SHOW CREATE TABLE is written from its pieces. It does nothing when it runs.
pub fn text_is_pieces()
    ensures { EachTextIsWritten }
{}

/// The text of SHOW CREATE TABLE of a table that fits together reads as the statement that it says. It does nothing when it runs.
pub fn text_reads()
    ensures { EachTextReads }
{}
