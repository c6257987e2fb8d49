ghost use Rattle.sql_pieces.specs.Laws.{ApartReadBack, SpacedReadBack, NumbersReadBack, StringsReadBack};

/// What is written in pieces is read as those pieces, where they are apart; a number's digits have its value, and a string
/// with its escapes means the string. It does nothing when it runs.
pub fn piece_laws()
    ensures apart { ApartReadBack }
    ensures spaced { SpacedReadBack }
    ensures numbers { NumbersReadBack }
    ensures strings { StringsReadBack }
{}
