// Laws of reading, for the layers above.
ghost use Rattle.jr_base.specs.Respelled.{RespelledReads};
ghost use Rattle.jr_lex.specs.Laws.{OneReading, SpansRise};
ghost use Rattle.jr_lex.specs.Texts.{FollowsExactly, GapFollowsExactly, NamesAreIdentifiers, SimplyFollows, TextReads};

/// Bytes have one list of tokens.
pub fn one_reading()
    ensures { OneReading }
{}

/// A text in which identifiers are spelled otherwise has the old tokens, with the chosen ones replaced and all moved.
pub fn respelled_reads()
    ensures { RespelledReads }
{}

/// The spans of a file's tokens rise, are not empty, and lie within the file.
pub fn spans_rise()
    ensures { SpansRise }
{}

/// A text put together from gaps and spellings, each before a text that may stand behind it, has just those tokens.
pub fn text_reads()
    ensures { TextReads }
{}

/// A spelling is the longest token of its kind exactly before a text that may stand behind it.
pub fn follows_exactly()
    ensures { FollowsExactly }
{}

/// A gap stays one exactly before a text that may stand behind it.
pub fn gap_follows_exactly()
    ensures { GapFollowsExactly }
{}

/// A text may stand behind a token where its first byte shows so.
pub fn simply_follows()
    ensures { SimplyFollows }
{}

/// The name of an identifier token is an identifier.
pub fn names_are_identifiers()
    ensures { NamesAreIdentifiers }
{}
