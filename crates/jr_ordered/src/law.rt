// The laws of tokens.
ghost use Rattle.jr_ordered.specs.Lexed.{TokensStandApart, UnitsHaveTokensApart};

/// The tokens of a text stand apart, and are no more than its bytes.
pub fn tokens_stand_apart()
    ensures { TokensStandApart }
{}

/// The tokens of units that files read as stand apart and are not too many, where two files of a prelude are there and none is too large.
pub fn units_have_tokens_apart()
    ensures { UnitsHaveTokensApart }
{}
