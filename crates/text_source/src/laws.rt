//! What holds of the tokens of each text.

ghost use Rattle.text_source.specs.Laws as laws;

/// Each token has an octet, begins where the one before it ends or after that, and ends in the text.
pub fn spans_rise()
    ensures { laws.SpansRise }
{}

/// Each token's span is a token of its kind in the text.
pub fn tokens_are_their_text()
    ensures { laws.TokensAreTheirText }
{}

/// Each text has a list of tokens or a fault of its tokens.
pub fn every_text()
    ensures { laws.EveryText }
{}

/// A text has at most one list of tokens.
pub fn one_reading()
    ensures { laws.OneReading }
{}

/// A text has at most one fault of its tokens.
pub fn one_fault()
    ensures { laws.OneFault }
{}

/// A text with a fault of its tokens has no list of tokens.
pub fn no_tokens_at_a_fault()
    ensures { laws.NoTokensAtAFault }
{}

/// Each token is the longest that fits: no longer front of what stands there is a token by itself.
pub fn longest()
    ensures { laws.Longest }
{}
