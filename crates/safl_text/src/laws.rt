//! Laws of tokens, over the definitions alone.

ghost use Rattle.safl_text.specs.Spans.{TokensJoined};

/// The tokens of a text and the blanks and comments between them, joined in order, are the text.
pub fn tokens_joined_law()
    ensures { TokensJoined }
{}
