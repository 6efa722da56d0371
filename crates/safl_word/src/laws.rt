//! Laws of words, numbers and tokens, over the definitions alone.

ghost use Rattle.safl_word.specs.Laws.{GivesWords, SlicesJoin, ShiftsOut, ExtensionKeeps, DecimalCounts};
ghost use Rattle.safl_word.specs.Spacing.{SpacedReads, WritesNumbers, WritesSizes};
ghost use Rattle.safl_word.specs.TokenLaws.{TokensOnce, LexicalFaultOnce, LexicalFaultInFull, TokensOrFault};

/// A primitive on words gives a word whose width is the one in the table of widths.
pub fn primitive_law()
    ensures { GivesWords }
{}

/// The concatenation of a high and a low slice that together are a word is that word.
pub fn slices_law()
    ensures { SlicesJoin }
{}

/// A shift by the width of a word or more gives zero.
pub fn shifts_law()
    ensures { ShiftsOut }
{}

/// An extension with zeros keeps the number of a word.
pub fn extension_law()
    ensures { ExtensionKeeps }
{}

/// What `push_decimal` writes is a numeral that `argument` reads as the same number.
pub fn decimal_law()
    ensures { DecimalCounts }
{}

/// A text has at most one list of tokens.
pub fn tokens_law()
    ensures { TokensOnce }
{}

/// A text has at most one first lexical fault.
pub fn lexical_fault_law()
    ensures { LexicalFaultOnce }
{}

/// At a lexical fault begins what is no token's form, or the longest form of a token there is too long.
pub fn lexical_rule_law()
    ensures { LexicalFaultInFull }
{}

/// A text has a list of tokens exactly if it has no lexical fault.
pub fn tokens_or_fault_law()
    ensures { TokensOrFault }
{}

/// Tokens that are written with a blank after each, such as a space or a line feed, read as the same tokens.
pub fn spacing_law()
    ensures { SpacedReads }
{}

/// The decimal digits of a number read as the token of that number.
pub fn number_law()
    ensures { WritesNumbers }
{}

/// The decimal digits of a width, `'d` and the decimal digits of a value read as the token of that width and value.
pub fn size_law()
    ensures { WritesSizes }
{}
