//! Bytes of a text: blanks, digits, the letters of bases, and runs at the beginning of a text.

ghost use Rattle.std.specs.Prelude.{◌≡◌, ◌==◌, not};
ghost use Rattle.safl_word.specs.Numerals.{digit, is_digit};
ghost use Rattle.safl_word.specs.Runs.{IsRun};
ghost use Rattle.safl_word.specs.Tokens.{is_blank, base_of};

/// Whether a byte is a space, a tab, a carriage return or a line feed.
pub fn is_blank(c: u8) -> bool
    ensures { result ≡ is_blank c }
{
    matches!(c, b' ' | b'\t' | b'\r' | b'\n')
}

/// Whether a byte is a digit of the base, which is at most 16.
pub fn is_digit(base: u8, c: u8) -> bool
    ensures { result ≡ is_digit base c }
{
    match c {
        b'0'..=b'9' => c - b'0' < base,
        b'A'..=b'F' => c - b'A' + 10 < base,
        b'a'..=b'f' => c - b'a' + 10 < base,
        _ => false,
    }
}

/// The value of a digit.
pub fn digit(c: u8) -> u8
    ensures { result ≡ digit c }
{
    if c <= b'9' {
        c.saturating_sub(b'0')
    } else if c <= b'F' {
        c - 55
    } else {
        c.saturating_sub(87)
    }
}

/// The base that a letter stands for: `d` for ten, `h` for sixteen, `b` for two.
pub fn base_of(letter: u8) -> Option<u8>
    ensures { result ≡ base_of letter }
{
    match letter {
        b'd' => Some(10),
        b'h' => Some(16),
        b'b' => Some(2),
        _ => None,
    }
}

/// How many digits of the base a text begins with.
pub fn digits_length(base: u8, text: &[u8]) -> usize
    ensures { IsRun (is_digit base) text.now result }
{
    for (i, c) in text.iter().enumerate() {
        if !is_digit(base, *c) {
            return i;
        }
    }
    text.len()
}

/// How many bytes come before the first line feed, or before the end of the text.
pub fn line_length(text: &[u8]) -> usize
    ensures { IsRun (λ c. not (c == 10)) text.now result }
{
    for (i, c) in text.iter().enumerate() {
        if *c == b'\n' {
            return i;
        }
    }
    text.len()
}
