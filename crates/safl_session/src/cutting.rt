//! Cutting a text into pieces.

ghost use Rattle.std.specs.Prelude.{◌==◌, not, IfNone, IfSome};
ghost use Rattle.safl_word.specs.Runs.{IsRun};
ghost use Rattle.safl_session.specs.Pieces.{IsCut, Blank, StartsWith};

/// The piece of a text before the first byte `end`, and what follows that byte. If there is no such byte, all of the
/// text and nothing.
pub fn cut(text: &[u8], end: u8) -> (&[u8], &[u8])
    ensures { IsCut end text.now result.0.now result.1.now }
{
    let length = piece_length(text, end);
    if length < text.len() {
        (&text[..length], &text[length + 1..])
    } else {
        (text, &[])
    }
}

// How many bytes come before the first byte `end`, or before the end of the text.
fn piece_length(text: &[u8], end: u8) -> usize
    ensures { IsRun (λ c. not (c == end)) text.now result }
{
    for (i, c) in text.iter().enumerate() {
        if *c == end {
            return i;
        }
    }
    text.len()
}

/// The first word of a text, and what follows the space after it. None if the text has only spaces.
pub fn next_word(text: &[u8]) -> Option<(&[u8], &[u8])>
    ensures none { IfNone result (Blank text.now) }
    ensures some { IfSome result (λ r. StartsWith text.now r.0.now r.1.now) }
{
    let rest = &text[spaces_length(text)..];
    if rest.is_empty() {
        return None;
    }
    Some(cut(rest, b' '))
}

// How many spaces the text begins with.
fn spaces_length(text: &[u8]) -> usize
    ensures { IsRun (λ c. c == 32) text.now result }
{
    for (i, c) in text.iter().enumerate() {
        if *c != b' ' {
            return i;
        }
    }
    text.len()
}
