//! Lines of a text, and numbers in them.

ghost use Rattle.std.specs.Prelude.{◌≡◌, ◌+◌, ◌-◌, ◌^◌, ◌<◌, ◌≤◌, [], ◌∷◌, ◌↔◌, length, take, drop, IsSome, IfSome, IsNone};
ghost use Rattle.safl_word.specs.Numerals.{value, IsBounded};
ghost use Rattle.safl_aiger.specs.Lines.{text_lines, fields, HasNumbers, HasCount};

use safl_word::numeral;

/// Where the line that begins at `at` ends: at its line feed, or else at the end of the text.
pub fn line_end(text: &[u8], at: usize) -> usize
    requires { at < length text.now }
    ensures within { result ≤ length text.now }
    ensures after { at ≤ result }
    ensures line { text_lines (drop at text.now) ≡ take (result - at) (drop at text.now) ∷ text_lines (drop (result + 1) text.now) }
{
    let mut end = at;
    while end < text.len() && text[end] != b'\n' {
        end += 1;
    }
    end
}

// The place of the first space of a line, or else its end.
pub fn space(line: &[u8]) -> usize
    ensures within { result ≤ length line.now }
    ensures some { result < length line.now → fields line.now ≡ take result line.now ∷ fields (drop (result + 1) line.now) }
    ensures none { result ≡ length line.now → fields line.now ≡ line.now ∷ [] }
{
    let mut end = 0;
    while end < line.len() && line[end] != b' ' {
        end += 1;
    }
    end
}

// The number that a field spells.
pub fn number(field: &[u8]) -> Option<u32>
    ensures some { IsSome result ↔ IsBounded 10 10 (2 ^ 31) field.now }
    ensures value { IfSome result (λ n. n ≡ value 10 field.now) }
{
    let n = numeral(10, 10, field)?;
    if n < 2147483648 {
        return Some(n as u32);
    }
    None
}

/// The number of a line that is one number.
pub fn one_number(line: &[u8]) -> Option<u32>
    ensures some { IfSome result (λ n. HasNumbers line.now (n ∷ [])) }
    ensures none { IsNone result → ¬ (HasCount line.now 1) }
{
    if space(line) < line.len() {
        return None;
    }
    number(line)
}

/// The numbers of a line that is two numbers, with a space between them.
pub fn two_numbers(line: &[u8]) -> Option<(u32, u32)>
    ensures some { IfSome result (λ n. HasNumbers line.now (n.0 ∷ n.1 ∷ [])) }
    ensures none { IsNone result → ¬ (HasCount line.now 2) }
{
    let end = space(line);
    if end == line.len() {
        return None;
    }
    let first = number(&line[..end])?;
    let second = one_number(&line[end + 1..])?;
    Some((first, second))
}

/// The numbers of a line that is three numbers, with spaces between them.
pub fn three_numbers(line: &[u8]) -> Option<(u32, u32, u32)>
    ensures some { IfSome result (λ n. HasNumbers line.now (n.0 ∷ n.1 ∷ n.2 ∷ [])) }
    ensures none { IsNone result → ¬ (HasCount line.now 3) }
{
    let end = space(line);
    if end == line.len() {
        return None;
    }
    let first = number(&line[..end])?;
    let (second, third) = two_numbers(&line[end + 1..])?;
    Some((first, second, third))
}
