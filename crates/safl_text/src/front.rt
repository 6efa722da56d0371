//! What a text begins with.

ghost use Rattle.std.specs.Prelude.{◌≡◌, ◌+◌, ◌<◌, ◌≤◌, ◌==◌, length, take, drop, slice_index, true, false, IfSome, IfNone};
ghost use Rattle.safl_word.specs.Numerals.{is_digit};
ghost use Rattle.safl_word.specs.Runs.{IsRun};
ghost use Rattle.safl_word.specs.Tokens.{begins_name, in_name, sym_text};
ghost use Rattle.safl_text.specs.Fronts.{HasSize, HasNoSize, HasNoPair, IsOther, begins_comment, Begins};

use crate::symbols::{key_of, lone_symbol, symbol_pair};
use safl_word::bytes::{base_of, digits_length, is_blank, is_digit, line_length};
use safl_word::limits::{DIGITS_MAX, NAME_MAX};
use safl_word::{Rule, Sym, TokenKind, numeral};

/// What a text begins with: a blank or a comment, or a token, each with its length in bytes; or a fault.
#[derive(Clone, Copy, Debug, PartialEq, Eq)]
pub enum Front {
    Gap(usize),
    Found(TokenKind, usize),
    Broken(Rule),
}

/// What the text begins with.
pub fn front_of(text: &[u8]) -> Front
    requires { 0 < length text.now }
    ensures { Begins text.now result }
{
    let first = text[0];
    if is_blank(first) {
        Front::Gap(1)
    } else if begins_name(first) {
        name_or_key(text)
    } else if is_digit(10, first) {
        number(text)
    } else if begins_comment(text) {
        comment(text)
    } else {
        symbol(text)
    }
}

fn name_or_key(text: &[u8]) -> Front
    requires some { 0 < length text.now }
    requires begins { begins_name (slice_index text.now 0) ≡ true }
    ensures { Begins text.now result }
{
    let n = name_length(text);
    match key_of(&text[..n]) {
        Some(key) => Front::Found(TokenKind::Key(key), n),
        None if n <= NAME_MAX => Front::Found(TokenKind::Name, n),
        None => Front::Broken(Rule::E03),
    }
}

fn number(text: &[u8]) -> Front
    requires some { 0 < length text.now }
    requires begins { is_digit 10 (slice_index text.now 0) ≡ true }
    ensures { Begins text.now result }
{
    let n = digits_length(10, text);
    match size_of(&text[n..]) {
        Some((base, count)) => sized_number(text, n, base, count),
        None => plain_number(text, n),
    }
}

// The base of the digits after a `'` and a letter, and the number of these digits.
fn size_of(text: &[u8]) -> Option<(u8, usize)>
    ensures some { IfSome result (λ s. HasSize text.now s.0 s.1) }
    ensures none { IfNone result (HasNoSize text.now) }
{
    match text {
        [b'\'', letter, digits @ ..] => {
            let base = base_of(*letter)?;
            let count = digits_length(base, digits);
            if count == 0 {
                None
            } else {
                Some((base, count))
            }
        }
        _ => None,
    }
}

fn plain_number(text: &[u8], n: usize) -> Front
    requires some { 1 ≤ n }
    requires run { IsRun (is_digit 10) text.now n }
    requires alone { HasNoSize (drop n text.now) }
    ensures { Begins text.now result }
{
    match numeral(10, DIGITS_MAX, &text[..n]) {
        Some(value) => Front::Found(TokenKind::Num(value), n),
        None => Front::Broken(Rule::E03),
    }
}

fn sized_number(text: &[u8], n: usize, base: u8, count: usize) -> Front
    requires some { 1 ≤ n }
    requires run { IsRun (is_digit 10) text.now n }
    requires size { HasSize (drop n text.now) base count }
    ensures { Begins text.now result }
{
    let (width, behind) = text.split_at(n);
    let value = numeral(base, DIGITS_MAX, &behind[2..2 + count]);
    match (numeral(10, DIGITS_MAX, width), value) {
        (Some(width), Some(value)) => Front::Found(TokenKind::Sized(width, value), n + 2 + count),
        _ => Front::Broken(Rule::E03),
    }
}

fn begins_comment(text: &[u8]) -> bool
    ensures { result ≡ begins_comment text.now }
{
    match text {
        [first, second, ..] => *first == b'/' && *second == b'/',
        _ => false,
    }
}

fn comment(text: &[u8]) -> Front
    requires { begins_comment text.now ≡ true }
    ensures { Begins text.now result }
{
    Front::Gap(2 + line_length(&text[2..]))
}

fn symbol(text: &[u8]) -> Front
    requires other { IsOther text.now }
    requires no_comment { begins_comment text.now ≡ false }
    ensures { Begins text.now result }
{
    match pair_at(text) {
        Some(symbol) => Front::Found(TokenKind::Sym(symbol), 2),
        None => match lone_symbol(text[0]) {
            Some(symbol) => Front::Found(TokenKind::Sym(symbol), 1),
            None => Front::Broken(Rule::E01),
        },
    }
}

// The symbol of the first two bytes, if they are one.
fn pair_at(text: &[u8]) -> Option<Sym>
    ensures some { IfSome result (λ s. (2 ≤ length text.now) × (take 2 text.now ≡ sym_text s)) }
    ensures none { IfNone result (HasNoPair text.now) }
{
    match text {
        [first, second, ..] => symbol_pair(*first, *second),
        _ => None,
    }
}

// Whether a byte may begin a name: a letter or `_`.
fn begins_name(c: u8) -> bool
    ensures { result ≡ begins_name c }
{
    matches!(c, b'A'..=b'Z' | b'a'..=b'z' | b'_')
}

// Whether a byte may be in a name: a letter, a digit or `_`.
fn in_name(c: u8) -> bool
    ensures { result ≡ in_name c }
{
    matches!(c, b'A'..=b'Z' | b'a'..=b'z' | b'_' | b'0'..=b'9')
}

// The length of the name that a text begins with, in bytes.
fn name_length(text: &[u8]) -> usize
    ensures { IsRun in_name text.now result }
{
    for (i, c) in text.iter().enumerate() {
        if !in_name(*c) {
            return i;
        }
    }
    text.len()
}
