//! What a text begins with.

ghost use Rattle.std.specs.Prelude.{◌≡◌, ◌+◌, ◌<◌, ◌≤◌, ◌∷◌, [], ◌==◌, ◌&&◌, ◌^◌, length, drop, Some, None, IfSome};
ghost use Rattle.safl_word.specs.Numerals.{is_digit};
ghost use Rattle.safl_word.specs.Runs.{IsRun};
ghost use Rattle.safl_net.specs.Names.{is_start, is_part};
ghost use Rattle.safl_verilog.specs.Tokens.{keyword_text, base_with, next_base, symbol_text};
ghost use Rattle.safl_verilog.specs.Pieces.{run, named, all_keywords, single_symbols, word_kind, closing, first_piece, first_word, first_number, one_symbol, first_symbol, first_comment};
ghost use Rattle.safl_vparse.specs.Fronts.{measured};

use crate::symbols::{keyword_of, lone_symbol, symbol_pair};
use safl_verilog::TokenKind;
use safl_word::bytes::{base_of, digits_length, is_blank, is_digit, line_length};
use safl_word::limits::NET_NAME_MAX;

/// What a text begins with: a blank or a comment, or a token, each with its length in bytes; or something else.
#[derive(Clone, Copy, Debug, PartialEq, Eq)]
pub enum Front {
    Gap(usize),
    Found(TokenKind, usize),
    Stuck,
}

/// What the text begins with.
#[tactic(auto, unfolding(safl_verilog::specs::Pieces::first_piece))]
pub fn front_of(text: &[u8]) -> Front
    requires { length text.now < 2 ^ 32 }
    ensures { result ≡ measured (first_piece text.now) }
{
    match text {
        [] => Front::Stuck,
        [first, rest @ ..] => {
            if is_blank(*first) {
                Front::Gap(1)
            } else if *first == b'/' {
                comment(rest)
            } else if is_start(*first) {
                word(text)
            } else if is_digit(10, *first) {
                number(text)
            } else {
                symbol(*first, rest)
            }
        }
    }
}

fn word(text: &[u8]) -> Front
    ensures { result ≡ measured (first_word (run is_part text.now) text.now) }
{
    let n = part_length(text);
    if n <= NET_NAME_MAX {
        Front::Found(word_kind(&text[..n]), n)
    } else {
        Front::Stuck
    }
}

fn word_kind(text: &[u8]) -> TokenKind
    ensures { result ≡ word_kind (named keyword_text all_keywords text.now) }
{
    match keyword_of(text) {
        Some(keyword) => TokenKind::Keyword(keyword),
        None => TokenKind::Identifier,
    }
}

fn number(text: &[u8]) -> Front
    requires { length text.now < 2 ^ 32 }
    ensures { result ≡ measured (first_number (next_base (drop (run (is_digit 10) text.now) text.now)) (run (is_digit 10) text.now) text.now) }
{
    let n = digits_length(10, text);
    let behind = &text[n..];
    match next_base(behind) {
        Some(base) => {
            let count = digits_length(base, &behind[2..]);
            Front::Found(TokenKind::Sized, n + (2 + count))
        }
        None => Front::Found(TokenKind::Number, n),
    }
}

// The base, if a `'`, the letter of the base and a digit come next.
fn next_base(text: &[u8]) -> Option<u8>
    ensures { result ≡ next_base text.now }
{
    match text {
        [quote, letter, digit, ..] if *quote == b'\'' => based(base_of(*letter), *digit),
        _ => None,
    }
}

fn based(base: Option<u8>, digit: u8) -> Option<u8>
    ensures { result ≡ base_with base digit }
{
    match base {
        Some(base) if is_digit(base, digit) => Some(base),
        _ => None,
    }
}

fn symbol(first: u8, rest: &[u8]) -> Front
    ensures { result ≡ measured (first_symbol first rest.now) }
{
    match rest {
        [] => single(first),
        [second, ..] => match symbol_pair(first, *second) {
            Some(symbol) => Front::Found(TokenKind::Symbol(symbol), 2),
            None => single(first),
        },
    }
}

fn single(c: u8) -> Front
    ensures { result ≡ measured (one_symbol c (named symbol_text single_symbols (c ∷ []))) }
{
    match lone_symbol(c) {
        Some(symbol) => Front::Found(TokenKind::Symbol(symbol), 1),
        None => Front::Stuck,
    }
}

// The comment whose bytes after its first `/` are these.
fn comment(rest: &[u8]) -> Front
    requires { length rest.now < 2 ^ 32 }
    ensures { result ≡ measured (first_comment rest.now) }
{
    match rest {
        [] => Front::Stuck,
        [second, inner @ ..] => {
            if *second == b'/' {
                Front::Gap(2 + line_length(inner))
            } else if *second == b'*' {
                match closing(inner) {
                    Some(n) => Front::Gap(n + 4),
                    None => Front::Stuck,
                }
            } else {
                Front::Stuck
            }
        }
    }
}

// How many bytes come before the first `*/`.
fn closing(text: &[u8]) -> Option<usize>
    ensures found { result ≡ closing text.now }
    ensures within { IfSome result (λ n. n ≤ length text.now) }
{
    for i in 1..text.len() {
        if text[i - 1] == b'*' && text[i] == b'/' {
            return Some(i - 1);
        }
    }
    None
}

// Whether a byte may begin an identifier: a letter or `_`.
fn is_start(c: u8) -> bool
    ensures { result ≡ is_start c }
{
    matches!(c, b'A'..=b'Z' | b'a'..=b'z' | b'_')
}

// Whether a byte may be in an identifier: a letter, `_`, a digit or `$`.
fn is_part(c: u8) -> bool
    ensures { result ≡ is_part c }
{
    matches!(c, b'A'..=b'Z' | b'a'..=b'z' | b'_' | b'0'..=b'9' | b'$')
}

// The length of the identifier that a text begins with, in bytes.
fn part_length(text: &[u8]) -> usize
    ensures { IsRun is_part text.now result }
{
    for (i, c) in text.iter().enumerate() {
        if !is_part(*c) {
            return i;
        }
    }
    text.len()
}
