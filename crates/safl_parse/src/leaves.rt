//! Reading single tokens.

ghost use Rattle.std.specs.Prelude.{◌≡◌, [], ◌∷◌, ◌-◌, min, take, drop};
ghost use Rattle.safl_grammar.specs.Sets.{Only, within};
ghost use Rattle.safl_grammar.specs.Syntax.{Range};
ghost use Rattle.safl_grammar.specs.Reading.{head_of, read_token, read_limited};
ghost use Rattle.safl_tree.specs.Terminals.{terminals};
ghost use Rattle.safl_tree.specs.Codes.{symbol_code, code_of, comes, marked, name, number, sized, operators, primitive_of, operator};
ghost use Rattle.safl_tree.specs.Grammar.{fits_sized};
ghost use Rattle.safl_tree.specs.Reader.{read_word, read_symbol, read_width, read_index};
ghost use Rattle.safl_parse.specs.Numberless.{HasNoNumber};
ghost use Rattle.safl_parse.specs.Reads.{Reads};

use crate::error::{Cause, Read, ReadError};
use crate::parser::Parser;
use safl_tree::Name;
use safl_word::limits::WIDTH_MAX;
use safl_word::{Key, Primitive, Raw, Sym, Token, TokenKind};

/// The primitive that a symbol stands for.
fn primitive_of(symbol: Sym) -> Primitive
    ensures { result ≡ primitive_of symbol }
{
    match symbol {
        Sym::Star => Primitive::Mul,
        Sym::Minus => Primitive::Sub,
        Sym::ShiftLeft => Primitive::Shl,
        Sym::ShiftRight => Primitive::Shr,
        Sym::Equal => Primitive::Eq,
        Sym::NotEqual => Primitive::Ne,
        Sym::Less => Primitive::Lt,
        Sym::LessEqual => Primitive::Le,
        Sym::Greater => Primitive::Gt,
        Sym::GreaterEqual => Primitive::Ge,
        Sym::Ampersand => Primitive::And,
        Sym::Caret => Primitive::Xor,
        Sym::Bar => Primitive::Or,
        Sym::Tilde => Primitive::Not,
        _ => Primitive::Add,
    }
}

fn is_operator(symbol: Sym, layer: u8) -> bool
    ensures { result ≡ within (Only (operators layer)) (symbol_code symbol) }
{
    match layer {
        0 => matches!(symbol, Sym::Star),
        1 => matches!(symbol, Sym::Plus | Sym::Minus),
        2 => matches!(symbol, Sym::ShiftLeft | Sym::ShiftRight),
        3 => matches!(
            symbol,
            Sym::Equal
                | Sym::NotEqual
                | Sym::Less
                | Sym::LessEqual
                | Sym::Greater
                | Sym::GreaterEqual
        ),
        4 => matches!(symbol, Sym::Ampersand),
        5 => matches!(symbol, Sym::Caret),
        _ => matches!(symbol, Sym::Bar),
    }
}

/// Whether a token is of this kind. The kind is not that of a number.
#[tactic(auto, using(crate::proofs::KindCodes::class_of))]
fn is_of(token: &Token, kind: TokenKind) -> bool
    requires { HasNoNumber kind }
    ensures { result ≡ within (Only (code_of kind ∷ [])) (code_of token.now.kind) }
{
    token.kind == kind
}

impl<'s> Parser<'s> {
    /// Whether a token of this kind comes next. The kind is not that of a number.
    pub fn comes(&self, tokens: &[Token], kind: TokenKind) -> bool
        requires { HasNoNumber kind }
        ensures { result ≡ comes (code_of kind ∷ []) (head_of (terminals self.now.text.now tokens.now)) }
    {
        match tokens {
            [] => false,
            [first, ..] => is_of(first, kind),
        }
    }

    /// Reads a token of this kind. Returns its place.
    fn of_kind<'a>(&self, tokens: &'a [Token], kind: TokenKind) -> Read<'a, u32>
        requires { HasNoNumber kind }
        ensures { Reads self.now tokens.now (λ x. (x.0, x.1.now)) result (read_token (marked (code_of kind))) }
    {
        match tokens {
            [first, rest @ ..] if is_of(first, kind) => Ok((first.start, rest)),
            _ => Err(ReadError::Refused(Cause::Unexpected, tokens)),
        }
    }

    /// Reads a keyword. Returns its place.
    pub fn word<'a>(&self, tokens: &'a [Token], key: Key) -> Read<'a, u32>
        ensures { Reads self.now tokens.now (λ x. (x.0, x.1.now)) result (read_word key) }
    {
        self.of_kind(tokens, TokenKind::Key(key))
    }

    /// Reads a symbol. Returns its place.
    pub fn symbol<'a>(&self, tokens: &'a [Token], symbol: Sym) -> Read<'a, u32>
        ensures { Reads self.now tokens.now (λ x. (x.0, x.1.now)) result (read_symbol symbol) }
    {
        self.of_kind(tokens, TokenKind::Sym(symbol))
    }

    /// The bytes of a token, as far as the source has them.
    fn bytes_of(&self, token: &Token) -> &'s [u8]
        ensures { result.now ≡ take (token.now.stop - token.now.start) (drop token.now.start self.now.text.now) }
    {
        let stop = (token.stop as usize).min(self.text.len());
        let start = (token.start as usize).min(stop);
        &self.text[start..stop]
    }

    /// Reads a name. Returns its place and the name.
    pub fn name<'a>(&self, tokens: &'a [Token]) -> Read<'a, (u32, Name)>
        ensures { Reads self.now tokens.now (λ x. (record { place = x.0.0; name = x.0.1 }, x.1.now)) result (read_token name) }
    {
        match tokens {
            [first, rest @ ..] if is_of(first, TokenKind::Name) => {
                let name = Name::new(self.alloc, self.bytes_of(first))?;
                Ok(((first.start, name), rest))
            }
            _ => Err(ReadError::Refused(Cause::Unexpected, tokens)),
        }
    }

    /// Whether a number comes next.
    pub fn comes_number(&self, tokens: &[Token]) -> bool
        ensures { result ≡ comes (2 ∷ []) (head_of (terminals self.now.text.now tokens.now)) }
    {
        match tokens {
            [] => false,
            [first, ..] => matches!(first.kind, TokenKind::Num(_)),
        }
    }

    /// Whether a sized number comes next.
    pub fn comes_sized(&self, tokens: &[Token]) -> bool
        ensures { result ≡ comes (3 ∷ []) (head_of (terminals self.now.text.now tokens.now)) }
    {
        match tokens {
            [] => false,
            [first, ..] => matches!(first.kind, TokenKind::Sized(_, _)),
        }
    }

    /// Reads a number. Returns its place and its value.
    pub fn number<'a>(&self, tokens: &'a [Token]) -> Read<'a, (u32, Raw)>
        ensures { Reads self.now tokens.now (λ x. (record { place = x.0.0; value = x.0.1 }, x.1.now)) result (read_token number) }
    {
        match tokens {
            [
                Token {
                    start,
                    kind: TokenKind::Num(value),
                    ..
                },
                rest @ ..,
            ] => Ok(((*start, *value), rest)),
            _ => Err(ReadError::Refused(Cause::Unexpected, tokens)),
        }
    }

    /// Reads a width, from 1 to the greatest width. Returns its place and its value.
    pub fn width<'a>(&self, tokens: &'a [Token]) -> Read<'a, (u32, u8)>
        ensures { Reads self.now tokens.now (λ x. (record { place = x.0.0; value = x.0.1 }, x.1.now)) result read_width }
    {
        let ((place, width), rest) = self.number(tokens)?;
        if width < 1 || (WIDTH_MAX as Raw) < width {
            return Err(ReadError::Refused(Cause::Range, tokens));
        }
        Ok(((place, width as u8), rest))
    }

    /// Reads the number of a bit, which is below the greatest width. Returns its place and its value.
    pub fn index<'a>(&self, tokens: &'a [Token]) -> Read<'a, (u32, u8)>
        ensures { Reads self.now tokens.now (λ x. (record { place = x.0.0; value = x.0.1 }, x.1.now)) result read_index }
    {
        let ((place, index), rest) = self.number(tokens)?;
        if (WIDTH_MAX as Raw) <= index {
            return Err(ReadError::Refused(Cause::Range, tokens));
        }
        Ok(((place, index as u8), rest))
    }

    /// Reads a sized number. Returns its place, its width, from 1 to the greatest width, and its value.
    pub fn sized<'a>(&self, tokens: &'a [Token]) -> Read<'a, (u32, u8, Raw)>
        ensures { Reads self.now tokens.now (λ x. (record { place = x.0.0; width = x.0.1; value = x.0.2 }, x.1.now)) result
            (read_limited Range fits_sized sized) }
    {
        match tokens {
            [
                Token {
                    start,
                    kind: TokenKind::Sized(width, value),
                    ..
                },
                rest @ ..,
            ] => {
                if *width < 1 || (WIDTH_MAX as Raw) < *width {
                    return Err(ReadError::Refused(Cause::Range, tokens));
                }
                Ok(((*start, *width as u8, *value), rest))
            }
            _ => Err(ReadError::Refused(Cause::Unexpected, tokens)),
        }
    }

    /// Whether an operator of this layer comes next.
    pub fn comes_operator(&self, tokens: &[Token], layer: u8) -> bool
        ensures { result ≡ comes (operators layer) (head_of (terminals self.now.text.now tokens.now)) }
    {
        match tokens {
            [
                Token {
                    kind: TokenKind::Sym(symbol),
                    ..
                },
                ..
            ] => is_operator(*symbol, layer),
            _ => false,
        }
    }

    /// Reads an operator of this layer.
    pub fn operator<'a>(&self, tokens: &'a [Token], layer: u8) -> Read<'a, Primitive>
        ensures { Reads self.now tokens.now (λ x. (x.0, x.1.now)) result (read_token (operator layer)) }
    {
        match tokens {
            [
                Token {
                    kind: TokenKind::Sym(symbol),
                    ..
                },
                rest @ ..,
            ] if is_operator(*symbol, layer) => Ok((primitive_of(*symbol), rest)),
            _ => Err(ReadError::Refused(Cause::Unexpected, tokens)),
        }
    }
}
