//! Reading single tokens.

ghost use Rattle.std.specs.Prelude.{◌≡◌, [], ◌∷◌, Some, None, if◌then◌else◌};
ghost use Rattle.safl_grammar.specs.Sets.{Only, within};
ghost use Rattle.safl_grammar.specs.Reading.{head_of};
ghost use Rattle.safl_verilog.specs.Codes.{keyword_code, symbol_code, code_of, operators, primitive_of, primitive_in, sort_of, sort_in, sort_codes};
ghost use Rattle.safl_verilog.specs.Reader.{comes, read_code, read_word, read_symbol, read_operator, read_sort};
ghost use Rattle.safl_vparse.specs.Shown.{shown_all};
ghost use Rattle.safl_vparse.specs.Reads.{ReadsSpot, ReadsOperator, ReadsSort};
ghost use Rattle.safl_vparse.specs.declared.parser.ReadError.TheVariants as errors;

use crate::file::Span;
use safl_verilog::{Keyword, Sort, Symbol, Token, TokenKind};
use safl_word::Primitive;
use std::alloc::{AllocError, AllocFailed, Global};

/// The parser of a text: the text's bytes, and the allocator.
#[derive(Clone, Copy, Debug)]
pub struct Parser<'s> {
    pub alloc: Global,
    pub text: &'s [u8],
}

/// Memory ran out, or the first of these tokens is unexpected. If there are none, the end of the text is.
#[derive(Debug, Drop)]
pub enum ReadError<'a> {
    NoMemory,
    Unexpected(&'a [Token]),
}

/// What some tokens begin with and the tokens after it, or why they cannot be read.
pub type Read<'a, T> = Result<(T, &'a [Token]), ReadError<'a>>;

impl<'a> From<AllocError> for ReadError<'a> {
    ghost from_gives = { λ _ e. e ≡ errors.NoMemory };

    fn from(_e: AllocError) -> ReadError<'a> {
        ReadError::NoMemory
    }
}

impl<'a, T: Drop> From<AllocFailed<T>> for ReadError<'a> {
    ghost from_gives = { λ _ e. e ≡ errors.NoMemory };

    fn from(_e: AllocFailed<T>) -> ReadError<'a> {
        ReadError::NoMemory
    }
}

// The operator with this symbol between two operands.
fn operator_of(symbol: Symbol) -> Option<Primitive>
    ensures { result ≡ (if within (Only operators) (symbol_code symbol) then Some (primitive_of symbol) else None) }
{
    match symbol {
        Symbol::Plus => Some(Primitive::Add),
        Symbol::Minus => Some(Primitive::Sub),
        Symbol::Star => Some(Primitive::Mul),
        Symbol::Ampersand => Some(Primitive::And),
        Symbol::Bar => Some(Primitive::Or),
        Symbol::Caret => Some(Primitive::Xor),
        Symbol::Equal => Some(Primitive::Eq),
        Symbol::NotEqual => Some(Primitive::Ne),
        Symbol::Less => Some(Primitive::Lt),
        Symbol::LessEqual => Some(Primitive::Le),
        Symbol::Greater => Some(Primitive::Gt),
        Symbol::GreaterEqual => Some(Primitive::Ge),
        Symbol::ShiftLeft => Some(Primitive::Shl),
        Symbol::ShiftRight => Some(Primitive::Shr),
        _ => None,
    }
}

fn operator_in(kind: TokenKind) -> Option<Primitive>
    ensures { result ≡ (if within (Only operators) (code_of kind) then Some (primitive_in kind) else None) }
{
    match kind {
        TokenKind::Symbol(symbol) => operator_of(symbol),
        _ => None,
    }
}

// What the keyword of a declaration declares.
fn sort_of(keyword: Keyword) -> Option<Sort>
    ensures { result ≡ (if within (Only sort_codes) (keyword_code keyword) then Some (sort_of keyword) else None) }
{
    match keyword {
        Keyword::Input => Some(Sort::Input),
        Keyword::Output => Some(Sort::Output),
        Keyword::Reg => Some(Sort::Reg),
        Keyword::Wire => Some(Sort::Wire),
        _ => None,
    }
}

fn sort_in(kind: TokenKind) -> Option<Sort>
    ensures { result ≡ (if within (Only sort_codes) (code_of kind) then Some (sort_in kind) else None) }
{
    match kind {
        TokenKind::Keyword(keyword) => sort_of(keyword),
        _ => None,
    }
}

fn span(token: &Token) -> Span
    ensures { result ≡ record { start = token.now.start; stop = token.now.stop } }
{
    Span {
        start: token.start,
        stop: token.stop,
    }
}

#[tactic(auto, using(crate::proofs::KindCodes::class_of))]
fn is_of(token: &Token, kind: TokenKind) -> bool
    ensures { result ≡ within (Only (code_of kind ∷ [])) (code_of token.now.kind) }
{
    token.kind == kind
}

impl<'s> Parser<'s> {
    /// Whether a token of this kind comes next.
    pub fn comes(&self, tokens: &[Token], kind: TokenKind) -> bool
        ensures { result ≡ comes (code_of kind ∷ []) (head_of (shown_all self.now.text.now tokens.now)) }
    {
        match tokens {
            [] => false,
            [first, ..] => is_of(first, kind),
        }
    }

    /// Whether an operator comes next.
    pub fn comes_operator(&self, tokens: &[Token]) -> bool
        ensures { result ≡ comes operators (head_of (shown_all self.now.text.now tokens.now)) }
    {
        match tokens {
            [] => false,
            [first, ..] => operator_in(first.kind).is_some(),
        }
    }

    /// Whether a declaration comes next.
    pub fn comes_declaration(&self, tokens: &[Token]) -> bool
        ensures { result ≡ comes sort_codes (head_of (shown_all self.now.text.now tokens.now)) }
    {
        match tokens {
            [] => false,
            [first, ..] => sort_in(first.kind).is_some(),
        }
    }

    /// Whether a statement comes next.
    pub fn comes_statement(&self, tokens: &[Token]) -> bool
        ensures { result ≡ comes (10 ∷ 11 ∷ []) (head_of (shown_all self.now.text.now tokens.now)) }
    {
        self.comes(tokens, TokenKind::Keyword(Keyword::Assign))
            || self.comes(tokens, TokenKind::Keyword(Keyword::Always))
    }

    // Reads a token of this kind. Returns its bytes.
    fn of_kind<'a>(&self, tokens: &'a [Token], kind: TokenKind) -> Read<'a, Span>
        ensures { ReadsSpot self.now tokens.now result (read_code (code_of kind)) }
    {
        match tokens {
            [first, rest @ ..] if is_of(first, kind) => Ok((span(first), rest)),
            _ => Err(ReadError::Unexpected(tokens)),
        }
    }

    /// Reads a keyword.
    pub fn word<'a>(&self, tokens: &'a [Token], keyword: Keyword) -> Read<'a, Span>
        ensures { ReadsSpot self.now tokens.now result (read_word keyword) }
    {
        self.of_kind(tokens, TokenKind::Keyword(keyword))
    }

    /// Reads a symbol.
    pub fn symbol<'a>(&self, tokens: &'a [Token], symbol: Symbol) -> Read<'a, Span>
        ensures { ReadsSpot self.now tokens.now result (read_symbol symbol) }
    {
        self.of_kind(tokens, TokenKind::Symbol(symbol))
    }

    /// Reads an identifier.
    pub fn identifier<'a>(&self, tokens: &'a [Token]) -> Read<'a, Span>
        ensures { ReadsSpot self.now tokens.now result (read_code 1) }
    {
        self.of_kind(tokens, TokenKind::Identifier)
    }

    /// Reads a number.
    pub fn number<'a>(&self, tokens: &'a [Token]) -> Read<'a, Span>
        ensures { ReadsSpot self.now tokens.now result (read_code 2) }
    {
        self.of_kind(tokens, TokenKind::Number)
    }

    /// Reads a sized number.
    pub fn literal<'a>(&self, tokens: &'a [Token]) -> Read<'a, Span>
        ensures { ReadsSpot self.now tokens.now result (read_code 3) }
    {
        self.of_kind(tokens, TokenKind::Sized)
    }

    /// Reads an operator.
    pub fn operator<'a>(&self, tokens: &'a [Token]) -> Read<'a, Primitive>
        ensures { ReadsOperator self.now tokens.now result read_operator }
    {
        match tokens {
            [first, rest @ ..] => match operator_in(first.kind) {
                Some(operator) => Ok((operator, rest)),
                None => Err(ReadError::Unexpected(tokens)),
            },
            [] => Err(ReadError::Unexpected(tokens)),
        }
    }

    /// Reads the keyword of a declaration.
    pub fn sort<'a>(&self, tokens: &'a [Token]) -> Read<'a, Sort>
        ensures { ReadsSort self.now tokens.now result read_sort }
    {
        match tokens {
            [first, rest @ ..] => match sort_in(first.kind) {
                Some(sort) => Ok((sort, rest)),
                None => Err(ReadError::Unexpected(tokens)),
            },
            [] => Err(ReadError::Unexpected(tokens)),
        }
    }
}
