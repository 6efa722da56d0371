//! Tokens of a source.

ghost use Rattle.std.specs.Prelude.{◌≡◌};
ghost use Rattle.safl_word.specs.Tokens.{key_text, sym_text};

use crate::word::Raw;

/// A keyword: a word that cannot be a name. They are `fun if then else let in case default cat bits ext and`.
#[derive(Clone, Copy, Debug, PartialEq, Eq)]
pub enum Key {
    Fun,
    If,
    Then,
    Else,
    Let,
    In,
    Case,
    Default,
    Cat,
    Bits,
    Ext,
    And,
}

/// A symbol: `( ) { } , : ; = => == != < <= > >= << >> + - * & | ^ ~`, in this order.
#[derive(Clone, Copy, Debug, PartialEq, Eq)]
pub enum Sym {
    OpenParen,
    CloseParen,
    OpenBrace,
    CloseBrace,
    Comma,
    Colon,
    Semicolon,
    Assign,
    Arrow,
    Equal,
    NotEqual,
    Less,
    LessEqual,
    Greater,
    GreaterEqual,
    ShiftLeft,
    ShiftRight,
    Plus,
    Minus,
    Star,
    Ampersand,
    Bar,
    Caret,
    Tilde,
}

/// What a token is: a name, a number, a sized number with its width and value, as in `8'hff`, a keyword or a symbol.
#[derive(Clone, Copy, Debug, PartialEq, Eq)]
pub enum TokenKind {
    Name,
    Num(Raw),
    Sized(Raw, Raw),
    Key(Key),
    Sym(Sym),
}

/// A token: its kind, and the source's bytes from `start` up to `stop`.
#[derive(Clone, Copy, Debug, PartialEq, Eq)]
pub struct Token {
    pub start: u32,
    pub stop: u32,
    pub kind: TokenKind,
}

impl Key {
    /// The text of the keyword.
    pub fn text(self) -> &'static str
        ensures { result.now ≡ key_text self }
    {
        match self {
            Key::Fun => "fun",
            Key::If => "if",
            Key::Then => "then",
            Key::Else => "else",
            Key::Let => "let",
            Key::In => "in",
            Key::Case => "case",
            Key::Default => "default",
            Key::Cat => "cat",
            Key::Bits => "bits",
            Key::Ext => "ext",
            Key::And => "and",
        }
    }
}

impl Sym {
    /// The text of the symbol.
    pub fn text(self) -> &'static str
        ensures { result.now ≡ sym_text self }
    {
        match self {
            Sym::OpenParen => "(",
            Sym::CloseParen => ")",
            Sym::OpenBrace => "{",
            Sym::CloseBrace => "}",
            Sym::Comma => ",",
            Sym::Colon => ":",
            Sym::Semicolon => ";",
            Sym::Assign => "=",
            Sym::Arrow => "=>",
            Sym::Equal => "==",
            Sym::NotEqual => "!=",
            Sym::Less => "<",
            Sym::LessEqual => "<=",
            Sym::Greater => ">",
            Sym::GreaterEqual => ">=",
            Sym::ShiftLeft => "<<",
            Sym::ShiftRight => ">>",
            Sym::Plus => "+",
            Sym::Minus => "-",
            Sym::Star => "*",
            Sym::Ampersand => "&",
            Sym::Bar => "|",
            Sym::Caret => "^",
            Sym::Tilde => "~",
        }
    }
}
