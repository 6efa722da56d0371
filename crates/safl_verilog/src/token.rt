//! Tokens of a Verilog file.

/// A keyword: a word that cannot be a name.
#[derive(Clone, Copy, Debug, PartialEq, Eq)]
pub enum Keyword {
    Module,
    Endmodule,
    Input,
    Output,
    Reg,
    Wire,
    Assign,
    Always,
    Posedge,
    If,
    Else,
}

/// A symbol: `( ) , ; [ ] : = ~ ? { } @ + - * & | ^ == != < <= > >= << >>`, in this order.
#[derive(Clone, Copy, Debug, PartialEq, Eq)]
pub enum Symbol {
    OpenParen,
    CloseParen,
    Comma,
    Semicolon,
    OpenBracket,
    CloseBracket,
    Colon,
    Becomes,
    Tilde,
    Question,
    OpenBrace,
    CloseBrace,
    At,
    Plus,
    Minus,
    Star,
    Ampersand,
    Bar,
    Caret,
    Equal,
    NotEqual,
    Less,
    LessEqual,
    Greater,
    GreaterEqual,
    ShiftLeft,
    ShiftRight,
}

/// What a token is. A number is a run of decimal digits; a sized number has a width, a base and digits, as in `8'hff`.
#[derive(Clone, Copy, Debug, PartialEq, Eq)]
pub enum TokenKind {
    Identifier,
    Number,
    Sized,
    Keyword(Keyword),
    Symbol(Symbol),
}

/// A token: its kind, and the bytes from `start` up to `stop`.
#[derive(Clone, Copy, Debug, PartialEq, Eq)]
pub struct Token {
    pub start: u32,
    pub stop: u32,
    pub kind: TokenKind,
}

/// What a declaration declares.
#[derive(Clone, Copy, Debug, PartialEq, Eq)]
pub enum Sort {
    Input,
    Output,
    Reg,
    Wire,
}
