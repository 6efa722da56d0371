//! Keywords and symbols by their texts.

ghost use Rattle.std.specs.Prelude.{◌≡◌, ◌≢◌, [], ◌∷◌, IfSome, IfNone};
ghost use Rattle.safl_verilog.specs.Tokens.{keyword_text, symbol_text};
ghost use Rattle.safl_verilog.specs.declared.token.Keyword.{Keyword};
ghost use Rattle.safl_verilog.specs.declared.token.Symbol.{Symbol};

use safl_verilog::{Keyword, Symbol};

/// The keyword with this text, if there is one.
pub fn keyword_of(text: &[u8]) -> Option<Keyword>
    ensures some { IfSome result (λ k. text.now ≡ keyword_text k) }
    ensures none { IfNone result ((k : Keyword) → text.now ≢ keyword_text k) }
{
    match text {
        b"module" => Some(Keyword::Module),
        b"endmodule" => Some(Keyword::Endmodule),
        b"input" => Some(Keyword::Input),
        b"output" => Some(Keyword::Output),
        b"reg" => Some(Keyword::Reg),
        b"wire" => Some(Keyword::Wire),
        b"assign" => Some(Keyword::Assign),
        b"always" => Some(Keyword::Always),
        b"posedge" => Some(Keyword::Posedge),
        b"if" => Some(Keyword::If),
        b"else" => Some(Keyword::Else),
        _ => None,
    }
}

/// The symbol of this single byte, if there is one.
pub fn lone_symbol(c: u8) -> Option<Symbol>
    ensures some { IfSome result (λ s. c ∷ [] ≡ symbol_text s) }
    ensures none { IfNone result ((s : Symbol) → c ∷ [] ≢ symbol_text s) }
{
    match c {
        b'(' => Some(Symbol::OpenParen),
        b')' => Some(Symbol::CloseParen),
        b',' => Some(Symbol::Comma),
        b';' => Some(Symbol::Semicolon),
        b'[' => Some(Symbol::OpenBracket),
        b']' => Some(Symbol::CloseBracket),
        b':' => Some(Symbol::Colon),
        b'=' => Some(Symbol::Becomes),
        b'~' => Some(Symbol::Tilde),
        b'?' => Some(Symbol::Question),
        b'{' => Some(Symbol::OpenBrace),
        b'}' => Some(Symbol::CloseBrace),
        b'@' => Some(Symbol::At),
        b'+' => Some(Symbol::Plus),
        b'-' => Some(Symbol::Minus),
        b'*' => Some(Symbol::Star),
        b'&' => Some(Symbol::Ampersand),
        b'|' => Some(Symbol::Bar),
        b'^' => Some(Symbol::Caret),
        b'<' => Some(Symbol::Less),
        b'>' => Some(Symbol::Greater),
        _ => None,
    }
}

/// The symbol of these two bytes, if there is one.
pub fn symbol_pair(c: u8, d: u8) -> Option<Symbol>
    ensures some { IfSome result (λ s. c ∷ d ∷ [] ≡ symbol_text s) }
    ensures none { IfNone result ((s : Symbol) → c ∷ d ∷ [] ≢ symbol_text s) }
{
    match (c, d) {
        (b'=', b'=') => Some(Symbol::Equal),
        (b'!', b'=') => Some(Symbol::NotEqual),
        (b'<', b'=') => Some(Symbol::LessEqual),
        (b'>', b'=') => Some(Symbol::GreaterEqual),
        (b'<', b'<') => Some(Symbol::ShiftLeft),
        (b'>', b'>') => Some(Symbol::ShiftRight),
        _ => None,
    }
}
