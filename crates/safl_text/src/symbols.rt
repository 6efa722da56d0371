//! Keywords and symbols by their texts.

ghost use Rattle.std.specs.Prelude.{◌≡◌, ◌≢◌, ◌<◌, [], ◌∷◌, IfSome, IfNone};
ghost use Rattle.safl_word.specs.Tokens.{key_text, sym_text};
ghost use Rattle.safl_word.specs.declared.token.Key.{Key};
ghost use Rattle.safl_word.specs.declared.token.Sym.{Sym};

use safl_word::{Key, Sym};

/// The keyword with this text, if there is one.
pub fn key_of(text: &[u8]) -> Option<Key>
    ensures some { IfSome result (λ k. text.now ≡ key_text k) }
    ensures none { IfNone result ((k : Key) → text.now ≢ key_text k) }
{
    match text {
        b"fun" => Some(Key::Fun),
        b"if" => Some(Key::If),
        b"then" => Some(Key::Then),
        b"else" => Some(Key::Else),
        b"let" => Some(Key::Let),
        b"in" => Some(Key::In),
        b"case" => Some(Key::Case),
        b"default" => Some(Key::Default),
        b"cat" => Some(Key::Cat),
        b"bits" => Some(Key::Bits),
        b"ext" => Some(Key::Ext),
        b"and" => Some(Key::And),
        _ => None,
    }
}

/// The symbol of this single byte, if there is one.
pub fn lone_symbol(c: u8) -> Option<Sym>
    ensures some { IfSome result (λ s. c ∷ [] ≡ sym_text s) }
    ensures none { IfNone result ((s : Sym) → c ∷ [] ≢ sym_text s) }
{
    match c {
        b'(' => Some(Sym::OpenParen),
        b')' => Some(Sym::CloseParen),
        b'{' => Some(Sym::OpenBrace),
        b'}' => Some(Sym::CloseBrace),
        b',' => Some(Sym::Comma),
        b':' => Some(Sym::Colon),
        b';' => Some(Sym::Semicolon),
        b'=' => Some(Sym::Assign),
        b'<' => Some(Sym::Less),
        b'>' => Some(Sym::Greater),
        b'+' => Some(Sym::Plus),
        b'-' => Some(Sym::Minus),
        b'*' => Some(Sym::Star),
        b'&' => Some(Sym::Ampersand),
        b'|' => Some(Sym::Bar),
        b'^' => Some(Sym::Caret),
        b'~' => Some(Sym::Tilde),
        _ => None,
    }
}

/// The symbol of these two bytes, if there is one.
pub fn symbol_pair(c: u8, d: u8) -> Option<Sym>
    ensures some { IfSome result (λ s. c ∷ d ∷ [] ≡ sym_text s) }
    ensures none { IfNone result ((s : Sym) → c ∷ d ∷ [] ≢ sym_text s) }
{
    match (c, d) {
        (b'=', b'>') => Some(Sym::Arrow),
        (b'=', b'=') => Some(Sym::Equal),
        (b'!', b'=') => Some(Sym::NotEqual),
        (b'<', b'=') => Some(Sym::LessEqual),
        (b'>', b'=') => Some(Sym::GreaterEqual),
        (b'<', b'<') => Some(Sym::ShiftLeft),
        (b'>', b'>') => Some(Sym::ShiftRight),
        _ => None,
    }
}
