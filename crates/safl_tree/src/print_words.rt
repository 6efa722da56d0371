//! Printing single tokens, each followed by a space.

ghost use Rattle.std.specs.Prelude.{◌≡◌, [], ◌∷◌, ◌++◌, OnOk};
ghost use Rattle.safl_word.specs.Operators.{symbol_of};
ghost use Rattle.safl_tree.specs.Printed.{Writes, key, sym, name, number_word, sized};

use crate::Name;
use safl_word::{Key, NoMemory, Primitive, Raw, Sym, push_decimal};

fn push_text(text: &[u8], out: &mut Vec<u8>) -> Result<(), NoMemory>
    ensures { OnOk result (out.new.items ≡ out.old.items ++ (32 ∷ text.now)) }
{
    out.push(b' ')?;
    out.extend_from_slice(text)?;
    Ok(())
}

pub(crate) fn push_key(k: Key, out: &mut Vec<u8>) -> Result<(), NoMemory>
    ensures { OnOk result (Writes out.old.items out.new.items (key k ∷ [])) }
{
    push_text(k.text().as_bytes(), out)
}

pub(crate) fn push_sym(s: Sym, out: &mut Vec<u8>) -> Result<(), NoMemory>
    ensures { OnOk result (Writes out.old.items out.new.items (sym s ∷ [])) }
{
    push_text(s.text().as_bytes(), out)
}

pub(crate) fn push_name(x: &Name, out: &mut Vec<u8>) -> Result<(), NoMemory>
    ensures { OnOk result (Writes out.old.items out.new.items (name x.now ∷ [])) }
{
    push_text(x.bytes(), out)
}

pub(crate) fn push_number(n: Raw, out: &mut Vec<u8>) -> Result<(), NoMemory>
    ensures { OnOk result (Writes out.old.items out.new.items (number_word n ∷ [])) }
{
    out.push(b' ')?;
    push_decimal(n, out)
}

pub(crate) fn push_sized(width: u8, n: Raw, out: &mut Vec<u8>) -> Result<(), NoMemory>
    ensures { OnOk result (Writes out.old.items out.new.items (sized width n ∷ [])) }
{
    out.push(b' ')?;
    push_decimal(Raw::from(width), out)?;
    out.extend_from_slice(b"'d")?;
    push_decimal(n, out)
}

/// The symbol of an operator. It is `~` for operators that are not written as a symbol before or between operands.
pub(crate) fn symbol_of(p: Primitive) -> Sym
    ensures { result ≡ symbol_of p }
{
    match p {
        Primitive::Mul => Sym::Star,
        Primitive::Add => Sym::Plus,
        Primitive::Sub => Sym::Minus,
        Primitive::Shl => Sym::ShiftLeft,
        Primitive::Shr => Sym::ShiftRight,
        Primitive::Eq => Sym::Equal,
        Primitive::Ne => Sym::NotEqual,
        Primitive::Lt => Sym::Less,
        Primitive::Le => Sym::LessEqual,
        Primitive::Gt => Sym::Greater,
        Primitive::Ge => Sym::GreaterEqual,
        Primitive::And => Sym::Ampersand,
        Primitive::Xor => Sym::Caret,
        Primitive::Or => Sym::Bar,
        _ => Sym::Tilde,
    }
}
