//! Primitives: the operators of the language.

/// An operator on words. All are unsigned; `Bits(high, low)` is a slice, and `Ext(width)` extends with zeros.
#[derive(Clone, Copy, Debug, PartialEq, Eq)]
pub enum Primitive {
    Add,
    Sub,
    Mul,
    And,
    Or,
    Xor,
    Not,
    Eq,
    Ne,
    Lt,
    Le,
    Gt,
    Ge,
    Shl,
    Shr,
    Cat,
    Bits(u8, u8),
    Ext(u8),
}
