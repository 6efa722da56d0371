//! The text of a wire's cell.

ghost use Rattle.std.specs.Prelude.{◌≡◌, ◌++◌, ◌<◌, length, OnOk, All};
ghost use Rattle.safl_net.specs.Making.{name_at, numbers};
ghost use Rattle.safl_net.specs.CellTexts.{two_operands, inverted, joined_texts, sliced, plain, selected};
ghost use Rattle.safl_net.specs.Written.{operation, operation_text, names_of, slice};

use crate::pieces::{push, push_literal};
use safl_net::{Cell, Net, Op, Sig};
use safl_word::{NoMemory, Primitive, Raw, push_decimal};

/// Appends the expression of a cell.
pub fn push_cell(out: &mut Vec<u8>, net: &Net, cell: &Cell) -> Result<(), NoMemory>
    requires { All (λ s. s.0 < length net.now.signals) cell.now.operands.items }
    ensures { OnOk result (out.new.items ≡ out.old.items ++ operation cell.now.op (names_of net.now (numbers cell.now.operands.items))) }
{
    let operands = cell.operands.as_slice();
    match cell.op {
        Op::Const(w) => push_literal(out, w.width(), w.bits()),
        Op::Copy => push_plain(out, net, operands),
        Op::Mux => push_selected(out, net, operands),
        Op::Apply(p) => push_applied(out, net, p, operands),
    }
}

// Appends the expression of a primitive on operands.
fn push_applied(
    out: &mut Vec<u8>,
    net: &Net,
    p: Primitive,
    operands: &[Sig],
) -> Result<(), NoMemory>
    requires { All (λ s. s.0 < length net.now.signals) operands.now }
    ensures { OnOk result (out.new.items ≡ out.old.items ++ operation_text p (names_of net.now (numbers operands.now))) }
{
    match p {
        Primitive::Not => push_inverted(out, net, operands),
        Primitive::Cat => push_joined(out, net, operands),
        Primitive::Bits(high, low) => push_sliced(out, net, high, low, operands),
        Primitive::Ext(_) => Ok(()),
        Primitive::Add => push_infix(out, net, b"+", operands),
        Primitive::Sub => push_infix(out, net, b"-", operands),
        Primitive::Mul => push_infix(out, net, b"*", operands),
        Primitive::And => push_infix(out, net, b"&", operands),
        Primitive::Or => push_infix(out, net, b"|", operands),
        Primitive::Xor => push_infix(out, net, b"^", operands),
        Primitive::Eq => push_infix(out, net, b"==", operands),
        Primitive::Ne => push_infix(out, net, b"!=", operands),
        Primitive::Lt => push_infix(out, net, b"<", operands),
        Primitive::Le => push_infix(out, net, b"<=", operands),
        Primitive::Gt => push_infix(out, net, b">", operands),
        Primitive::Ge => push_infix(out, net, b">=", operands),
        Primitive::Shl => push_infix(out, net, b"<<", operands),
        Primitive::Shr => push_infix(out, net, b">>", operands),
    }
}

fn push_name(out: &mut Vec<u8>, net: &Net, s: Sig) -> Result<(), NoMemory>
    requires { s.0 < length net.now.signals }
    ensures { OnOk result (out.new.items ≡ out.old.items ++ name_at net.now s.0) }
{
    push(out, net.name(s).as_bytes())
}

fn push_plain(out: &mut Vec<u8>, net: &Net, operands: &[Sig]) -> Result<(), NoMemory>
    requires { All (λ s. s.0 < length net.now.signals) operands.now }
    ensures { OnOk result (out.new.items ≡ out.old.items ++ plain (names_of net.now (numbers operands.now))) }
{
    let [a] = operands else {
        return Ok(());
    };
    push_name(out, net, *a)
}

fn push_selected(out: &mut Vec<u8>, net: &Net, operands: &[Sig]) -> Result<(), NoMemory>
    requires { All (λ s. s.0 < length net.now.signals) operands.now }
    ensures { OnOk result (out.new.items ≡ out.old.items ++ selected (names_of net.now (numbers operands.now))) }
{
    let [c, a, b] = operands else {
        return Ok(());
    };
    push_name(out, net, *c)?;
    push(out, b" ? ")?;
    push_name(out, net, *a)?;
    push(out, b" : ")?;
    push_name(out, net, *b)
}

fn push_infix(out: &mut Vec<u8>, net: &Net, sign: &[u8], operands: &[Sig]) -> Result<(), NoMemory>
    requires { All (λ s. s.0 < length net.now.signals) operands.now }
    ensures { OnOk result (out.new.items ≡ out.old.items ++ two_operands sign.now (names_of net.now (numbers operands.now))) }
{
    let [a, b] = operands else {
        return Ok(());
    };
    push_name(out, net, *a)?;
    push(out, b" ")?;
    push(out, sign)?;
    push(out, b" ")?;
    push_name(out, net, *b)
}

fn push_inverted(out: &mut Vec<u8>, net: &Net, operands: &[Sig]) -> Result<(), NoMemory>
    requires { All (λ s. s.0 < length net.now.signals) operands.now }
    ensures { OnOk result (out.new.items ≡ out.old.items ++ inverted (names_of net.now (numbers operands.now))) }
{
    let [a] = operands else {
        return Ok(());
    };
    push(out, b"~")?;
    push_name(out, net, *a)
}

fn push_joined(out: &mut Vec<u8>, net: &Net, operands: &[Sig]) -> Result<(), NoMemory>
    requires { All (λ s. s.0 < length net.now.signals) operands.now }
    ensures { OnOk result (out.new.items ≡ out.old.items ++ joined_texts (names_of net.now (numbers operands.now))) }
{
    let [a, b] = operands else {
        return Ok(());
    };
    push(out, b"{")?;
    push_name(out, net, *a)?;
    push(out, b", ")?;
    push_name(out, net, *b)?;
    push(out, b"}")
}

fn push_sliced(
    out: &mut Vec<u8>,
    net: &Net,
    high: u8,
    low: u8,
    operands: &[Sig],
) -> Result<(), NoMemory>
    requires { All (λ s. s.0 < length net.now.signals) operands.now }
    ensures { OnOk result (out.new.items ≡ out.old.items ++ sliced high low (names_of net.now (numbers operands.now))) }
{
    let [a] = operands else {
        return Ok(());
    };
    push_name(out, net, *a)?;
    push_slice(out, high, low)
}

fn push_slice(out: &mut Vec<u8>, high: u8, low: u8) -> Result<(), NoMemory>
    ensures { OnOk result (out.new.items ≡ out.old.items ++ slice high low) }
{
    push(out, b"[")?;
    push_decimal(Raw::from(high), out)?;
    push(out, b":")?;
    push_decimal(Raw::from(low), out)?;
    push(out, b"]")
}
