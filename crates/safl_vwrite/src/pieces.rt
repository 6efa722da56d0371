//! Pieces of text, appended to a buffer.

ghost use Rattle.std.specs.Prelude.{◌≡◌, ◌++◌, codes, OnOk};
ghost use Rattle.safl_net.specs.Written.{literal, range, declaration, update};
ghost use Rattle.safl_net.specs.WrittenParts.{port, reset};

use safl_word::{NoMemory, Raw, push_decimal};

/// Appends a piece.
pub fn push(out: &mut Vec<u8>, piece: &[u8]) -> Result<(), NoMemory>
    ensures { OnOk result (out.new.items ≡ out.old.items ++ piece.now) }
{
    out.extend_from_slice(piece)?;
    Ok(())
}

/// Appends a sized number: its width, `'d` and its decimal digits.
pub fn push_literal(out: &mut Vec<u8>, width: u8, bits: Raw) -> Result<(), NoMemory>
    ensures { OnOk result (out.new.items ≡ out.old.items ++ literal width bits) }
{
    push_decimal(Raw::from(width), out)?;
    push(out, b"'d")?;
    push_decimal(bits, out)
}

// Appends the range of bits of a width.
fn push_range(out: &mut Vec<u8>, width: u8) -> Result<(), NoMemory>
    ensures { OnOk result (out.new.items ≡ out.old.items ++ range width) }
{
    push(out, b"[")?;
    push_decimal(Raw::from(width.saturating_sub(1)), out)?;
    push(out, b":0]")
}

/// Appends a declaration.
pub fn push_declaration(
    out: &mut Vec<u8>,
    keyword: &[u8],
    width: u8,
    name: &str,
) -> Result<(), NoMemory>
    ensures { OnOk result (out.new.items ≡ out.old.items ++ declaration keyword.now width name.now) }
{
    push(out, b"  ")?;
    push(out, keyword)?;
    push(out, b" ")?;
    push_range(out, width)?;
    push(out, b" ")?;
    push(out, name.as_bytes())?;
    push(out, b";\n")
}

/// Appends a port of the header.
pub fn push_port(out: &mut Vec<u8>, name: &str) -> Result<(), NoMemory>
    ensures { OnOk result (out.new.items ≡ out.old.items ++ port name.now) }
{
    push(out, b", ")?;
    push(out, name.as_bytes())
}

/// Appends the beginning of an assignment, up to what is assigned.
pub fn push_target(out: &mut Vec<u8>, name: &str) -> Result<(), NoMemory>
    ensures { OnOk result (out.new.items ≡ out.old.items ++ (codes "  assign " ++ name.now ++ codes " = ")) }
{
    push(out, b"  assign ")?;
    push(out, name.as_bytes())?;
    push(out, b" = ")
}

// Appends the beginning of an update, up to the register after `else`.
fn push_reset(out: &mut Vec<u8>, name: &str, width: u8, init: Raw) -> Result<(), NoMemory>
    ensures { OnOk result (out.new.items ≡ out.old.items ++ reset name.now (literal width init)) }
{
    push(out, b"  always @(posedge clk) if (rst) ")?;
    push(out, name.as_bytes())?;
    push(out, b" <= ")?;
    push_literal(out, width, init)?;
    push(out, b"; else ")?;
    Ok(())
}

/// Appends the update of a register with this word at reset and this next signal.
pub fn push_update(
    out: &mut Vec<u8>,
    name: &str,
    width: u8,
    init: Raw,
    next: &str,
) -> Result<(), NoMemory>
    ensures { OnOk result (out.new.items ≡ out.old.items ++ update name.now (literal width init) next.now) }
{
    push_reset(out, name, width, init)?;
    push(out, name.as_bytes())?;
    push(out, b" <= ")?;
    push(out, next.as_bytes())?;
    push(out, b";\n")?;
    Ok(())
}
