//! Appending pieces of text to a buffer.

ghost use Rattle.std.specs.Prelude.{◌≡◌, ◌++◌, OnOk, OnErr};
ghost use Rattle.safl_probe.specs.Texts.{code, value_text, time};

use safl_word::{NoMemory, Raw, push_binary, push_decimal};

/// Appends a piece, or nothing if out of memory.
pub(crate) fn push(out: &mut Vec<u8>, piece: &[u8]) -> Result<(), NoMemory>
    ensures added { OnOk result (out.new.items ≡ out.old.items ++ piece.now) }
    ensures same { OnErr result (out.new.items ≡ out.old.items) }
{
    out.extend_from_slice(piece)?;
    Ok(())
}

/// Appends the line with the time of a frame.
pub(crate) fn push_time(out: &mut Vec<u8>, t: u64) -> Result<(), NoMemory>
    ensures { OnOk result (out.new.items ≡ out.old.items ++ time t) }
{
    push(out, b"#")?;
    push_decimal(Raw::from(t), out)?;
    push(out, b"\n")
}

/// Appends the code of watched signal `i`.
pub(crate) fn push_code(out: &mut Vec<u8>, i: usize) -> Result<(), NoMemory>
    ensures { OnOk result (out.new.items ≡ out.old.items ++ code i) }
{
    let mut rest = i;
    'digits: while rest >= 94 {
        out.push(33 + (rest % 94) as u8)?;
        rest /= 94;
    }
    out.push(33 + rest as u8)?;
    Ok(())
}

/// Appends the line with a value of watched signal `i`.
pub(crate) fn push_value(
    out: &mut Vec<u8>,
    i: usize,
    width: u8,
    number: Raw,
) -> Result<(), NoMemory>
    ensures { OnOk result (out.new.items ≡ out.old.items ++ value_text i width number) }
{
    if width == 1 {
        push_binary(number, out)?;
        push_code(out, i)?;
        return push(out, b"\n");
    }
    push(out, b"b")?;
    push_binary(number, out)?;
    push(out, b" ")?;
    push_code(out, i)?;
    push(out, b"\n")
}
