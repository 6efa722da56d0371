//! The lines of a generated source.

ghost use Rattle.std.specs.Prelude.{◌≡◌, ◌<◌, ◌++◌, OnOk, decimal};
ghost use Rattle.safl_gen.specs.Source.{first_body, scaled_sum, halving, masked_sum, later_body, sum_of_calls, call_in_call, bound_call, compared_call, body, function_line, main_line};

use crate::draws::Drawn;
use safl_word::{NoMemory, Raw, push_decimal};

/// Appends the definition of function `i`.
pub fn push_function(out: &mut Vec<u8>, i: u32, drawn: &Drawn) -> Result<(), NoMemory>
    ensures { OnOk result (out.new.items ≡ out.old.items ++ function_line i drawn.now.form drawn.now.constant drawn.now.first) }
{
    push_numbered(out, b"fun f", i)?;
    push(out, b"(x:16, y:16):16 = ")?;
    push_body(out, i, drawn)?;
    push(out, b"\n")
}

fn push_body(out: &mut Vec<u8>, i: u32, drawn: &Drawn) -> Result<(), NoMemory>
    ensures { OnOk result (out.new.items ≡ out.old.items ++ body i drawn.now.form drawn.now.constant drawn.now.first) }
{
    let k = drawn.constant % 16 + 1;
    if i < 4 {
        push_first_body(out, drawn.form % 3, i, k)
    } else {
        push_later_body(out, drawn.form % 4, i - 1, drawn.first % 4, k)
    }
}

fn push_first_body(out: &mut Vec<u8>, form: u32, i: u32, k: u32) -> Result<(), NoMemory>
    requires { form < 3 }
    ensures { OnOk result (out.new.items ≡ out.old.items ++ first_body form i k) }
{
    match form {
        0 => push_scaled_sum(out, k),
        1 => push_halving(out, i, k),
        2 => push_masked_sum(out, k),
        _ => unreachable!(),
    }
}

fn push_scaled_sum(out: &mut Vec<u8>, k: u32) -> Result<(), NoMemory>
    ensures { OnOk result (out.new.items ≡ out.old.items ++ scaled_sum k) }
{
    push_numbered(out, b"x + y * ", k)
}

fn push_halving(out: &mut Vec<u8>, i: u32, k: u32) -> Result<(), NoMemory>
    ensures { OnOk result (out.new.items ≡ out.old.items ++ halving i k) }
{
    push_numbered(out, b"if y == 0 then x else f", i)?;
    push_numbered(out, b"(x + ", k)?;
    push(out, b", y >> 1)")
}

fn push_masked_sum(out: &mut Vec<u8>, k: u32) -> Result<(), NoMemory>
    ensures { OnOk result (out.new.items ≡ out.old.items ++ masked_sum k) }
{
    push_numbered(out, b"let p = x ^ y, q = x & ", k)?;
    push(out, b" in p + q")
}

fn push_later_body(out: &mut Vec<u8>, form: u32, p: u32, j: u32, k: u32) -> Result<(), NoMemory>
    requires { form < 4 }
    ensures { OnOk result (out.new.items ≡ out.old.items ++ later_body form p j k) }
{
    match form {
        0 => push_sum_of_calls(out, p, j, k),
        1 => push_call_in_call(out, p, j, k),
        2 => push_bound_call(out, p, j, k),
        3 => push_compared_call(out, p, j, k),
        _ => unreachable!(),
    }
}

fn push_sum_of_calls(out: &mut Vec<u8>, p: u32, j: u32, k: u32) -> Result<(), NoMemory>
    ensures { OnOk result (out.new.items ≡ out.old.items ++ sum_of_calls p j k) }
{
    push_numbered(out, b"f", p)?;
    push_numbered(out, b"(x + ", k)?;
    push_numbered(out, b", y) + f", j)?;
    push(out, b"(x, y)")
}

fn push_call_in_call(out: &mut Vec<u8>, p: u32, j: u32, k: u32) -> Result<(), NoMemory>
    ensures { OnOk result (out.new.items ≡ out.old.items ++ call_in_call p j k) }
{
    push_numbered(out, b"f", j)?;
    push_numbered(out, b"(f", p)?;
    push_numbered(out, b"(x, y ^ ", k)?;
    push(out, b"), y)")
}

fn push_bound_call(out: &mut Vec<u8>, p: u32, j: u32, k: u32) -> Result<(), NoMemory>
    ensures { OnOk result (out.new.items ≡ out.old.items ++ bound_call p j k) }
{
    push_numbered(out, b"let p = f", p)?;
    push_numbered(out, b"(y, x) in if p < ", k)?;
    push_numbered(out, b" then f", j)?;
    push(out, b"(p, x) else p")
}

fn push_compared_call(out: &mut Vec<u8>, p: u32, j: u32, k: u32) -> Result<(), NoMemory>
    ensures { OnOk result (out.new.items ≡ out.old.items ++ compared_call p j k) }
{
    push_numbered(out, b"if f", j)?;
    push_numbered(out, b"(x, ", k)?;
    push_numbered(out, b") == y then x else f", p)?;
    push_numbered(out, b"(y, x + ", k)?;
    push(out, b")")
}

/// Appends the definition of main, which calls function `last`.
pub fn push_main(out: &mut Vec<u8>, last: u32) -> Result<(), NoMemory>
    ensures { OnOk result (out.new.items ≡ out.old.items ++ main_line last) }
{
    push_numbered(out, b"fun main(a:16, b:16):16 = f", last)?;
    push(out, b"(a, b)\n")
}

// Appends a piece and then a number in decimal.
fn push_numbered(out: &mut Vec<u8>, piece: &[u8], number: u32) -> Result<(), NoMemory>
    ensures { OnOk result (out.new.items ≡ out.old.items ++ piece.now ++ decimal number) }
{
    push(out, piece)?;
    push_decimal(Raw::from(number), out)
}

fn push(out: &mut Vec<u8>, piece: &[u8]) -> Result<(), NoMemory>
    ensures { OnOk result (out.new.items ≡ out.old.items ++ piece.now) }
{
    out.extend_from_slice(piece)?;
    Ok(())
}
