//! Shifts by amounts of any width.

ghost use Rattle.std.specs.Prelude.{ℕ, ◌≤◌, IfOk, slice_index_or};
ghost use Rattle.safl_word.specs.Limits.{width_max};
ghost use Rattle.safl_word.specs.Primitives.{apply_prim, result_width};
ghost use Rattle.safl_net.specs.Growth.{Val, Wired};
ghost use Rattle.safl_lower.specs.Sources.{IsSource, Builds, CanGrow};
ghost use Rattle.safl_lower.specs.Operations.{CanOperate, GivesWord};
ghost use Rattle.safl_lower.specs.Shifts.{IsShift, ShiftAlike, IsAmount, ShiftsIt};

use crate::gates::{constant, operate};
use safl_net::{Net, Sig};
use safl_word::{NoMemory, Primitive, Word};

// The greatest width of the amount in a shift's cell. Some simulators compute shifts by wider signals wrongly.
const WIDEST_AMOUNT: u8 = 32;

/// The result of a shift. The amount in its cell has at most 32 bits.
pub fn shift(net: &mut Net, primitive: Primitive, operands: &[Sig]) -> Result<Sig, NoMemory>
    requires kind { IsShift primitive }
    requires sized { CanOperate net.old (result_width primitive) operands.now }
    requires room { CanGrow net.old 5 }
    ensures built { Builds net.old net.new 5 }
    ensures word { GivesWord result net.old net.new (result_width primitive) (apply_prim primitive) operands.now }
    ensures narrow { IfOk result (λ s. ShiftsIt net.new s (slice_index_or operands.now 0 (record { 0 = 0 }))) }
{
    let amount = cut_down(net, operands[1])?;
    operate(net, primitive, &[operands[0], amount])
}

// A signal of at most 32 bits that shifts as `b` does. If `b` is not that narrow, it is the low 8 bits of `b` below a
// bit that is 1 if they are not all of its number. No word has 256 bits, so that bit shifts every bit out.
fn cut_down(net: &mut Net, b: Sig) -> Result<Sig, NoMemory>
    requires sized { (u : ℕ) × IsSource net.old b u × (1 ≤ u) × (u ≤ width_max) }
    requires room { CanGrow net.old 4 }
    ensures built { Builds net.old net.new 4 }
    ensures narrow { IfOk result (λ s. IsAmount net.new s) }
    ensures value { IfOk result (λ s. (v : Val) → Wired net.new v → ShiftAlike (v b.0).bits (v s.0).bits) }
{
    let width = net.width(b);
    if width <= WIDEST_AMOUNT {
        return Ok(b);
    }
    let limit = constant(net, Word::from_low_bits(width, 255))?;
    let over = operate(net, Primitive::Gt, &[b, limit])?;
    let low = operate(net, Primitive::Bits(7, 0), &[b])?;
    operate(net, Primitive::Cat, &[over, low])
}
