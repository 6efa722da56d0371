//! Primitives on signals, including `Ext`, which has no cell.

ghost use Rattle.std.specs.Prelude.{◌≡◌, ℕ, ◌<◌, ◌≤◌, Some, IfOk};
ghost use Rattle.safl_word.specs.Limits.{width_max};
ghost use Rattle.safl_word.specs.Primitives.{apply_prim, result_width};
ghost use Rattle.safl_net.specs.Growth.{Val, Wired};
ghost use Rattle.safl_lower.specs.Sources.{IsSource, Builds, CanGrow};
ghost use Rattle.safl_lower.specs.Operations.{CanOperate, GivesWord};

use crate::gates::{constant, operate};
use crate::shifts::shift;
use safl_net::{Net, Sig};
use safl_word::{NoMemory, Primitive, Word};

/// The result of a primitive.
pub fn apply(net: &mut Net, primitive: Primitive, operands: &[Sig]) -> Result<Sig, NoMemory>
    requires sized { CanOperate net.old (result_width primitive) operands.now }
    requires room { CanGrow net.old 5 }
    ensures built { Builds net.old net.new 5 }
    ensures word { GivesWord result net.old net.new (result_width primitive) (apply_prim primitive) operands.now }
{
    match primitive {
        Primitive::Ext(width) => extend(net, operands[0], width),
        Primitive::Shl | Primitive::Shr => shift(net, primitive, operands),
        _ => operate(net, primitive, operands),
    }
}

// The word with zeros above it, `width` bits in all; the word itself if it has that width already.
fn extend(net: &mut Net, a: Sig, width: u8) -> Result<Sig, NoMemory>
    requires narrow { (w : ℕ) × IsSource net.old a w × (1 ≤ w) × (w ≤ width) }
    requires bounded { width ≤ width_max }
    requires room { CanGrow net.old 2 }
    ensures built { Builds net.old net.new 2 }
    ensures fits { IfOk result (λ s. IsSource net.new s width) }
    ensures value { IfOk result (λ s. (v : Val) → Wired net.new v → v s.0 ≡ record { width = width; bits = (v a.0).bits }) }
{
    let narrow = net.width(a);
    if narrow == width {
        return Ok(a);
    }
    match Word::new(width - narrow, 0) {
        Some(zeros) => {
            let before = constant(net, zeros)?;
            operate(net, Primitive::Cat, &[before, a])
        }
        None => unreachable!(),
    }
}
