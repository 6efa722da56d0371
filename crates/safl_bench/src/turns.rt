//! Turns: groups of a few wires that take two words to two words. Together they use all operations.

ghost use Rattle.std.specs.Prelude.{◌≡◌, ℕ, ◌+◌, ◌<◌, ◌≤◌, List, [], ◌∷◌, length, Some, IfOk};
ghost use Rattle.safl_word.specs.Limits.{count_max, width_max};
ghost use Rattle.safl_net.specs.Names.{IsTidy};
ghost use Rattle.safl_net.specs.Netlist.{Netlist};
ghost use Rattle.safl_net.specs.Widths.{op_width};
ghost use Rattle.safl_net.specs.Growth.{Sized};
ghost use Rattle.safl_bench.specs.WideNets.{Has, Gives, Turns};

use safl_net::{Net, Op, Sig};
use safl_word::{NoMemory, Primitive, Raw, Word};

/// The greatest number of wires of a turn. Eight turns, one after another, have 40.
pub const TURN_MAX: u32 = 6;

/// The two words that the next turn takes.
#[derive(Clone, Copy)]
pub struct Ends {
    pub last: Sig,
    pub other: Sig,
}

// An odd number whose multiples have bits in all places.
const ODD: Raw = 0x9E37_79B9_7F4A_7C15_F39C_C060_5CED_C835;

/// A word made of a number, with its bits spread over the width.
pub fn spread(width: u8, number: u32) -> Word
    requires some { 1 ≤ width }
    requires most { width ≤ width_max }
    ensures { result.width ≡ width }
{
    Word::from_low_bits(width, Raw::from(number).wrapping_mul(ODD))
}

// An operator that takes two words of one width to a word of that width.
fn operator(i: u32) -> Primitive
    ensures { (w : ℕ) → 1 ≤ w → w ≤ width_max → op_width (Op.Apply result) (w ∷ w ∷ []) ≡ Some w }
{
    match i % 6 {
        0 => Primitive::Mul,
        1 => Primitive::Add,
        2 => Primitive::And,
        3 => Primitive::Sub,
        4 => Primitive::Or,
        _ => Primitive::Xor,
    }
}

// A comparison of two words of one width. It gives a bit.
fn comparison(i: u32) -> Primitive
    ensures { (w : ℕ) → 1 ≤ w → w ≤ width_max → op_width (Op.Apply result) (w ∷ w ∷ []) ≡ Some 1 }
{
    match i % 6 {
        0 => Primitive::Ne,
        1 => Primitive::Lt,
        2 => Primitive::Ge,
        3 => Primitive::Eq,
        4 => Primitive::Gt,
        _ => Primitive::Le,
    }
}

// A shift of a word by an amount of 7 bits.
fn shift(i: u32) -> Primitive
    ensures { (w : ℕ) → 1 ≤ w → w ≤ width_max → op_width (Op.Apply result) (w ∷ 7 ∷ []) ≡ Some w }
{
    if i % 8 == 0 {
        Primitive::Shl
    } else {
        Primitive::Shr
    }
}

// The second operand of a turn: in turn the other word and the input.
fn second(i: u32, other: Sig, input: Sig) -> Sig
    ensures { (n : Netlist) (w : ℕ) → Has n w other → Has n w input → Has n w result }
{
    if i % 2 == 0 { other } else { input }
}

// Adds a wire with this cell.
fn wire(net: &mut Net, op: Op, operands: &[Sig]) -> Result<Sig, NoMemory>
    requires tidy { IsTidy net.old }
    requires fits { (ws : List ℕ) × (w : ℕ) × Sized net.old operands.now ws × (op_width op ws ≡ Some w) }
    requires room { length net.old.signals < count_max }
    ensures tidy { IsTidy net.new }
    ensures more { length net.new.signals ≤ length net.old.signals + 1 }
    ensures gives { (ws : List ℕ) (w : ℕ) → Sized net.old operands.now ws → op_width op ws ≡ Some w → IfOk result (Gives net.old net.new 1 w) }
{
    net.temp(op, operands)
}

// Adds an operator's wire, and a choice between it and the last word, which a comparison makes.
fn choose(net: &mut Net, width: u8, i: u32, input: Sig, ends: Ends) -> Result<Ends, NoMemory>
    requires some { 1 ≤ width }
    requires most { width ≤ width_max }
    requires tidy { IsTidy net.old }
    requires input { Has net.old width input }
    requires last { Has net.old width ends.last }
    requires other { Has net.old width ends.other }
    requires room { length net.old.signals + 3 < count_max }
    ensures { IfOk result (Turns net.old net.new 3 width) }
{
    let operands = [ends.last, second(i, ends.other, input)];
    let word = wire(net, Op::Apply(operator(i)), &operands)?;
    let test = wire(net, Op::Apply(comparison(i)), &[word, ends.other])?;
    let last = wire(net, Op::Mux, &[test, word, ends.last])?;
    Ok(Ends { last, other: word })
}

// Adds a shift of `a` by 7 bits of `b`.
fn shifted(net: &mut Net, width: u8, i: u32, a: Sig, b: Sig) -> Result<Sig, NoMemory>
    requires wide { 8 ≤ width }
    requires most { width ≤ width_max }
    requires tidy { IsTidy net.old }
    requires first { Has net.old width a }
    requires second { Has net.old width b }
    requires room { length net.old.signals + 2 < count_max }
    ensures { IfOk result (Gives net.old net.new 2 width) }
{
    let amount = wire(net, Op::Apply(Primitive::Bits(6, 0)), &[b])?;
    wire(net, Op::Apply(shift(i)), &[a, amount])
}

// Adds the concatenation of the low half of one word and the high half of the other.
fn joined(net: &mut Net, width: u8, a: Sig, b: Sig) -> Result<Sig, NoMemory>
    requires wide { 8 ≤ width }
    requires most { width ≤ width_max }
    requires tidy { IsTidy net.old }
    requires first { Has net.old width a }
    requires second { Has net.old width b }
    requires room { length net.old.signals + 3 < count_max }
    ensures { IfOk result (Gives net.old net.new 3 width) }
{
    let half = width / 2;
    let low = wire(net, Op::Apply(Primitive::Bits(half - 1, 0)), &[a])?;
    let high = wire(net, Op::Apply(Primitive::Bits(width - 1, half)), &[b])?;
    wire(net, Op::Apply(Primitive::Cat), &[low, high])
}

// Adds an operation on a word and a constant.
fn changed(net: &mut Net, width: u8, i: u32, a: Sig) -> Result<Sig, NoMemory>
    requires wide { 8 ≤ width }
    requires most { width ≤ width_max }
    requires tidy { IsTidy net.old }
    requires has { Has net.old width a }
    requires room { length net.old.signals + 2 < count_max }
    ensures { IfOk result (Gives net.old net.new 2 width) }
{
    let constant = wire(net, Op::Const(spread(width, i)), &[])?;
    wire(net, Op::Apply(Primitive::Xor), &[a, constant])
}

// Adds an operation on two words, another one in each turn.
fn mix(net: &mut Net, width: u8, i: u32, a: Sig, b: Sig) -> Result<Sig, NoMemory>
    requires wide { 8 ≤ width }
    requires most { width ≤ width_max }
    requires tidy { IsTidy net.old }
    requires first { Has net.old width a }
    requires second { Has net.old width b }
    requires room { length net.old.signals + 3 < count_max }
    ensures { IfOk result (Gives net.old net.new 3 width) }
{
    match i % 8 {
        0 | 4 | 6 => shifted(net, width, i, a, b),
        2 => changed(net, width, i, a),
        3 => wire(net, Op::Apply(Primitive::Not), &[a]),
        5 => wire(net, Op::Copy, &[a]),
        _ => joined(net, width, a, b),
    }
}

/// Adds the wires of turn `i`.
pub fn turn(net: &mut Net, width: u8, i: u32, input: Sig, ends: Ends) -> Result<Ends, NoMemory>
    requires wide { 8 ≤ width }
    requires most { width ≤ width_max }
    requires tidy { IsTidy net.old }
    requires input { Has net.old width input }
    requires last { Has net.old width ends.last }
    requires other { Has net.old width ends.other }
    requires room { length net.old.signals + TURN_MAX < count_max }
    ensures { IfOk result (Turns net.old net.new TURN_MAX width) }
{
    let chosen = choose(net, width, i, input, ends)?;
    let last = mix(net, width, i, chosen.last, ends.other)?;
    Ok(Ends {
        last,
        other: chosen.other,
    })
}
