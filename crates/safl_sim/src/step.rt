//! Steps: the cells of a net, prepared for evaluation.

ghost use Rattle.std.specs.Prelude.{◌≡◌, ◌⊎◌, ℕ, ◌+◌, ◌*◌, ◌^◌, ◌<◌, [], ◌∷◌, length, slice_index, Some, IsSome, IfSome, IfNone, true, false};
ghost use Rattle.safl_word.specs.Words.{Word, pick};
ghost use Rattle.safl_word.specs.Primitives.{result_width, apply_prim};
ghost use Rattle.safl_net.specs.declared.cell.Sig.{Sig};
ghost use Rattle.safl_net.specs.Rules.{IsNetlist, CellFits};
ghost use Rattle.safl_net.specs.Making.{cell_on};
ghost use Rattle.safl_net.specs.Stored.{cell_of};
ghost use Rattle.safl_sim.specs.Steps.{Constant, Unary, Binary, plain, plain_number, action_number};
ghost use Rattle.safl_sim.specs.Steps.{PlainReady, Ready, PlainLow, LowOf, is_low, Performs, IsNarrow};

use safl_net::{Cell, Net, Op, Sig};
use safl_word::{LOW_MAX, Numbers, Primitive, Raw, Word, apply, narrow_one, narrow_two};

// 2^32: one more than the greatest quarter of a number.
const QUARTER: Raw = 0x1_0000_0000;

/// What a step does with the numbers at some places. All actions but the last four take and give at most 64 bits.
#[derive(Clone, Copy)]
pub enum Action {
    /// The place of the condition, the place that is taken if it is 1, and the place that is taken otherwise. A copy is
    /// the choice between a place and itself.
    Choose(u32, u32, u32),
    /// A primitive on an operand of this width.
    One(Primitive, u8, u32),
    Two(Primitive, u8, u8, u32, u32),
    /// The most frequent primitives have variants of their own, so that evaluating a step takes one jump.
    Not(u8, u32),
    Add(u8, u8, u32, u32),
    Sub(u8, u8, u32, u32),
    And(u8, u8, u32, u32),
    Or(u8, u8, u32, u32),
    Xor(u8, u8, u32, u32),
    Eq(u8, u8, u32, u32),
    Shl(u8, u8, u32, u32),
    Shr(u8, u8, u32, u32),
    /// The high and the low end of a slice, and the width and the place of its operand.
    Bits(u8, u8, u8, u32),
    /// The four quarters of a number of 128 bits, the lowest first. Two halves would make every step 8 bytes longer.
    Const(u32, u32, u32, u32),
    /// A choice, and primitives on one and on two operands, that may have more than 64 bits.
    WideChoose(u32, u32, u32),
    WideOne(Primitive, u8, u32),
    WideTwo(Primitive, u8, u8, u32, u32),
}

/// The readers of a step's wire: for those whose marks are in the step's own word, a bit for each; for the others,
/// where they begin and end in the list of readers.
#[derive(Clone, Copy)]
pub struct Near {
    pub mask: u64,
    pub first: u32,
    pub end: u32,
}

/// The readers of a register: for those whose marks are in one word with the first reader, that word and a bit for
/// each; for the others, where they begin and end in the list of readers.
#[derive(Clone, Copy)]
pub struct Group {
    pub word: u32,
    pub near: Near,
}

/// When a reader of a place looks at the place: always, only if the number at another place is 1, or only if it is not.
/// Otherwise the reader is blind to the place.
#[derive(Clone, Copy)]
pub enum Guard {
    Always,
    If(u32),
    Unless(u32),
}

/// A wire, the action that gives its number, and where its readers that are not near begin and end.
#[derive(Clone, Copy)]
pub struct Step {
    pub wire: Sig,
    pub action: Action,
    pub first: u32,
    pub end: u32,
}

/// A register, its next signal, and whether they have at most 64 bits.
#[derive(Clone, Copy)]
pub struct Register {
    pub signal: Sig,
    pub next: Sig,
    pub narrow: bool,
}

/// The number that an action gives. It may have more than 64 bits.
// Both loops over the steps call this and `act_low`. Without the attribute the compiler inlines them in neither.
#[inline(always)]
pub fn act(action: &Action, values: &Numbers) -> Raw
    requires ready { Ready values.now action.now }
    requires wide { is_low action.now ≡ false }
    ensures { result ≡ action_number (slice_index values.now) action.now }
{
    match *action {
        Action::Const(a, b, c, d) => from_quarters(a, b, c, d),
        Action::WideChoose(c, a, b) => {
            let chosen = choose(values.get(c as usize), a, b);
            values.get(chosen as usize)
        }
        Action::WideOne(p, width, a) => apply_one(
            p,
            Word::from_parts(width, values.get(a as usize)),
        ),
        Action::WideTwo(p, width, other, a, b) => wide_pair(values, p, width, other, a, b),
        _ => unreachable!(),
    }
}

/// The number that an action gives, if it is one for at most 64 bits. So a single jump decides what a step does and
/// whether it is narrow.
#[inline(always)]
pub fn act_low(action: &Action, values: &Numbers) -> Option<u64>
    requires ready { Ready values.now action.now }
    requires low { LowOf values.now action.now }
    ensures some { IfSome result (λ x. x ≡ action_number (slice_index values.now) action.now) }
    ensures low { IfSome result (λ x. is_low action.now ≡ true) }
    ensures none { IfNone result (is_low action.now ≡ false) }
{
    Some(match *action {
        Action::Choose(c, a, b) => {
            let chosen = choose(Raw::from(values.get_low(c as usize)), a, b);
            values.get_low(chosen as usize)
        }
        Action::One(p, width, a) => narrow_one(p, width, values.get_low(a as usize)),
        Action::Two(p, width, other, a, b) => low_pair(values, p, width, other, a, b),
        Action::Not(width, a) => narrow_one(Primitive::Not, width, values.get_low(a as usize)),
        Action::Add(width, other, a, b) => low_pair(values, Primitive::Add, width, other, a, b),
        Action::Sub(width, other, a, b) => low_pair(values, Primitive::Sub, width, other, a, b),
        Action::And(width, other, a, b) => low_pair(values, Primitive::And, width, other, a, b),
        Action::Or(width, other, a, b) => low_pair(values, Primitive::Or, width, other, a, b),
        Action::Xor(width, other, a, b) => low_pair(values, Primitive::Xor, width, other, a, b),
        Action::Eq(width, other, a, b) => low_pair(values, Primitive::Eq, width, other, a, b),
        Action::Shl(width, other, a, b) => low_pair(values, Primitive::Shl, width, other, a, b),
        Action::Shr(width, other, a, b) => low_pair(values, Primitive::Shr, width, other, a, b),
        Action::Bits(high, low, width, a) => narrow_one(
            Primitive::Bits(high, low),
            width,
            values.get_low(a as usize),
        ),
        Action::Const(_, _, _, _)
        | Action::WideChoose(_, _, _)
        | Action::WideOne(_, _, _)
        | Action::WideTwo(_, _, _, _, _) => return None,
    })
}

/// Place `a` if the condition is 1, else place `b`. So only one number is read, and no jump is guessed.
#[inline(always)]
pub fn choose(condition: Raw, a: u32, b: u32) -> u32
    ensures { result ≡ pick condition a b }
{
    if condition == 1 { a } else { b }
}

fn apply_one(p: Primitive, a: Word) -> Raw
    requires { IsSome (result_width p (a.width ∷ [])) }
    ensures { result ≡ (apply_prim p (a ∷ [])).bits }
{
    apply(p, &[a]).bits()
}

// The result of a primitive on the numbers at two places.
#[inline(always)]
fn wide_pair(values: &Numbers, p: Primitive, width: u8, other: u8, a: u32, b: u32) -> Raw
    requires { PlainReady values.now (Binary p width other a b) }
    ensures { result ≡ plain_number (slice_index values.now) (Binary p width other a b) }
{
    let first = Word::from_parts(width, values.get(a as usize));
    let second = Word::from_parts(other, values.get(b as usize));
    apply(p, &[first, second]).bits()
}

// The result of a primitive on the numbers at two places, if operands and result have at most 64 bits. Where the
// primitive is known, the match takes no jump.
#[inline(always)]
fn low_pair(values: &Numbers, p: Primitive, width: u8, other: u8, a: u32, b: u32) -> u64
    requires ready { PlainReady values.now (Binary p width other a b) }
    requires low { PlainLow values.now (Binary p width other a b) }
    ensures { result ≡ plain_number (slice_index values.now) (Binary p width other a b) }
{
    narrow_two(
        p,
        width,
        other,
        values.get_low(a as usize),
        values.get_low(b as usize),
    )
}

/// The action of a wire's cell. It is one for at most 64 bits only if the wire and all operands have no more.
pub fn fitting_action(net: &Net, starts: &[u32], wire: Sig, cell: &Cell) -> Action
    requires netlist { IsNetlist net.now }
    requires known { wire.0 < length net.now.signals }
    requires fits { (width : ℕ) × CellFits net.now width (cell_of cell.now) }
    ensures performs { Performs net.now (cell_of cell.now) result }
    ensures narrow { is_low result ≡ true → IsNarrow net.now wire.0 (cell_of cell.now) }
{
    let action = action_of(net, starts, cell);
    if is_narrow(net, wire, cell) {
        action
    } else {
        widened(action)
    }
}

// The action that does the same with numbers of more than 64 bits.
fn widened(action: Action) -> Action
    ensures same { plain result ≡ plain action }
    ensures wide { is_low result ≡ false }
{
    match action {
        Action::Choose(c, a, b) => Action::WideChoose(c, a, b),
        Action::One(p, width, a) => Action::WideOne(p, width, a),
        Action::Two(p, width, other, a, b) => Action::WideTwo(p, width, other, a, b),
        Action::Not(width, a) => Action::WideOne(Primitive::Not, width, a),
        Action::Add(width, other, a, b) => Action::WideTwo(Primitive::Add, width, other, a, b),
        Action::Sub(width, other, a, b) => Action::WideTwo(Primitive::Sub, width, other, a, b),
        Action::And(width, other, a, b) => Action::WideTwo(Primitive::And, width, other, a, b),
        Action::Or(width, other, a, b) => Action::WideTwo(Primitive::Or, width, other, a, b),
        Action::Xor(width, other, a, b) => Action::WideTwo(Primitive::Xor, width, other, a, b),
        Action::Eq(width, other, a, b) => Action::WideTwo(Primitive::Eq, width, other, a, b),
        Action::Shl(width, other, a, b) => Action::WideTwo(Primitive::Shl, width, other, a, b),
        Action::Shr(width, other, a, b) => Action::WideTwo(Primitive::Shr, width, other, a, b),
        Action::Bits(high, low, width, a) => Action::WideOne(Primitive::Bits(high, low), width, a),
        Action::Const(a, b, c, d) => Action::Const(a, b, c, d),
        Action::WideChoose(c, a, b) => Action::WideChoose(c, a, b),
        Action::WideOne(p, width, a) => Action::WideOne(p, width, a),
        Action::WideTwo(p, width, other, a, b) => Action::WideTwo(p, width, other, a, b),
    }
}

fn action_of(net: &Net, starts: &[u32], cell: &Cell) -> Action
    requires netlist { IsNetlist net.now }
    requires fits { (width : ℕ) × CellFits net.now width (cell_of cell.now) }
    ensures { Performs net.now (cell_of cell.now) result }
{
    match cell.operands.as_slice() {
        [] => constant(&cell.op),
        [a] => match cell.op {
            Op::Apply(p) => one(p, net.width(*a), a.0),
            _ => Action::Choose(a.0, a.0, a.0),
        },
        [a, b] => match cell.op {
            Op::Apply(p) => pair(net, starts, p, *a, *b),
            _ => unreachable!(),
        },
        [c, a, b] => Action::Choose(c.0, a.0, b.0),
        _ => unreachable!(),
    }
}

// The action of a primitive on two operands. "And" and "or" of single bits become choices, as most steps are.
fn pair(net: &Net, starts: &[u32], p: Primitive, a: Sig, b: Sig) -> Action
    requires netlist { IsNetlist net.now }
    requires fits { (width : ℕ) × CellFits net.now width (cell_on (Op.Apply p) (a ∷ b ∷ [])) }
    ensures { Performs net.now (cell_on (Op.Apply p) (a ∷ b ∷ [])) result }
{
    let width = net.width(a);
    match p {
        Primitive::And if width == 1 => both(starts, a, b),
        Primitive::Or if width == 1 => Action::Choose(a.0, a.0, b.0),
        _ => two(p, width, net.width(b), a.0, b.0),
    }
}

// The action of a primitive on one operand of this width.
fn one(p: Primitive, width: u8, a: u32) -> Action
    ensures { plain result ≡ Unary p width a }
{
    match p {
        Primitive::Not => Action::Not(width, a),
        Primitive::Bits(high, low) => Action::Bits(high, low, width, a),
        _ => Action::One(p, width, a),
    }
}

// The action of a primitive on two operands of these widths.
fn two(p: Primitive, width: u8, other: u8, a: u32, b: u32) -> Action
    ensures { plain result ≡ Binary p width other a b }
{
    match p {
        Primitive::Add => Action::Add(width, other, a, b),
        Primitive::Sub => Action::Sub(width, other, a, b),
        Primitive::And => Action::And(width, other, a, b),
        Primitive::Or => Action::Or(width, other, a, b),
        Primitive::Xor => Action::Xor(width, other, a, b),
        Primitive::Eq => Action::Eq(width, other, a, b),
        Primitive::Shl => Action::Shl(width, other, a, b),
        Primitive::Shr => Action::Shr(width, other, a, b),
        _ => Action::Two(p, width, other, a, b),
    }
}

// The "and" of two bits, as a choice. When its condition is 0, it is blind to the other bit, so the condition is the
// bit with fewer readers. This matters only for speed.
fn both(starts: &[u32], a: Sig, b: Sig) -> Action
    ensures { (result ≡ Action.Choose a.0 b.0 a.0) ⊎ (result ≡ Action.Choose b.0 a.0 b.0) }
{
    let (i, j) = (a.0 as usize, b.0 as usize);
    if i + 1 < starts.len() && j + 1 < starts.len() {
        let count = starts[i + 1].saturating_sub(starts[i]);
        if starts[j + 1].saturating_sub(starts[j]) < count {
            return Action::Choose(b.0, a.0, b.0);
        }
    }
    Action::Choose(a.0, b.0, a.0)
}

// The action of a cell that is a constant.
fn constant(op: &Op) -> Action
    requires { (w : Word) × (op.now ≡ Op.Const w) }
    ensures { (w : Word) → op.now ≡ Op.Const w → plain result ≡ Constant w.bits }
{
    match op {
        Op::Const(w) => {
            let number = w.bits();
            Action::Const(
                (number % QUARTER) as u32,
                (number / QUARTER % QUARTER) as u32,
                (number / QUARTER / QUARTER % QUARTER) as u32,
                (number / QUARTER / QUARTER / QUARTER) as u32,
            )
        }
        _ => unreachable!(),
    }
}

// The number that has these quarters, the lowest first.
fn from_quarters(a: u32, b: u32, c: u32, d: u32) -> Raw
    ensures { result ≡ a + b * 2 ^ 32 + c * 2 ^ 64 + d * 2 ^ 96 }
{
    Raw::from(a) + QUARTER * (Raw::from(b) + QUARTER * (Raw::from(c) + QUARTER * Raw::from(d)))
}

// Whether a wire and all operands of its cell have at most 64 bits.
fn is_narrow(net: &Net, wire: Sig, cell: &Cell) -> bool
    requires known { wire.0 < length net.now.signals }
    requires fits { (width : ℕ) × CellFits net.now width (cell_of cell.now) }
    ensures { result ≡ true → IsNarrow net.now wire.0 (cell_of cell.now) }
{
    let operands = cell.operands.as_slice();
    'signals: for i in 0..operands.len() {
        if net.width(operands[i]) > LOW_MAX {
            return false;
        }
    }
    net.width(wire) <= LOW_MAX
}
