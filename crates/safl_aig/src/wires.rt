//! The literals of wires.

ghost use Rattle.std.specs.Prelude.{◌≡◌, ℕ, ◌*◌, ◌<◌, ◌≤◌, [], ◌∷◌, length, Some, IfOk};
ghost use Rattle.safl_word.specs.Limits.{width_max};
ghost use Rattle.safl_net.specs.Netlist.{AllSet};
ghost use Rattle.safl_order.specs.Order.{IsWire};
ghost use Rattle.safl_aig.specs.Weights.{signal_weight};
ghost use Rattle.safl_aig.specs.Wiring.{OperandsReady, WireMade};
ghost use Rattle.safl_net.specs.Widths.{op_width};
ghost use Rattle.safl_net.specs.Rules.{IsNetlist};
ghost use Rattle.safl_net.specs.Stored.{cell_of};
ghost use Rattle.safl_bits.specs.Gates.{AreLiterals, HasRoom, Grows};
ghost use Rattle.safl_aig.specs.Tables.{AreReady, CellMade, RoomFor, GrowsFor, OpMade, MayDo, GrowsBy};

use crate::table::{Pins, literals};
use safl_aiger::Lit;
use safl_bits::Graph;
use safl_bits::operators::{apply_to_one, apply_to_two};
use safl_bits::words::{choice, constant};
use safl_net::{Cell, Net, Op, Sig};
use std::alloc::{AllocError, Global};

/// The literals of the word that a cell computes.
pub fn cell_bits(
    alloc: Global,
    g: &mut Graph,
    net: &Net,
    table: &[Pins],
    cell: &Cell,
) -> Result<Vec<Lit>, AllocError>
    requires netlist { IsNetlist net.now }
    requires long { length table.now ≡ length net.now.signals }
    requires room { RoomFor net.now g.old (cell_of cell.now) }
    requires ready { AreReady net.now g.old table.now (cell_of cell.now) }
    ensures built { GrowsFor net.now g.old g.new (cell_of cell.now) }
    ensures made { IfOk result (λ r. CellMade net.now g.new table.now (cell_of cell.now) r.items) }
{
    match cell.operands.as_slice() {
        [] => none_made(alloc, g, &cell.op),
        [a] => one_made(alloc, g, &cell.op, literals(table, *a)),
        [a, b] => two_made(alloc, g, &cell.op, literals(table, *a), literals(table, *b)),
        [c, a, b] => {
            let test = literals(table, *c);
            three_made(
                alloc,
                g,
                &cell.op,
                test,
                literals(table, *a),
                literals(table, *b),
            )
        }
        _ => unreachable!(),
    }
}

// The literals of an operation without operands. The next three functions are for one, two and three operands.
fn none_made(alloc: Global, g: &Graph, op: &Op) -> Result<Vec<Lit>, AllocError>
    requires taken { (w : ℕ) × (op_width op.now [] ≡ Some w) }
    ensures made { IfOk result (λ r. OpMade op.now [] g.now r.items) }
{
    match op {
        Op::Const(w) => constant(alloc, g.bottom(), *w),
        _ => unreachable!(),
    }
}

fn one_made(alloc: Global, g: &Graph, op: &Op, a: &[Lit]) -> Result<Vec<Lit>, AllocError>
    requires taken { (w : ℕ) × (op_width op.now (length a.now ∷ []) ≡ Some w) }
    requires word { AreLiterals g.now a.now }
    ensures made { IfOk result (λ r. OpMade op.now (a.now ∷ []) g.now r.items) }
{
    match op {
        Op::Copy => Vec::from_slice(alloc, a),
        Op::Apply(p) => apply_to_one(alloc, *p, a),
        _ => unreachable!(),
    }
}

fn two_made(
    alloc: Global,
    g: &mut Graph,
    op: &Op,
    a: &[Lit],
    b: &[Lit],
) -> Result<Vec<Lit>, AllocError>
    requires room { MayDo op.now g.old (length a.now ∷ length b.now ∷ []) }
    requires first { AreLiterals g.old a.now }
    requires second { AreLiterals g.old b.now }
    requires narrow { length a.now ≤ width_max }
    ensures built { GrowsBy op.now g.old g.new (length a.now ∷ length b.now ∷ []) }
    ensures made { IfOk result (λ r. OpMade op.now (a.now ∷ b.now ∷ []) g.new r.items) }
{
    match op {
        Op::Apply(p) => apply_to_two(alloc, g, *p, a, b),
        _ => unreachable!(),
    }
}

fn three_made(
    alloc: Global,
    g: &mut Graph,
    op: &Op,
    c: &[Lit],
    a: &[Lit],
    b: &[Lit],
) -> Result<Vec<Lit>, AllocError>
    requires room { MayDo op.now g.old (length c.now ∷ length a.now ∷ length b.now ∷ []) }
    requires test { AreLiterals g.old c.now }
    requires first { AreLiterals g.old a.now }
    requires second { AreLiterals g.old b.now }
    ensures built { GrowsBy op.now g.old g.new (length c.now ∷ length a.now ∷ length b.now ∷ []) }
    ensures made { IfOk result (λ r. OpMade op.now (c.now ∷ a.now ∷ b.now ∷ []) g.new r.items) }
{
    match op {
        Op::Mux => choice(alloc, g, c[0], a, b),
        _ => unreachable!(),
    }
}

/// The literals of a wire whose operands have theirs in the table.
pub fn wire_bits(
    alloc: Global,
    g: &mut Graph,
    net: &Net,
    table: &[Pins],
    wire: Sig,
) -> Result<Vec<Lit>, AllocError>
    requires netlist { IsNetlist net.now }
    requires set { AllSet net.now }
    requires wire { IsWire net.now wire.0 }
    requires long { length table.now ≡ length net.now.signals }
    requires room { HasRoom g.old (16 * signal_weight net.now wire.0) }
    requires ready { OperandsReady net.now g.old table.now wire.0 }
    ensures built { Grows g.old g.new (16 * signal_weight net.now wire.0) }
    ensures made { IfOk result (λ r. WireMade net.now g.new table.now wire.0 r.items) }
{
    match net.cell(wire) {
        Some(cell) => cell_bits(alloc, g, net, table, cell),
        None => unreachable!(),
    }
}
