//! Lean nets: no temporary wire could be spared.

ghost use Rattle.std.specs.Prelude.{◌≡◌, ◌≢◌, ◌<◌, ℕ, false, Some, All, IsTrue, ◌↔◌, length, slice_get};
ghost use Rattle.safl_net.specs.Netlist.{Reg, Wire};
ghost use Rattle.safl_net.specs.Making.{kind_at, sort_of, numbers};
ghost use Rattle.safl_net.specs.Rules.{CellFits};
ghost use Rattle.safl_net.specs.Stored.{cell_of};
ghost use Rattle.safl_net.specs.Valuations.{IsAcyclic};
ghost use Rattle.safl_order.specs.Order.{IsWire, ReadsSignal};
ghost use Rattle.safl_opt.specs.Lean.{is_constant, are_constants, HasCell, IsTemporary, Lean};
ghost use Rattle.safl_opt.specs.Spare.{IsChoice, IsNeeded, IsAlone, IsReader, IsShown, HasReader, IsWanted};

use crate::names::is_temporary;
use safl_net::{Cell, Net, Op, Sig, SigKind};

/// Whether no temporary wire of a net without loops could be spared. Each temporary that is no constant has an operand
/// that is no constant; no two temporaries have the same cell; none is a copy, a choice by a constant, or a choice
/// between a signal and itself; and each is reached from an output, a register or a named wire. Takes no memory. Its
/// time is quadratic.
pub fn lean(n: &Net) -> bool
    requires { IsAcyclic n.now }
    ensures { IsTrue result ↔ Lean n.now }
{
    'signals: for i in 0..n.signals() {
        if !is_fine(n, Sig(i)) {
            return false;
        }
    }
    true
}

// Whether a signal is no temporary, or one that could not be spared.
fn is_fine(n: &Net, s: Sig) -> bool
    requires { s.0 < length n.now.signals }
    ensures { IsTrue result ↔ (IsTemporary n.now s.0 → IsWanted n.now s.0) }
{
    if !is_temporary(n, s) {
        return true;
    }
    is_wanted(n, s)
}

fn is_wanted(n: &Net, s: Sig) -> bool
    requires { IsWire n.now s.0 }
    ensures { IsTrue result ↔ IsWanted n.now s.0 }
{
    let _count = n.signals();
    if !is_read(n, s) {
        return false;
    }
    match n.cell(s) {
        Some(cell) => has_own_cell(n, s, cell),
        None => true,
    }
}

fn has_own_cell(n: &Net, s: Sig, cell: &Cell) -> bool
    requires { (w : ℕ) × CellFits n.now w (cell_of cell.now) }
    ensures { IsTrue result ↔ (IsNeeded n.now (cell_of cell.now) × IsAlone n.now s.0 (cell_of cell.now)) }
{
    if !is_needed(n, cell) {
        return false;
    }
    is_alone(n, s, cell)
}

fn is_needed(n: &Net, cell: &Cell) -> bool
    requires { (w : ℕ) × CellFits n.now w (cell_of cell.now) }
    ensures { IsTrue result ↔ IsNeeded n.now (cell_of cell.now) }
{
    match cell.op {
        Op::Const(_) => true,
        Op::Copy => false,
        Op::Mux => chooses(n, cell.operands.as_slice()),
        Op::Apply(_) => !are_constants(n, cell.operands.as_slice()),
    }
}

fn chooses(n: &Net, all: &[Sig]) -> bool
    requires known { All (λ x. x.0 < length n.now.signals) all.now }
    requires three { length all.now ≡ 3 }
    ensures { IsTrue result ↔ IsChoice n.now (numbers all.now) }
{
    is_choice(n, all[0], all[1], all[2])
}

fn is_choice(n: &Net, c: Sig, a: Sig, b: Sig) -> bool
    requires { c.0 < length n.now.signals }
    ensures { IsTrue result ↔ ((is_constant n.now c.0 ≡ false) × (a.0 ≢ b.0)) }
{
    if is_constant(n, c) {
        return false;
    }
    a.0 != b.0
}

fn are_constants(n: &Net, all: &[Sig]) -> bool
    requires { All (λ x. x.0 < length n.now.signals) all.now }
    ensures { result ≡ are_constants n.now (numbers all.now) }
{
    for s in all {
        if !is_constant(n, *s) {
            return false;
        }
    }
    true
}

fn is_constant(n: &Net, s: Sig) -> bool
    requires { s.0 < length n.now.signals }
    ensures { result ≡ is_constant n.now s.0 }
{
    match n.kind(s) {
        SigKind::Wire => match n.cell(s) {
            Some(cell) => match cell.op {
                Op::Const(_) => true,
                _ => false,
            },
            None => false,
        },
        _ => false,
    }
}

// Whether no other temporary has this cell.
fn is_alone(n: &Net, s: Sig, cell: &Cell) -> bool
    ensures { IsTrue result ↔ IsAlone n.now s.0 (cell_of cell.now) }
{
    'signals: for i in 0..n.signals() {
        if !is_other(n, Sig(i), s, cell) {
            return false;
        }
    }
    true
}

// Whether `t` is `s`, or no temporary with this cell.
fn is_other(n: &Net, t: Sig, s: Sig, cell: &Cell) -> bool
    requires { t.0 < length n.now.signals }
    ensures { IsTrue result ↔ (HasCell n.now t.0 (cell_of cell.now) → t.0 ≡ s.0) }
{
    if t.0 == s.0 {
        return true;
    }
    if !is_temporary(n, t) {
        return true;
    }
    !has_cell(n, t, cell)
}

fn has_cell(n: &Net, s: Sig, cell: &Cell) -> bool
    requires { IsWire n.now s.0 }
    ensures { IsTrue result ↔ (kind_at n.now s.0 ≡ Wire (Some (cell_of cell.now))) }
{
    match n.cell(s) {
        Some(other) => is_same(other, cell),
        None => false,
    }
}

fn is_same(a: &Cell, b: &Cell) -> bool
    ensures { IsTrue result ↔ (cell_of a.now ≡ cell_of b.now) }
{
    if a.op != b.op {
        return false;
    }
    are_same(a.operands.as_slice(), b.operands.as_slice())
}

fn are_same(a: &[Sig], b: &[Sig]) -> bool
    ensures { IsTrue result ↔ (numbers a.now ≡ numbers b.now) }
{
    let count = a.len();
    let other = b.len();
    if count == other {
        return are_equal(a, b);
    }
    false
}

fn are_equal(a: &[Sig], b: &[Sig]) -> bool
    requires { length a.now ≡ length b.now }
    ensures { IsTrue result ↔ (numbers a.now ≡ numbers b.now) }
{
    'all: for i in 0..a.len() {
        if !is_equal(a[i], b[i]) {
            return false;
        }
    }
    true
}

fn is_equal(a: Sig, b: Sig) -> bool
    ensures { IsTrue result ↔ (a.0 ≡ b.0) }
{
    a.0 == b.0
}

// Whether an output shows the signal, a register has it as its next signal, or a wire has it as an operand.
fn is_read(n: &Net, s: Sig) -> bool
    ensures { IsTrue result ↔ HasReader n.now s.0 }
{
    if is_shown(n, s) {
        return true;
    }
    has_reader(n, s)
}

fn is_shown(n: &Net, s: Sig) -> bool
    ensures { IsTrue result ↔ IsShown n.now s.0 }
{
    'outputs: for i in 0..n.outputs() {
        let shown = n.output_sig(i);
        if shown.0 == s.0 {
            return true;
        }
    }
    false
}

fn has_reader(n: &Net, s: Sig) -> bool
    ensures { IsTrue result ↔ ((a : ℕ) × IsReader n.now a s.0) }
{
    'signals: for i in 0..n.signals() {
        if reads(n, Sig(i), s) {
            return true;
        }
    }
    false
}

fn reads(n: &Net, a: Sig, s: Sig) -> bool
    requires { a.0 < length n.now.signals }
    ensures { IsTrue result ↔ IsReader n.now a.0 s.0 }
{
    match n.kind(a) {
        SigKind::Input => false,
        SigKind::Reg => has_next(n, a, s),
        SigKind::Wire => has_operand(n, a, s),
    }
}

fn has_next(n: &Net, r: Sig, s: Sig) -> bool
    requires { sort_of (kind_at n.now r.0) ≡ SigKind.Reg }
    ensures { IsTrue result ↔ ((init : ℕ) × (kind_at n.now r.0 ≡ Reg init (Some s.0))) }
{
    match n.next(r) {
        Some(next) => next.0 == s.0,
        None => false,
    }
}

fn has_operand(n: &Net, a: Sig, s: Sig) -> bool
    requires { IsWire n.now a.0 }
    ensures { IsTrue result ↔ ReadsSignal n.now a.0 s.0 }
{
    match n.cell(a) {
        Some(cell) => contains(cell.operands.as_slice(), s),
        None => false,
    }
}

fn contains(all: &[Sig], s: Sig) -> bool
    ensures { IsTrue result ↔ ((i : ℕ) × (slice_get (numbers all.now) i ≡ Some s.0)) }
{
    for x in all {
        if x.0 == s.0 {
            return true;
        }
    }
    false
}
