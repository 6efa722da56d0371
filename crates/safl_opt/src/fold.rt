//! The values of a net. Each wire has a value by its number; equal cells have one value, and constants are folded.

ghost use Rattle.std.specs.Prelude.{◌≡◌, ◌<◌, ◌+◌, ◌++◌, ℕ, List, [], ◌∷◌, ◌^◌, Some, length, is_some, cond, IfOk, OnOk, IfSome};
ghost use Rattle.safl_word.specs.Words.{Word};
ghost use Rattle.safl_net.specs.Netlist.{Wire};
ghost use Rattle.safl_net.specs.Making.{numbers, kind_at, cell_on};
ghost use Rattle.safl_net.specs.Stored.{cell_of};
ghost use Rattle.safl_order.specs.Order.{IsOrder};
ghost use Rattle.safl_opt.specs.Lean.{is_constant};
ghost use Rattle.safl_opt.specs.Values.{IsNext, Adds, kept_in, is_named_wire};
ghost use Rattle.safl_net.specs.Netlist.{is_input, is_register};
ghost use Rattle.safl_opt.specs.Values.{sig_at, is_fixed, Folds, IsReady, IsFixed, Comes, IsPut, IsSet};

use crate::names::{is_numbered, is_temporary};
use crate::node::{Node, Nodes};
use safl_net::{Cell, Net, Op, Sig, SigKind};
use safl_word::{Word, apply};
use std::alloc::{AllocError, Global};

/// The values of a net. The first are those of the kept signals: inputs, registers and named wires, in order. Every
/// other value is given by a node.
#[derive(Drop)]
pub struct Values {
    /// The number of kept signals.
    pub kept: u32,
    /// For each value, a signal that has it.
    pub signals: Vec<Sig>,
    pub nodes: Nodes,
    /// For each signal, its value.
    pub ids: Vec<Sig>,
}

/// What a cell comes to: a value that is there already, or the node of another one.
#[derive(Clone, Copy)]
pub enum Made {
    Same(Sig),
    New(Node),
}

/// The values of a net, found in an order of evaluation of its wires.
pub fn fold(alloc: Global, net: &Net, wires: &[Sig]) -> Result<Values, AllocError>
    requires few { length net.now.signals < 2 ^ 31 }
    requires order { IsOrder net.now (numbers wires.now) }
    ensures { IfOk result (λ f. Folds net.now (numbers wires.now) (length wires.now) f) }
{
    let mut values = Values::new(alloc, net)?;
    'wires: for i in 0..wires.len() {
        values.add(net, wires[i])?;
    }
    Ok(values)
}

impl Values {
    // The values of the kept signals.
    fn new(alloc: Global, net: &Net) -> Result<Values, AllocError>
        requires { length net.now.signals < 2 ^ 31 }
        ensures { IfOk result (λ f. (ws : List ℕ) → Folds net.now ws 0 f) }
    {
        let signals = kept_signals(alloc, net)?;
        let ids = number(alloc, net.signals() as usize, signals.as_slice())?;
        Ok(Values {
            kept: signals.len() as u32,
            signals,
            nodes: Nodes::new(alloc),
            ids,
        })
    }

    // Adds the value of a wire whose operands have theirs.
    fn add(&mut self, net: &Net, wire: Sig) -> Result<(), AllocError>
        requires few { length net.now.signals < 2 ^ 31 }
        requires next { IsNext net.now self.old wire.0 }
        ensures { OnOk result (Adds net.now self.old wire.0 self.new) }
    {
        let _count = net.signals();
        if !is_temporary(net, wire) {
            return Ok(());
        }
        match net.cell(wire) {
            Some(cell) => match self.made(net, cell) {
                Made::Same(id) => {
                    self.set(wire, id);
                    Ok(())
                }
                Made::New(node) => {
                    let id = self.put(wire, node)?;
                    self.set(wire, id);
                    Ok(())
                }
            },
            None => unreachable!(),
        }
    }

    // The value of a node. If it is a new one, `wire` is the signal that has it.
    fn put(&mut self, wire: Sig, node: Node) -> Result<Sig, AllocError>
        requires counted { length self.old.signals.items ≡ self.old.kept + length self.old.nodes }
        requires room { self.old.kept + length self.old.nodes < 2 ^ 32 }
        ensures { IfOk result (λ x. IsPut self.old self.new wire node x.0) }
    {
        let place = self.nodes.place(node)?;
        let id = Sig(self.kept + place as u32);
        if id.0 as usize == self.signals.len() {
            self.signals.push(wire)?;
        }
        Ok(id)
    }

    fn set(&mut self, wire: Sig, id: Sig)
        requires { wire.0 < length self.old.ids.items }
        ensures { IsSet self.old self.new wire id }
    {
        self.ids[wire.0 as usize] = id;
    }

    // The word of a value that is a constant.
    fn constant(&self, net: &Net, id: Sig) -> Option<Word>
        requires folds { (ws : List ℕ) × (count : ℕ) × Folds net.now ws count self.now }
        requires known { id.0 < length self.now.signals.items }
        ensures fixed { IfSome result (λ w. IsFixed net.now self.now id.0 w) }
        ensures test { is_some result ≡ is_fixed net.now self.now.kept self.now.signals.items self.now.nodes id.0 }
    {
        let _count = net.signals();
        if id.0 < self.kept {
            return constant_cell(net, self.signals[id.0 as usize]);
        }
        match self.nodes.at((id.0 - self.kept) as usize) {
            Node::Const(w) => Some(w),
            _ => None,
        }
    }

    fn id(&self, s: Sig) -> Sig
        requires { s.0 < length self.now.ids.items }
        ensures { result.0 ≡ sig_at self.now.ids.items s.0 }
    {
        self.ids[s.0 as usize]
    }

    // What a cell comes to.
    fn made(&self, net: &Net, cell: &Cell) -> Made
        requires { IsReady net.now self.now (cell_of cell.now) }
        ensures { Comes net.now self.now (cell_of cell.now) result }
    {
        match cell.operands.as_slice() {
            [] => match cell.op {
                Op::Const(w) => Made::New(Node::Const(w)),
                _ => unreachable!(),
            },
            [a] => self.made_of_one(net, cell.op, *a),
            [a, b] => self.made_of_two(net, cell.op, *a, *b),
            [c, a, b] => self.chosen(net, *c, *a, *b),
            _ => unreachable!(),
        }
    }

    fn made_of_one(&self, net: &Net, op: Op, a: Sig) -> Made
        requires { IsReady net.now self.now (cell_on op (a ∷ [])) }
        ensures { Comes net.now self.now (cell_on op (a ∷ [])) result }
    {
        let x = self.id(a);
        match op {
            Op::Apply(p) => match self.constant(net, x) {
                Some(w) => Made::New(Node::Const(apply(p, &[w]))),
                None => Made::New(Node::One(p, x)),
            },
            Op::Copy => Made::Same(x),
            _ => unreachable!(),
        }
    }

    fn made_of_two(&self, net: &Net, op: Op, a: Sig, b: Sig) -> Made
        requires { IsReady net.now self.now (cell_on op (a ∷ b ∷ [])) }
        ensures { Comes net.now self.now (cell_on op (a ∷ b ∷ [])) result }
    {
        let x = self.id(a);
        let y = self.id(b);
        match op {
            Op::Apply(p) => match self.constant(net, x) {
                Some(u) => match self.constant(net, y) {
                    Some(v) => Made::New(Node::Const(apply(p, &[u, v]))),
                    None => Made::New(Node::Two(p, x, y)),
                },
                None => Made::New(Node::Two(p, x, y)),
            },
            _ => unreachable!(),
        }
    }

    fn chosen(&self, net: &Net, c: Sig, a: Sig, b: Sig) -> Made
        requires { IsReady net.now self.now (cell_on Op.Mux (c ∷ a ∷ b ∷ [])) }
        ensures { Comes net.now self.now (cell_on Op.Mux (c ∷ a ∷ b ∷ [])) result }
    {
        let z = self.id(c);
        let x = self.id(a);
        let y = self.id(b);
        if x.0 == y.0 {
            return Made::Same(x);
        }
        match self.constant(net, z) {
            Some(w) => {
                if w.bits() == 1 {
                    Made::Same(x)
                } else {
                    Made::Same(y)
                }
            }
            None => Made::New(Node::Mux(z, x, y)),
        }
    }
}

// A table in which the value of each of these signals is its place in the list.
fn number(alloc: Global, count: usize, signals: &[Sig]) -> Result<Vec<Sig>, AllocError>
    requires known { (x : ℕ) → x < length signals.now → sig_at signals.now x < count }
    requires apart { (x y : ℕ) → x < length signals.now → y < length signals.now → sig_at signals.now x ≡ sig_at signals.now y → x ≡ y }
    requires few { length signals.now < 2 ^ 32 }
    ensures long { IfOk result (λ ids. length ids.items ≡ count) }
    ensures own { IfOk result (λ ids. (x : ℕ) → x < length signals.now → sig_at ids.items (sig_at signals.now x) ≡ x) }
{
    let mut ids = vec![in alloc; Sig(0); count]?;
    'signals: for i in 0..signals.len() {
        ids[signals[i].0 as usize] = Sig(i as u32);
    }
    Ok(ids)
}

// The word of a wire that is a constant.
fn constant_cell(net: &Net, s: Sig) -> Option<Word>
    requires { s.0 < length net.now.signals }
    ensures fixed { IfSome result (λ w. (xs : List ℕ) × (kind_at net.now s.0 ≡ Wire (Some (record { op = Op.Const w; operands = xs })))) }
    ensures test { is_some result ≡ is_constant net.now s.0 }
{
    match net.kind(s) {
        SigKind::Wire => match net.cell(s) {
            Some(cell) => match cell.op {
                Op::Const(w) => Some(w),
                _ => None,
            },
            None => None,
        },
        _ => None,
    }
}

// The inputs, the registers and the named wires, each in order.
fn kept_signals(alloc: Global, net: &Net) -> Result<Vec<Sig>, AllocError>
    ensures { IfOk result (λ v. numbers v.items ≡ kept_in net.now) }
{
    let mut signals = Vec::new(alloc);
    'inputs: for i in 0..net.signals() {
        push_input(&mut signals, net, Sig(i))?;
    }
    'registers: for i in 0..net.signals() {
        push_register(&mut signals, net, Sig(i))?;
    }
    'wires: for i in 0..net.signals() {
        push_named(&mut signals, net, Sig(i))?;
    }
    Ok(signals)
}

fn push_input(signals: &mut Vec<Sig>, net: &Net, s: Sig) -> Result<(), AllocError>
    requires { s.0 < length net.now.signals }
    ensures { OnOk result (numbers signals.new.items ≡ numbers signals.old.items ++ cond (is_input (kind_at net.now s.0)) (s.0 ∷ []) []) }
{
    match net.kind(s) {
        SigKind::Input => {
            signals.push(s)?;
            Ok(())
        }
        _ => Ok(()),
    }
}

fn push_register(signals: &mut Vec<Sig>, net: &Net, s: Sig) -> Result<(), AllocError>
    requires { s.0 < length net.now.signals }
    ensures { OnOk result (numbers signals.new.items ≡ numbers signals.old.items ++ cond (is_register (kind_at net.now s.0)) (s.0 ∷ []) []) }
{
    match net.kind(s) {
        SigKind::Reg => {
            signals.push(s)?;
            Ok(())
        }
        _ => Ok(()),
    }
}

fn push_named(signals: &mut Vec<Sig>, net: &Net, s: Sig) -> Result<(), AllocError>
    requires { s.0 < length net.now.signals }
    ensures { OnOk result (numbers signals.new.items ≡ numbers signals.old.items ++ cond (is_named_wire net.now s.0) (s.0 ∷ []) []) }
{
    match net.kind(s) {
        SigKind::Wire => {
            if !is_numbered(net.name(s).as_bytes()) {
                signals.push(s)?;
            }
            Ok(())
        }
        _ => Ok(()),
    }
}
