//! Liveness: which values are read.

ghost use Rattle.std.specs.Prelude.{◌≡◌, ◌<◌, ◌≤◌, ◌+◌, ℕ, List, true, false, length, IfOk};
ghost use Rattle.safl_order.specs.Order.{IsOrder, IsWire};
ghost use Rattle.safl_opt.specs.Values.{sig_at, Folds};
ghost use Rattle.safl_opt.specs.Building.{AreRead, AreNeeded, Marks, IsOperandAt, ReadsLower, IsValueOf, HasReader, HasOperand, HasValues};
ghost use Rattle.safl_word.specs.Lists.{bool_at};

use crate::fold::Values;
use crate::names::is_temporary;
use crate::node::Node;
use safl_net::{Net, Sig, SigKind};
use std::alloc::{AllocError, Global};

/// Which values are read: by an output, a register, a named wire, or the node of a value that is read.
pub fn read_values(alloc: Global, net: &Net, values: &Values) -> Result<Vec<bool>, AllocError>
    requires { (ws : List ℕ) × IsOrder net.now ws × Folds net.now ws (length ws) values.now }
    ensures read { IfOk result (λ r. AreRead net.now values.now r.items) }
    ensures needed { IfOk result (λ r. AreNeeded net.now values.now r.items) }
{
    let mut read = vec![in alloc; false; values.signals.len()]?;
    mark_values(&mut read, net, values);
    Ok(read)
}

// Marks the values that are read. Nothing is marked before.
fn mark_values(read: &mut [bool], net: &Net, values: &Values)
    requires folds { (ws : List ℕ) × IsOrder net.now ws × Folds net.now ws (length ws) values.now }
    requires long { length read.old ≡ length values.now.signals.items }
    requires empty { (x : ℕ) → bool_at read.old x ≡ false }
    ensures read { AreRead net.now values.now read.new }
    ensures needed { AreNeeded net.now values.now read.new }
{
    let _count = net.signals();
    'signals: for i in 0..net.signals() {
        mark_signal(read, net, values, Sig(i));
    }
    'outputs: for i in 0..net.outputs() {
        mark(read, values, net.output_sig(i));
    }
    let mut count = values.nodes.len();
    'nodes: while count > 0 {
        count -= 1;
        mark_node(read, values, count);
    }
}

// Marks the value of a signal.
fn mark(read: &mut [bool], values: &Values, s: Sig)
    requires known { s.0 < length values.now.ids.items }
    requires within { sig_at values.now.ids.items s.0 < length read.old }
    ensures { Marks read.old read.new (IsValueOf values.now s.0) }
{
    read[values.ids[s.0 as usize].0 as usize] = true;
}

// Marks what a kept signal reads.
fn mark_signal(read: &mut [bool], net: &Net, values: &Values, s: Sig)
    requires known { s.0 < length net.now.signals }
    requires values { HasValues net.now values.now (length read.old) }
    ensures { Marks read.old read.new (HasReader net.now values.now s.0) }
{
    let _count = net.signals();
    match net.kind(s) {
        SigKind::Input => {}
        SigKind::Reg => match net.next(s) {
            Some(next) => mark(read, values, next),
            None => {}
        },
        SigKind::Wire => {
            if !is_temporary(net, s) {
                mark_operands(read, net, values, s);
            }
        }
    }
}

fn mark_operands(read: &mut [bool], net: &Net, values: &Values, s: Sig)
    requires wire { IsWire net.now s.0 }
    requires known { s.0 < length net.now.signals }
    requires values { HasValues net.now values.now (length read.old) }
    ensures { Marks read.old read.new (HasOperand net.now values.now s.0) }
{
    let _count = net.signals();
    match net.cell(s) {
        Some(cell) => mark_all(read, values, cell.operands.as_slice()),
        None => {}
    }
}

fn mark_all(read: &mut [bool], values: &Values, all: &[Sig])
    requires known { (k : ℕ) → k < length all.now → sig_at all.now k < length values.now.ids.items }
    requires within { (k : ℕ) → k < length all.now → sig_at values.now.ids.items (sig_at all.now k) < length read.old }
    ensures { Marks read.old read.new (λ x. (k : ℕ) × (k < length all.now) × (sig_at values.now.ids.items (sig_at all.now k) ≡ x)) }
{
    'all: for i in 0..all.len() {
        mark(read, values, all[i]);
    }
}

// Marks what the node at a place reads, if its own value is read.
fn mark_node(read: &mut [bool], values: &Values, place: usize)
    requires place { place < length values.now.nodes }
    requires room { values.now.kept + length values.now.nodes ≤ length read.old }
    requires known { ReadsLower values.now place }
    ensures { Marks read.old read.new (IsOperandAt values.now read.old place) }
{
    if !read[values.kept as usize + place] {
        return;
    }
    match values.nodes.at(place) {
        Node::Const(_) => {}
        Node::One(_, a) => read[a.0 as usize] = true,
        Node::Two(_, a, b) => {
            read[a.0 as usize] = true;
            read[b.0 as usize] = true;
        }
        Node::Mux(c, a, b) => {
            read[c.0 as usize] = true;
            read[a.0 as usize] = true;
            read[b.0 as usize] = true;
        }
    }
}
