//! The optimised net, built from the values of a net.

ghost use Rattle.std.specs.Prelude.{◌≡◌, ◌<◌, ◌≤◌, ◌+◌, ◌^◌, ℕ, List, [], ◌∷◌, ◌++◌, Some, None, All, map, length, slice_get, IfOk, OnOk, OnErr};
ghost use Rattle.safl_word.specs.Limits.{count_max, width_max};
ghost use Rattle.safl_net.specs.Netlist.{Input, Reg, Wire, width_of};
ghost use Rattle.safl_net.specs.Valuations.{reset_state};
ghost use Rattle.safl_net.specs.Widths.{op_width};
ghost use Rattle.safl_net.specs.Making.{refusal, kind_at, name_at, sort_of, numbers, with_signal, with_kind, with_output, cell_on, width_on};
ghost use Rattle.safl_net.specs.declared.cell.Sig.{Sig};
ghost use Rattle.safl_net.specs.Names.{IsTidy};
ghost use Rattle.safl_net.specs.Rules.{IsNetlist};
ghost use Rattle.safl_order.specs.Order.{IsOrder};
ghost use Rattle.safl_opt.specs.Nodes.{node_op, node_operands};
ghost use Rattle.safl_opt.specs.Values.{sig_at, Folds};
ghost use Rattle.safl_opt.specs.Building.{AreRead, Builds, open_signal, node_cell, new_number, new_kind, IsAdded};
ghost use Rattle.safl_opt.specs.Stages.{Declared, Placed, HaveNumbers, IsTurn, AreListed, SetBelow, AreNamed, Shown};

use crate::fold::Values;
use crate::node::Node;
use arrayvec::ArrayVec;
use safl_net::{Net, NetErr, Op, Sig, SigKind};
use safl_word::{NoMemory, Word};
use std::alloc::Global;

/// The net of the values that are read: first the kept signals, in order, then a temporary for each node that is read.
pub fn build(alloc: Global, old: &Net, values: &Values, read: &[bool]) -> Result<Net, NoMemory>
    requires few { length old.now.signals < 2 ^ 31 }
    requires tidy { IsTidy old.now }
    requires folds { (ws : List ℕ) × IsOrder old.now ws × Folds old.now ws (length ws) values.now }
    requires read { AreRead old.now values.now read.now }
    ensures built { IfOk result (λ m. (made : List Sig) × Builds old.now values.now read.now made m) }
    ensures tidy { IfOk result (λ m. IsTidy m) }
    ensures netlist { IfOk result (λ m. IsNetlist m) }
{
    let mut net = Net::new(alloc);
    declare_kept(&mut net, old, values)?;
    let made = make_nodes(alloc, &mut net, old, values, read)?;
    set_kept(&mut net, old, values, read, made.as_slice());
    show_outputs(&mut net, old, values, made.as_slice())?;
    let _count = net.signals();
    Ok(net)
}

// Adds the kept signals. Their cells and next signals are set later.
fn declare_kept(net: &mut Net, old: &Net, values: &Values) -> Result<(), NoMemory>
    requires few { length old.now.signals < 2 ^ 31 }
    requires folds { (ws : List ℕ) × Folds old.now ws (length ws) values.now }
    requires empty { net.old ≡ record { signals = []; outputs = [] } }
    ensures { OnOk result (Declared old.now values.now values.now.kept net.new) }
{
    let _count = old.signals();
    'kept: for i in 0..values.kept {
        declare(net, old, values.signals[i as usize])?;
    }
    Ok(())
}

// Adds a signal with the name, width and kind of `s`, which is set later.
fn declare(net: &mut Net, old: &Net, s: Sig) -> Result<(), NoMemory>
    requires known { s.0 < length old.now.signals }
    requires room { length net.old.signals < count_max }
    requires free { refusal net.old (name_at old.now s.0) ≡ None }
    ensures added { OnOk result (net.new ≡ with_signal net.old (open_signal old.now s.0)) }
{
    let _count = old.signals();
    match old.kind(s) {
        SigKind::Input => declare_input(net, old.name(s), old.width(s)),
        SigKind::Reg => declare_register(net, old.name(s), old.init(s)),
        SigKind::Wire => declare_wire(net, old.name(s), old.width(s)),
    }
}

fn declare_input(net: &mut Net, name: &str, width: u8) -> Result<(), NoMemory>
    requires some { 1 ≤ width }
    requires most { width ≤ width_max }
    requires room { length net.old.signals < count_max }
    requires free { refusal net.old name.now ≡ None }
    ensures added { OnOk result (net.new ≡ with_signal net.old (record { name = name.now; width = width; kind = Input })) }
{
    match net.input(name, width) {
        Ok(_) => Ok(()),
        Err(NetErr::NoMemory) => Err(NoMemory),
        Err(NetErr::BadName | NetErr::NameTaken) => unreachable!(),
    }
}

fn declare_register(net: &mut Net, name: &str, init: Word) -> Result<(), NoMemory>
    requires room { length net.old.signals < count_max }
    requires free { refusal net.old name.now ≡ None }
    ensures added { OnOk result (net.new ≡ with_signal net.old (record { name = name.now; width = init.width; kind = Reg init.bits None })) }
{
    match net.reg(name, init) {
        Ok(_) => Ok(()),
        Err(NetErr::NoMemory) => Err(NoMemory),
        Err(NetErr::BadName | NetErr::NameTaken) => unreachable!(),
    }
}

fn declare_wire(net: &mut Net, name: &str, width: u8) -> Result<(), NoMemory>
    requires some { 1 ≤ width }
    requires most { width ≤ width_max }
    requires room { length net.old.signals < count_max }
    requires free { refusal net.old name.now ≡ None }
    ensures added { OnOk result (net.new ≡ with_signal net.old (record { name = name.now; width = width; kind = Wire None })) }
{
    match net.wire(name, width) {
        Ok(_) => Ok(()),
        Err(NetErr::NoMemory) => Err(NoMemory),
        Err(NetErr::BadName | NetErr::NameTaken) => unreachable!(),
    }
}

// Adds a temporary for each node that is read. Returns the signals of all values.
fn make_nodes(
    alloc: Global,
    net: &mut Net,
    old: &Net,
    values: &Values,
    read: &[bool],
) -> Result<Vec<Sig>, NoMemory>
    requires few { length old.now.signals < 2 ^ 31 }
    requires tidy { IsTidy old.now }
    requires folds { (ws : List ℕ) × IsOrder old.now ws × Folds old.now ws (length ws) values.now }
    requires read { AreRead old.now values.now read.now }
    requires declared { Declared old.now values.now values.now.kept net.old }
    ensures { IfOk result (λ made. Placed old.now values.now read.now (length values.now.nodes) made.items net.new) }
{
    let _count = old.signals();
    let mut made = own_numbers(alloc, values.kept, values.signals.len())?;
    'nodes: for i in 0..values.nodes.len() {
        let s = place_node(net, old, values, read, made.as_slice(), i)?;
        made.push(s)?;
    }
    Ok(made)
}

// The new signals of the kept values: each has the number of its value. There is room for `count` signals.
fn own_numbers(alloc: Global, kept: u32, count: usize) -> Result<Vec<Sig>, NoMemory>
    ensures long { IfOk result (λ made. length made.items ≡ kept) }
    ensures own { IfOk result (λ made. (x : ℕ) → x < kept → sig_at made.items x ≡ x) }
{
    let mut made = Vec::with_capacity(alloc, count)?;
    'kept: for i in 0..kept {
        made.push(Sig(i))?;
    }
    Ok(made)
}

// The temporary of the node at `place`, or any signal if the node is not read.
fn place_node(
    net: &mut Net,
    old: &Net,
    values: &Values,
    read: &[bool],
    made: &[Sig],
    place: usize,
) -> Result<Sig, NoMemory>
    requires few { length old.now.signals < 2 ^ 31 }
    requires folds { (ws : List ℕ) × IsOrder old.now ws × Folds old.now ws (length ws) values.now }
    requires read { AreRead old.now values.now read.now }
    requires placed { Placed old.now values.now read.now place made.now net.old }
    requires within { place < length values.now.nodes }
    ensures { IfOk result (λ s. Placed old.now values.now read.now (place + 1) (made.now ++ s ∷ []) net.new) }
{
    let _count = old.signals();
    if !read[values.kept as usize + place] {
        return Ok(Sig(0));
    }
    make_node(net, made, values.nodes.at(place))
}

fn make_node(net: &mut Net, made: &[Sig], node: Node) -> Result<Sig, NoMemory>
    requires tidy { IsTidy net.old }
    requires room { length net.old.signals < count_max }
    requires operands { (i x : ℕ) → slice_get (node_operands node) i ≡ Some x → (x < length made.now) × (sig_at made.now x < length net.old.signals) }
    requires fits { (w : ℕ) × (op_width (node_op node) (map (width_of net.old) (map (sig_at made.now) (node_operands node))) ≡ Some w) }
    ensures added { OnOk result (IsAdded net.old net.new (node_cell made.now node)) }
    ensures numbered { IfOk result (λ s. s.0 ≡ length net.old.signals) }
    ensures tidy { IsTidy net.new }
    ensures refused { OnErr result (net.new ≡ net.old) }
{
    match node {
        Node::Const(w) => net.temp(Op::Const(w), &[]),
        Node::One(p, a) => net.temp(Op::Apply(p), &[made[a.0 as usize]]),
        Node::Two(p, a, b) => net.temp(Op::Apply(p), &[made[a.0 as usize], made[b.0 as usize]]),
        Node::Mux(c, a, b) => net.temp(
            Op::Mux,
            &[made[c.0 as usize], made[a.0 as usize], made[b.0 as usize]],
        ),
    }
}

// The new signal that has the value of `s`.
fn new_number(values: &Values, made: &[Sig], s: Sig) -> Sig
    requires known { s.0 < length values.now.ids.items }
    requires listed { sig_at values.now.ids.items s.0 < length made.now }
    ensures { result.0 ≡ new_number values.now made.now s.0 }
{
    made[values.ids[s.0 as usize].0 as usize]
}

// Sets the next signal of each kept register and the cell of each kept wire.
fn set_kept(net: &mut Net, old: &Net, values: &Values, read: &[bool], made: &[Sig])
    requires folds { (ws : List ℕ) × IsOrder old.now ws × Folds old.now ws (length ws) values.now }
    requires read { AreRead old.now values.now read.now }
    requires placed { Placed old.now values.now read.now (length values.now.nodes) made.now net.old }
    ensures below { SetBelow old.now values.now made.now net.old values.now.kept net.new }
    ensures numbers { HaveNumbers old.now values.now made.now net.new }
{
    let _count = old.signals();
    'kept: for i in 0..values.kept {
        set(net, old, values, made, i, values.signals[i as usize]);
    }
}

fn set(net: &mut Net, old: &Net, values: &Values, made: &[Sig], i: u32, from: Sig)
    requires { IsTurn old.now values.now made.now i from.0 net.old }
    ensures { net.new ≡ with_kind net.old i (new_kind values.now made.now (kind_at old.now (sig_at values.now.signals.items i))) }
{
    let _count = old.signals();
    match old.kind(from) {
        SigKind::Input => {}
        SigKind::Reg => set_register(net, old, values, made, i, from),
        SigKind::Wire => set_wire(net, old, values, made, i, from),
    }
}

fn set_register(net: &mut Net, old: &Net, values: &Values, made: &[Sig], i: u32, from: Sig)
    requires turn { IsTurn old.now values.now made.now i from.0 net.old }
    requires register { sort_of (kind_at old.now from.0) ≡ SigKind.Reg }
    ensures { net.new ≡ with_kind net.old i (new_kind values.now made.now (kind_at old.now (sig_at values.now.signals.items i))) }
{
    let _count = old.signals();
    match old.next(from) {
        Some(next) => set_next(net, Sig(i), new_number(values, made, next)),
        None => unreachable!(),
    }
}

fn set_wire(net: &mut Net, old: &Net, values: &Values, made: &[Sig], i: u32, from: Sig)
    requires turn { IsTurn old.now values.now made.now i from.0 net.old }
    requires wire { sort_of (kind_at old.now from.0) ≡ SigKind.Wire }
    ensures { net.new ≡ with_kind net.old i (new_kind values.now made.now (kind_at old.now (sig_at values.now.signals.items i))) }
{
    let _count = old.signals();
    match old.cell(from) {
        Some(cell) => {
            let operands = new_numbers(values, made, cell.operands.as_slice());
            set_cell(net, Sig(i), cell.op, operands.as_slice());
        }
        None => unreachable!(),
    }
}

fn new_numbers(values: &Values, made: &[Sig], all: &[Sig]) -> ArrayVec<Sig, 3>
    requires few { length all.now ≤ 3 }
    requires listed { AreListed values.now made.now (numbers all.now) }
    ensures { numbers result.items ≡ map (new_number values.now made.now) (numbers all.now) }
{
    let mut operands = ArrayVec::new();
    for x in all {
        operands.push(new_number(values, made, *x));
    }
    operands
}

fn set_next(net: &mut Net, r: Sig, next: Sig)
    requires open { kind_at net.old r.0 ≡ Reg (reset_state net.old r.0) None }
    requires known { next.0 < length net.old.signals }
    requires fits { width_of net.old next.0 ≡ width_of net.old r.0 }
    ensures { net.new ≡ with_kind net.old r.0 (Reg (reset_state net.old r.0) (Some next.0)) }
{
    match net.set_next(r, next) {
        Ok(()) => {}
        Err(_) => unreachable!(),
    }
}

fn set_cell(net: &mut Net, s: Sig, op: Op, operands: &[Sig])
    requires open { kind_at net.old s.0 ≡ Wire None }
    requires known { All (λ x. x.0 < length net.old.signals) operands.now }
    requires fits { width_on net.old op operands.now ≡ Some (width_of net.old s.0) }
    ensures { net.new ≡ with_kind net.old s.0 (Wire (Some (cell_on op operands.now))) }
{
    match net.set_cell(s, op, operands) {
        Ok(()) => {}
        Err(_) => unreachable!(),
    }
}

// Adds the outputs. Each shows the new signal of its value.
fn show_outputs(net: &mut Net, old: &Net, values: &Values, made: &[Sig]) -> Result<(), NoMemory>
    requires tidy { IsTidy old.now }
    requires numbers { HaveNumbers old.now values.now made.now net.old }
    requires named { AreNamed old.now net.old }
    requires empty { net.old.outputs ≡ [] }
    requires new_tidy { IsTidy net.old }
    ensures { OnOk result (Shown old.now values.now made.now net.old (length old.now.outputs) net.new) }
{
    let _count = old.signals();
    'outputs: for i in 0..old.outputs() {
        let s = new_number(values, made, old.output_sig(i));
        add_output(net, old.output_name(i), s)?;
    }
    Ok(())
}

fn add_output(net: &mut Net, name: &str, s: Sig) -> Result<(), NoMemory>
    requires known { s.0 < length net.old.signals }
    requires room { length net.old.outputs < count_max }
    requires free { refusal net.old name.now ≡ None }
    ensures added { OnOk result (net.new ≡ with_output net.old name.now s.0) }
{
    match net.output(name, s) {
        Ok(()) => Ok(()),
        Err(NetErr::NoMemory) => Err(NoMemory),
        Err(NetErr::BadName | NetErr::NameTaken) => unreachable!(),
    }
}
