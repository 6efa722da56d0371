//! Nets as lists of lines.
//!
//! What the calls of a net require is tested when the tests run, so that their proofs need to know nothing of the net.

ghost use Rattle.std.specs.Prelude.{◌≡◌, ◌<◌, All, None, false, length, IfOk, IsSome};
ghost use Rattle.safl_word.specs.Limits.{count_max};
ghost use Rattle.safl_net.specs.Netlist.{Reg, Wire};
ghost use Rattle.safl_net.specs.Valuations.{reset_state};
ghost use Rattle.safl_net.specs.Making.{kind_at, width_on};
ghost use Rattle.safl_net.specs.Names.{is_temp, IsTidy};

use arrayvec::ArrayVec;
use safl_net::{Net, NetErr, Op, Sig, SigKind, WidthsDiffer, op_width};
use safl_word::{Primitive, Raw, Word};
use std::alloc::Global;

/// The operation of a cell.
#[derive(Clone, Copy)]
pub enum Does {
    Const(u8, Raw),
    Copy,
    Mux,
    Apply(Primitive),
}

/// A line of a net: a signal, a cell, a next signal or an output. Signals are numbered in order.
#[derive(Clone, Copy)]
pub enum Line {
    Input(&'static str, u8),
    /// A register: its name, its width, and its number at reset.
    Reg(&'static str, u8, Raw),
    /// A named wire of this width, without a cell.
    Wire(&'static str, u8),
    Temp(Does, &'static [Sig]),
    Set(Sig, Does, &'static [Sig]),
    Next(Sig, Sig),
    Output(&'static str, Sig),
}

/// Why the net of some lines is not built.
#[derive(Clone, Copy, Debug, PartialEq, Eq)]
pub enum Fault {
    Unfit,
    NoMemory,
    Name(NetErr),
    Width(WidthsDiffer),
}

/// The net of the lines.
pub fn made(alloc: Global, lines: &[Line]) -> Result<Net, Fault>
    ensures { IfOk result (λ m. IsTidy m) }
{
    let mut net = Net::new(alloc);
    'lines: for line in lines {
        add(&mut net, line)?;
    }
    Ok(net)
}

fn add(net: &mut Net, line: &Line) -> Result<(), Fault>
    requires { IsTidy net.old }
    ensures { IsTidy net.new }
{
    match *line {
        Line::Input(name, width) => add_signal(net, SigKind::Input, name, Word::new(width, 0)),
        Line::Reg(name, width, init) => {
            add_signal(net, SigKind::Reg, name, Word::new(width, init))
        }
        Line::Wire(name, width) => add_signal(net, SigKind::Wire, name, Word::new(width, 0)),
        Line::Temp(does, operands) => add_temporary(net, does, operands),
        Line::Set(s, does, operands) => set(net, s, does, operands),
        Line::Next(r, s) => set_next(net, r, s),
        Line::Output(name, s) => add_output(net, name, s),
    }
}

// Whether the name begins with `n$`.
fn is_temp(name: &str) -> bool
    ensures { result ≡ is_temp name.now }
{
    matches!(name.as_bytes(), [b'n', b'$', ..])
}

// Adds a signal with the width of `word`. A register has that word at reset.
fn add_signal(net: &mut Net, kind: SigKind, name: &str, word: Option<Word>) -> Result<(), Fault>
    requires { IsTidy net.old }
    ensures { IsTidy net.new }
{
    if is_temp(name) || net.signals() == u32::MAX {
        return Err(Fault::Unfit);
    }
    match word {
        Some(word) => match place(net, kind, name, word) {
            Ok(_) => Ok(()),
            Err(e) => Err(Fault::Name(e)),
        },
        None => Err(Fault::Unfit),
    }
}

fn place(net: &mut Net, kind: SigKind, name: &str, word: Word) -> Result<Sig, NetErr>
    requires tidy { IsTidy net.old }
    requires named { is_temp name.now ≡ false }
    requires room { length net.old.signals < count_max }
    ensures { IsTidy net.new }
{
    match kind {
        SigKind::Input => net.input(name, word.width()),
        SigKind::Reg => net.reg(name, word),
        SigKind::Wire => net.wire(name, word.width()),
    }
}

fn add_output(net: &mut Net, name: &str, s: Sig) -> Result<(), Fault>
    requires { IsTidy net.old }
    ensures { IsTidy net.new }
{
    if is_temp(name) {
        return Err(Fault::Unfit);
    }
    if s.0 >= net.signals() || net.outputs() == u32::MAX {
        return Err(Fault::Unfit);
    }
    match net.output(name, s) {
        Ok(()) => Ok(()),
        Err(e) => Err(Fault::Name(e)),
    }
}

fn op_of(does: Does) -> Result<Op, Fault> {
    match does {
        Does::Const(width, bits) => match Word::new(width, bits) {
            Some(word) => Ok(Op::Const(word)),
            None => Err(Fault::Unfit),
        },
        Does::Copy => Ok(Op::Copy),
        Does::Mux => Ok(Op::Mux),
        Does::Apply(p) => Ok(Op::Apply(p)),
    }
}

// The width of an operation on at most three signals of the net.
fn width_on(net: &Net, op: &Op, operands: &[Sig]) -> Option<u8>
    requires { All (λ s. s.0 < length net.now.signals) operands.now }
    ensures { IsSome result → IsSome (width_on net.now op.now operands.now) }
{
    if operands.len() > 3 {
        return None;
    }
    let mut widths: ArrayVec<u8, 3> = ArrayVec::new();
    for s in operands {
        widths.push(net.width(*s));
    }
    op_width(*op, widths.as_slice())
}

fn add_temporary(net: &mut Net, does: Does, operands: &[Sig]) -> Result<(), Fault>
    requires { IsTidy net.old }
    ensures { IsTidy net.new }
{
    let op = op_of(does)?;
    let count = net.signals();
    if count == u32::MAX {
        return Err(Fault::Unfit);
    }
    if !operands.iter().all(|x| x.0 < count) {
        return Err(Fault::Unfit);
    }
    match width_on(net, &op, operands) {
        Some(_) => place_temporary(net, op, operands),
        None => Err(Fault::Unfit),
    }
}

fn place_temporary(net: &mut Net, op: Op, operands: &[Sig]) -> Result<(), Fault>
    requires tidy { IsTidy net.old }
    requires known { All (λ s. s.0 < length net.old.signals) operands.now }
    requires fits { IsSome (width_on net.old op operands.now) }
    requires room { length net.old.signals < count_max }
    ensures { IsTidy net.new }
{
    match net.temp(op, operands) {
        Ok(_) => Ok(()),
        Err(_) => Err(Fault::NoMemory),
    }
}

fn set(net: &mut Net, s: Sig, does: Does, operands: &[Sig]) -> Result<(), Fault>
    requires { IsTidy net.old }
    ensures { IsTidy net.new }
{
    let op = op_of(does)?;
    let count = net.signals();
    if s.0 >= count || net.kind(s) != SigKind::Wire || net.cell(s).is_some() {
        return Err(Fault::Unfit);
    }
    if !operands.iter().all(|x| x.0 < count) {
        return Err(Fault::Unfit);
    }
    set_open(net, s, op, operands)
}

fn set_open(net: &mut Net, s: Sig, op: Op, operands: &[Sig]) -> Result<(), Fault>
    requires tidy { IsTidy net.old }
    requires open { kind_at net.old s.0 ≡ Wire None }
    requires known { All (λ x. x.0 < length net.old.signals) operands.now }
    ensures { IsTidy net.new }
{
    match net.set_cell(s, op, operands) {
        Ok(()) => Ok(()),
        Err(e) => Err(Fault::Width(e)),
    }
}

fn set_next(net: &mut Net, r: Sig, s: Sig) -> Result<(), Fault>
    requires { IsTidy net.old }
    ensures { IsTidy net.new }
{
    let count = net.signals();
    if r.0 >= count || net.kind(r) != SigKind::Reg || net.next(r).is_some() {
        return Err(Fault::Unfit);
    }
    if s.0 >= count {
        return Err(Fault::Unfit);
    }
    set_open_next(net, r, s)
}

fn set_open_next(net: &mut Net, r: Sig, s: Sig) -> Result<(), Fault>
    requires tidy { IsTidy net.old }
    requires open { kind_at net.old r.0 ≡ Reg (reset_state net.old r.0) None }
    requires known { s.0 < length net.old.signals }
    ensures { IsTidy net.new }
{
    match net.set_next(r, s) {
        Ok(()) => Ok(()),
        Err(e) => Err(Fault::Width(e)),
    }
}

/// Whether both nets have the same signals and the same outputs, in the same order.
pub fn is_same(a: &Net, b: &Net) -> bool {
    if a.signals() != b.signals() || a.outputs() != b.outputs() {
        return false;
    }
    'signals: for i in 0..a.signals() {
        if !is_same_signal(a, b, Sig(i)) {
            return false;
        }
    }
    'outputs: for i in 0..a.outputs() {
        if !is_same_output(a, b, i) {
            return false;
        }
    }
    true
}

fn is_same_output(a: &Net, b: &Net, i: u32) -> bool {
    if i >= a.outputs() || i >= b.outputs() {
        return false;
    }
    a.output_name(i) == b.output_name(i) && a.output_sig(i) == b.output_sig(i)
}

fn is_same_signal(a: &Net, b: &Net, s: Sig) -> bool {
    if s.0 >= a.signals() || s.0 >= b.signals() {
        return false;
    }
    if a.name(s) != b.name(s) || a.width(s) != b.width(s) {
        return false;
    }
    match (a.kind(s), b.kind(s)) {
        (SigKind::Input, SigKind::Input) => true,
        (SigKind::Reg, SigKind::Reg) => is_same_register(a, b, s),
        (SigKind::Wire, SigKind::Wire) => is_same_wire(a, b, s),
        _ => false,
    }
}

fn is_same_register(a: &Net, b: &Net, s: Sig) -> bool {
    if s.0 >= a.signals() || s.0 >= b.signals() {
        return false;
    }
    if a.kind(s) != SigKind::Reg || b.kind(s) != SigKind::Reg {
        return false;
    }
    a.init(s) == b.init(s) && a.next(s) == b.next(s)
}

fn is_same_wire(a: &Net, b: &Net, s: Sig) -> bool {
    if s.0 >= a.signals() || s.0 >= b.signals() {
        return false;
    }
    if a.kind(s) != SigKind::Wire || b.kind(s) != SigKind::Wire {
        return false;
    }
    match (a.cell(s), b.cell(s)) {
        (Some(x), Some(y)) => x.op == y.op && x.operands.as_slice() == y.operands.as_slice(),
        (None, None) => true,
        _ => false,
    }
}
