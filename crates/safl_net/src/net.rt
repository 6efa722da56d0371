//! Netlists, and the calls that build and read them.

ghost use Rattle.std.specs.Prelude.{◌≡◌, ◌≤◌, length, IfOk, string_bytes};
ghost use Rattle.safl_net.specs.Names.{one_wire, temp_name};
ghost use Rattle.safl_net.specs.Making.{cell_on};
ghost use Rattle.safl_net.specs.Stored.{kind_of, cell_of};

use crate::cell::{Cell, Op, Sig, SigKind, WidthsDiffer};
use crate::names::is_good_name;
use crate::widths::op_width;
use arrayvec::ArrayVec;
use indexmap::IndexMap;
use safl_word::{NoMemory, Word};
use std::alloc::{AllocError, Global};
use std::marker::Model;

/// A netlist: signals in order, and outputs.
#[derive(Drop)]
pub struct Net {
    alloc: Global,
    signals: IndexMap<String, Row>,
    outputs: IndexMap<String, Sig>,
    wires: u32,
}

// A signal's width, and what gives it its word.
#[derive(Drop)]
struct Row {
    width: u8,
    driver: Driver,
}

// What gives a signal its word: a register has its word at reset and its next signal, a wire its cell.
#[derive(Drop)]
enum Driver {
    Input,
    Reg(Word, Option<Sig>),
    Wire(Option<Cell>),
}

/// Why a signal or an output is not added.
#[derive(Clone, Copy, Debug, PartialEq, Eq, thiserror::Error)]
pub enum NetErr {
    #[error("the name is taken")]
    NameTaken,
    #[error("the name is no identifier")]
    BadName,
    #[error("out of memory")]
    NoMemory,
}

impl Model for Net {
    ghost use Rattle.safl_net.specs.Netlist.{Netlist};

    ghost Value = { Netlist };

    ghost use Rattle.safl_net.specs.Stored.{net_of, KeepsNetlist};

    ghost view = { λ a. net_of a.signals.entries a.outputs.entries };

    ghost invariant = { λ a. KeepsNetlist a.signals.entries a.outputs.entries a.wires };
}

impl Net {
    ghost use Rattle.std.specs.Prelude.{◌≡◌, ◌<◌, ◌≤◌, [], length, true, false, Some, None, All, Ok, Err, option_copied, option_map, slice_get};
    ghost use Rattle.std.specs.Prelude.{IfOk, IfErr, OnOk, OnErr, IsOk, IsSome, IsNone, IfSome, IsTrue, is_some, codes, ◌↔◌, unwrap_or, string_bytes};
    ghost use Rattle.safl_word.specs.Limits.{count_max, width_max};
    ghost use Rattle.safl_net.specs.Netlist.{Netlist, Input, Reg, Wire, IsSet, AllSet, width_of, place, output_place};
    ghost use Rattle.safl_net.specs.Whole.{IsWhole, IsLeastUnset, HasStart, HasDone};
    ghost use Rattle.safl_net.specs.Names.{has_name, wires, one_wire, IsTidy};
    ghost use Rattle.safl_net.specs.Widths.{HasWord};
    ghost use Rattle.safl_net.specs.Making.{with_signal, with_kind, with_output, cell_on, width_on, temporary, refusal};
    ghost use Rattle.safl_net.specs.Making.{Refuses, kind_at, name_at, sort_of, next_in, cell_in, found};
    ghost use Rattle.safl_net.specs.Valuations.{reset_state};
    ghost use Rattle.safl_net.specs.Rules.{IsNetlist, KindFits, SignalFits};
    ghost use Rattle.safl_net.specs.Stored.{signal_of, kind_of, ResetFits, number_of, maybe_cell};

    /// A net without signals.
    pub fn new(alloc: Global) -> Net
        ensures { result ≡ record { signals = []; outputs = [] } }
    {
        Net {
            alloc,
            signals: IndexMap::new(alloc),
            outputs: IndexMap::new(alloc),
            wires: 0,
        }
    }

    /// Adds an input of this width, 1 to 128 bits, as the next signal. `BadName` comes exactly if the name is not good;
    /// otherwise `NameTaken` exactly if a signal or an output has it. A refusal leaves the net as it was.
    pub fn input(&mut self, name: &str, width: u8) -> Result<Sig, NetErr>
        requires some { 1 ≤ width }
        requires most { width ≤ width_max }
        requires room { length self.old.signals < count_max }
        ensures added { OnOk result (self.new ≡ with_signal self.old (record { name = name.now; width = width; kind = Input })) }
        ensures numbered { IfOk result (λ s. s.0 ≡ length self.old.signals) }
        ensures refusal { Refuses (refusal self.old name.now) result }
        ensures refused { OnErr result (self.new ≡ self.old) }
    {
        self.add(
            name,
            Row {
                width,
                driver: Driver::Input,
            },
        )
    }

    /// Adds a register with this word at reset and without a next signal, as the next signal. Refusals as for `input`.
    pub fn reg(&mut self, name: &str, init: Word) -> Result<Sig, NetErr>
        requires room { length self.old.signals < count_max }
        ensures added { OnOk result (self.new ≡ with_signal self.old (record { name = name.now; width = init.width; kind = Reg init.bits None })) }
        ensures numbered { IfOk result (λ s. s.0 ≡ length self.old.signals) }
        ensures refusal { Refuses (refusal self.old name.now) result }
        ensures refused { OnErr result (self.new ≡ self.old) }
    {
        let width = init.width();
        self.add(
            name,
            Row {
                width,
                driver: Driver::Reg(init, None),
            },
        )
    }

    /// Adds a wire of this width, 1 to 128 bits, and without a cell, as the next signal. Refusals as for `input`.
    pub fn wire(&mut self, name: &str, width: u8) -> Result<Sig, NetErr>
        requires some { 1 ≤ width }
        requires most { width ≤ width_max }
        requires room { length self.old.signals < count_max }
        ensures added { OnOk result (self.new ≡ with_signal self.old (record { name = name.now; width = width; kind = Wire None })) }
        ensures numbered { IfOk result (λ s. s.0 ≡ length self.old.signals) }
        ensures refusal { Refuses (refusal self.old name.now) result }
        ensures refused { OnErr result (self.new ≡ self.old) }
    {
        self.add(
            name,
            Row {
                width,
                driver: Driver::Wire(None),
            },
        )
    }

    /// Adds a temporary, which is a wire with this cell. It has the width that the operation has on the operands; its
    /// name is `n$` and its number among the wires. The net is tidy before and after. Fails only if out of memory.
    pub fn temp(&mut self, op: Op, operands: &[Sig]) -> Result<Sig, NoMemory>
        requires tidy { IsTidy self.old }
        requires known { All (λ s. s.0 < length self.old.signals) operands.now }
        requires fits { IsSome (width_on self.old op operands.now) }
        requires room { length self.old.signals < count_max }
        ensures added { OnOk result (self.new ≡ with_signal self.old (temporary self.old op operands.now)) }
        ensures numbered { IfOk result (λ s. s.0 ≡ length self.old.signals) }
        ensures tidy { IsTidy self.new }
        ensures refused { OnErr result (self.new ≡ self.old) }
    {
        match self.width_on(&op, operands) {
            Some(width) => {
                let name = temp_name(self.alloc, self.wires)?;
                let cell = make_cell(op, operands);
                self.push(
                    name,
                    Row {
                        width,
                        driver: Driver::Wire(Some(cell)),
                    },
                )
            }
            None => unreachable!(),
        }
    }

    /// Gives a wire without a cell its cell. Takes no memory. `WidthsDiffer` comes exactly if the operation's width is
    /// not the wire's; the net then stays as it was.
    pub fn set_cell(&mut self, s: Sig, op: Op, operands: &[Sig]) -> Result<(), WidthsDiffer>
        requires open { kind_at self.old s.0 ≡ Wire None }
        requires known { All (λ x. x.0 < length self.old.signals) operands.now }
        ensures variant { IsOk result ↔ (width_on self.old op operands.now ≡ Some (width_of self.old s.0)) }
        ensures set { OnOk result (self.new ≡ with_kind self.old s.0 (Wire (Some (cell_on op operands.now)))) }
        ensures told { IfErr result (λ e. e ≡ record { wanted = width_of self.old s.0; found = unwrap_or (width_on self.old op operands.now) 0 }) }
        ensures refused { OnErr result (self.new ≡ self.old) }
    {
        let wanted = self.width(s);
        let found = self.width_on(&op, operands);
        if found != Some(wanted) {
            return Err(WidthsDiffer {
                wanted,
                found: found.unwrap_or(0),
            });
        }
        let cell = make_cell(op, operands);
        self.set_driver(s, Driver::Wire(Some(cell)));
        Ok(())
    }

    /// Gives a register without a next signal its next signal. Takes no memory. `WidthsDiffer` comes exactly if the
    /// widths differ; the net then stays as it was.
    pub fn set_next(&mut self, r: Sig, s: Sig) -> Result<(), WidthsDiffer>
        requires open { (kind_at self.old r.0 ≡ Reg (reset_state self.old r.0) None) }
        requires known { s.0 < length self.old.signals }
        ensures variant { IsOk result ↔ (width_of self.old s.0 ≡ width_of self.old r.0) }
        ensures set { OnOk result (self.new ≡ with_kind self.old r.0 (Reg (reset_state self.old r.0) (Some s.0))) }
        ensures told { IfErr result (λ e. e ≡ record { wanted = width_of self.old r.0; found = width_of self.old s.0 }) }
        ensures refused { OnErr result (self.new ≡ self.old) }
    {
        let wanted = self.width(r);
        let found = self.width(s);
        if found != wanted {
            return Err(WidthsDiffer { wanted, found });
        }
        let init = self.init(r);
        self.set_driver(r, Driver::Reg(init, Some(s)));
        Ok(())
    }

    /// Adds an output that shows signal `s`, after the others. Refusals as for `input`.
    pub fn output(&mut self, name: &str, s: Sig) -> Result<(), NetErr>
        requires known { s.0 < length self.old.signals }
        requires room { length self.old.outputs < count_max }
        ensures added { OnOk result (self.new ≡ with_output self.old name.now s.0) }
        ensures refusal { Refuses (refusal self.old name.now) result }
        ensures refused { OnErr result (self.new ≡ self.old) }
    {
        if !is_good_name(name) {
            return Err(NetErr::BadName);
        }
        if self.has_name(name) {
            return Err(NetErr::NameTaken);
        }
        let Ok(text) = String::from_str(self.alloc, name) else {
            return Err(NetErr::NoMemory);
        };
        let Ok(_) = self.outputs.insert(text, s) else {
            return Err(NetErr::NoMemory);
        };
        Ok(())
    }

    /// The number of signals.
    pub fn signals(&self) -> u32
        ensures count { result ≡ length self.now.signals }
        ensures netlist { IsNetlist self.now }
    {
        self.signals.len() as u32
    }

    /// The width of a signal, in bits.
    pub fn width(&self, s: Sig) -> u8
        requires { s.0 < length self.now.signals }
        ensures { result ≡ width_of self.now s.0 }
    {
        self.row(s).width
    }

    /// The name of a signal.
    pub fn name(&self, s: Sig) -> &str
        requires { s.0 < length self.now.signals }
        ensures { result.now ≡ name_at self.now s.0 }
    {
        match self.signals.get_index(s.0 as usize) {
            Some((name, _)) => name.as_str(),
            None => unreachable!(),
        }
    }

    /// The kind of a signal.
    pub fn kind(&self, s: Sig) -> SigKind
        requires { s.0 < length self.now.signals }
        ensures { result ≡ sort_of (kind_at self.now s.0) }
    {
        match &self.row(s).driver {
            Driver::Input => SigKind::Input,
            Driver::Reg(_, _) => SigKind::Reg,
            Driver::Wire(_) => SigKind::Wire,
        }
    }

    /// The word of a register at reset.
    pub fn init(&self, r: Sig) -> Word
        requires { sort_of (kind_at self.now r.0) ≡ SigKind.Reg }
        ensures { result ≡ record { width = width_of self.now r.0; bits = reset_state self.now r.0 } }
    {
        match self.row(r).driver {
            Driver::Reg(init, _) => init,
            _ => unreachable!(),
        }
    }

    /// The next signal of a register, if it is set.
    pub fn next(&self, r: Sig) -> Option<Sig>
        requires { sort_of (kind_at self.now r.0) ≡ SigKind.Reg }
        ensures { number_of result ≡ next_in (kind_at self.now r.0) }
    {
        match self.row(r).driver {
            Driver::Reg(_, next) => next,
            _ => unreachable!(),
        }
    }

    /// The cell of a wire, if it is set.
    pub fn cell(&self, s: Sig) -> Option<&Cell>
        requires { sort_of (kind_at self.now s.0) ≡ SigKind.Wire }
        ensures { maybe_cell (option_copied result) ≡ cell_in (kind_at self.now s.0) }
    {
        match &self.row(s).driver {
            Driver::Wire(cell) => cell.as_ref(),
            _ => unreachable!(),
        }
    }

    /// The signal of this name, or else the signal that the output of this name shows.
    pub fn find(&self, name: &str) -> Option<Sig>
        ensures { number_of result ≡ found self.now name.now }
    {
        match self.signal_named(name) {
            Some(s) => Some(s),
            None => self.output_named(name),
        }
    }

    fn signal_named(&self, name: &str) -> Option<Sig>
        ensures number { number_of result ≡ place self.now.signals name.now 0 }
        ensures known { IfSome result (λ s. s.0 < length self.now.signals) }
    {
        match self.signals.get_index_of(name) {
            Some(i) => Some(Sig(i as u32)),
            None => None,
        }
    }

    fn output_named(&self, name: &str) -> Option<Sig>
        ensures number { number_of result ≡ output_place self.now.outputs name.now }
        ensures known { IfSome result (λ s. s.0 < length self.now.signals) }
    {
        self.outputs.get(name).copied()
    }

    /// Whether each wire has a cell and each register a next signal, and there are an input `start` of width 1, an
    /// output `done` of width 1 and an output `result`.
    pub fn whole(&self) -> bool
        ensures { IsTrue result ↔ IsWhole self.now }
    {
        self.first_unset().is_none() && self.has_start() && self.has_done() && self.has_result()
    }

    /// The first wire without a cell or register without a next signal.
    pub fn first_unset(&self) -> Option<Sig>
        ensures none { IsNone result ↔ AllSet self.now }
        ensures least { IfSome result (λ s. IsLeastUnset self.now s.0) }
    {
        'signals: for i in 0..self.signals() {
            if !self.is_set(Sig(i)) {
                return Some(Sig(i));
            }
        }
        None
    }

    fn is_set(&self, s: Sig) -> bool
        requires { s.0 < length self.now.signals }
        ensures { IsTrue result ↔ IsSet (kind_at self.now s.0) }
    {
        match &self.row(s).driver {
            Driver::Input => true,
            Driver::Reg(_, next) => next.is_some(),
            Driver::Wire(cell) => cell.is_some(),
        }
    }

    fn has_start(&self) -> bool
        ensures { IsTrue result ↔ HasStart self.now }
    {
        match self.signal_named("start") {
            Some(s) => self.kind(s) == SigKind::Input && self.width(s) == 1,
            None => false,
        }
    }

    fn has_done(&self) -> bool
        ensures { IsTrue result ↔ HasDone self.now }
    {
        match self.output_named("done") {
            Some(s) => self.width(s) == 1,
            None => false,
        }
    }

    fn has_result(&self) -> bool
        ensures { result ≡ is_some (output_place self.now.outputs (codes "result")) }
    {
        self.output_named("result").is_some()
    }

    /// The number of outputs.
    pub fn outputs(&self) -> u32
        ensures { result ≡ length self.now.outputs }
    {
        self.outputs.len() as u32
    }

    /// The name of an output.
    pub fn output_name(&self, i: u32) -> &str
        requires { i < length self.now.outputs }
        ensures { Some result.now ≡ option_map (λ o. o.0) (slice_get self.now.outputs i) }
    {
        match self.outputs.get_index(i as usize) {
            Some((name, _)) => name.as_str(),
            None => unreachable!(),
        }
    }

    /// The signal that an output shows.
    pub fn output_sig(&self, i: u32) -> Sig
        requires { i < length self.now.outputs }
        ensures { Some result.0 ≡ option_map (λ o. o.1) (slice_get self.now.outputs i) }
    {
        match self.outputs.get_index(i as usize) {
            Some((_, s)) => *s,
            None => unreachable!(),
        }
    }

    // The row of a signal.
    fn row(&self, s: Sig) -> &Row
        requires { s.0 < length self.now.signals }
        ensures width { result.now.width ≡ width_of self.now s.0 }
        ensures kind { kind_of result.now.driver ≡ kind_at self.now s.0 }
        ensures reset { ResetFits result.now.width result.now.driver }
    {
        match self.signals.get_index(s.0 as usize) {
            Some((_, row)) => row,
            None => unreachable!(),
        }
    }

    // The width that an operation has on these operands.
    fn width_on(&self, op: &Op, operands: &[Sig]) -> Option<u8>
        requires { All (λ s. s.0 < length self.now.signals) operands.now }
        ensures width { result ≡ width_on self.now op.now operands.now }
        ensures few { IsSome result → length operands.now ≤ 3 }
        ensures word { IsSome result → HasWord op.now }
    {
        if operands.len() > 3 {
            return None;
        }
        let mut widths: ArrayVec<u8, 3> = ArrayVec::new();
        for s in operands {
            widths.push(self.width(*s));
        }
        op_width(*op, widths.as_slice())
    }

    // Whether a signal or an output has this name.
    fn has_name(&self, name: &str) -> bool
        ensures { result ≡ has_name self.now name.now }
    {
        self.signals.contains_key(name) || self.outputs.contains_key(name)
    }

    // Adds a signal, if its name is good and not taken.
    fn add(&mut self, name: &str, row: Row) -> Result<Sig, NetErr>
        requires room { length self.old.signals < count_max }
        requires some { 1 ≤ row.width }
        requires most { row.width ≤ width_max }
        requires kind { KindFits self.old row.width (kind_of row.driver) }
        requires reset { ResetFits row.width row.driver }
        ensures added { OnOk result (self.new ≡ with_signal self.old (signal_of name.now row)) }
        ensures numbered { IfOk result (λ s. s.0 ≡ length self.old.signals) }
        ensures refusal { Refuses (refusal self.old name.now) result }
        ensures refused { OnErr result (self.new ≡ self.old) }
    {
        if !is_good_name(name) {
            return Err(NetErr::BadName);
        }
        if self.has_name(name) {
            return Err(NetErr::NameTaken);
        }
        let Ok(text) = String::from_str(self.alloc, name) else {
            return Err(NetErr::NoMemory);
        };
        match self.push(text, row) {
            Ok(s) => Ok(s),
            Err(_) => Err(NetErr::NoMemory),
        }
    }

    // Adds a signal whose name is good and not taken.
    fn push(&mut self, name: String, row: Row) -> Result<Sig, NoMemory>
        requires room { length self.old.signals < count_max }
        requires new { has_name self.old (string_bytes name) ≡ false }
        requires fits { SignalFits self.old (signal_of (string_bytes name) row) }
        requires reset { ResetFits row.width row.driver }
        ensures added { OnOk result (self.new ≡ with_signal self.old (signal_of (string_bytes name) row)) }
        ensures numbered { IfOk result (λ s. s.0 ≡ length self.old.signals) }
        ensures refused { OnErr result (self.new ≡ self.old) }
    {
        let number = self.signals.len() as u32;
        let wires = self.wires + wire_count(&row.driver);
        let Ok(_) = self.signals.insert(name, row) else {
            return Err(NoMemory);
        };
        self.wires = wires;
        Ok(Sig(number))
    }

    // Replaces what gives a signal its word by something of the same kind.
    fn set_driver(&mut self, s: Sig, driver: Driver)
        requires known { s.0 < length self.old.signals }
        requires alike { one_wire (kind_of driver) ≡ one_wire (kind_at self.old s.0) }
        requires kind { KindFits self.old (width_of self.old s.0) (kind_of driver) }
        requires reset { ResetFits (width_of self.old s.0) driver }
        ensures { self.new ≡ with_kind self.old s.0 (kind_of driver) }
    {
        match self.signals.get_index_mut(s.0 as usize) {
            Some(row) => row.driver = driver,
            None => unreachable!(),
        }
    }
}

// The cell of an operation on these operands.
fn make_cell(op: Op, operands: &[Sig]) -> Cell
    requires { length operands.now ≤ 3 }
    ensures { cell_of result ≡ cell_on op operands.now }
{
    let mut all = ArrayVec::new();
    for s in operands {
        all.push(*s);
    }
    Cell { op, operands: all }
}

fn temp_name(alloc: Global, number: u32) -> Result<String, AllocError>
    ensures { IfOk result (λ name. string_bytes name ≡ temp_name number) }
{
    format!(in alloc; "n${number}")
}

fn wire_count(driver: &Driver) -> u32
    ensures { result ≡ one_wire (kind_of driver.now) }
{
    match driver {
        Driver::Wire(_) => 1,
        _ => 0,
    }
}
