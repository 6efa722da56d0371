//! A walk from wires to their operands, deepest first, on a stack of its own.
//!
//! It looks at the operands of a wire from the last to the first. So what changes together in a simulation is closer
//! together in the order.

ghost use Rattle.std.specs.Prelude.{◌≡◌, ℕ, ◌+◌, ◌<◌, ◌≤◌, ◌^◌, [], ◌∷◌, ◌++◌, map, length, take, drop, Some};
ghost use Rattle.std.specs.Prelude.{None, IfOk, IfErr, OnOk, IfSome, slice_get, slice_set, vec_len};
ghost use Rattle.safl_net.specs.Stored.{number_of};
ghost use Rattle.safl_order.specs.declared.walk.Frame.{Frame};
ghost use Rattle.safl_order.specs.Order.{IsWire};
ghost use Rattle.safl_order.specs.Walk.{Walks, LooksAt, looked_at, AllDone, Goes, IsStop};
ghost use Rattle.safl_order.specs.Walk.{IsTurned, work, top_place, HasTop, passed, LeavesPath, LeavesAll};

use safl_net::{Net, Sig, SigKind};
use std::alloc::{AllocError, Global};

/// What is known of a signal that the walk has reached: a wire on the stack, with its place there, or a finished one,
/// with its place in the order.
#[derive(Clone, Copy)]
pub enum Mark {
    Unseen,
    Open(u32),
    Done(u32),
}

/// A wire on the stack, and how many of its operands are finished. The last operands are looked at first.
#[derive(Clone, Copy)]
pub struct Frame {
    pub wire: Sig,
    pub next: u8,
}

/// Why a walk ends early. A loop has the place on the stack of the wire that the top one reads.
#[derive(Clone, Copy)]
pub enum Stop {
    Loop(u32),
    NoMemory,
}

/// The finished wires, in order of evaluation, and the wires on the stack.
#[derive(Drop)]
pub struct Walk {
    pub wires: Vec<Sig>,
    pub marks: Vec<Mark>,
    pub stack: Vec<Frame>,
}

impl Walk {
    /// A walk that has reached nothing yet.
    pub fn new(alloc: Global, net: &Net) -> Result<Walk, AllocError>
        ensures walks { IfOk result (λ w. Walks net.now w.wires.items w.marks.items w.stack.items) }
        ensures empty { IfOk result (λ w. w.stack.items ≡ []) }
    {
        let count = net.signals() as usize;
        Ok(Walk {
            wires: Vec::new(alloc),
            marks: vec![in alloc; Mark::Unseen; count]?,
            stack: Vec::new(alloc),
        })
    }

    /// Walks first from what each register needs, then from each wire. So the wires that a register needs are together,
    /// as far as possible.
    pub fn run(&mut self, net: &Net) -> Result<(), Stop>
        requires walks { Walks net.now self.old.wires.items self.old.marks.items self.old.stack.items }
        requires empty { self.old.stack.items ≡ [] }
        ensures walks { Walks net.now self.new.wires.items self.new.marks.items self.new.stack.items }
        ensures done { OnOk result (AllDone net.now self.new.marks.items (length net.now.signals)) }
        ensures stop { IfErr result (IsStop net.now self.new.stack.items) }
    {
        self.run_registers(net)?;
        'signals: for i in 0..net.signals() {
            self.visit(net, Sig(i))?;
        }
        Ok(())
    }

    // Walks from the next signal of each register.
    fn run_registers(&mut self, net: &Net) -> Result<(), Stop>
        requires walks { Walks net.now self.old.wires.items self.old.marks.items self.old.stack.items }
        requires empty { self.old.stack.items ≡ [] }
        ensures walks { Walks net.now self.new.wires.items self.new.marks.items self.new.stack.items }
        ensures empty { OnOk result (self.new.stack.items ≡ []) }
        ensures stop { IfErr result (IsStop net.now self.new.stack.items) }
    {
        'signals: for i in 0..net.signals() {
            self.visit_next(net, Sig(i))?;
        }
        Ok(())
    }

    // Walks from the next signal of a register. Other signals have none.
    fn visit_next(&mut self, net: &Net, s: Sig) -> Result<(), Stop>
        requires walks { Walks net.now self.old.wires.items self.old.marks.items self.old.stack.items }
        requires empty { self.old.stack.items ≡ [] }
        requires known { s.0 < length net.now.signals }
        ensures walks { Walks net.now self.new.wires.items self.new.marks.items self.new.stack.items }
        ensures empty { OnOk result (self.new.stack.items ≡ []) }
        ensures stop { IfErr result (IsStop net.now self.new.stack.items) }
    {
        match net.kind(s) {
            SigKind::Reg => match net.next(s) {
                Some(next) => self.visit(net, next),
                None => Ok(()),
            },
            _ => Ok(()),
        }
    }

    /// The wires on the stack from `place` on, as a cycle that begins at the least one.
    pub fn cycle(&self, alloc: Global, place: u32) -> Result<Vec<Sig>, AllocError>
        requires { place < vec_len self.now.stack }
        ensures { IfOk result (λ ws. IsTurned (drop place self.now.stack.items) ws.items) }
    {
        let frames = &self.stack[place as usize..];
        let first = least(frames);
        let mut wires = Vec::new(alloc);
        push_wires(&mut wires, &frames[first..])?;
        push_wires(&mut wires, &frames[..first])?;
        Ok(wires)
    }

    // Walks from a signal.
    fn visit(&mut self, net: &Net, root: Sig) -> Result<(), Stop>
        requires walks { Walks net.now self.old.wires.items self.old.marks.items self.old.stack.items }
        requires empty { self.old.stack.items ≡ [] }
        requires known { root.0 < length net.now.signals }
        ensures walks { Walks net.now self.new.wires.items self.new.marks.items self.new.stack.items }
        ensures empty { OnOk result (self.new.stack.items ≡ []) }
        ensures goes { Goes self.old.marks.items self.new.marks.items }
        ensures done { OnOk result (IsWire net.now root.0 → (i : ℕ) × (slice_get self.new.marks.items root.0 ≡ Some (Mark.Done i))) }
        ensures stop { IfErr result (IsStop net.now self.new.stack.items) }
    {
        match net.kind(root) {
            SigKind::Wire => match self.marks[root.0 as usize] {
                Mark::Unseen => {
                    self.open(root)?;
                    self.drain(net)
                }
                _ => Ok(()),
            },
            _ => Ok(()),
        }
    }

    // Walks until the stack is empty.
    fn drain(&mut self, net: &Net) -> Result<(), Stop>
        requires { Walks net.now self.old.wires.items self.old.marks.items self.old.stack.items }
        ensures walks { Walks net.now self.new.wires.items self.new.marks.items self.new.stack.items }
        ensures empty { OnOk result (self.new.stack.items ≡ []) }
        ensures goes { Goes self.old.marks.items self.new.marks.items }
        ensures stop { IfErr result (IsStop net.now self.new.stack.items) }
    {
        'steps: while !self.stack.is_empty() {
            self.step(net)?;
        }
        Ok(())
    }

    // Looks at the next operand of the wire on top, or finishes the wire if it has no more.
    fn step(&mut self, net: &Net) -> Result<(), Stop>
        requires walks { Walks net.now self.old.wires.items self.old.marks.items self.old.stack.items }
        requires some { 0 < vec_len self.old.stack }
        ensures walks { Walks net.now self.new.wires.items self.new.marks.items self.new.stack.items }
        ensures goes { Goes self.old.marks.items self.new.marks.items }
        ensures less { OnOk result (work self.new.marks.items self.new.stack.items < work self.old.marks.items self.old.stack.items) }
        ensures stop { IfErr result (IsStop net.now self.new.stack.items) }
    {
        let top = self.stack[self.stack.len() - 1];
        match operand(net, top.wire, top.next as usize) {
            Some(t) => self.look(net, t),
            None => self.close(top.wire),
        }
    }

    // Puts a wire that was not reached yet on the stack. Passes over a finished wire and over any other signal.
    fn look(&mut self, net: &Net, t: Sig) -> Result<(), Stop>
        requires walks { Walks net.now self.old.wires.items self.old.marks.items self.old.stack.items }
        requires looks { LooksAt net.now self.old.stack.items t.0 }
        requires known { t.0 < length net.now.signals }
        ensures walks { Walks net.now self.new.wires.items self.new.marks.items self.new.stack.items }
        ensures goes { Goes self.old.marks.items self.new.marks.items }
        ensures less { OnOk result (work self.new.marks.items self.new.stack.items < work self.old.marks.items self.old.stack.items) }
        ensures stop { IfErr result (IsStop net.now self.new.stack.items) }
    {
        match net.kind(t) {
            SigKind::Wire => match self.marks[t.0 as usize] {
                Mark::Unseen => self.open(t),
                Mark::Open(k) => Err(Stop::Loop(k)),
                Mark::Done(_) => {
                    self.pass();
                    Ok(())
                }
            },
            _ => {
                self.pass();
                Ok(())
            }
        }
    }

    // Puts a wire on the stack.
    fn open(&mut self, t: Sig) -> Result<(), Stop>
        requires known { t.0 < vec_len self.old.marks }
        requires room { vec_len self.old.stack < 2 ^ 32 }
        ensures wires { self.new.wires.items ≡ self.old.wires.items }
        ensures marks { OnOk result (self.new.marks.items ≡ slice_set self.old.marks.items t.0 (Mark.Open (length self.old.stack.items))) }
        ensures stack { OnOk result (self.new.stack.items ≡ self.old.stack.items ++ record { wire = t; next = 0 } ∷ []) }
        ensures refused { IfErr result (λ e. LeavesPath self.old self.new e) }
    {
        let place = self.stack.len() as u32;
        if self.stack.push(Frame { wire: t, next: 0 }).is_err() {
            return Err(Stop::NoMemory);
        }
        self.marks[t.0 as usize] = Mark::Open(place);
        Ok(())
    }

    // Counts one more operand of the wire on top as finished.
    fn pass(&mut self)
        requires some { 0 < vec_len self.old.stack }
        requires few { (f : Frame) → HasTop self.old.stack f → f.next < 255 }
        ensures wires { self.new.wires.items ≡ self.old.wires.items }
        ensures marks { self.new.marks.items ≡ self.old.marks.items }
        ensures stack { (f : Frame) → HasTop self.old.stack f → self.new.stack.items ≡ slice_set self.old.stack.items (top_place self.old.stack) (passed f) }
    {
        let last = self.stack.len() - 1;
        let top = self.stack[last];
        self.stack[last] = Frame {
            wire: top.wire,
            next: top.next + 1,
        };
    }

    // Finishes the wire on top: it is next in the order.
    fn close(&mut self, wire: Sig) -> Result<(), Stop>
        requires known { wire.0 < vec_len self.old.marks }
        requires room { vec_len self.old.wires < 2 ^ 32 }
        requires some { 0 < vec_len self.old.stack }
        ensures wires { OnOk result (self.new.wires.items ≡ self.old.wires.items ++ wire ∷ []) }
        ensures marks { OnOk result (self.new.marks.items ≡ slice_set self.old.marks.items wire.0 (Mark.Done (length self.old.wires.items))) }
        ensures stack { OnOk result (self.new.stack.items ≡ take (top_place self.old.stack) self.old.stack.items) }
        ensures refused { IfErr result (λ e. LeavesAll self.old self.new e) }
    {
        let place = self.wires.len() as u32;
        if self.wires.push(wire).is_err() {
            return Err(Stop::NoMemory);
        }
        let last = self.stack.len() - 1;
        self.stack.truncate(last);
        self.marks[wire.0 as usize] = Mark::Done(place);
        Ok(())
    }
}

// The operand of a wire that the walk looks at after `index` others. The last operand comes first.
fn operand(net: &Net, wire: Sig, index: usize) -> Option<Sig>
    requires wire { IsWire net.now wire.0 }
    requires known { wire.0 < length net.now.signals }
    ensures operand { number_of result ≡ slice_get (looked_at net.now wire.0) index }
    ensures few { IfSome result (λ t. index < 3) }
{
    match net.cell(wire) {
        Some(cell) => {
            let operands = cell.operands.as_slice();
            if index < operands.len() {
                Some(operands[operands.len() - 1 - index])
            } else {
                None
            }
        }
        None => None,
    }
}

// The place of the frame whose wire has the least number.
fn least(frames: &[Frame]) -> usize
    requires { 0 < length frames.now }
    ensures within { result < length frames.now }
    ensures least { (i : ℕ) (f g : Frame) → slice_get frames.now result ≡ Some f → slice_get frames.now i ≡ Some g → f.wire.0 ≤ g.wire.0 }
{
    let mut best = 0;
    'frames: for i in 1..frames.len() {
        if frames[i].wire.0 < frames[best].wire.0 {
            best = i;
        }
    }
    best
}

fn push_wires(wires: &mut Vec<Sig>, frames: &[Frame]) -> Result<(), AllocError>
    ensures { OnOk result (wires.new.items ≡ wires.old.items ++ map (λ (f : Frame). f.wire) frames.now) }
{
    'frames: for f in frames {
        wires.push(f.wire)?;
    }
    Ok(())
}
