//! Nets that are built by hand, put in order and simulated, and what the calls of a net refuse.

ghost use Rattle.std.specs.Prelude.{◌≡◌, ◌<◌, ◌++◌, [], length, map, IfOk, OnOk};
ghost use Rattle.safl_net.specs.Netlist.{width_of};
ghost use Rattle.safl_net.specs.Making.{kind_at};
ghost use Rattle.safl_sim.specs.Places.{inputs_of};
ghost use Rattle.safl_net.specs.Netlist.{with_input};

use crate::circuits::{Fault, add_wire, set};
use safl_net::{Net, NetErr, Op, Sig, SigKind, WidthsDiffer};
use safl_order::{OrderErr, order};
use safl_sim::Sim;
use safl_word::{Primitive, Raw, Word};
use std::alloc::{AllocError, Global};
use std::test::Fail;

// A net of three wires of one bit: `a` is the complement of `b`, `c` is a copy of `a`, and `b` is a copy of `c` if the
// ring is closed.
fn ring(alloc: Global, is_closed: bool) -> Result<(Net, [Sig; 3]), Fault> {
    let mut net = Net::new(alloc);
    let a = add_wire(&mut net, "a", 1)?;
    let b = add_wire(&mut net, "b", 1)?;
    let c = add_wire(&mut net, "c", 1)?;
    set(&mut net, a, Op::Apply(Primitive::Not), &[b])?;
    if is_closed {
        set(&mut net, b, Op::Copy, &[c])?;
    }
    set(&mut net, c, Op::Copy, &[a])?;
    Ok((net, [a, b, c]))
}

#[test]
fn wires_that_depend_on_themselves(rt: HostRuntime) -> Result<(), Fail> {
    let (net, wires) = ring(rt.alloc(), true)?;
    let Err(OrderErr::Loop(found, net)) = order(rt.alloc(), net) else {
        return Ok(Err("no loop")?);
    };
    assert!(rt; found.as_slice() == wires.as_slice());
    assert_eq!(rt; net.signals(), 3);
    Ok(())
}

#[test]
fn a_wire_without_a_cell(rt: HostRuntime) -> Result<(), Fail> {
    let (net, wires) = ring(rt.alloc(), false)?;
    let Err(OrderErr::Unset(found, net)) = order(rt.alloc(), net) else {
        return Ok(Err("all are set")?);
    };
    assert_eq!(rt; found, wires[1]);
    assert_eq!(rt; net.signals(), 3);
    Ok(())
}

fn simulator(alloc: Global, net: Net) -> Result<Sim, Fault> {
    let Ok(ordered) = order(alloc, net) else {
        return Err(Fault::Unfit);
    };
    match Sim::new(alloc, ordered) {
        Ok(sim) => Ok(sim),
        Err(_) => Err(Fault::Memory),
    }
}

// The widths of the inputs, in order.
fn input_widths(alloc: Global, net: &Net) -> Result<Vec<u8>, AllocError>
    ensures { IfOk result (λ v. v.items ≡ map (width_of net.now) (inputs_of net.now)) }
{
    let mut widths = Vec::new(alloc);
    'signals: for i in 0..net.signals() {
        push_width(&mut widths, net, Sig(i))?;
    }
    Ok(widths)
}

fn push_width(widths: &mut Vec<u8>, net: &Net, s: Sig) -> Result<(), AllocError>
    requires { s.0 < length net.now.signals }
    ensures { OnOk result (widths.new.items ≡ widths.old.items ++ map (width_of net.now) (with_input (kind_at net.now s.0) s.0 [])) }
{
    match net.kind(s) {
        SigKind::Input => {
            widths.push(net.width(s))?;
            Ok(())
        }
        _ => Ok(()),
    }
}

fn widths_of(alloc: Global, words: &[Word]) -> Result<Vec<u8>, AllocError>
    ensures { IfOk result (λ v. v.items ≡ map (λ w. w.width) words.now) }
{
    words.iter().map(|w| w.width()).collect(alloc)
}

fn tick(alloc: Global, sim: &mut Sim, words: &[Word]) -> Result<(), Fault> {
    let Ok(wanted) = input_widths(alloc, sim.net()) else {
        return Err(Fault::Memory);
    };
    let Ok(given) = widths_of(alloc, words) else {
        return Err(Fault::Memory);
    };
    if given.as_slice() != wanted.as_slice() {
        return Err(Fault::Unfit);
    }
    sim.tick(words);
    Ok(())
}

fn number(sim: &Sim, s: Sig) -> Option<Raw> {
    if s.0 < sim.net().signals() {
        Some(sim.value(s).bits())
    } else {
        None
    }
}

#[test]
fn a_wire_before_the_one_that_it_copies(rt: HostRuntime) -> Result<(), Fail> {
    let mut net = Net::new(rt.alloc());
    let input = net.input("i", 8)?;
    let first = add_wire(&mut net, "first", 8)?;
    let second = add_wire(&mut net, "second", 8)?;
    set(&mut net, first, Op::Copy, &[second])?;
    set(&mut net, second, Op::Apply(Primitive::Add), &[input, input])?;
    let mut sim = simulator(rt.alloc(), net)?;
    tick(rt.alloc(), &mut sim, &[Word::from_low_bits(8, 4)])?;
    assert_eq!(rt; number(&sim, first), Some(8));
    Ok(())
}

#[test]
fn what_a_net_refuses(rt: HostRuntime) -> Result<(), Fail> {
    let mut net = Net::new(rt.alloc());
    assert_eq!(rt; net.wire("wire", 1), Err(NetErr::BadName));
    assert_eq!(rt; net.wire("a", 1), Ok(Sig(0)));
    assert_eq!(rt; net.wire("a", 1), Err(NetErr::NameTaken));
    let narrow = add_wire(&mut net, "narrow", 4)?;
    let wide = add_wire(&mut net, "wide", 8)?;
    let widths = WidthsDiffer {
        wanted: 4,
        found: 8,
    };
    assert_eq!(rt;
        set(&mut net, narrow, Op::Copy, &[wide]),
        Err(Fault::Width(widths))
    );
    assert_eq!(rt; net.signals(), 3);
    Ok(())
}
