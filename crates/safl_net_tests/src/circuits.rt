//! Nets that are built by hand, and their bit-level circuits.
//!
//! What the calls of a net require is tested when the tests run, so that their proofs need to know nothing of the net.

use safl_aig::{BlastErr, blast};
use safl_aiger::{Aig, Lit, aig_text};
use safl_net::{Net, NetErr, Op, Sig, SigKind, WidthsDiffer};
use safl_order::order;
use safl_word::{Primitive, Word};
use std::alloc::{AllocError, Global};
use std::test::Fail;

/// Why a net is not built, or not converted.
#[derive(Clone, Copy, Debug, PartialEq, Eq)]
pub enum Fault {
    Unfit,
    Memory,
    Name(NetErr),
    Width(WidthsDiffer),
    Refused(BlastErr),
}

/// Adds a wire of this width without a cell.
pub fn add_wire(net: &mut Net, name: &str, width: u8) -> Result<Sig, Fault> {
    if width == 0 || width > 128 || net.signals() == u32::MAX {
        return Err(Fault::Unfit);
    }
    net.wire(name, width).map_err(Fault::Name)
}

/// Gives a wire its cell.
pub fn set(net: &mut Net, s: Sig, op: Op, operands: &[Sig]) -> Result<(), Fault> {
    let count = net.signals();
    if s.0 >= count || net.kind(s) != SigKind::Wire || net.cell(s).is_some() {
        return Err(Fault::Unfit);
    }
    if !operands.iter().all(|x| x.0 < count) {
        return Err(Fault::Unfit);
    }
    net.set_cell(s, op, operands).map_err(Fault::Width)
}

fn add_output(net: &mut Net, name: &str, s: Sig) -> Result<(), Fault> {
    if s.0 >= net.signals() || net.outputs() == u32::MAX {
        return Err(Fault::Unfit);
    }
    net.output(name, s).map_err(Fault::Name)
}

fn circuit(alloc: Global, net: Net) -> Result<Aig, Fault> {
    let Ok(ordered) = order(alloc, net) else {
        return Err(Fault::Unfit);
    };
    match blast(alloc, &ordered) {
        Ok(a) => Ok(a),
        Err(e) => Err(Fault::Refused(e)),
    }
}

// A net of an input and a register of one bit, whose next word is its inverse.
fn toggle(alloc: Global, init: Word) -> Result<Net, Fault> {
    let mut net = Net::new(alloc);
    let Ok(_start) = net.input("start", 1) else {
        return Err(Fault::Memory);
    };
    let Ok(t) = net.reg("t", init) else {
        return Err(Fault::Memory);
    };
    let Ok(other) = net.temp(Op::Apply(Primitive::Not), &[t]) else {
        return Err(Fault::Memory);
    };
    let Ok(()) = net.set_next(t, other) else {
        return Err(Fault::Unfit);
    };
    let Ok(()) = net.output("q", t) else {
        return Err(Fault::Memory);
    };
    Ok(net)
}

// A net of `count` squares of an input of 64 bits.
fn squares(alloc: Global, count: u32) -> Result<Net, Fault> {
    let mut net = Net::new(alloc);
    let a = net.input("a", 64).map_err(Fault::Name)?;
    for i in 0..count {
        let Ok(name) = format!(in alloc; "w{i}") else {
            return Err(Fault::Memory);
        };
        let w = add_wire(&mut net, name.as_str(), 64)?;
        set(&mut net, w, Op::Apply(Primitive::Mul), &[a, a])?;
    }
    Ok(net)
}

fn refusal(alloc: Global, net: Net) -> Option<Fault> {
    match circuit(alloc, net) {
        Ok(_) => None,
        Err(fault) => Some(fault),
    }
}

#[test]
fn a_register_that_toggles(rt: HostRuntime) -> Result<(), Fail> {
    let expected: &[u8] = b"aag 2 1 1 1 0\n2\n4 5\n4\ni0 start[0]\nl0 t[0]\no0 q[0]\n";
    let net = toggle(rt.alloc(), Word::from_low_bits(1, 0))?;
    let a = circuit(rt.alloc(), net)?;
    let Ok(text) = aig_text(rt.alloc(), &a) else {
        return Err("out of memory")?;
    };
    assert_eq!(rt; text.as_slice(), expected);
    let net = toggle(rt.alloc(), Word::from_low_bits(1, 1))?;
    let fault = Fault::Refused(BlastErr::InitNotZero(Sig(1)));
    assert_eq!(rt; refusal(rt.alloc(), net), Some(fault));
    Ok(())
}

// A net whose output shows the result of an operator on two inputs of 4 bits.
fn operation(alloc: Global, p: Primitive, width: u8) -> Result<Net, Fault> {
    let mut net = Net::new(alloc);
    let a = net.input("a", 4).map_err(Fault::Name)?;
    let b = net.input("b", 4).map_err(Fault::Name)?;
    let w = add_wire(&mut net, "w", width)?;
    match p {
        Primitive::Not | Primitive::Bits(..) => set(&mut net, w, Op::Apply(p), &[a])?,
        _ => set(&mut net, w, Op::Apply(p), &[a, b])?,
    }
    add_output(&mut net, "q", w)?;
    Ok(net)
}

// Whether a literal is true for these values of the variables.
fn is_on(values: &[bool], l: Lit) -> bool {
    match values.get((l.0 / 2) as usize) {
        Some(value) => *value != (l.0 % 2 == 1),
        None => false,
    }
}

// The number that the outputs show for the inputs `a` and `b` of 4 bits.
fn shown(alloc: Global, circuit: &Aig, a: u8, b: u8) -> Result<u64, AllocError> {
    let mut values = Vec::new(alloc);
    values.push(false)?;
    for word in [a, b] {
        for place in 0..4_u8 {
            values.push((word >> place) % 2 == 1)?;
        }
    }
    for (x, y) in circuit.operands() {
        let both = is_on(&values, *x) && is_on(&values, *y);
        values.push(both)?;
    }
    let mut number = 0;
    for l in circuit.output_literals().iter().rev() {
        number = (number % 1024) * 2 + u64::from(is_on(&values, *l));
    }
    Ok(number)
}

// An operator, the width of its result, and its results on 11 and 6, on 11 and 2, and on 6 and 6.
#[derive(Clone, Copy)]
struct Row {
    p: Primitive,
    width: u8,
    made: [u64; 3],
}

const fn operator(p: Primitive, width: u8, made: [u64; 3]) -> Row {
    Row { p, width, made }
}

#[test]
fn every_operator(rt: HostRuntime) -> Result<(), Fail> {
    let rows = [
        operator(Primitive::Add, 4, [1, 13, 12]),
        operator(Primitive::Sub, 4, [5, 9, 0]),
        operator(Primitive::Mul, 4, [2, 6, 4]),
        operator(Primitive::And, 4, [2, 2, 6]),
        operator(Primitive::Or, 4, [15, 11, 6]),
        operator(Primitive::Xor, 4, [13, 9, 0]),
        operator(Primitive::Eq, 1, [0, 0, 1]),
        operator(Primitive::Ne, 1, [1, 1, 0]),
        operator(Primitive::Lt, 1, [0, 0, 0]),
        operator(Primitive::Le, 1, [0, 0, 1]),
        operator(Primitive::Gt, 1, [1, 1, 0]),
        operator(Primitive::Ge, 1, [1, 1, 1]),
        operator(Primitive::Shl, 4, [0, 12, 0]),
        operator(Primitive::Shr, 4, [0, 2, 0]),
        operator(Primitive::Cat, 8, [182, 178, 102]),
        operator(Primitive::Not, 4, [4, 4, 9]),
        operator(Primitive::Bits(3, 1), 3, [5, 5, 3]),
    ];
    for row in rows.iter() {
        let a = circuit(rt.alloc(), operation(rt.alloc(), row.p, row.width)?)?;
        assert_eq!(rt; shown(rt.alloc(), &a, 11, 6)?, row.made[0]);
        assert_eq!(rt; shown(rt.alloc(), &a, 11, 2)?, row.made[1]);
        assert_eq!(rt; shown(rt.alloc(), &a, 6, 6)?, row.made[2]);
    }
    Ok(())
}

#[test]
fn weights_at_the_limit(rt: HostRuntime) -> Result<(), Fail> {
    let net = squares(rt.alloc(), 244)?;
    let a = circuit(rt.alloc(), net)?;
    assert_eq!(rt; (a.inputs(), a.latches(), a.outputs()), (64, 0, 0));
    assert!(rt; a.ands() <= 15991808);
    let net = squares(rt.alloc(), 245)?;
    let fault = Fault::Refused(BlastErr::TooLarge(1003584));
    assert_eq!(rt; refusal(rt.alloc(), net), Some(fault));
    Ok(())
}
