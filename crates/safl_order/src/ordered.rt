//! Nets in an order of evaluation.

ghost use Rattle.std.specs.Prelude.{◌≡◌, IfOk, IfErr, OnOk};
ghost use Rattle.safl_net.specs.Netlist.{AllSet};
ghost use Rattle.safl_net.specs.Valuations.{IsAcyclic};
ghost use Rattle.safl_net.specs.Making.{numbers};
ghost use Rattle.safl_order.specs.Order.{IsOrder};
ghost use Rattle.safl_order.specs.Refusals.{RefusesOrder};

use crate::walk::{Stop, Walk};
use safl_net::{Net, Sig};
use std::alloc::Global;
use std::marker::Model;

/// A net with an order of evaluation: its wires, each after its operands. All wires and registers of the net are set,
/// and no wire depends on itself.
#[derive(Drop)]
pub struct Ordered {
    net: Net,
    wires: Vec<Sig>,
}

impl Model for Ordered {
    ghost use Rattle.safl_order.specs.Order.{Order, IsOrder};

    ghost Value = { Order };

    ghost use Rattle.safl_net.specs.Making.{numbers};

    ghost view = { λ o. record { net = o.net; wires = numbers o.wires.items } };

    ghost invariant = { λ o. IsOrder o.net (numbers o.wires.items) };
}

/// Why a net has no order. Every error hands the net back.
#[derive(Drop)]
pub enum OrderErr {
    /// A loop: different wires, each of which has the next one as an operand, and the last one the first. The first has
    /// the least number.
    Loop(Vec<Sig>, Net),
    /// The first wire without a cell or register without a next signal.
    Unset(Sig, Net),
    NoMemory(Net),
}

impl Ordered {
    /// The net.
    pub fn net(&self) -> &Net
        ensures net { result.now ≡ self.now.net }
        ensures set { AllSet self.now.net }
        ensures acyclic { IsAcyclic self.now.net }
    {
        &self.net
    }

    /// The wires, each after its operands.
    pub fn wires(&self) -> &[Sig]
        ensures wires { numbers result.now ≡ self.now.wires }
        ensures order { IsOrder self.now.net self.now.wires }
    {
        &self.wires
    }
}

/// Orders the wires of a net. `Unset` comes exactly if something is unset, and `Loop` exactly if all is set and some
/// wires depend on themselves. Time and memory are linear in cells and operands.
pub fn order(alloc: Global, net: Net) -> Result<Ordered, OrderErr>
    ensures ordered { IfOk result (λ o. o.net ≡ net) }
    ensures set { OnOk result (AllSet net) }
    ensures acyclic { OnOk result (IsAcyclic net) }
    ensures refused { IfErr result (RefusesOrder net) }
{
    if let Some(s) = net.first_unset() {
        return Err(OrderErr::Unset(s, net));
    }
    let Ok(mut walk) = Walk::new(alloc, &net) else {
        return Err(OrderErr::NoMemory(net));
    };
    match walk.run(&net) {
        Ok(()) => Ok(Ordered {
            net,
            wires: walk.wires,
        }),
        Err(Stop::NoMemory) => Err(OrderErr::NoMemory(net)),
        Err(Stop::Loop(place)) => match walk.cycle(alloc, place) {
            Ok(wires) => Err(OrderErr::Loop(wires, net)),
            Err(_) => Err(OrderErr::NoMemory(net)),
        },
    }
}
