//! Cases: the lines of a net, and those of its optimised net.

ghost use Rattle.std.specs.Prelude.{◌<◌, ◌^◌, length, IfOk};
ghost use Rattle.safl_net.specs.Names.{IsTidy};
ghost use Rattle.safl_net.specs.Valuations.{IsAcyclic};

use crate::smaller_nets::Does::{Apply, Const, Copy, Mux};
use crate::smaller_nets::Line::{Input, Next, Output, Reg, Set, Temp, Wire};
use crate::smaller_nets::{Does, Fault, Line, is_same, made};
use safl_net::{Net, Sig};
use safl_opt::{lean, optimise};
use safl_order::{OrderErr, Ordered, order};
use safl_word::Primitive;
use std::alloc::Global;
use std::test::Fail;

struct Case {
    name: &'static str,
    before: &'static [Line],
    // The optimised net, or None if the net is lean and stays as it is.
    after: Option<&'static [Line]>,
}

const ADD: Does = Apply(Primitive::Add);

const SUB: Does = Apply(Primitive::Sub);

const AND: Does = Apply(Primitive::And);

static CASES: [Case; 10] = [
    Case {
        name: "constants are folded, equal cells shared, and a wire that nothing reads left out",
        before: &[
            Input("a", 8),
            Reg("r", 8, 0),
            Temp(Const(8, 2), &[]),
            Temp(Const(8, 3), &[]),
            Temp(ADD, &[Sig(2), Sig(3)]),
            Temp(ADD, &[Sig(0), Sig(4)]),
            Temp(ADD, &[Sig(0), Sig(4)]),
            Temp(AND, &[Sig(0), Sig(2)]),
            Next(Sig(1), Sig(6)),
            Output("o", Sig(5)),
        ],
        after: Some(&[
            Input("a", 8),
            Reg("r", 8, 0),
            Temp(Const(8, 5), &[]),
            Temp(ADD, &[Sig(0), Sig(2)]),
            Next(Sig(1), Sig(3)),
            Output("o", Sig(3)),
        ]),
    },
    Case {
        name: "a named constant folds what reads it, and stays",
        before: &[
            Input("a", 8),
            Wire("three", 8),
            Set(Sig(1), Const(8, 3), &[]),
            Temp(Const(8, 4), &[]),
            Temp(ADD, &[Sig(1), Sig(2)]),
            Temp(SUB, &[Sig(0), Sig(3)]),
            Output("o", Sig(4)),
        ],
        after: Some(&[
            Input("a", 8),
            Wire("three", 8),
            Set(Sig(1), Const(8, 3), &[]),
            Temp(Const(8, 7), &[]),
            Temp(SUB, &[Sig(0), Sig(2)]),
            Output("o", Sig(3)),
        ]),
    },
    Case {
        name: "a choice by a named constant is made",
        before: &[
            Input("a", 8),
            Input("b", 8),
            Wire("yes", 1),
            Set(Sig(2), Const(1, 1), &[]),
            Temp(Mux, &[Sig(2), Sig(0), Sig(1)]),
            Temp(SUB, &[Sig(3), Sig(1)]),
            Output("o", Sig(4)),
        ],
        after: Some(&[
            Input("a", 8),
            Input("b", 8),
            Wire("yes", 1),
            Set(Sig(2), Const(1, 1), &[]),
            Temp(SUB, &[Sig(0), Sig(1)]),
            Output("o", Sig(3)),
        ]),
    },
    Case {
        name: "a choice by a constant 0 is the other one",
        before: &[
            Input("a", 8),
            Input("b", 8),
            Temp(Const(1, 0), &[]),
            Temp(Mux, &[Sig(2), Sig(0), Sig(1)]),
            Output("o", Sig(3)),
        ],
        after: Some(&[Input("a", 8), Input("b", 8), Output("o", Sig(1))]),
    },
    Case {
        name: "a named wire keeps its cell, and a temporary with the same one stays too",
        before: &[
            Input("a", 8),
            Input("b", 8),
            Wire("sum", 8),
            Set(Sig(2), ADD, &[Sig(0), Sig(1)]),
            Temp(ADD, &[Sig(0), Sig(1)]),
            Output("o", Sig(2)),
            Output("p", Sig(3)),
        ],
        after: None,
    },
    Case {
        name: "operands in another order are another cell",
        before: &[
            Input("a", 8),
            Input("b", 8),
            Temp(SUB, &[Sig(0), Sig(1)]),
            Temp(SUB, &[Sig(1), Sig(0)]),
            Output("o", Sig(2)),
            Output("p", Sig(3)),
        ],
        after: None,
    },
    Case {
        name: "copies are followed to a register, and no further",
        before: &[
            Input("a", 8),
            Reg("r", 8, 7),
            Temp(Copy, &[Sig(1)]),
            Temp(Copy, &[Sig(2)]),
            Temp(Copy, &[Sig(3)]),
            Temp(SUB, &[Sig(0), Sig(4)]),
            Next(Sig(1), Sig(5)),
            Output("o", Sig(4)),
        ],
        after: Some(&[
            Input("a", 8),
            Reg("r", 8, 7),
            Temp(SUB, &[Sig(0), Sig(1)]),
            Next(Sig(1), Sig(2)),
            Output("o", Sig(1)),
        ]),
    },
    Case {
        name: "a wire that is declared before what it reads",
        before: &[
            Input("a", 8),
            Wire("late", 8),
            Temp(Copy, &[Sig(1)]),
            Reg("r", 8, 1),
            Wire("early", 8),
            Set(Sig(1), SUB, &[Sig(4), Sig(3)]),
            Set(Sig(4), ADD, &[Sig(0), Sig(3)]),
            Next(Sig(3), Sig(2)),
            Output("o", Sig(2)),
        ],
        after: Some(&[
            Input("a", 8),
            Reg("r", 8, 1),
            Wire("late", 8),
            Wire("early", 8),
            Set(Sig(2), SUB, &[Sig(3), Sig(1)]),
            Set(Sig(3), ADD, &[Sig(0), Sig(1)]),
            Next(Sig(1), Sig(2)),
            Output("o", Sig(2)),
        ]),
    },
    Case {
        name: "a choice between one signal and the same",
        before: &[
            Input("c", 1),
            Input("a", 8),
            Temp(ADD, &[Sig(1), Sig(1)]),
            Temp(ADD, &[Sig(1), Sig(1)]),
            Temp(Mux, &[Sig(0), Sig(2), Sig(3)]),
            Output("o", Sig(4)),
        ],
        after: Some(&[
            Input("c", 1),
            Input("a", 8),
            Temp(ADD, &[Sig(1), Sig(1)]),
            Output("o", Sig(2)),
        ]),
    },
    Case {
        name: "two temporaries with the cell of a named wire become one",
        before: &[
            Input("a", 8),
            Temp(SUB, &[Sig(0), Sig(0)]),
            Wire("none", 8),
            Temp(SUB, &[Sig(0), Sig(0)]),
            Set(Sig(2), SUB, &[Sig(0), Sig(0)]),
            Temp(ADD, &[Sig(1), Sig(3)]),
            Output("o", Sig(4)),
        ],
        after: Some(&[
            Input("a", 8),
            Wire("none", 8),
            Set(Sig(1), SUB, &[Sig(0), Sig(0)]),
            Temp(SUB, &[Sig(0), Sig(0)]),
            Temp(ADD, &[Sig(2), Sig(2)]),
            Output("o", Sig(3)),
        ]),
    },
];

// Whether the net of a case is lean exactly if the case says so, and its optimised net is lean and as the case says.
fn agrees(alloc: Global, case: &Case) -> Result<bool, Fault> {
    let ordered = order_of(alloc, case.before)?;
    let is_lean = lean(ordered.net());
    let comes = is_made(alloc, ordered, case)?;
    Ok(is_lean == case.after.is_none() && comes)
}

fn order_of(alloc: Global, lines: &[Line]) -> Result<Ordered, Fault>
    ensures few { IfOk result (λ o. length o.net.signals < 2 ^ 31) }
    ensures tidy { IfOk result (λ o. IsTidy o.net) }
{
    let net = made(alloc, lines)?;
    if net.signals() >= 1 << 31 {
        return Err(Fault::Unfit);
    }
    match order(alloc, net) {
        Ok(ordered) => Ok(ordered),
        Err(OrderErr::NoMemory(_)) => Err(Fault::NoMemory),
        Err(_) => Err(Fault::Unfit),
    }
}

// Whether the net is optimised as the case says, or is handed back as it was if out of memory.
fn is_made(alloc: Global, ordered: Ordered, case: &Case) -> Result<bool, Fault>
    requires few { length ordered.net.signals < 2 ^ 31 }
    requires tidy { IsTidy ordered.net }
{
    match optimise(alloc, ordered) {
        Ok(net) => is_lean_net(alloc, &net, case.after.unwrap_or(case.before)),
        Err(o) => is_net(alloc, o.net(), case.before),
    }
}

fn is_lean_net(alloc: Global, net: &Net, lines: &[Line]) -> Result<bool, Fault>
    requires { IsAcyclic net.now }
{
    let is_lean = lean(net);
    let comes = is_net(alloc, net, lines)?;
    Ok(is_lean && comes)
}

fn is_net(alloc: Global, net: &Net, lines: &[Line]) -> Result<bool, Fault> {
    let wanted = made(alloc, lines)?;
    Ok(is_same(net, &wanted))
}

#[test]
fn nets_come_to_these(rt: HostRuntime) -> Result<(), Fail> {
    for case in &CASES {
        assert_eq!(rt; agrees(rt.alloc(), case), Ok(true), "{}", case.name);
    }
    Ok(())
}
