//! Kinds of traces, and groups of signals.

ghost use Rattle.std.specs.Prelude.{◌≡◌, ℕ, List};
ghost use Rattle.safl_net.specs.Names.{is_temp, is_second};
ghost use Rattle.safl_probe.specs.Watching.{kind_of, belongs};

use safl_net::SigKind;

/// The kind of trace that a probe writes.
#[derive(Clone, Copy, Debug, PartialEq, Eq)]
pub enum TraceKind {
    Vcd,
    Starts,
    Toggles,
    Silent,
}

/// A group of signals that a probe watches together.
#[derive(Clone, Copy, Debug, PartialEq, Eq)]
pub enum Group {
    Inputs,
    Registers,
    NamedWires,
    StartWires,
}

/// The kind with this number: 1 is `Vcd`, 2 is `Starts`, 3 is `Toggles`, and any other is `Silent`.
pub fn kind_of(number: u8) -> TraceKind
    ensures { result ≡ kind_of number }
{
    match number {
        1 => TraceKind::Vcd,
        2 => TraceKind::Starts,
        3 => TraceKind::Toggles,
        _ => TraceKind::Silent,
    }
}

/// Whether a signal belongs to a group.
pub(crate) fn belongs(group: Group, sort: SigKind, name: &str) -> bool
    ensures { result ≡ belongs group sort name.now }
{
    match sort {
        SigKind::Input => is_inputs(group),
        SigKind::Reg => is_registers(group),
        SigKind::Wire => has_wire(group, name.as_bytes()),
    }
}

fn is_inputs(group: Group) -> bool
    ensures { (name : List ℕ) → result ≡ belongs group SigKind.Input name }
{
    match group {
        Group::Inputs => true,
        Group::Registers | Group::NamedWires | Group::StartWires => false,
    }
}

fn is_registers(group: Group) -> bool
    ensures { (name : List ℕ) → result ≡ belongs group SigKind.Reg name }
{
    match group {
        Group::Registers => true,
        Group::Inputs | Group::NamedWires | Group::StartWires => false,
    }
}

fn has_wire(group: Group, name: &[u8]) -> bool
    ensures { result ≡ belongs group SigKind.Wire name.now }
{
    match group {
        Group::NamedWires => !is_temp(name),
        Group::StartWires => name.starts_with(b"go$"),
        Group::Inputs | Group::Registers => false,
    }
}

// Whether a name begins with `n$`.
fn is_temp(name: &[u8]) -> bool
    ensures { result ≡ is_temp name.now }
{
    match name {
        [] => false,
        [first, rest @ ..] => *first == b'n' && is_second(rest),
    }
}

fn is_second(rest: &[u8]) -> bool
    ensures { result ≡ is_second rest.now }
{
    match rest {
        [] => false,
        [second, ..] => *second == b'$',
    }
}
