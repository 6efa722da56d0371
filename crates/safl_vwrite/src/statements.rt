//! Writing the statements: assignments of wires and outputs, and updates of registers.

ghost use Rattle.std.specs.Prelude.{◌≡◌, ◌++◌, ◌<◌, length, OnOk};
ghost use Rattle.std.specs.List.{flat_map};
ghost use Rattle.safl_net.specs.Netlist.{width_of};
ghost use Rattle.safl_net.specs.Rules.{IsNetlist};
ghost use Rattle.safl_net.specs.Making.{kind_at, name_at};
ghost use Rattle.safl_net.specs.Written.{statements, cell_assignment, next_update};
ghost use Rattle.safl_net.specs.WrittenParts.{wire_assignment, output_assignment, register_update};

use crate::cells::push_cell;
use crate::pieces::{push, push_target, push_update};
use safl_net::{Net, Sig, SigKind};
use safl_word::NoMemory;

/// Appends the assignments of wires, then of outputs, then the updates of registers.
pub fn push_statements(out: &mut Vec<u8>, net: &Net) -> Result<(), NoMemory>
    requires { IsNetlist net.now }
    ensures { OnOk result (out.new.items ≡ out.old.items ++ statements net.now) }
{
    assign_wires(out, net)?;
    assign_outputs(out, net)?;
    update_registers(out, net)
}

fn assign_wires(out: &mut Vec<u8>, net: &Net) -> Result<(), NoMemory>
    ensures { OnOk result (out.new.items ≡ out.old.items ++ flat_map (wire_assignment net.now) net.now.signals) }
{
    for i in 0..net.signals() {
        assign_wire(out, net, Sig(i))?;
    }
    Ok(())
}

// Appends the assignment of a wire, if it has a cell.
fn assign_wire(out: &mut Vec<u8>, net: &Net, s: Sig) -> Result<(), NoMemory>
    requires netlist { IsNetlist net.now }
    requires known { s.0 < length net.now.signals }
    ensures { OnOk result (out.new.items ≡ out.old.items ++ cell_assignment net.now (name_at net.now s.0) (kind_at net.now s.0)) }
{
    match net.kind(s) {
        SigKind::Input | SigKind::Reg => Ok(()),
        SigKind::Wire => match net.cell(s) {
            None => Ok(()),
            Some(cell) => {
                push_target(out, net.name(s))?;
                push_cell(out, net, cell)?;
                push(out, b";\n")
            }
        },
    }
}

fn assign_outputs(out: &mut Vec<u8>, net: &Net) -> Result<(), NoMemory>
    requires { IsNetlist net.now }
    ensures { OnOk result (out.new.items ≡ out.old.items ++ flat_map (output_assignment net.now) net.now.outputs) }
{
    for i in 0..net.outputs() {
        let s = net.output_sig(i);
        push_target(out, net.output_name(i))?;
        push(out, net.name(s).as_bytes())?;
        push(out, b";\n")?;
    }
    Ok(())
}

fn update_registers(out: &mut Vec<u8>, net: &Net) -> Result<(), NoMemory>
    ensures { OnOk result (out.new.items ≡ out.old.items ++ flat_map (register_update net.now) net.now.signals) }
{
    for i in 0..net.signals() {
        update_register(out, net, Sig(i))?;
    }
    Ok(())
}

// Appends the update of a register, if it has a next signal.
fn update_register(out: &mut Vec<u8>, net: &Net, s: Sig) -> Result<(), NoMemory>
    requires netlist { IsNetlist net.now }
    requires known { s.0 < length net.now.signals }
    ensures { OnOk result (out.new.items ≡ out.old.items ++ next_update net.now (name_at net.now s.0) (width_of net.now s.0) (kind_at net.now s.0)) }
{
    match net.kind(s) {
        SigKind::Input | SigKind::Wire => Ok(()),
        SigKind::Reg => match net.next(s) {
            None => Ok(()),
            Some(next) => push_update(
                out,
                net.name(s),
                net.width(s),
                net.init(s).bits(),
                net.name(next),
            ),
        },
    }
}
