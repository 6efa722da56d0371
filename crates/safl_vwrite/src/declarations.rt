//! Writing the header and the declarations.

ghost use Rattle.std.specs.Prelude.{◌≡◌, ◌++◌, ◌<◌, length, codes, OnOk};
ghost use Rattle.std.specs.List.{flat_map};
ghost use Rattle.safl_net.specs.Rules.{IsNetlist};
ghost use Rattle.safl_net.specs.Making.{kind_at, name_at};
ghost use Rattle.safl_net.specs.Written.{header, declarations, if_input, if_register, if_wire};
ghost use Rattle.safl_net.specs.WrittenParts.{port, input_port, output_port};
ghost use Rattle.safl_net.specs.WrittenParts.{input_declaration, output_declaration, register_declaration, wire_declaration};
ghost use Rattle.safl_vwrite.specs.Lines.{signal_declaration};

use crate::pieces::{push, push_declaration, push_port};
use safl_net::{Net, Sig, SigKind};
use safl_word::NoMemory;

/// Appends the header: the clock, the reset, inputs and outputs.
pub fn push_header(out: &mut Vec<u8>, net: &Net) -> Result<(), NoMemory>
    ensures { OnOk result (out.new.items ≡ out.old.items ++ header net.now) }
{
    push(out, b"module safl (clk, rst")?;
    push_input_ports(out, net)?;
    push_output_ports(out, net)?;
    push(out, b");\n")
}

fn push_input_ports(out: &mut Vec<u8>, net: &Net) -> Result<(), NoMemory>
    ensures { OnOk result (out.new.items ≡ out.old.items ++ flat_map input_port net.now.signals) }
{
    for i in 0..net.signals() {
        push_input_port(out, net, Sig(i))?;
    }
    Ok(())
}

fn push_input_port(out: &mut Vec<u8>, net: &Net, s: Sig) -> Result<(), NoMemory>
    requires { s.0 < length net.now.signals }
    ensures { OnOk result (out.new.items ≡ out.old.items ++ if_input (kind_at net.now s.0) (port (name_at net.now s.0))) }
{
    match net.kind(s) {
        SigKind::Input => push_port(out, net.name(s)),
        SigKind::Reg | SigKind::Wire => Ok(()),
    }
}

fn push_output_ports(out: &mut Vec<u8>, net: &Net) -> Result<(), NoMemory>
    ensures { OnOk result (out.new.items ≡ out.old.items ++ flat_map output_port net.now.outputs) }
{
    for i in 0..net.outputs() {
        push_port(out, net.output_name(i))?;
    }
    Ok(())
}

/// Appends the declarations: of the clock, the reset, inputs and outputs, then of registers, then of wires.
pub fn push_declarations(out: &mut Vec<u8>, net: &Net) -> Result<(), NoMemory>
    requires { IsNetlist net.now }
    ensures { OnOk result (out.new.items ≡ out.old.items ++ declarations net.now) }
{
    push(out, b"  input clk;\n  input rst;\n")?;
    declare_inputs(out, net)?;
    declare_outputs(out, net)?;
    declare_registers(out, net)?;
    declare_wires(out, net)?;
    Ok(())
}

fn declare_inputs(out: &mut Vec<u8>, net: &Net) -> Result<(), NoMemory>
    ensures { OnOk result (out.new.items ≡ out.old.items ++ flat_map input_declaration net.now.signals) }
{
    for i in 0..net.signals() {
        declare_input(out, net, Sig(i))?;
    }
    Ok(())
}

fn declare_input(out: &mut Vec<u8>, net: &Net, s: Sig) -> Result<(), NoMemory>
    requires { s.0 < length net.now.signals }
    ensures { OnOk result (out.new.items ≡ out.old.items ++ if_input (kind_at net.now s.0) (signal_declaration net.now (codes "input") s.0)) }
{
    match net.kind(s) {
        SigKind::Input => push_declaration(out, b"input", net.width(s), net.name(s)),
        SigKind::Reg | SigKind::Wire => Ok(()),
    }
}

fn declare_outputs(out: &mut Vec<u8>, net: &Net) -> Result<(), NoMemory>
    requires { IsNetlist net.now }
    ensures { OnOk result (out.new.items ≡ out.old.items ++ flat_map (output_declaration net.now) net.now.outputs) }
{
    for i in 0..net.outputs() {
        let s = net.output_sig(i);
        push_declaration(out, b"output", net.width(s), net.output_name(i))?;
    }
    Ok(())
}

fn declare_registers(out: &mut Vec<u8>, net: &Net) -> Result<(), NoMemory>
    ensures { OnOk result (out.new.items ≡ out.old.items ++ flat_map register_declaration net.now.signals) }
{
    for i in 0..net.signals() {
        declare_register(out, net, Sig(i))?;
    }
    Ok(())
}

fn declare_register(out: &mut Vec<u8>, net: &Net, s: Sig) -> Result<(), NoMemory>
    requires { s.0 < length net.now.signals }
    ensures { OnOk result (out.new.items ≡ out.old.items ++ if_register (kind_at net.now s.0) (signal_declaration net.now (codes "reg") s.0)) }
{
    match net.kind(s) {
        SigKind::Reg => push_declaration(out, b"reg", net.width(s), net.name(s)),
        SigKind::Input | SigKind::Wire => Ok(()),
    }
}

fn declare_wires(out: &mut Vec<u8>, net: &Net) -> Result<(), NoMemory>
    ensures { OnOk result (out.new.items ≡ out.old.items ++ flat_map wire_declaration net.now.signals) }
{
    for i in 0..net.signals() {
        declare_wire(out, net, Sig(i))?;
    }
    Ok(())
}

fn declare_wire(out: &mut Vec<u8>, net: &Net, s: Sig) -> Result<(), NoMemory>
    requires { s.0 < length net.now.signals }
    ensures { OnOk result (out.new.items ≡ out.old.items ++ if_wire (kind_at net.now s.0) (signal_declaration net.now (codes "wire") s.0)) }
{
    match net.kind(s) {
        SigKind::Wire => push_declaration(out, b"wire", net.width(s), net.name(s)),
        SigKind::Input | SigKind::Reg => Ok(()),
    }
}
