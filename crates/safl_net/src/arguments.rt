//! The arguments that a net takes.

ghost use Rattle.std.specs.Prelude.{◌≡◌, ◌<◌, ◌++◌, length, IfOk, OnOk};
ghost use Rattle.safl_net.specs.Arguments.{argument_width, argument_widths};

use crate::cell::{Sig, SigKind};
use crate::net::Net;
use std::alloc::{AllocError, Global};

/// The widths, in bits, of the inputs other than `start`, in order.
pub fn argument_widths(alloc: Global, net: &Net) -> Result<Vec<u8>, AllocError>
    ensures { IfOk result (λ v. v.items ≡ argument_widths net.now.signals) }
{
    let mut widths = Vec::new(alloc);
    'signals: for i in 0..net.signals() {
        push_width(&mut widths, net, Sig(i))?;
    }
    Ok(widths)
}

// Appends the width of a signal if it is an input other than `start`.
fn push_width(widths: &mut Vec<u8>, net: &Net, signal: Sig) -> Result<(), AllocError>
    requires { signal.0 < length net.now.signals }
    ensures { OnOk result (widths.new.items ≡ widths.old.items ++ argument_width net.now signal.0) }
{
    if net.kind(signal) != SigKind::Input {
        return Ok(());
    }
    if net.name(signal) == "start" {
        return Ok(());
    }
    widths.push(net.width(signal))?;
    Ok(())
}
