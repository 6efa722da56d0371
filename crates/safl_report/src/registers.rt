//! The registers of a net.

ghost use Rattle.std.specs.Prelude.{◌≡◌, ◌<◌, ◌≤◌, ◌+◌, ◌*◌, length, if◌then◌else◌};
ghost use Rattle.safl_net.specs.Netlist.{width_of};
ghost use Rattle.safl_net.specs.Making.{kind_at};
ghost use Rattle.safl_net.specs.Rules.{IsNetlist};
ghost use Rattle.safl_report.specs.Report.{registers, bits_of};
ghost use Rattle.safl_net.specs.Netlist.{is_register};

use safl_net::{Net, Sig, SigKind};

/// The number of registers, and the number of their bits.
#[derive(Clone, Copy, Debug, PartialEq, Eq)]
pub struct Total {
    pub count: u32,
    pub bits: u64,
}

/// Counts the registers of a net and their bits.
pub fn count_registers(n: &Net) -> Total
    ensures count { result.count ≡ length (registers n.now.signals) }
    ensures bits { result.bits ≡ bits_of (registers n.now.signals) }
{
    let mut total = Total { count: 0, bits: 0 };
    for i in 0..n.signals() {
        total = with_signal(total, n, Sig(i));
    }
    total
}

// Adds a signal to the total if it is a register.
fn with_signal(total: Total, n: &Net, s: Sig) -> Total
    requires netlist { IsNetlist n.now }
    requires known { s.0 < length n.now.signals }
    requires few { total.count ≤ s.0 }
    requires narrow { total.bits ≤ 255 * s.0 }
    ensures count { result.count ≡ total.count + (if is_register (kind_at n.now s.0) then 1 else 0) }
    ensures bits { result.bits ≡ total.bits + (if is_register (kind_at n.now s.0) then width_of n.now s.0 else 0) }
    ensures few { result.count ≤ s.0 + 1 }
    ensures narrow { result.bits ≤ 255 * (s.0 + 1) }
{
    if !is_register(n, s) {
        return total;
    }
    Total {
        count: total.count + 1,
        bits: total.bits + u64::from(n.width(s)),
    }
}

fn is_register(n: &Net, s: Sig) -> bool
    requires { s.0 < length n.now.signals }
    ensures { result ≡ is_register (kind_at n.now s.0) }
{
    match n.kind(s) {
        SigKind::Reg => true,
        SigKind::Input | SigKind::Wire => false,
    }
}
