//! Faults of a Verilog file.

ghost use Rattle.std.specs.Prelude.{◌≡◌};

/// A rule on Verilog files, except for the one on combinational loops: V01 foreign byte, V02 unexpected token, V03 name
/// twice, V04 unknown name, V05 widths differ, V06 bad literal, V07 wire without exactly one assign, V08 register
/// without exactly one update, V10 port missing.
#[derive(Clone, Copy, Debug, PartialEq, Eq)]
pub enum VRule {
    V01,
    V02,
    V03,
    V04,
    V05,
    V06,
    V07,
    V08,
    V10,
}

/// A rule that a file breaks, and the place, as a byte offset. V05 has the width that is needed and the one that was
/// found, in bits; the numbers of other rules are 0 and 0.
#[derive(Clone, Copy, Debug, PartialEq, Eq)]
pub struct VFault {
    pub rule: VRule,
    pub place: u32,
    pub first: u32,
    pub second: u32,
}

impl VFault {
    /// The fault of a rule that has no numbers.
    pub fn new(rule: VRule, place: u32) -> VFault
        ensures { result ≡ record { rule = rule; place = place; first = 0; second = 0 } }
    {
        VFault::with(rule, place, 0, 0)
    }

    /// The fault of a rule that has two numbers.
    pub fn with(rule: VRule, place: u32, first: u32, second: u32) -> VFault
        ensures { result ≡ record { rule = rule; place = place; first = first; second = second } }
    {
        VFault {
            rule,
            place,
            first,
            second,
        }
    }
}
