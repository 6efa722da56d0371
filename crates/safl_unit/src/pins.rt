//! The signals of a circuit, by what they stand for.

use safl_lower::SitePorts;
use safl_lower::loads::Load;
use safl_net::Sig;

/// The registers of a unit, or their next words.
#[derive(Clone, Copy)]
pub struct UnitPins {
    pub run: Sig,
    pub fin: Sig,
    pub res: Sig,
}

/// The registers of a function: `at`, which is used if its unit has other functions, and its arguments.
#[derive(Drop)]
pub struct MemberPins {
    pub at: Sig,
    pub args: Vec<Sig>,
}

/// The registers of a site. `keep` is used if the site keeps its word.
#[derive(Clone, Copy)]
pub struct SitePins {
    pub sent: Sig,
    pub got: Sig,
    pub keep: Sig,
}

/// The signals of the registers, or those of their next words: for each function, those of its unit and its own; for
/// each site its own. The first entry of the sites is not used.
#[derive(Drop)]
pub struct Bank {
    pub units: Vec<UnitPins>,
    pub members: Vec<MemberPins>,
    pub sites: Vec<SitePins>,
}

/// The ports and the registers of a circuit. The registers are numbered from `first_register` on, and the named wires
/// from `first_wire` on, both in order.
#[derive(Drop)]
pub struct Pins {
    pub start: Sig,
    pub words: Vec<Sig>,
    pub bank: Bank,
    pub first_register: u32,
    pub first_wire: u32,
}

/// For each site, the bit that says that its value is delivered, and its ports for the body that has the site. The
/// first entries are not used.
#[derive(Drop)]
pub struct Returns {
    pub ret: Vec<Sig>,
    pub ports: Vec<SitePorts>,
}

/// The outcomes of the bodies.
///
/// For each function, `ends` says that its body ends, and has the word; `loops` says that a tail call goes to the
/// function, and has the arguments, or is None if no tail call does. For each site, `wants` says that its call is
/// wanted, and has the arguments. The first entry of `wants` is the call of main from outside, which is wanted by
/// `start`, with the words of the ports.
#[derive(Drop)]
pub struct Outcomes {
    pub ends: Vec<Load>,
    pub loops: Vec<Option<Load>>,
    pub wants: Vec<Load>,
}

/// The signals that the named wires copy: `ends` and `loops` for each function; `wants`, `rets` and `goes` for each
/// site. The first entry of `goes` is for main; the other first entries for sites are not used.
#[derive(Drop)]
pub struct Controls {
    pub ends: Vec<Sig>,
    pub loops: Vec<Sig>,
    pub wants: Vec<Sig>,
    pub rets: Vec<Sig>,
    pub goes: Vec<Sig>,
}
