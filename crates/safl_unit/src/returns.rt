//! What the call sites show: whether their values are delivered, whether they have returned, and their words.

ghost use Rattle.std.specs.Prelude.{◌≡◌, ℕ, ◌+◌, ◌*◌, ◌&&◌, not, cond, length, IfOk, OnOk};
ghost use Rattle.safl_net.specs.Names.{IsTidy};
ghost use Rattle.safl_net.specs.Growth.{Val, Wired};
ghost use Rattle.safl_net.specs.Bits.{on};
ghost use Rattle.safl_lower.specs.Sources.{IsSource, Builds, CanGrow};
ghost use Rattle.safl_unit.specs.Cycles.{UnitFits, SiteFits, PinsFit};
ghost use Rattle.safl_unit.specs.Stages.{PortFits, HasReturns};
ghost use Rattle.safl_unit.specs.Returning.{SiteShown};

use crate::arrivals::program;
use crate::pins::{Pins, Returns, SitePins, UnitPins};
use safl_lower::SitePorts;
use safl_lower::gates::{both, either, inverse, mux};
use safl_net::{Net, Sig};
use safl_sites::Planned;
use safl_word::NoMemory;
use std::alloc::{AllocError, Global};

/// For a site, the bit that says that its value is delivered, and its ports.
#[derive(Clone, Copy)]
pub struct SiteReturn {
    pub ret: Sig,
    pub ports: SitePorts,
}

/// What each site shows.
pub fn returns(alloc: Global, net: &mut Net, p: &Planned, pins: &Pins) -> Result<Returns, NoMemory>
    requires pins { PinsFit p.now.program net.old pins.now }
    requires room { CanGrow net.old (5 * p.now.program.sites) }
    ensures tidy { IsTidy net.new }
    ensures built { OnOk result (Builds net.old net.new (5 * p.now.program.sites)) }
    ensures done { IfOk result (λ s. HasReturns p.now.program p.now.choice net.new pins.now s) }
{
    let c = program(p);
    let mut all = no_returns(alloc, pins.start)?;
    let sites = c.sites();
    for done in 0..sites {
        let k = done + 1;
        let unit = pins.bank.units[c.callee(k) as usize];
        let site = pins.bank.sites[k as usize];
        let next = site_return(net, p.kept(k), unit, site)?;
        all.ret.push(next.ret)?;
        all.ports.push(next.ports)?;
    }
    Ok(all)
}

// The entries of site 0, the call of main from outside. They are not used.
fn no_returns(alloc: Global, start: Sig) -> Result<Returns, AllocError>
    ensures ret { IfOk result (λ s. length s.ret.items ≡ 1) }
    ensures ports { IfOk result (λ s. length s.ports.items ≡ 1) }
{
    let filler = SitePorts {
        sent: start,
        returned: start,
        value: start,
    };
    let ret = vec![in alloc; start]?;
    let ports = vec![in alloc; filler]?;
    Ok(Returns { ret, ports })
}

// What a site shows. `unit` has the registers of the unit that it calls.
fn site_return(
    net: &mut Net,
    kept: bool,
    unit: UnitPins,
    site: SitePins,
) -> Result<SiteReturn, NoMemory>
    requires fits { (w : ℕ) × UnitFits net.old unit w × SiteFits net.old site w }
    requires room { CanGrow net.old 5 }
    ensures tidy { IsTidy net.new }
    ensures built { OnOk result (Builds net.old net.new 5) }
    ensures fits { (w : ℕ) → UnitFits net.old unit w → SiteFits net.old site w → IfOk result (λ s. IsSource net.new s.ret 1 × PortFits net.new s.ports w) }
    ensures shows { IfOk result (λ s. (v : Val) → Wired net.new v → SiteShown v kept unit site s) }
{
    let open = inverse(net, site.got)?;
    let awaited = both(net, site.sent, open)?;
    let ret = both(net, unit.fin, awaited)?;
    let returned = either(net, site.got, ret)?;
    let value = site_word(net, kept, ret, unit.res, site.keep)?;
    Ok(SiteReturn {
        ret,
        ports: SitePorts {
            sent: site.sent,
            returned,
            value,
        },
    })
}

/// The word of a site: that of its unit, or the kept word if the site keeps its word and none is being delivered.
pub fn site_word(net: &mut Net, kept: bool, ret: Sig, res: Sig, keep: Sig) -> Result<Sig, NoMemory>
    requires ret { IsSource net.old ret 1 }
    requires words { (w : ℕ) × IsSource net.old res w × IsSource net.old keep w }
    requires room { CanGrow net.old 1 }
    ensures built { Builds net.old net.new 1 }
    ensures fits { (w : ℕ) → IsSource net.old res w → IsSource net.old keep w → IfOk result (λ s. IsSource net.new s w) }
    ensures value { IfOk result (λ s. (v : Val) → Wired net.new v → v s.0 ≡ cond (kept && not (on v ret)) (v keep.0) (v res.0)) }
{
    if !kept {
        return Ok(res);
    }
    mux(net, ret, res, keep)
}
