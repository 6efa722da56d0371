//! The next words of the registers of one unit, one function and one site.

ghost use Rattle.std.specs.Prelude.{◌≡◌, ℕ, ◌+◌, ◌*◌, ◌&&◌, ◌||◌, true, List, [], ◌∷◌, not, length, Some, IfOk, OnOk, unwrap_or};
ghost use Rattle.safl_net.specs.Names.{IsTidy};
ghost use Rattle.safl_net.specs.Growth.{Val, Wired};
ghost use Rattle.safl_net.specs.Bits.{on};
ghost use Rattle.safl_net.specs.Settled.{IsSettled};
ghost use Rattle.safl_lower.specs.Sources.{IsSource, Builds, CanGrow};
ghost use Rattle.safl_lower.specs.Tables.{taken_in, on_in, FitsIn, IsBitIn};
ghost use Rattle.safl_unit.specs.Cycles.{UnitFits, MemberFits, SiteFits};
ghost use Rattle.safl_unit.specs.Steps.{UnitStep, SiteStep, KeepsMember, IsNextMember};

use crate::arrivals::load_bit;
use crate::pins::{MemberPins, SitePins, UnitPins};
use crate::returns::site_word;
use safl_lower::gates::{and_none, either, mux, or_some, zero};
use safl_lower::loads::Load;
use safl_lower::resets::reset_words;
use safl_net::{Net, Sig};
use safl_word::NoMemory;
use std::alloc::Global;

/// The next words of a unit's registers. A unit runs from a start to an end, has just finished after an end, and keeps
/// the word of the end.
pub fn next_unit(
    net: &mut Net,
    end: &Option<Load>,
    start: Option<Sig>,
    unit: UnitPins,
) -> Result<UnitPins, NoMemory>
    requires fits { (w : ℕ) × FitsIn net.old end.now (w ∷ []) × UnitFits net.old unit w }
    requires start { IsBitIn net.old start }
    requires room { CanGrow net.old 5 }
    ensures tidy { IsTidy net.new }
    ensures built { OnOk result (Builds net.old net.new 5) }
    ensures fits { (w : ℕ) → FitsIn net.old end.now (w ∷ []) → UnitFits net.old unit w → IfOk result (λ y. UnitFits net.new y w) }
    ensures shows { IfOk result (λ y. (v : Val) → Wired net.new v → UnitStep v (taken_in v end.now) (on_in v start) unit y) }
{
    let bit = load_bit(end);
    let started = or_some(net, start, unit.run)?;
    let run = and_none(net, started, bit)?;
    let fin = some_bit(net, bit)?;
    let res = load_word(net, end, unit.res)?;
    Ok(UnitPins { run, fin, res })
}

/// Whether a function starts, and whether another function of its unit does.
#[derive(Clone, Copy)]
pub struct Entry {
    pub own: Option<Sig>,
    pub rival: Option<Sig>,
}

/// The next words of a function's registers. A function runs from its own entry to that of another function of its
/// unit, and keeps its arguments from one load to the next.
pub fn next_member(
    alloc: Global,
    net: &mut Net,
    many: bool,
    entry: Entry,
    load: &Option<Load>,
    looped: &Option<Load>,
    member: &MemberPins,
) -> Result<MemberPins, NoMemory>
    requires settled { IsSettled net.old }
    requires entry { IsBitIn net.old entry.own }
    requires rival { IsBitIn net.old entry.rival }
    requires fits { (ws : List ℕ) × FitsIn net.old load.now ws × FitsIn net.old looped.now ws × MemberFits net.old member.now ws }
    requires room { CanGrow net.old (3 + 62 * length member.now.args.items) }
    ensures tidy { IsTidy net.new }
    ensures built { OnOk result (Builds net.old net.new (3 + 62 * length member.now.args.items)) }
    ensures fits { KeepsMember result net.old net.new load.now looped.now member.now }
    ensures shows { IfOk result (λ y. IsNextMember net.new many entry load.now looped.now member.now y) }
{
    let at = next_at(net, many, entry.own, entry.rival, member.at)?;
    let args = reset_words(alloc, net, load, looped, &member.args)?;
    Ok(MemberPins { at, args })
}

/// The next words of a site's registers. A site is sent from its start on, and has its word from its return on, until
/// it is cleared. It keeps the word.
pub fn next_site(
    net: &mut Net,
    kept: bool,
    ret: Sig,
    go: Sig,
    clear: Option<Sig>,
    res: Sig,
    site: SitePins,
) -> Result<SitePins, NoMemory>
    requires ret { IsSource net.old ret 1 }
    requires go { IsSource net.old go 1 }
    requires clear { IsBitIn net.old clear }
    requires fits { (w : ℕ) × IsSource net.old res w × SiteFits net.old site w }
    requires room { CanGrow net.old 7 }
    ensures tidy { IsTidy net.new }
    ensures built { OnOk result (Builds net.old net.new 7) }
    ensures fits { (w : ℕ) → IsSource net.old res w → SiteFits net.old site w → IfOk result (λ y. SiteFits net.new y w) }
    ensures shows { IfOk result (λ y. (v : Val) → Wired net.new v → SiteStep v kept (on v ret) (on v go) (on_in v clear) (v res.0) site y) }
{
    let sent = next_bit(net, site.sent, go, clear)?;
    let got = next_bit(net, site.got, ret, clear)?;
    let keep = site_word(net, kept, ret, res, site.keep)?;
    Ok(SitePins { sent, got, keep })
}

// The next word of the register that says that the unit runs this function, if the unit has others.
fn next_at(
    net: &mut Net,
    many: bool,
    entry: Option<Sig>,
    rival: Option<Sig>,
    at: Sig,
) -> Result<Sig, NoMemory>
    requires entry { IsBitIn net.old entry }
    requires rival { IsBitIn net.old rival }
    requires at { IsSource net.old at 1 }
    requires room { CanGrow net.old 3 }
    ensures tidy { IsTidy net.new }
    ensures built { OnOk result (Builds net.old net.new 3) }
    ensures fits { IfOk result (λ s. IsSource net.new s 1) }
    ensures value { IfOk result (λ s. (v : Val) → Wired net.new v → many ≡ true → on v s ≡ ((on_in v entry || on v at) && not (on_in v rival))) }
{
    if !many {
        return Ok(at);
    }
    let entered = or_some(net, entry, at)?;
    let next = and_none(net, entered, rival)?;
    Ok(next)
}

// The next word of a bit that `set` sets, and that `clear`, if it is there, clears.
fn next_bit(net: &mut Net, now: Sig, set: Sig, clear: Option<Sig>) -> Result<Sig, NoMemory>
    requires now { IsSource net.old now 1 }
    requires set { IsSource net.old set 1 }
    requires clear { IsBitIn net.old clear }
    requires room { CanGrow net.old 3 }
    ensures tidy { IsTidy net.new }
    ensures built { OnOk result (Builds net.old net.new 3) }
    ensures fits { IfOk result (λ s. IsSource net.new s 1) }
    ensures value { IfOk result (λ s. (v : Val) → Wired net.new v → on v s ≡ ((on v now || on v set) && not (on_in v clear))) }
{
    let raised = either(net, now, set)?;
    let next = and_none(net, raised, clear)?;
    Ok(next)
}

// A bit, or 0 if it is absent.
fn some_bit(net: &mut Net, bit: Option<Sig>) -> Result<Sig, NoMemory>
    requires bit { IsBitIn net.old bit }
    requires room { CanGrow net.old 1 }
    ensures built { Builds net.old net.new 1 }
    ensures fits { IfOk result (λ s. IsSource net.new s 1) }
    ensures value { IfOk result (λ s. (v : Val) → Wired net.new v → on v s ≡ on_in v bit) }
{
    match bit {
        None => zero(net),
        Some(bit) => Ok(bit),
    }
}

// The word of a load if it is there and taken, else `word`.
fn load_word(net: &mut Net, load: &Option<Load>, word: Sig) -> Result<Sig, NoMemory>
    requires fits { (w : ℕ) × FitsIn net.old load.now (w ∷ []) × IsSource net.old word w }
    requires room { CanGrow net.old 1 }
    ensures built { Builds net.old net.new 1 }
    ensures fits { (w : ℕ) → FitsIn net.old load.now (w ∷ []) → IsSource net.old word w → IfOk result (λ s. IsSource net.new s w) }
    ensures value { IfOk result (λ s. (v : Val) → Wired net.new v → v s.0 ∷ [] ≡ unwrap_or (taken_in v load.now) (v word.0 ∷ [])) }
{
    match load {
        None => Ok(word),
        Some(load) => {
            let other = load.words[0];
            mux(net, load.bit, other, word)
        }
    }
}
