//! A checked program with its plan.

use crate::planning::Findings;
use crate::site_set::SiteSet;
use safl_term::Checked;
use std::marker::Model;

/// A checked program, the sites in reach of each body, the sites that conflict, the units that have an arbiter, and the
/// sites that keep their words.
#[derive(Drop)]
pub struct Planned {
    checked: Checked,
    bodies: Vec<SiteSet>,
    before: Vec<SiteSet>,
    arbiters: Vec<bool>,
    keeps: Vec<bool>,
}

impl Model for Planned {
    ghost use Rattle.safl_term.specs.contracts.checked.Checked as inner;
    ghost use Rattle.safl_sites.specs.Planned.{PlannedProgram, IsPlanned, planned_of, planned_code};

    ghost Value = { PlannedProgram };

    ghost coded = { planned_code inner.the_row.coded };

    ghost view = { λ p. planned_of p.checked (record { arbiters = p.arbiters.items; keeps = p.keeps.items }) };

    ghost invariant = { λ p. IsPlanned p.checked (record { arbiters = p.arbiters.items; keeps = p.keeps.items }) p.bodies.items p.before.items };
}

#[tactic(auto, unfolding(crate::specs::Planned::choice_of))]
impl Planned {
    ghost use Rattle.std.specs.Prelude.{◌≡◌, ◌<◌, ◌≤◌, ◌↔◌, IsTrue};
    ghost use Rattle.safl_sites.specs.Conflicts.{Reaches, Conflict};
    ghost use Rattle.safl_sites.specs.Parallel.{ComesBefore};
    ghost use Rattle.safl_sites.specs.Kept.{Kept};
    ghost use Rattle.safl_sites.specs.Plan.{HasArbiter, IsPlan};
    ghost use Rattle.safl_sites.specs.Planned.{IsPlanned};

    /// The program with these findings.
    pub fn new(checked: Checked, found: Findings) -> Planned
        requires { IsPlanned checked (record { arbiters = found.arbiters.items; keeps = found.keeps.items }) found.bodies.items found.before.items }
        ensures program { result.checked ≡ checked }
        ensures plan { IsPlan checked.program result.arbiter result.kept }
    {
        Planned {
            checked,
            bodies: found.bodies,
            before: found.before,
            arbiters: found.arbiters,
            keeps: found.keeps,
        }
    }

    /// The program.
    pub fn checked(&self) -> &Checked
        ensures same { result.now ≡ self.now.checked }
        ensures plan { IsPlan self.now.program self.now.arbiter self.now.kept }
    {
        &self.checked
    }

    /// Whether site `k` is in reach of the body of function `f`.
    pub fn reach(&self, f: u32, k: u32) -> bool
        requires function { f < self.now.program.functions }
        requires site { k ≤ self.now.program.sites }
        ensures { IsTrue result ↔ Reaches self.now.program k (self.now.program.body f) }
    {
        self.bodies[f as usize].contains(k)
    }

    /// Whether two sites conflict.
    pub fn conflict(&self, k: u32, other: u32) -> bool
        requires least { 1 ≤ k }
        requires most { k ≤ self.now.program.sites }
        requires other_least { 1 ≤ other }
        requires other_most { other ≤ self.now.program.sites }
        ensures { IsTrue result ↔ Conflict self.now.program k other }
    {
        let c = &self.checked;
        if k == other || c.unit_for(k) != c.unit_for(other) {
            return false;
        }
        self.comes_before(k, other) || self.comes_before(other, k)
    }

    // Whether the first site is in reach of a term that comes before a parallel one with the second in reach.
    fn comes_before(&self, k: u32, other: u32) -> bool
        requires least { 1 ≤ other }
        requires most { other ≤ self.now.program.sites }
        requires site { k ≤ self.now.program.sites }
        ensures { IsTrue result ↔ ComesBefore self.now.program k other }
    {
        self.before[other as usize].contains(k)
    }

    /// Whether the unit of a function has an arbiter.
    pub fn arbiter(&self, f: u32) -> bool
        requires { f < self.now.program.functions }
        ensures entry { result ≡ self.now.arbiter (self.now.program.unit f) }
        ensures exact { IsTrue result ↔ HasArbiter self.now.program (self.now.program.unit f) }
    {
        self.arbiters[self.checked.unit(f) as usize]
    }

    /// Whether a site keeps its word.
    pub fn kept(&self, k: u32) -> bool
        requires least { 1 ≤ k }
        requires most { k ≤ self.now.program.sites }
        ensures entry { result ≡ self.now.kept k }
        ensures exact { IsTrue result ↔ Kept self.now.program k }
    {
        self.keeps[k as usize]
    }
}
