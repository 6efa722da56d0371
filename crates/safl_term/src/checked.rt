//! Checked programs.

use crate::term::Term;
use std::marker::Model;

/// A parameter: its name, and its width in bits.
#[derive(Drop)]
pub struct Parameter {
    pub name: String,
    pub width: u8,
}

/// A function: its name, its parameters, the width of its result in bits, the number of the first function of its
/// group, the number of the first site of its body and of those that follow it, and its body.
#[derive(Drop)]
pub struct Function {
    pub name: String,
    pub params: Vec<Parameter>,
    pub width: u8,
    pub unit: u32,
    pub first_site: u32,
    pub body: Term,
}

/// A call site: the function whose body has it, and the function that it calls.
#[derive(Clone, Copy, Debug, PartialEq, Eq)]
pub struct Site {
    pub caller: u32,
    pub callee: u32,
}

/// A well-formed program in numbers. Functions are numbered from 0 in the order of the text, and sites from 1 in the
/// order of the called names in the text.
#[derive(Drop)]
pub struct Checked {
    functions: Vec<Function>,
    sites: Vec<Site>,
}

impl Model for Checked {
    ghost use Rattle.safl_term.specs.Checked.{CheckedProgram, IsChecked, checked_of, checked_code};
    ghost use Rattle.safl_term.specs.Tables.{BodyHasSlots};
    ghost use Rattle.safl_term.specs.contracts.term.Term as term;
    ghost use Rattle.std.specs.Coded.{codes};
    ghost use Rattle.std.specs.List.{All};

    ghost Value = { CheckedProgram };

    ghost coded = { checked_code (Prim.hlevel (codes, term.the_row.coded)) };

    ghost view = { λ c. checked_of (record { functions = c.functions.items; sites = c.sites.items }) };

    ghost invariant = { λ c. IsChecked (checked_of (record { functions = c.functions.items; sites = c.sites.items })) × All BodyHasSlots c.functions.items };
}

#[tactic(auto, using(std::proofs::lemmas::Option::slice_get_read), unfolding(crate::specs::Tables::program_of, crate::specs::Tables::name_of, crate::specs::Tables::param_names, crate::specs::Tables::first_site_of))]
impl Checked {
    ghost use Rattle.std.specs.Prelude.{◌≡◌, ◌+◌, ◌<◌, ◌≤◌, suc, slice_get, Some};
    ghost use Rattle.std.specs.List.{All};
    ghost use Rattle.safl_term.specs.Checked.{IsChecked, checked_of};
    ghost use Rattle.safl_word.specs.Limits.{functions_max, params_max, sites_max, width_max};
    ghost use Rattle.safl_term.specs.Program.{arity, unit_for};
    ghost use Rattle.safl_term.specs.Slots.{HasSlots};
    ghost use Rattle.safl_term.specs.Tables.{BodyHasSlots};
    ghost use Rattle.safl_term.specs.Tree.{shown_term};

    /// The program of these functions and sites. They must be in order.
    pub fn new(functions: Vec<Function>, sites: Vec<Site>) -> Checked
        requires checked { IsChecked (checked_of (record { functions = functions.items; sites = sites.items })) }
        requires slots { All BodyHasSlots functions.items }
        ensures { result ≡ checked_of (record { functions = functions.items; sites = sites.items }) }
    {
        Checked { functions, sites }
    }

    /// The number of functions.
    pub fn functions(&self) -> u32
        ensures count { result ≡ self.now.program.functions }
        ensures least { 1 ≤ result }
        ensures most { result ≤ functions_max }
        ensures checked { IsChecked self.now }
    {
        self.functions.len() as u32
    }

    /// The number of call sites.
    pub fn sites(&self) -> u32
        ensures count { result ≡ self.now.program.sites }
        ensures most { result ≤ sites_max }
        ensures checked { IsChecked self.now }
    {
        self.sites.len() as u32
    }

    /// The number of main, the last function.
    #[tactic(auto, using(crate::proofs::HeldByChecked::main_is_last))]
    pub fn main(&self) -> u32
        ensures number { result ≡ self.now.program.main }
        ensures within { result < self.now.program.functions }
    {
        self.functions() - 1
    }

    /// The name of a function.
    pub fn name(&self, f: u32) -> &[u8]
        requires { f < self.now.program.functions }
        ensures { result.now ≡ self.now.name f }
    {
        self.functions[f as usize].name.as_bytes()
    }

    /// The number of a function's parameters.
    pub fn params(&self, f: u32) -> u32
        requires { f < self.now.program.functions }
        ensures count { result ≡ arity self.now.program f }
        ensures most { result ≤ params_max }
    {
        self.functions[f as usize].params.len() as u32
    }

    /// The name of a parameter.
    pub fn param_name(&self, f: u32, i: u32) -> &[u8]
        requires function { f < self.now.program.functions }
        requires param { i < arity self.now.program f }
        ensures { slice_get (self.now.param_names f) i ≡ Some result.now }
    {
        self.functions[f as usize].params[i as usize]
            .name
            .as_bytes()
    }

    /// The width of a parameter, in bits.
    pub fn param_width(&self, f: u32, i: u32) -> u8
        requires function { f < self.now.program.functions }
        requires param { i < arity self.now.program f }
        ensures width { slice_get (self.now.program.params f) i ≡ Some result }
        ensures least { 1 ≤ result }
        ensures most { result ≤ width_max }
    {
        self.functions[f as usize].params[i as usize].width
    }

    /// The width of a function's result, in bits.
    pub fn width(&self, f: u32) -> u8
        requires { f < self.now.program.functions }
        ensures width { result ≡ self.now.program.result f }
        ensures least { 1 ≤ result }
        ensures most { result ≤ width_max }
    {
        self.functions[f as usize].width
    }

    /// The number of the first function of a function's group. Its width is that of the whole group.
    pub fn unit(&self, f: u32) -> u32
        requires { f < self.now.program.functions }
        ensures number { result ≡ self.now.program.unit f }
        ensures within { result ≤ f }
        ensures width { self.now.program.result result ≡ self.now.program.result f }
    {
        self.functions[f as usize].unit
    }

    /// The body of a function.
    pub fn body(&self, f: u32) -> &Term
        requires { f < self.now.program.functions }
        ensures term { shown_term result.now ≡ self.now.program.body f }
        ensures slots { HasSlots (arity self.now.program f) result.now }
        ensures checked { IsChecked self.now }
    {
        &self.functions[f as usize].body
    }

    /// The number of the first site in the body of `f` and in the bodies after it.
    pub fn first_site(&self, f: u32) -> u32
        requires { f < self.now.program.functions }
        ensures { result ≡ self.now.first_site f }
    {
        self.functions[f as usize].first_site
    }

    /// The number of sites in the body of `f`.
    #[tactic(auto, using(crate::proofs::HeldByChecked::first_site_rises))]
    pub fn own_sites(&self, f: u32) -> u32
        requires { f < self.now.program.functions }
        ensures { self.now.first_site f + result ≡ self.now.first_site (suc f) }
    {
        self.next_site(f) - self.first_site(f)
    }

    // The number of the first site after the body of `f`.
    fn next_site(&self, f: u32) -> u32
        requires { f < self.now.program.functions }
        ensures number { result ≡ self.now.first_site (suc f) }
        ensures checked { IsChecked self.now }
    {
        match self.functions.get(f as usize + 1) {
            Some(next) => next.first_site,
            None => self.sites() + 1,
        }
    }

    /// The function whose body has a site.
    pub fn caller(&self, k: u32) -> u32
        requires least { 1 ≤ k }
        requires most { k ≤ self.now.program.sites }
        ensures number { result ≡ self.now.program.caller k }
        ensures within { result < self.now.program.functions }
    {
        self.sites[k as usize - 1].caller
    }

    /// The function that a site calls. Site 0 is the call of main from outside.
    pub fn callee(&self, k: u32) -> u32
        requires { k ≤ self.now.program.sites }
        ensures number { result ≡ self.now.program.callee k }
        ensures within { result < self.now.program.functions }
    {
        if k == 0 {
            return self.main();
        }
        self.sites[k as usize - 1].callee
    }

    /// The unit that serves a site.
    pub fn unit_for(&self, k: u32) -> u32
        requires { k ≤ self.now.program.sites }
        ensures number { result ≡ unit_for self.now.program k }
        ensures within { result < self.now.program.functions }
    {
        self.unit(self.callee(k))
    }
}
