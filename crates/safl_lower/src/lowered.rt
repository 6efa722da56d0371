//! The ports of a body, and the parts of its circuit.

use crate::loads::Load;
use safl_net::Sig;

/// The ports of a call site: a bit that says whether its call was sent, one that says whether it has returned, and the
/// word that the site then shows.
#[derive(Clone, Copy)]
pub struct SitePorts {
    pub sent: Sig,
    pub returned: Sig,
    pub value: Sig,
}

/// The ports of a body. It runs if `run` is 1, has its parameters on `args`, and finds on `sites` what its own sites
/// show, by rising number.
#[derive(Drop)]
pub struct Ports {
    pub run: Sig,
    pub args: Vec<Sig>,
    pub sites: Vec<SitePorts>,
}

/// The ports of a body's sites, which are numbered from `first` on.
#[derive(Drop)]
pub struct SiteTable {
    pub first: u32,
    pub ports: Vec<SitePorts>,
}

/// The circuit of a body, as loads: words that are taken if a bit is 1.
///
/// `end` has the body's word, and is taken if the body runs and is ready. `wants` has for each site in it the arguments
/// of its call, and is taken if the site is wanted. `loops` has for each function of the group the arguments of the
/// tail calls to it, and is taken if the body makes one; it has no load for a function to which the body makes no tail
/// calls.
#[derive(Drop)]
pub struct Body {
    pub end: Load,
    pub wants: Vec<Load>,
    pub loops: Vec<Option<Load>>,
}

/// When a term is ready: always, as an operator on constants; never, as a tail call; or if a bit is 1.
#[derive(Clone, Copy)]
pub enum Readiness {
    Always,
    Never,
    When(Sig),
}

/// The readiness and the value of a term. If the term is never ready, the value is any signal, of any width.
#[derive(Clone, Copy)]
pub struct Lowered {
    pub ready: Readiness,
    pub value: Sig,
}

/// The readiness and the values of several terms: they are ready if all of them are.
#[derive(Drop)]
pub struct LoweredAll {
    pub ready: Readiness,
    pub values: Vec<Sig>,
}

/// A call: its site, the bit that is 1 if it is wanted, and its arguments.
#[derive(Drop)]
pub struct Want {
    pub site: u32,
    pub want: Sig,
    pub args: Vec<Sig>,
}

/// A tail call: the function that it goes to, the bit that is 1 if it is made, and its arguments.
#[derive(Drop)]
pub struct TailCall {
    pub member: u32,
    pub taken: Sig,
    pub args: Vec<Sig>,
}

/// The calls and tail calls found so far.
#[derive(Drop)]
pub struct Out {
    pub wants: Vec<Want>,
    pub loops: Vec<TailCall>,
}
