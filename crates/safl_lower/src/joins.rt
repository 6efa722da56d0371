//! The gates that a branch, a call or a tail call adds to the circuits of its parts.

ghost use Rattle.std.specs.Prelude.{◌≡◌, ◌⊎◌, true, ℕ, ◌<◌, cond, IfOk, OnOk};
ghost use Rattle.safl_term.specs.Tree.{shown_term};
ghost use Rattle.safl_net.specs.Growth.{Val, Wired};
ghost use Rattle.safl_net.specs.Bits.{on, gate};
ghost use Rattle.safl_lower.specs.Bits.{is_ready, ReadyAt};
ghost use Rattle.safl_lower.specs.Typing.{holds_calls};
ghost use Rattle.safl_lower.specs.Lowering.{gives, HasPorts, Shaped, ShowsPort, Enters, Leaves};
ghost use Rattle.safl_lower.specs.Joining.{is_reached, selects_yes, selects_no, selected_ready, selected_word, BothNever, AddsCall, AddsTailCall};
ghost use Rattle.safl_lower.specs.Sources.{IsSource, Builds, CanGrow};

use crate::gates::{and_not, both, inverse, mux};
use crate::holding::holds_calls;
use crate::lowered::{Lowered, LoweredAll, Out, Readiness, SiteTable, TailCall, Want};
use crate::ready::{and_ready, both_ready, either_ready};
use safl_net::{Net, Sig};
use safl_term::Term;
use safl_word::NoMemory;

/// The paths of the two branches of an if.
#[derive(Clone, Copy)]
pub struct Paths {
    pub yes: Sig,
    pub no: Sig,
}

/// The paths of the branches of an if. `path` is that of its test; if it is 1 and the test is ready, the test's word
/// makes one of the two paths 1. A branch without calls asks for nothing, so it keeps the test's path, which takes no
/// gates.
pub fn branch_paths(
    net: &mut Net,
    path: Sig,
    test: Lowered,
    yes: &Term,
    no: &Term,
) -> Result<Paths, NoMemory>
    requires path { IsSource net.old path 1 }
    requires ready { ReadyAt net.old test.ready }
    requires test { IsSource net.old test.value 1 }
    requires room { CanGrow net.old 4 }
    ensures built { Builds net.old net.new 4 }
    ensures widths { IfOk result (λ p. IsSource net.new p.yes 1 × IsSource net.new p.no 1) }
    ensures yes { IfOk result (λ p. holds_calls (shown_term yes.now) ≡ true → (v : Val) → Wired net.new v → on v p.yes ≡ selects_yes v path test) }
    ensures no { IfOk result (λ p. holds_calls (shown_term no.now) ≡ true → (v : Val) → Wired net.new v → on v p.no ≡ selects_no v path test) }
{
    match (holds_calls(yes), holds_calls(no)) {
        (false, false) => Ok(Paths {
            yes: path,
            no: path,
        }),
        (true, false) => {
            let reached = and_ready(net, path, test.ready)?;
            let yes = both(net, reached, test.value)?;
            Ok(Paths { yes, no: path })
        }
        (false, true) => {
            let reached = and_ready(net, path, test.ready)?;
            let no = and_not(net, reached, test.value)?;
            Ok(Paths { yes: path, no })
        }
        (true, true) => {
            let reached = and_ready(net, path, test.ready)?;
            let yes = both(net, reached, test.value)?;
            let no = and_not(net, reached, test.value)?;
            Ok(Paths { yes, no })
        }
    }
}

/// The path of a let's body: 1 if the let's path is and the bindings are ready. A body without calls keeps the let's
/// path, which takes no gates.
pub fn body_path(net: &mut Net, path: Sig, bound: Readiness, body: &Term) -> Result<Sig, NoMemory>
    requires path { IsSource net.old path 1 }
    requires ready { ReadyAt net.old bound }
    requires room { CanGrow net.old 1 }
    ensures built { Builds net.old net.new 1 }
    ensures fits { IfOk result (λ s. IsSource net.new s 1) }
    ensures value { IfOk result (λ s. holds_calls (shown_term body.now) ≡ true → (v : Val) → Wired net.new v → on v s ≡ is_reached v path bound) }
{
    if holds_calls(body) {
        and_ready(net, path, bound)
    } else {
        Ok(path)
    }
}

/// The value and the readiness of an if, from those of its parts.
pub fn choose(net: &mut Net, test: Lowered, yes: Lowered, no: Lowered) -> Result<Lowered, NoMemory>
    requires ready { ReadyAt net.old test.ready }
    requires test { IsSource net.old test.value 1 }
    requires branches { (w : ℕ) × Shaped net.old yes w × Shaped net.old no w }
    requires room { CanGrow net.old 5 }
    ensures built { Builds net.old net.new 5 }
    ensures shape { (w : ℕ) → Shaped net.old yes w → Shaped net.old no w → IfOk result (λ r. Shaped net.new r w) }
    ensures value { IfOk result (λ r. (v : Val) → Wired net.new v
        → gives v r ≡ gate (is_ready v test.ready) (cond (on v test.value) (gives v yes) (gives v no))) }
    ensures never { IfOk result (λ r. r.ready ≡ Readiness.Never → (test.ready ≡ Readiness.Never) ⊎ BothNever yes no) }
{
    let value = choose_value(net, test.value, yes, no)?;
    let selected = either_ready(net, test.value, yes.ready, no.ready)?;
    let ready = both_ready(net, test.ready, selected)?;
    Ok(Lowered { ready, value })
}

// The value of an if: that of the branch that `c` selects, if that branch is ready.
fn choose_value(net: &mut Net, c: Sig, yes: Lowered, no: Lowered) -> Result<Sig, NoMemory>
    requires test { IsSource net.old c 1 }
    requires branches { (w : ℕ) × Shaped net.old yes w × Shaped net.old no w }
    requires room { CanGrow net.old 1 }
    ensures built { Builds net.old net.new 1 }
    ensures fits { (w : ℕ) → Shaped net.old yes w → Shaped net.old no w → IfOk result (λ s. (BothNever yes no → ⊥) → IsSource net.new s w) }
    ensures value { IfOk result (λ s. (v : Val) → Wired net.new v → selected_ready v c yes no ≡ true → v s.0 ≡ selected_word v c yes no) }
{
    match (yes.ready, no.ready) {
        (Readiness::Never, _) => Ok(no.value),
        (_, Readiness::Never) => Ok(yes.value),
        _ => mux(net, c, yes.value, no.value),
    }
}

/// The circuit of a call: its want, which is 1 if its path is, its arguments are ready and it was not sent; and what
/// its site shows.
pub fn ask(
    net: &mut Net,
    out: &mut Out,
    sites: &SiteTable,
    path: Sig,
    site: u32,
    all: LoweredAll,
) -> Result<Lowered, NoMemory>
    requires path { IsSource net.old path 1 }
    requires all { ReadyAt net.old all.ready }
    requires site { HasPorts net.old sites.now site }
    requires room { CanGrow net.old 3 }
    ensures built { Builds net.old net.new 3 }
    ensures given { IfOk result (λ r. ShowsPort sites.now site r) }
    ensures entry { IfOk result (λ _. Enters net.new out.old.wants.items out.new.wants.items site all) }
    ensures loops { OnOk result (out.new.loops.items ≡ out.old.loops.items) }
    ensures wants { IfOk result (λ r. AddsCall net.new sites.now path site all out.old.wants.items out.new.wants.items) }
{
    let port = sites.ports[(site - sites.first) as usize];
    let unsent = inverse(net, port.sent)?;
    let free = both(net, path, unsent)?;
    let want = and_ready(net, free, all.ready)?;
    out.wants.push(Want {
        site,
        want,
        args: all.values,
    })?;
    Ok(Lowered {
        ready: Readiness::When(port.returned),
        value: port.value,
    })
}

/// The circuit of a tail call. It is never ready, and nothing reads its value.
pub fn go_on(
    net: &mut Net,
    out: &mut Out,
    path: Sig,
    member: u32,
    all: LoweredAll,
) -> Result<Lowered, NoMemory>
    requires path { IsSource net.old path 1 }
    requires all { ReadyAt net.old all.ready }
    requires room { CanGrow net.old 1 }
    ensures built { Builds net.old net.new 1 }
    ensures never { IfOk result (λ r. r.ready ≡ Readiness.Never) }
    ensures entry { IfOk result (λ _. Leaves net.new out.old.loops.items out.new.loops.items path member all) }
    ensures wants { OnOk result (out.new.wants.items ≡ out.old.wants.items) }
    ensures loops { IfOk result (λ r. AddsTailCall net.new path member all out.old.loops.items out.new.loops.items) }
{
    let taken = and_ready(net, path, all.ready)?;
    out.loops.push(TailCall {
        member,
        taken,
        args: all.values,
    })?;
    Ok(Lowered {
        ready: Readiness::Never,
        value: path,
    })
}
