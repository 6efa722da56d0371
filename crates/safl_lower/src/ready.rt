//! Readiness of combined terms. Most cases need no cell.

ghost use Rattle.std.specs.Prelude.{◌≡◌, ◌⊎◌, ◌↔◌, ◌<◌, ◌&&◌, cond, IfOk};
ghost use Rattle.safl_net.specs.Growth.{Val, Wired};
ghost use Rattle.safl_net.specs.Bits.{on};
ghost use Rattle.safl_lower.specs.Bits.{is_ready, ReadyAt};
ghost use Rattle.safl_lower.specs.Sources.{IsSource, Builds, CanGrow};

use crate::gates::{and_not, both, either, inverse, mux, or_not, zero};
use crate::lowered::Readiness;
use safl_net::{Net, Sig};
use safl_word::NoMemory;

/// The bit that is 1 if `a` is and `r` is ready.
pub fn and_ready(net: &mut Net, a: Sig, r: Readiness) -> Result<Sig, NoMemory>
    requires first { IsSource net.old a 1 }
    requires second { ReadyAt net.old r }
    requires room { CanGrow net.old 1 }
    ensures built { Builds net.old net.new 1 }
    ensures fits { IfOk result (λ s. IsSource net.new s 1) }
    ensures value { IfOk result (λ s. (v : Val) → Wired net.new v → on v s ≡ (on v a && is_ready v r)) }
{
    match r {
        Readiness::Always => Ok(a),
        Readiness::Never => zero(net),
        Readiness::When(b) => both(net, a, b),
    }
}

/// Ready if both are.
pub fn both_ready(net: &mut Net, q: Readiness, r: Readiness) -> Result<Readiness, NoMemory>
    requires first { ReadyAt net.old q }
    requires second { ReadyAt net.old r }
    requires room { CanGrow net.old 1 }
    ensures built { Builds net.old net.new 1 }
    ensures fits { IfOk result (λ s. ReadyAt net.new s) }
    ensures value { IfOk result (λ s. (v : Val) → Wired net.new v → is_ready v s ≡ (is_ready v q && is_ready v r)) }
    ensures never { IfOk result (λ s. (s ≡ Readiness.Never) ↔ ((q ≡ Readiness.Never) ⊎ (r ≡ Readiness.Never))) }
{
    match (q, r) {
        (Readiness::Always, _) => Ok(r),
        (_, Readiness::Always) => Ok(q),
        (Readiness::When(a), Readiness::When(b)) => Ok(Readiness::When(both(net, a, b)?)),
        _ => Ok(Readiness::Never),
    }
}

/// Ready if the branch that `c` selects is.
pub fn either_ready(
    net: &mut Net,
    c: Sig,
    yes: Readiness,
    no: Readiness,
) -> Result<Readiness, NoMemory>
    requires test { IsSource net.old c 1 }
    requires yes { ReadyAt net.old yes }
    requires no { ReadyAt net.old no }
    requires room { CanGrow net.old 2 }
    ensures built { Builds net.old net.new 2 }
    ensures fits { IfOk result (λ s. ReadyAt net.new s) }
    ensures value { IfOk result (λ s. (v : Val) → Wired net.new v → is_ready v s ≡ cond (on v c) (is_ready v yes) (is_ready v no)) }
    ensures never { IfOk result (λ s. (s ≡ Readiness.Never) ↔ ((yes ≡ Readiness.Never) × (no ≡ Readiness.Never))) }
{
    match (yes, no) {
        (Readiness::Always, Readiness::Always) => Ok(Readiness::Always),
        (Readiness::Never, Readiness::Never) => Ok(Readiness::Never),
        (Readiness::Always, Readiness::Never) => Ok(Readiness::When(c)),
        (Readiness::Never, Readiness::Always) => Ok(Readiness::When(inverse(net, c)?)),
        (Readiness::Always, Readiness::When(n)) => Ok(Readiness::When(either(net, c, n)?)),
        (Readiness::When(y), Readiness::Always) => Ok(Readiness::When(or_not(net, y, c)?)),
        (Readiness::When(y), Readiness::Never) => Ok(Readiness::When(both(net, c, y)?)),
        (Readiness::Never, Readiness::When(n)) => Ok(Readiness::When(and_not(net, n, c)?)),
        (Readiness::When(y), Readiness::When(n)) => Ok(Readiness::When(mux(net, c, y, n)?)),
    }
}
