//! The members of a unit, and the sites in their bodies.

ghost use Rattle.std.specs.Prelude.{◌≡◌, ◌<◌, ◌≤◌};
ghost use Rattle.safl_term.specs.Checked.{IsChecked};
ghost use Rattle.safl_core.specs.Spans.{IsSpan, EndsMembers};

use safl_term::Checked;

/// Consecutive sites: the first one, and the number after the last one.
#[derive(Clone, Copy)]
pub struct Span {
    pub first: u32,
    pub end: u32,
}

impl Span {
    ghost use Rattle.std.specs.Prelude.{◌≡◌};

    /// The empty span.
    pub fn none() -> Span
        ensures first { result.first ≡ 1 }
        ensures end { result.end ≡ 1 }
    {
        Span { first: 1, end: 1 }
    }
}

/// The number after the last member of a unit.
pub fn members_end(c: &Checked, u: u32) -> u32
    requires { u < c.now.program.functions }
    ensures ends { EndsMembers c.now.program u result }
    ensures checked { IsChecked c.now }
{
    let functions = c.functions();
    for f in u..functions {
        if c.unit(f) != u {
            return f;
        }
    }
    functions
}

/// The sites in the bodies of a unit's members.
pub fn own_sites(c: &Checked, u: u32) -> Span
    requires { u < c.now.program.functions }
    ensures { IsSpan c.now.program u result }
{
    Span {
        first: c.first_site(u),
        end: sites_before(c, members_end(c, u)),
    }
}

// The number of the first site of function `f`, if it has one, and else that of the first site after it.
fn sites_before(c: &Checked, f: u32) -> u32
    requires { f ≤ c.now.program.functions }
    ensures { result ≡ c.now.first_site f }
{
    if f < c.functions() {
        c.first_site(f)
    } else {
        c.sites() + 1
    }
}
