//! Which calls are call sites.

ghost use Rattle.std.specs.Prelude.{◌≡◌};
ghost use Rattle.safl_typing.specs.PlainHeads.{site_of};

use crate::heads::Callee;

/// The number of call sites that a call of this function is: 0 for a function of the caller's own group, 1 for any other.
pub fn sites_of_callee(callee: Callee) -> u32
    ensures { result ≡ site_of callee }
{
    match callee {
        Callee::Member(_) => 0,
        Callee::Above(_) => 1,
        Callee::Unknown => 1,
    }
}
