//! Laws of plans, over the definitions alone.

ghost use Rattle.std.specs.Prelude.{ℕ, Bool};
ghost use Rattle.safl_term.specs.Program.{Program};
ghost use Rattle.safl_sites.specs.Plan.{IsPlan, Suffices};

/// A plan decides which units have two sites in conflict and which sites keep their words. It then has all that a
/// circuit needs.
pub fn plan_law()
    ensures { (C : Program) (arbiter kept : ℕ → Bool) → IsPlan C arbiter kept → Suffices C arbiter kept }
{}
