//! The groups of functions.

ghost use Rattle.std.specs.Prelude.{◌≡◌, ℕ, ◌<◌, ◌≤◌};
ghost use Rattle.safl_term.specs.Checked.{IsChecked};
ghost use Rattle.safl_lower.specs.Bodies.{GroupIsBelow};

use safl_term::Checked;

/// The number of the function after a function's group.
pub fn group_end(c: &Checked, f: u32) -> u32
    requires { f < c.now.program.functions }
    ensures checked { IsChecked c.now }
    ensures above { f < result }
    ensures within { result ≤ c.now.program.functions }
    ensures inside { (h : ℕ) → c.now.program.unit f ≤ h → h < result → c.now.program.unit h ≡ c.now.program.unit f }
    ensures members { GroupIsBelow c.now.program f result }
{
    let functions = c.functions();
    let unit = c.unit(f);
    for g in f + 1..functions {
        if c.unit(g) != unit {
            return g;
        }
    }
    functions
}
