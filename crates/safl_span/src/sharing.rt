//! Whether an evaluation calls a function whose unit has an arbiter.

ghost use Rattle.std.specs.Prelude.{◌≡◌, true, false, length};
ghost use Rattle.safl_span.specs.Sharing.{AreUnshared, IsShared};

use safl_sites::Planned;

/// Whether a function is called, by these marks, at whose unit a site has to wait for an arbiter.
pub fn is_shared(planned: &Planned, called: &[bool]) -> bool
    requires { length called.now ≡ planned.now.program.functions }
    ensures some { result ≡ true → IsShared planned.now.program planned.now.choice called.now }
    ensures none { result ≡ false → AreUnshared planned.now.program planned.now.choice called.now }
{
    let c = planned.checked();
    for k in 1..c.sites() + 1 {
        let f = c.callee(k);
        if planned.arbiter(f) && called[f as usize] {
            return true;
        }
    }
    false
}
