//! The labels of a program for some secret parameters of main.

ghost use Rattle.std.specs.Prelude.{◌≡◌, length, true, IfOk};
ghost use Rattle.safl_circuit.specs.Blind.{IsLabelling};
ghost use Rattle.safl_term.specs.Program.{arity};
ghost use Rattle.safl_labels.specs.Found.{IfBlind, AreHidden};
ghost use Rattle.safl_labels.specs.Shown.{shown_labels};

use crate::keeping::are_kept;
use crate::labels::Finding;
use crate::marking::Marking;
use safl_term::Checked;
use safl_word::NoMemory;
use std::alloc::Global;

/// Labels under which no secret parameter of main decides about time, or a condition that stands in the way of the labels
/// that were tried. `secret` says which parameters of main are secret.
///
/// # Errors
///
/// Out of memory.
pub fn find_labels(alloc: Global, c: &Checked, secret: &[bool]) -> Result<Finding, NoMemory>
    requires { length secret.now ≡ arity c.now.program c.now.program.main }
    ensures labelling { IfOk result (λ f. IfBlind f (λ l. IsLabelling c.now.program (shown_labels l))) }
    ensures hidden { IfOk result (λ f. IfBlind f (λ l. AreHidden secret.now ((shown_labels l).params c.now.program.main))) }
{
    let marking = Marking::new(alloc, c, secret)?;
    if are_hidden(secret, marking.labels.of_params(c.main()))
        && are_kept(alloc, c, &marking.labels)?
    {
        let Marking { labels, marks: _ } = marking;
        return Ok(Finding::Blind(labels));
    }
    Ok(Finding::Depends(marking.obstacle(alloc, c)?))
}

// Whether each parameter has a label, and no secret one is public.
fn are_hidden(secret: &[bool], public: &[bool]) -> bool
    ensures { result ≡ true → AreHidden secret.now public.now }
{
    match secret.split_first() {
        Some((hidden, rest)) => match public.split_first() {
            Some((shown, others)) => !(*hidden && *shown) && are_hidden(rest, others),
            None => false,
        },
        None => public.is_empty(),
    }
}
