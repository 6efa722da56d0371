//! Whether labels are those of a program.

ghost use Rattle.std.specs.Prelude.{◌≡◌, ◌<◌, true, IfOk};
ghost use Rattle.safl_circuit.specs.Blind.{IsLabelling};
ghost use Rattle.safl_labels.specs.Kept.{IsKept};
ghost use Rattle.safl_labels.specs.Likeness.{IsLike};
ghost use Rattle.safl_labels.specs.Shown.{shown_labels};

use crate::labels::Labels;
use crate::likeness::Likeness;
use crate::notes::Notes;
use crate::twins::{Walk, compare};
use safl_term::Checked;
use safl_word::NoMemory;
use std::alloc::Global;

/// How far the body of a function is alike to itself.
pub fn compare_body(
    alloc: Global,
    c: &Checked,
    labels: &Labels,
    f: u32,
    notes: &mut Notes,
) -> Result<Likeness, NoMemory>
    requires { f < c.now.program.functions }
    ensures { IfOk result (IsLike (shown_labels labels.now) ((shown_labels labels.now).params f) (c.now.program.body f) (c.now.program.body f)) }
{
    let slots = labels.of_params(f);
    let walk = Walk {
        alloc,
        labels,
        slots,
        is_one: true,
    };
    let body = c.body(f);
    compare(&walk, notes, body, body)
}

/// Whether each body keeps the labels, and the results of each group have one label.
pub fn are_kept(alloc: Global, c: &Checked, labels: &Labels) -> Result<bool, NoMemory>
    ensures { IfOk result (λ kept. kept ≡ true → IsLabelling c.now.program (shown_labels labels.now)) }
{
    if labels.results.len() > c.functions() as usize {
        return Ok(false);
    }
    for f in 0..c.functions() {
        if !is_kept(alloc, c, labels, f)? {
            return Ok(false);
        }
    }
    Ok(true)
}

fn is_kept(alloc: Global, c: &Checked, labels: &Labels, f: u32) -> Result<bool, NoMemory>
    requires { f < c.now.program.functions }
    ensures { IfOk result (λ kept. kept ≡ true → IsKept c.now.program (shown_labels labels.now) f) }
{
    let mut notes = Notes::new(alloc, c.params(f))?;
    let found = compare_body(alloc, c, labels, f, &mut notes)?;
    let public = labels.of_result(f);
    if !found.suffices(public) {
        return Ok(false);
    }
    Ok(labels.of_result(c.unit(f)) == public)
}
