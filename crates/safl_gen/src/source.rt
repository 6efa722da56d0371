//! Whole generated sources.

ghost use Rattle.std.specs.Prelude.{◌≡◌, ◌<◌, ◌≤◌, ◌↔◌, ◌⊎◌, Err, IfOk, length};
ghost use Rattle.safl_word.specs.Limits.{source_max, generated_max};
ghost use Rattle.safl_gen.specs.Draws.{draw};
ghost use Rattle.safl_gen.specs.Source.{source_text};

use crate::draws::{Draws, draw_function};
use crate::lines::{push_function, push_main};
use safl_word::NoMemory;
use safl_word::limits::GENERATED_MAX;
use std::alloc::Global;

/// Why a source is not generated.
#[derive(Clone, Copy, Debug, PartialEq, Eq, thiserror::Error)]
pub enum GenErr {
    #[error("the number of functions is not 1 to 900")]
    Count,
    #[error("out of memory")]
    NoMemory,
}

/// The source for a seed and a number of functions. It is no longer than a source may be. `Count` comes exactly if the
/// number is not 1 to `GENERATED_MAX`.
pub fn generate(alloc: Global, seed: u64, count: u32) -> Result<Vec<u8>, GenErr>
    ensures source { IfOk result (λ text. text.items ≡ source_text (draw seed) count) }
    ensures short { IfOk result (λ text. length text.items ≤ source_max) }
    ensures count { (result ≡ Err GenErr.Count) ↔ ((count ≡ 0) ⊎ (generated_max < count)) }
{
    if count == 0 || count > GENERATED_MAX {
        return Err(GenErr::Count);
    }
    match text_of(alloc, seed, count) {
        Ok(text) => Ok(text),
        Err(NoMemory) => Err(GenErr::NoMemory),
    }
}

fn text_of(alloc: Global, seed: u64, count: u32) -> Result<Vec<u8>, NoMemory>
    requires some { 1 ≤ count }
    requires most { count ≤ generated_max }
    ensures source { IfOk result (λ text. text.items ≡ source_text (draw seed) count) }
    ensures short { IfOk result (λ text. length text.items ≤ source_max) }
{
    let mut text = Vec::new(alloc);
    let mut draws = Draws::new(seed);
    for i in 0..count {
        let drawn = draw_function(&mut draws);
        push_function(&mut text, i, &drawn)?;
    }
    push_main(&mut text, count - 1)?;
    Ok(text)
}
