//! The result of main by the meaning of programs, with its calls and its span.

ghost use Rattle.std.specs.Prelude.{◌≡◌, IfOk};
ghost use Rattle.safl_word.specs.Words.{widths};

use safl_compiler::accept;
use safl_interpreter::{Timing, measure};
use safl_term::Checked;
use safl_word::{Raw, Word};
use std::alloc::{AllocError, Global};
use std::test::Fail;

// Multiplication by shifts and additions.
const PRODUCT: &[u8] = b"fun mul(x:8, y:8, acc:8):8 =
  if (x==0)|(y==0) then acc
  else mul(x<<1, y>>1, if bits(y,0,0)==1 then acc+x else acc)
fun main(a:8, b:8):8 = mul(a, b, 0)";

// The arguments of main: these numbers, in the widths of its parameters.
fn words_of(alloc: Global, c: &Checked, numbers: &[Raw]) -> Result<Vec<Word>, AllocError>
    ensures { IfOk result (λ words. widths words.items ≡ c.now.program.params c.now.program.main) }
{
    let main = c.functions() - 1;
    let mut words = Vec::new(alloc);
    'params: for i in 0..c.params(main) {
        let number = numbers.get(i as usize).copied().unwrap_or(0);
        words.push(Word::from_low_bits(c.param_width(main, i), number))?;
    }
    Ok(words)
}

// What main comes to with a budget of `budget` calls.
fn timing(
    alloc: Global,
    source: &[u8],
    numbers: &[Raw],
    budget: u32,
) -> Result<Option<Timing>, Fail> {
    if source.len() > 1000 {
        return Err("a long source".into());
    }
    let checked = accept(alloc, source).ok().ok_or("refused")?;
    let words = words_of(alloc, &checked, numbers)?;
    Ok(measure(alloc, &checked, &words, budget)?)
}

// Main and three calls in the loop, the first of which is no tail call: 2 cycles for each of the two calls that are none, and
// 1 for each of the two tail calls.
#[test]
fn a_product_takes_four_calls(rt: HostRuntime) -> Result<(), Fail> {
    let found = timing(rt.alloc(), PRODUCT, &[5, 3], 4)?.ok_or("no word")?;
    assert_eq!(rt; found.word.bits(), 15);
    assert_eq!(rt; found.calls, 4);
    assert_eq!(rt; found.loops, 2);
    assert_eq!(rt; found.span, 6);
    assert_eq!(rt; found.called.as_slice(), [true, true].as_slice());
    assert!(rt; timing(rt.alloc(), PRODUCT, &[5, 3], 3)?.is_none());
    Ok(())
}
