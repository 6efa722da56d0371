//! Sources that are reshaped by calls of the libraries.
//!
//! More sources, the results of their programs, and refusals are cases (`docs/CASES.md`).

ghost use Rattle.std.specs.Prelude.{◌≤◌, length, IfOk};
ghost use Rattle.safl_word.specs.Limits.{source_max};
ghost use Rattle.safl_tree.specs.Shown.{shown_program};
ghost use Rattle.safl_tree.specs.Source.{SpellsProgram};
ghost use Rattle.safl_tree.specs.Printable.{IsPrintable};
ghost use Rattle.safl_typing.specs.Forms.{HasForm};

use safl_check::check;
use safl_parse::parse_program;
use safl_reshape::{ReshapeErr, copy_site, unfold_site};
use safl_tree::laws::{one_program_law, printable_law};
use safl_tree::{Program, print};
use std::alloc::Global;
use std::test::Fail;

// How a program is reshaped at a site.
#[derive(Clone, Copy)]
enum Change {
    Copy,
    Unfold,
}

const NESTED: &[u8] = b"fun f(x:8):8 = x + 1
fun main(a:8):8 = f(f(a))";

const COPIED: &[u8] = b"fun f ( x : 8 ) : 8 = x + 1
fun f_1 ( x : 8 ) : 8 = x + 1
fun main ( a : 8 ) : 8 = f_1 ( f ( a ) )
";

const UNFOLDED: &[u8] = b"fun f ( x : 8 ) : 8 = x + 1
fun main ( a : 8 ) : 8 = let r : 8 = let x : 8 = f ( a ) in x + 1 in r
";

fn spelled(alloc: Global, source: &[u8]) -> Result<Program, Fail>
    requires { length source.now ≤ source_max }
    ensures { IfOk result (λ p. SpellsProgram source.now (shown_program p)) }
{
    match parse_program(alloc, source) {
        Ok(program) => Ok(program),
        Err(_) => Err("no program".into()),
    }
}

// The program that a source spells, if the checker accepts it.
#[tactic(auto, using(crate::proofs::Forms::has_form))]
fn accepted(alloc: Global, source: &[u8]) -> Result<Program, Fail>
    ensures printable { IfOk result (λ p. IsPrintable (shown_program p)) }
    ensures form { IfOk result (λ p. HasForm (shown_program p)) }
{
    if source.len() > 1_048_576 {
        return Err("a long source".into());
    }
    printable_law();
    one_program_law();
    let program = spelled(alloc, source)?;
    let again = spelled(alloc, source)?;
    match check(alloc, again) {
        Ok(_) => Ok(program),
        Err(_) => Err("refused".into()),
    }
}

// The printed text of the reshaped program.
fn reshaped(
    alloc: Global,
    source: &[u8],
    change: Change,
    site: u32,
) -> Result<Result<Vec<u8>, ReshapeErr>, Fail> {
    let program = accepted(alloc, source)?;
    let reshaped = match change {
        Change::Copy => copy_site(alloc, program, site),
        Change::Unfold => unfold_site(alloc, program, site),
    };
    match reshaped {
        Ok(program) => Ok(Ok(print(alloc, &program)?)),
        Err(e) => Ok(Err(e)),
    }
}

#[test]
fn a_site_is_copied_or_unfolded(rt: HostRuntime) -> Result<(), Fail> {
    for (change, wanted) in [(Change::Copy, COPIED), (Change::Unfold, UNFOLDED)] {
        let text = reshaped(rt.alloc(), NESTED, change, 1)?
            .ok()
            .ok_or("refused")?;
        assert!(rt; text.as_slice() == wanted);
        let refused = reshaped(rt.alloc(), NESTED, change, 3)?;
        assert!(rt; refused.err() == Some(ReshapeErr::NoSite));
    }
    Ok(())
}
