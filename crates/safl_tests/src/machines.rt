//! Call machines and plans of programs.

use safl_compiler::accept;
use safl_core::{Machine, MachineErr};
use safl_sites::plan;
use safl_term::Checked;
use safl_word::Word;
use std::alloc::Global;
use std::test::Fail;

// Multiplication by shifts and additions.
const PRODUCT: &[u8] = b"fun mul(x:8, y:8, acc:8):8 =
  if (x==0)|(y==0) then acc
  else mul(x<<1, y>>1, if bits(y,0,0)==1 then acc+x else acc)
fun main(a:8, b:8):8 = mul(a, b, 0)";

const LEVELS: &[u8] =
    b"fun f(x:8):8 = x + 1 fun g(x:8):8 = f(x) fun h(x:8):8 = f(x + 1) fun main(a:8):8 = g(a) + h(a)";

// Whether a machine of the program refuses arguments of these widths.
fn is_refused(alloc: Global, checked: &Checked, widths: &[u8]) -> Result<bool, Fail> {
    let mut words = Vec::new(alloc);
    for width in widths {
        words.push(Word::new(*width, 1).ok_or("no width")?)?;
    }
    match Machine::new(alloc, checked, &words) {
        Ok(_) => Ok(false),
        Err(e) => Ok(e == MachineErr::BadArgs),
    }
}

#[test]
fn machines_want_main_s_arguments(rt: HostRuntime) -> Result<(), Fail> {
    assert!(rt; PRODUCT.len() < 1000);
    let checked = accept(rt.alloc(), PRODUCT).ok().ok_or("refused")?;
    assert!(rt; !is_refused(rt.alloc(), &checked, &[8, 8])?);
    assert!(rt; is_refused(rt.alloc(), &checked, &[8])?);
    assert!(rt; is_refused(rt.alloc(), &checked, &[8, 4])?);
    Ok(())
}

#[test]
fn sites_are_in_reach(rt: HostRuntime) -> Result<(), Fail> {
    assert!(rt; LEVELS.len() < 1000);
    let checked = accept(rt.alloc(), LEVELS).ok().ok_or("refused")?;
    let planned = plan(rt.alloc(), checked).ok().ok_or("no memory")?;
    assert_eq!(rt; planned.checked().functions(), 4);
    assert_eq!(rt; planned.checked().sites(), 4);
    assert!(rt; planned.reach(3, 1));
    assert!(rt; !planned.reach(1, 2));
    assert!(rt; planned.conflict(1, 2));
    assert!(rt; !planned.conflict(3, 4));
    Ok(())
}
