//! Generated sources, compared with ones that were worked out by hand.

use safl_gen::generate;
use std::test::Fail;

const ONE: &str = "fun f0(x:16, y:16):16 = let p = x ^ y, q = x & 15 in p + q
fun main(a:16, b:16):16 = f0(a, b)
";

const FIVE: &str = "fun f0(x:16, y:16):16 = let p = x ^ y, q = x & 15 in p + q
fun f1(x:16, y:16):16 = if y == 0 then x else f1(x + 12, y >> 1)
fun f2(x:16, y:16):16 = x + y * 12
fun f3(x:16, y:16):16 = x + y * 14
fun f4(x:16, y:16):16 = f3(x + 13, y) + f1(x, y)
fun main(a:16, b:16):16 = f4(a, b)
";

#[test]
fn makes_sources(rt: HostRuntime) -> Result<(), Fail> {
    for (count, source) in [(1, ONE), (5, FIVE)] {
        let text = generate(rt.alloc(), 1, count)?;
        assert!(rt; text.as_slice() == source.as_bytes(), "at {count}");
    }
    Ok(())
}
