//! Labels of whole programs, and the conditions that stand in their way.

use safl_compiler::accept;
use safl_labels::{Finding, Parameter, find_labels};
use std::alloc::Global;
use std::test::Fail;

// Division by shifts and subtractions: both branches of the secret condition call the same function.
const DIVIDE: &[u8] = b"fun step(q:64, r:64, n:64, d:64, left:7):128 =
  if left == 0 then cat(q, r)
  else
    let t = cat(r, bits(n, 63, 63)), e = ext(d, 65) in
    if t >= e
    then step(cat(bits(q, 62, 0), 1'd1), bits(t - e, 63, 0), n << 1, d, left - 1)
    else step(cat(bits(q, 62, 0), 1'd0), bits(t, 63, 0), n << 1, d, left - 1)
fun main(n:64, d:64):128 = step(0, 0, n, d, 64)";

// The greatest common divisor: how many steps it takes depends on both numbers.
const GCD: &[u8] = b"fun gcd(a:64, b:64):64 =
  if a == 0 then b else if a >= b then gcd(a - b, b) else gcd(a, b - a)
fun main(a:64, b:64):64 = gcd(a, b)";

// A power modulo m: a product takes as long as its second factor is wide.
const POWER: &[u8] = b"fun mul(a:33, b:32, acc:33, m:33):33 =
  if b == 0 then acc
  else
    let sum = acc + a, twice = a << 1 in
    mul(if twice >= m then twice - m else twice, b >> 1,
        if bits(b, 0, 0) == 0 then acc else if sum >= m then sum - m else sum, m)
fun power(b:33, e:32, r:33, m:33):33 =
  if e == 0 then r
  else power(mul(b, bits(b, 31, 0), 0, m), e >> 1, if bits(e, 0, 0) == 1 then mul(r, bits(b, 31, 0), 0, m) else r, m)
fun main(b:32, e:32, m:32):32 =
  let n = ext(m, 33) in bits(power(mul(1, b, 0, n), e, if m == 1 then 0 else 1, n), 31, 0)";

// What is found for the secret parameters.
fn finding(alloc: Global, source: &[u8], secret: &[bool]) -> Result<Finding, Fail> {
    if source.len() > 1000 {
        return Err("a long source".into());
    }
    let checked = accept(alloc, source).ok().ok_or("refused")?;
    if checked.params(checked.main()) as usize != secret.len() {
        return Err("not as many parameters".into());
    }
    Ok(find_labels(alloc, &checked, secret)?)
}

#[test]
fn a_division_takes_the_same_time(rt: HostRuntime) -> Result<(), Fail> {
    let Finding::Blind(labels) = finding(rt.alloc(), DIVIDE, &[true, true])? else {
        return Err("depends".into());
    };
    assert_eq!(rt;
        labels.of_params(0),
        [false, false, false, false, true].as_slice()
    );
    assert!(rt; !labels.of_result(0));
    Ok(())
}

#[test]
fn a_power_depends_on_its_factors(rt: HostRuntime) -> Result<(), Fail> {
    let Finding::Depends(obstacle) = finding(rt.alloc(), POWER, &[true, true, true])? else {
        return Err("blind".into());
    };
    let base = Parameter {
        function: 2,
        place: 0,
    };
    let factor = Parameter {
        function: 0,
        place: 1,
    };
    assert_eq!(rt; obstacle.function, 0);
    assert_eq!(rt; obstacle.branch, 0);
    assert_eq!(rt; obstacle.chain.as_slice(), [base, factor].as_slice());
    Ok(())
}
