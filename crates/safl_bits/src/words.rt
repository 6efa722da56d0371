//! Operators on words, as lists of literals with the lowest bit first.

ghost use Rattle.std.specs.Prelude.{◌≡◌, ◌+◌, ◌-◌, ◌*◌, ◌/◌, ◌%◌, ◌^◌, ◌<◌, ◌≤◌, ◌==◌, ◌&&◌, ◌||◌, not, false, cond, nat_le, replicate, length, IfOk};
ghost use Rattle.safl_word.specs.Primitives.{bit_of};
ghost use Rattle.safl_word.specs.Limits.{width_max};
ghost use Rattle.safl_aiger.specs.Literals.{Assignment, on, shown};
ghost use Rattle.safl_bits.specs.Gates.{Gates, IsLiteral, AreLiterals, HasRoom, Grows, Holds};
ghost use Rattle.safl_bits.specs.Operators.{gate_bit, gate_number};
ghost use Rattle.safl_bits.specs.Numbers.{AddsBits, IsSum, with_row, moved_by, shifted};

use crate::gates::{differ, either, mux};
use crate::graph::{Graph, inverse};
use safl_aiger::Lit;
use safl_word::{Raw, Word};
use std::alloc::{AllocError, Global};

/// A gate with two inputs.
#[derive(Clone, Copy, Debug, PartialEq, Eq)]
pub enum Gate {
    Both,
    Either,
    Differ,
}

/// The direction of a shift.
#[derive(Clone, Copy, Debug, PartialEq, Eq)]
pub enum Side {
    Left,
    Right,
}

/// The sum of one column of an addition: its bit, and the carry into the next column.
#[derive(Clone, Copy)]
pub struct Column {
    pub bit: Lit,
    pub carry: Lit,
}

/// The bits of a sum, and the carry out of the highest column.
#[derive(Drop)]
pub struct Sum {
    pub bits: Vec<Lit>,
    pub carry: Lit,
}

// A gate of this kind on two literals.
fn connect(g: &mut Graph, kind: Gate, a: Lit, b: Lit) -> Result<Lit, AllocError>
    requires first { IsLiteral g.old a }
    requires second { IsLiteral g.old b }
    requires room { HasRoom g.old 3 }
    ensures built { Grows g.old g.new 3 }
    ensures fits { IfOk result (IsLiteral g.new) }
    ensures value { IfOk result (λ l. (m : Assignment) → Holds g.new m → on m l ≡ gate_bit kind (on m a) (on m b)) }
{
    match kind {
        Gate::Both => g.both(a, b),
        Gate::Either => either(g, a, b),
        Gate::Differ => differ(g, a, b),
    }
}

/// The word with a gate of this kind at each place of two words.
pub fn bitwise(
    alloc: Global,
    g: &mut Graph,
    kind: Gate,
    a: &[Lit],
    b: &[Lit],
) -> Result<Vec<Lit>, AllocError>
    requires first { AreLiterals g.old a.now }
    requires second { AreLiterals g.old b.now }
    requires alike { length a.now ≡ length b.now }
    requires room { HasRoom g.old (3 * length a.now) }
    ensures built { Grows g.old g.new (3 * length a.now) }
    ensures fits { IfOk result (λ r. AreLiterals g.new r.items) }
    ensures long { IfOk result (λ r. length r.items ≡ length a.now) }
    ensures value { IfOk result (λ r. (m : Assignment) → Holds g.new m → shown m r.items ≡ gate_number kind (shown m a.now) (shown m b.now)) }
{
    let mut all = Vec::new(alloc);
    for i in 0..a.len() {
        let next = connect(g, kind, a[i], b[i])?;
        all.push(next)?;
    }
    Ok(all)
}

/// The word with each bit inverted.
pub fn complement(alloc: Global, a: &[Lit]) -> Result<Vec<Lit>, AllocError>
    ensures fits { (g : Gates) → AreLiterals g a.now → IfOk result (λ r. AreLiterals g r.items) }
    ensures long { IfOk result (λ r. length r.items ≡ length a.now) }
    ensures value { IfOk result (λ r. (m : Assignment) → shown m r.items + shown m a.now + 1 ≡ 2 ^ length a.now) }
{
    let mut all = Vec::new(alloc);
    for i in 0..a.len() {
        all.push(inverse(a[i]))?;
    }
    Ok(all)
}

/// The word `a` if `c` is true, else `b`.
pub fn choice(
    alloc: Global,
    g: &mut Graph,
    c: Lit,
    a: &[Lit],
    b: &[Lit],
) -> Result<Vec<Lit>, AllocError>
    requires test { IsLiteral g.old c }
    requires first { AreLiterals g.old a.now }
    requires second { AreLiterals g.old b.now }
    requires alike { length a.now ≡ length b.now }
    requires room { HasRoom g.old (3 * length a.now) }
    ensures built { Grows g.old g.new (3 * length a.now) }
    ensures fits { IfOk result (λ r. AreLiterals g.new r.items) }
    ensures long { IfOk result (λ r. length r.items ≡ length a.now) }
    ensures value { IfOk result (λ r. (m : Assignment) → Holds g.new m → shown m r.items ≡ cond (on m c) (shown m a.now) (shown m b.now)) }
{
    let mut all = Vec::new(alloc);
    for i in 0..a.len() {
        let next = mux(g, c, a[i], b[i])?;
        all.push(next)?;
    }
    Ok(all)
}

/// The word `a` if `c` is true, else 0.
pub fn masked(alloc: Global, g: &mut Graph, c: Lit, a: &[Lit]) -> Result<Vec<Lit>, AllocError>
    requires test { IsLiteral g.old c }
    requires word { AreLiterals g.old a.now }
    requires room { HasRoom g.old (length a.now) }
    ensures built { Grows g.old g.new (length a.now) }
    ensures fits { IfOk result (λ r. AreLiterals g.new r.items) }
    ensures long { IfOk result (λ r. length r.items ≡ length a.now) }
    ensures value { IfOk result (λ r. (m : Assignment) → Holds g.new m → shown m r.items ≡ cond (on m c) (shown m a.now) 0) }
{
    let mut all = Vec::new(alloc);
    for i in 0..a.len() {
        let next = g.both(c, a[i])?;
        all.push(next)?;
    }
    Ok(all)
}

/// The literal that is true if some bit of the word is.
pub fn any(g: &mut Graph, a: &[Lit]) -> Result<Lit, AllocError>
    requires word { AreLiterals g.old a.now }
    requires room { HasRoom g.old (length a.now) }
    ensures built { Grows g.old g.new (length a.now) }
    ensures fits { IfOk result (IsLiteral g.new) }
    ensures value { IfOk result (λ l. (m : Assignment) → Holds g.new m → on m l ≡ not (shown m a.now == 0)) }
{
    let mut found = g.bottom();
    for i in 0..a.len() {
        found = either(g, found, a[i])?;
    }
    Ok(found)
}

/// The literal that is true if the two words are equal.
pub fn equal(g: &mut Graph, a: &[Lit], b: &[Lit]) -> Result<Lit, AllocError>
    requires first { AreLiterals g.old a.now }
    requires second { AreLiterals g.old b.now }
    requires alike { length a.now ≡ length b.now }
    requires room { HasRoom g.old (4 * length a.now) }
    ensures built { Grows g.old g.new (4 * length a.now) }
    ensures fits { IfOk result (IsLiteral g.new) }
    ensures value { IfOk result (λ l. (m : Assignment) → Holds g.new m → on m l ≡ (shown m a.now == shown m b.now)) }
{
    let mut apart = g.bottom();
    for i in 0..a.len() {
        let here = differ(g, a[i], b[i])?;
        apart = either(g, apart, here)?;
    }
    Ok(inverse(apart))
}

// A full adder: the sum of one column.
fn add_place(g: &mut Graph, a: Lit, b: Lit, c: Lit) -> Result<Column, AllocError>
    requires first { IsLiteral g.old a }
    requires second { IsLiteral g.old b }
    requires third { IsLiteral g.old c }
    requires room { HasRoom g.old 9 }
    ensures built { Grows g.old g.new 9 }
    ensures bit { IfOk result (λ r. IsLiteral g.new r.bit) }
    ensures carry { IfOk result (λ r. IsLiteral g.new r.carry) }
    ensures value { IfOk result (λ r. (m : Assignment) → Holds g.new m → AddsBits m a b c r) }
{
    let one = differ(g, a, b)?;
    let two = g.both(a, b)?;
    let more = g.both(one, c)?;
    let carry = either(g, two, more)?;
    let bit = differ(g, one, c)?;
    Ok(Column { bit, carry })
}

/// The sum of two words and a carry.
pub fn add(
    alloc: Global,
    g: &mut Graph,
    a: &[Lit],
    b: &[Lit],
    first: Lit,
) -> Result<Sum, AllocError>
    requires first { AreLiterals g.old a.now }
    requires second { AreLiterals g.old b.now }
    requires third { IsLiteral g.old first }
    requires alike { length a.now ≡ length b.now }
    requires room { HasRoom g.old (9 * length a.now) }
    ensures built { Grows g.old g.new (9 * length a.now) }
    ensures sum { IfOk result (IsSum g.new a.now b.now first) }
{
    let mut bits = Vec::new(alloc);
    let mut carry = first;
    for i in 0..a.len() {
        let next = add_place(g, a[i], b[i], carry)?;
        bits.push(next.bit)?;
        carry = next.carry;
    }
    Ok(Sum { bits, carry })
}

/// The difference of two words, of their width.
pub fn subtract(alloc: Global, g: &mut Graph, a: &[Lit], b: &[Lit]) -> Result<Vec<Lit>, AllocError>
    requires first { AreLiterals g.old a.now }
    requires second { AreLiterals g.old b.now }
    requires alike { length a.now ≡ length b.now }
    requires room { HasRoom g.old (9 * length a.now) }
    ensures built { Grows g.old g.new (9 * length a.now) }
    ensures fits { IfOk result (λ r. AreLiterals g.new r.items) }
    ensures long { IfOk result (λ r. length r.items ≡ length a.now) }
    ensures value { IfOk result (λ r. (m : Assignment) → Holds g.new m
        → shown m r.items ≡ (2 ^ length a.now + shown m a.now - shown m b.now) % 2 ^ length a.now) }
{
    let other = complement(alloc, b)?;
    let one = inverse(g.bottom());
    let sum = add(alloc, g, a, &other, one)?;
    Ok(sum.bits)
}

/// The literal that is true if `a` is at least `b`.
pub fn covers(g: &mut Graph, a: &[Lit], b: &[Lit]) -> Result<Lit, AllocError>
    requires first { AreLiterals g.old a.now }
    requires second { AreLiterals g.old b.now }
    requires alike { length a.now ≡ length b.now }
    requires room { HasRoom g.old (4 * length a.now) }
    ensures built { Grows g.old g.new (4 * length a.now) }
    ensures fits { IfOk result (IsLiteral g.new) }
    ensures value { IfOk result (λ l. (m : Assignment) → Holds g.new m → on m l ≡ nat_le (shown m b.now) (shown m a.now)) }
{
    let mut holds = inverse(g.bottom());
    for i in 0..a.len() {
        holds = covers_with(g, a[i], b[i], holds)?;
    }
    Ok(holds)
}

// Whether one word is at least another. `a` and `b` are their highest bits, and `below` says whether it holds of the
// bits below these.
fn covers_with(g: &mut Graph, a: Lit, b: Lit, below: Lit) -> Result<Lit, AllocError>
    requires first { IsLiteral g.old a }
    requires second { IsLiteral g.old b }
    requires third { IsLiteral g.old below }
    requires room { HasRoom g.old 4 }
    ensures built { Grows g.old g.new 4 }
    ensures fits { IfOk result (IsLiteral g.new) }
    ensures value { IfOk result (λ l. (m : Assignment) → Holds g.new m → on m l ≡ (on m a && not (on m b) || ((on m a || not (on m b)) && on m below))) }
{
    let above = g.both(a, inverse(b))?;
    let level = either(g, a, inverse(b))?;
    let kept = g.both(level, below)?;
    either(g, above, kept)
}

// A list of `count` copies of a literal.
fn repeated(alloc: Global, l: Lit, count: usize) -> Result<Vec<Lit>, AllocError>
    ensures { IfOk result (λ r. r.items ≡ replicate count l) }
{
    let all = vec![in alloc; l; count]?;
    Ok(all)
}

// The word shifted to the left by `by` places, of the same width.
fn raise(alloc: Global, zero: Lit, a: &[Lit], by: usize) -> Result<Vec<Lit>, AllocError>
    ensures fits { (g : Gates) → IsLiteral g zero → AreLiterals g a.now → IfOk result (λ r. AreLiterals g r.items) }
    ensures long { IfOk result (λ r. length r.items ≡ length a.now) }
    ensures value { IfOk result (λ r. (m : Assignment) → on m zero ≡ false → shown m r.items ≡ (shown m a.now * 2 ^ by) % 2 ^ length a.now) }
{
    let lost = by.min(a.len());
    let mut all = repeated(alloc, zero, lost)?;
    all.extend_from_slice(&a[..a.len() - lost])?;
    Ok(all)
}

// The word shifted to the right by `by` places, of the same width.
fn lower(alloc: Global, zero: Lit, a: &[Lit], by: usize) -> Result<Vec<Lit>, AllocError>
    ensures fits { (g : Gates) → IsLiteral g zero → AreLiterals g a.now → IfOk result (λ r. AreLiterals g r.items) }
    ensures long { IfOk result (λ r. length r.items ≡ length a.now) }
    ensures value { IfOk result (λ r. (m : Assignment) → on m zero ≡ false → shown m r.items ≡ shown m a.now / 2 ^ by) }
{
    let lost = by.min(a.len());
    let zeros = repeated(alloc, zero, lost)?;
    let mut all = Vec::from_slice(alloc, &a[lost..])?;
    all.extend_from_slice(&zeros)?;
    Ok(all)
}

// Adds one row of a product to the sum of the rows before it.
fn add_row(
    alloc: Global,
    g: &mut Graph,
    total: &[Lit],
    a: &[Lit],
    bit: Lit,
    place: usize,
) -> Result<Vec<Lit>, AllocError>
    requires total { AreLiterals g.old total.now }
    requires word { AreLiterals g.old a.now }
    requires bit { IsLiteral g.old bit }
    requires alike { length total.now ≡ length a.now }
    requires room { HasRoom g.old (10 * length a.now) }
    ensures built { Grows g.old g.new (10 * length a.now) }
    ensures fits { IfOk result (λ r. AreLiterals g.new r.items) }
    ensures long { IfOk result (λ r. length r.items ≡ length a.now) }
    ensures value { IfOk result (λ r. (m : Assignment) → Holds g.new m → shown m r.items ≡ with_row m total.now a.now bit place) }
{
    let zero = g.bottom();
    let raised = raise(alloc, zero, a, place)?;
    let row = masked(alloc, g, bit, &raised)?;
    let sum = add(alloc, g, total, &row, zero)?;
    Ok(sum.bits)
}

/// The product of two words of one width, of that width.
pub fn multiply(alloc: Global, g: &mut Graph, a: &[Lit], b: &[Lit]) -> Result<Vec<Lit>, AllocError>
    requires first { AreLiterals g.old a.now }
    requires second { AreLiterals g.old b.now }
    requires alike { length a.now ≡ length b.now }
    requires room { HasRoom g.old (10 * (length a.now * length a.now)) }
    ensures built { Grows g.old g.new (10 * (length a.now * length a.now)) }
    ensures fits { IfOk result (λ r. AreLiterals g.new r.items) }
    ensures long { IfOk result (λ r. length r.items ≡ length a.now) }
    ensures value { IfOk result (λ r. (m : Assignment) → Holds g.new m → shown m r.items ≡ (shown m a.now * shown m b.now) % 2 ^ length a.now) }
{
    let zero = g.bottom();
    let mut total = repeated(alloc, zero, a.len())?;
    for i in 0..b.len() {
        total = add_row(alloc, g, &total, a, b[i], i)?;
    }
    Ok(total)
}

// The word shifted by a constant number of places.
fn displace(
    alloc: Global,
    zero: Lit,
    side: Side,
    a: &[Lit],
    by: usize,
) -> Result<Vec<Lit>, AllocError>
    ensures fits { (g : Gates) → IsLiteral g zero → AreLiterals g a.now → IfOk result (λ r. AreLiterals g r.items) }
    ensures long { IfOk result (λ r. length r.items ≡ length a.now) }
    ensures value { IfOk result (λ r. (m : Assignment) → on m zero ≡ false → shown m r.items ≡ moved_by m side a.now by) }
{
    match side {
        Side::Left => raise(alloc, zero, a, by),
        Side::Right => lower(alloc, zero, a, by),
    }
}

// The word shifted by a constant number of places if a literal is true, else the word itself.
fn displace_where(
    alloc: Global,
    g: &mut Graph,
    side: Side,
    test: Lit,
    a: &[Lit],
    by: usize,
) -> Result<Vec<Lit>, AllocError>
    requires test { IsLiteral g.old test }
    requires word { AreLiterals g.old a.now }
    requires room { HasRoom g.old (3 * length a.now) }
    ensures built { Grows g.old g.new (3 * length a.now) }
    ensures fits { IfOk result (λ r. AreLiterals g.new r.items) }
    ensures long { IfOk result (λ r. length r.items ≡ length a.now) }
    ensures value { IfOk result (λ r. (m : Assignment) → Holds g.new m → shown m r.items ≡ cond (on m test) (moved_by m side a.now by) (shown m a.now)) }
{
    let zero = g.bottom();
    let away = displace(alloc, zero, side, a, by)?;
    choice(alloc, g, test, &away, a)
}

// How many bits of the amount a shift looks at, at most. Two to this power is at least the width, so a higher bit moves
// all bits out.
fn stages(width: usize) -> usize
    requires { width ≤ width_max }
    ensures few { result ≤ 7 }
    ensures enough { width ≤ 2 ^ result }
{
    match width {
        0 | 1 => 0,
        2 => 1,
        3 | 4 => 2,
        5..=8 => 3,
        9..=16 => 4,
        17..=32 => 5,
        33..=64 => 6,
        _ => 7,
    }
}

/// The word shifted by an amount. It is 0 if the amount is at least the width.
pub fn shift(
    alloc: Global,
    g: &mut Graph,
    side: Side,
    a: &[Lit],
    amount: &[Lit],
) -> Result<Vec<Lit>, AllocError>
    requires word { AreLiterals g.old a.now }
    requires amount { AreLiterals g.old amount.now }
    requires narrow { length a.now ≤ width_max }
    requires room { HasRoom g.old (22 * length a.now + length amount.now) }
    ensures built { Grows g.old g.new (22 * length a.now + length amount.now) }
    ensures fits { IfOk result (λ r. AreLiterals g.new r.items) }
    ensures long { IfOk result (λ r. length r.items ≡ length a.now) }
    ensures value { IfOk result (λ r. (m : Assignment) → Holds g.new m → shown m r.items ≡ shifted m side a.now amount.now) }
{
    let count = stages(a.len()).min(amount.len());
    let mut all = Vec::from_slice(alloc, a)?;
    for i in 0..count {
        all = displace_where(alloc, g, side, amount[i], &all, 1 << i)?;
    }
    let over = any(g, &amount[count..])?;
    masked(alloc, g, inverse(over), &all)
}

/// A constant word as literals.
pub fn constant(alloc: Global, zero: Lit, word: Word) -> Result<Vec<Lit>, AllocError>
    ensures fits { (g : Gates) → IsLiteral g zero → IfOk result (λ r. AreLiterals g r.items) }
    ensures long { IfOk result (λ r. length r.items ≡ word.width) }
    ensures value { IfOk result (λ r. (m : Assignment) → on m zero ≡ false → shown m r.items ≡ word.bits) }
{
    let bits = word.bits();
    let mut all = Vec::new(alloc);
    for i in 0..word.width() {
        all.push(constant_bit(zero, bits, i))?;
    }
    Ok(all)
}

// The literal of one bit of a number.
fn constant_bit(zero: Lit, bits: Raw, place: u8) -> Lit
    requires { place < width_max }
    ensures fits { (g : Gates) → IsLiteral g zero → IsLiteral g result }
    ensures value { (m : Assignment) → on m zero ≡ false → bit_of (on m result) ≡ bits / 2 ^ place % 2 }
{
    if (bits >> place) % 2 == 1 {
        inverse(zero)
    } else {
        zero
    }
}
