//! Rows of bits and of loads. Each row is collected first and then joined by halves.

ghost use Rattle.std.specs.Prelude.{◌≡◌, ℕ, ◌+◌, ◌*◌, ◌<◌, ◌≤◌, ◌==◌, ◌++◌, List, [], ◌∷◌, Option, None, refl, cond, length, slice_get, IfOk, OnOk};
ghost use Rattle.safl_net.specs.Names.{IsTidy};
ghost use Rattle.safl_net.specs.Netlist.{Netlist};
ghost use Rattle.safl_lower.specs.Sources.{Builds, CanGrow, Lasts};
ghost use Rattle.safl_lower.specs.Tables.{SomeFit, entry_in};
ghost use Rattle.safl_lower.specs.Rows.{AreBits, AllFit, maybe_one, bit_joins, load_joins, row_at, total, RowsAreBits, RowsFit};
ghost use Rattle.safl_lower.specs.Joints.{IsAnyOf, IsFirstOf, IsFirstIn, IsSeveralIn};

use crate::loads::Load;
use crate::trees::{Several, any_of, first_of, several_of};
use safl_net::{Net, Sig};
use safl_word::NoMemory;
use std::alloc::Global;

/// What a row of items is joined to, with the gates that it takes. An empty row may be joined to nothing.
pub trait Joins {
    type Item;

    /// The items may be joined in this net.
    ghost Fits: { Netlist → List Self.Item → Type 0 };

    /// The most gates that join a row.
    ghost gates: { List Self.Item → ℕ };

    /// A row that fitted the first net is joined to this in the second.
    ghost Joined: { Netlist → Netlist → List Self.Item → Option Self → Type 0 };

    /// Joins a row.
    fn join(alloc: Global, net: &mut Net, row: &[Self::Item]) -> Result<Option<Self>, NoMemory>
        requires fits { Fits net.old row.now }
        requires room { CanGrow net.old (gates row.now) }
        ensures tidy { IsTidy net.new }
        ensures built { OnOk result (Builds net.old net.new (gates row.now)) }
        ensures joined { IfOk result (λ o. (a : Netlist) (k : ℕ) → Builds a net.old k → Lasts (λ n. Joined a n row.now o) net.new) };

    ghost joined_none: { (a b : Netlist) → Joined a b [] None };
}

/// `count` empty rows.
pub fn no_rows<T: Drop>(alloc: Global, count: u32) -> Result<Vec<Vec<T>>, NoMemory>
    ensures count { IfOk result (λ rows. length rows.items ≡ count) }
    ensures bare { IfOk result (λ rows. (i : ℕ) → row_at rows.items i ≡ []) }
{
    let mut rows = Vec::new(alloc);
    for _i in 0..count {
        rows.push(Vec::new(alloc))?;
    }
    Ok(rows)
}

/// Appends a signal to the row at `place`.
pub fn push_at(rows: &mut Vec<Vec<Sig>>, place: usize, s: Sig) -> Result<(), NoMemory>
    requires place { place < length rows.old.items }
    ensures count { length rows.new.items ≡ length rows.old.items }
    ensures rows { OnOk result ((i : ℕ) → row_at rows.new.items i ≡ row_at rows.old.items i ++ cond (i == place) (s ∷ []) []) }
    ensures gates { OnOk result (total bit_joins rows.new.items ≤ total bit_joins rows.old.items + 1) }
{
    rows[place].push(s)?;
    Ok(())
}

/// Appends a signal, if there is one, to the row at `place`.
pub fn push_some(rows: &mut Vec<Vec<Sig>>, place: usize, s: Option<Sig>) -> Result<(), NoMemory>
    requires place { place < length rows.old.items }
    ensures count { length rows.new.items ≡ length rows.old.items }
    ensures rows { OnOk result ((i : ℕ) → row_at rows.new.items i ≡ row_at rows.old.items i ++ cond (i == place) (maybe_one s) []) }
    ensures gates { OnOk result (total bit_joins rows.new.items ≤ total bit_joins rows.old.items + 1) }
{
    match s {
        None => Ok(()),
        Some(s) => push_at(rows, place, s),
    }
}

/// Appends a load to the row at `place`.
pub fn push_load(rows: &mut Vec<Vec<Load>>, place: usize, load: Load) -> Result<(), NoMemory>
    requires place { place < length rows.old.items }
    ensures count { length rows.new.items ≡ length rows.old.items }
    ensures rows { OnOk result ((i : ℕ) → row_at rows.new.items i ≡ row_at rows.old.items i ++ cond (i == place) (load ∷ []) []) }
    ensures gates { OnOk result (total load_joins rows.new.items ≤ total load_joins rows.old.items + (1 + length load.words.items)) }
{
    rows[place].push(load)?;
    Ok(())
}

// The bit that is 1 if one of the row is.
impl Joins for Sig {
    type Item = Sig;

    ghost Fits = { AreBits };

    ghost gates = { bit_joins };

    ghost Joined = { λ a b row o. IsAnyOf b row o };

    ghost joined_none = { λ a b. record { fits = tt; shows = λ v w. refl; height = λ h l. tt } };

    fn join(_alloc: Global, net: &mut Net, row: &[Sig]) -> Result<Option<Sig>, NoMemory> {
        if row.len() == 0 {
            return Ok(None);
        }
        let any = any_of(net, row)?;
        Ok(Some(any))
    }
}

// The first of the row's loads that is taken.
impl Joins for Load {
    type Item = Load;

    ghost Fits = { λ n row. (ws : List ℕ) × AllFit n row ws };

    ghost gates = { load_joins };

    ghost Joined = { IsFirstIn };

    ghost joined_none = { λ a b. record { fits = λ ws f. tt; first = record { shows = λ v w. refl; height = λ h l. tt } } };

    fn join(alloc: Global, net: &mut Net, row: &[Load]) -> Result<Option<Load>, NoMemory> {
        if row.len() == 0 {
            return Ok(None);
        }
        let first = first_of(alloc, net, row)?;
        Ok(Some(first))
    }
}

// Whether one bit of the row is 1, and whether two are.
impl Joins for Several {
    type Item = Sig;

    ghost Fits = { AreBits };

    ghost gates = { λ row. 4 * bit_joins row };

    ghost Joined = { λ a b row o. IsSeveralIn b row o };

    ghost joined_none = { λ a b. refl };

    fn join(_alloc: Global, net: &mut Net, row: &[Sig]) -> Result<Option<Several>, NoMemory> {
        if row.len() == 0 {
            return Ok(None);
        }
        let several = several_of(net, row)?;
        Ok(Some(several))
    }
}

/// What each row is joined to.
pub fn join_rows<J: Joins + Drop>(
    alloc: Global,
    net: &mut Net,
    rows: &[Vec<J::Item>],
) -> Result<Vec<Option<J>>, NoMemory>
    requires fits { (i : ℕ) → Lasts (λ n. J.Fits n (row_at rows.now i)) net.old }
    requires room { CanGrow net.old (total J.gates rows.now) }
    ensures tidy { IsTidy net.new }
    ensures built { OnOk result (Builds net.old net.new (total J.gates rows.now)) }
    ensures count { IfOk result (λ all. length all.items ≡ length rows.now) }
    ensures joined { IfOk result (λ all. (i : ℕ) → J.Joined net.old net.new (row_at rows.now i) (entry_in (slice_get all.items i))) }
{
    let mut all = Vec::new(alloc);
    for i in 0..rows.len() {
        let next = J::join(alloc, net, &rows[i])?;
        all.push(next)?;
    }
    Ok(all)
}

/// For each row, the bit that is 1 if one of the row is.
pub fn join_bits(
    alloc: Global,
    net: &mut Net,
    rows: &[Vec<Sig>],
) -> Result<Vec<Option<Sig>>, NoMemory>
    requires fits { RowsAreBits net.old rows.now }
    requires room { CanGrow net.old (total bit_joins rows.now) }
    ensures tidy { IsTidy net.new }
    ensures built { OnOk result (Builds net.old net.new (total bit_joins rows.now)) }
    ensures count { IfOk result (λ bits. length bits.items ≡ length rows.now) }
    ensures joined { IfOk result (λ bits. (i : ℕ) → IsAnyOf net.new (row_at rows.now i) (entry_in (slice_get bits.items i))) }
{
    join_rows(alloc, net, rows)
}

/// For each row, its first load that is taken.
pub fn join_loads(
    alloc: Global,
    net: &mut Net,
    rows: &[Vec<Load>],
) -> Result<Vec<Option<Load>>, NoMemory>
    requires fits { (ws : ℕ → List ℕ) × RowsFit net.old rows.now ws }
    requires room { CanGrow net.old (total load_joins rows.now) }
    ensures tidy { IsTidy net.new }
    ensures built { OnOk result (Builds net.old net.new (total load_joins rows.now)) }
    ensures count { IfOk result (λ all. length all.items ≡ length rows.now) }
    ensures fits { (ws : ℕ → List ℕ) → RowsFit net.old rows.now ws → IfOk result (λ all. SomeFit net.new all.items ws) }
    ensures joined { IfOk result (λ all. (i : ℕ) → IsFirstOf net.new (row_at rows.now i) (entry_in (slice_get all.items i))) }
{
    join_rows(alloc, net, rows)
}

/// For each row, whether one of its bits is 1, and whether two are.
pub fn join_several(
    alloc: Global,
    net: &mut Net,
    rows: &[Vec<Sig>],
) -> Result<Vec<Option<Several>>, NoMemory>
    requires fits { RowsAreBits net.old rows.now }
    requires room { CanGrow net.old (4 * total bit_joins rows.now) }
    ensures tidy { IsTidy net.new }
    ensures built { OnOk result (Builds net.old net.new (4 * total bit_joins rows.now)) }
    ensures count { IfOk result (λ all. length all.items ≡ length rows.now) }
    ensures joined { IfOk result (λ all. (i : ℕ) → IsSeveralIn net.new (row_at rows.now i) (entry_in (slice_get all.items i))) }
{
    join_rows(alloc, net, rows)
}
