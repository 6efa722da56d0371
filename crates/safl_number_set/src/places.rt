//! Places in a list, found by sums.

ghost use Rattle.std.specs.Prelude.{◌≡◌, ◌+◌, ◌<◌, ◌≤◌, length, sum, take, slice_index};

/// How many neighbours are summed to one number.
pub const SPAN: usize = 32;

/// A place in a list, and the sum of the numbers before it.
#[derive(Clone, Copy)]
pub struct Found {
    pub at: usize,
    pub before: u32,
}

/// The first place, from `from` on, with which the sum of a list from its beginning exceeds `place`. `before` is the
/// sum before `from`.
pub fn find(counts: &[u32], from: usize, before: u32, place: u32) -> Found
    requires start { before ≡ sum (take from counts.now) }
    requires reached { before ≤ place }
    requires passed { place < sum counts.now }
    requires few { sum counts.now ≤ 5000 }
    ensures within { result.at < length counts.now }
    ensures start { result.before ≡ sum (take result.at counts.now) }
    ensures reached { result.before ≤ place }
    ensures passed { place < result.before + slice_index counts.now result.at }
{
    let mut before = before;
    for at in from..counts.len() {
        let next = before + counts[at];
        if place < next {
            return Found { at, before };
        }
        before = next;
    }
    unreachable!()
}
