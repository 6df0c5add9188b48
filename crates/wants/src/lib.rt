// Step 3 of the building steps on the lent working area: the first edge of a triangle that flips.
//
// This is asked for three edges of each suspect, and most edges do not flip. So a mark and a missing neighbour are tried first, then the
// circle sign, and the ranks only where that is zero. That the two new triangles are counterclockwise is not tried: in a tiling it follows.
#![tactic(auto)]

ghost use Rattle.std.specs.Prelude.{◌≡◌, ◌+◌, ◌*◌, ◌/◌, ◌≤◌, ◌<◌, length, get_or};
ghost use Rattle.tables.specs.Data.{point};
ghost use Rattle.tables.specs.Figures.{Figure};
ghost use Rattle.tables.specs.Rules.{rank, pair_below};
ghost use Rattle.nets.specs.Layout.{cell, net_of, rank_cell};
ghost use Rattle.nets.specs.Nets.{prv};
ghost use Rattle.wants.specs.Tries.{Ready, Tried, First};

use signs::Sign;

// The pair of c and d, the smaller first, is below that of a and b.
fn pair_below(c: u32, d: u32, a: u32, b: u32) -> bool
    ensures { result ≡ pair_below c d a b }
{
    (c.min(d), c.max(d)) < (a.min(b), a.max(b))
}

// The rank pair of c and d is below that of a and b.
fn below(work: &[u32], c: usize, d: usize, a: usize, b: usize) -> bool
    requires { (16 * c + 16 ≤ length work.now) × (16 * d + 16 ≤ length work.now) × (16 * a + 16 ≤ length work.now) × (16 * b + 16 ≤ length work.now) }
    ensures { result ≡ pair_below (get_or work.now (rank_cell c) 0) (get_or work.now (rank_cell d) 0) (get_or work.now (rank_cell a) 0) (get_or work.now (rank_cell b) 0) }
{
    pair_below(
        work[16 * c + 11],
        work[16 * d + 11],
        work[16 * a + 11],
        work[16 * b + 11],
    )
}

// The corner that half-edge g's triangle has besides its two ends.
#[tactic(auto, using(crate::proofs::Cases::place_prv))]
fn far_corner(work: &[u32], g: usize) -> usize
    requires { (g < 24576) × (16 * (g / 3) + 16 ≤ length work.now) }
    ensures { result ≡ get_or work.now (cell 0 (prv g)) 0 }
{
    work[16 * (g / 3) + (g + 2) % 3] as usize
}

// Step 3 flips edge e of slot t.
fn tries(points: &[i32], work: &[u32], count: usize, t: usize, e: usize) -> bool
    requires { Figure points.now × Ready points.now count work.now × (t < count) × (e < 3) }
    ensures { Tried (point points.now) (rank points.now) (net_of work.now count) (3 * t + e) result }
{
    let s = 16 * t;
    if work[s + 6 + e] != 0 {
        return false;
    }
    let partner = work[s + 3 + e] as usize;
    if partner == 0 {
        return false;
    }
    let a = work[s + e] as usize;
    let b = work[s + (e + 1) % 3] as usize;
    let c = work[s + (e + 2) % 3] as usize;
    let d = far_corner(work, partner - 1);
    match segments::circle_at(points, a, b, c, d) {
        Sign::Pos => true,
        Sign::Zero => below(work, c, d, a, b),
        Sign::Neg => false,
    }
}

// The first edge of slot t that step 3 flips.
pub fn first_edge(points: &[i32], work: &[u32], count: usize, t: usize) -> Option<usize>
    requires { Figure points.now × Ready points.now count work.now × (t < count) }
    ensures { First (point points.now) (rank points.now) (net_of work.now count) t result }
{
    // This is no `find` over the three edges: with e known at each call the tests take fewer instructions, as was measured.
    if tries(points, work, count, t, 0) {
        Some(0)
    } else if tries(points, work, count, t, 1) {
        Some(1)
    } else if tries(points, work, count, t, 2) {
        Some(2)
    } else {
        None
    }
}
