// Step 4: the search around a corner a for the edge to b, or else for the edge through which the segment from a to b leaves a triangle of a.
//
// The search turns around a from a triangle that has it, from neighbour to neighbour, first counterclockwise and, from a side of the base,
// clockwise. On a tiling that meets all triangles of a, and one of them has the edge or is left by the segment, so that the search
// costs what stands around a and no more. Nothing here leans on that: what the search answers is tried where it is found, and only a pass over
// all triangles may answer that there is neither.
#![tactic(auto)]

ghost use Rattle.std.specs.Prelude.{◌+◌, ◌*◌, ◌≤◌, ◌<◌, length, IfSome};
ghost use Rattle.tables.specs.Data.{point_count, point};
ghost use Rattle.tables.specs.Figures.{Figure};
ghost use Rattle.nets.specs.Layout.{net_of, InRange};
ghost use Rattle.segments.specs.Near.{Near};
ghost use Rattle.looks.specs.Around.{Ranged, Told, Neither, Open, Starts};

use looks::Around;

// A half-edge that leaves a, by the slot that is noted for a.
fn start(work: &[u32], count: usize, a: usize) -> Option<usize>
    requires in_range { InRange count work.now }
    requires a_in_bounds { 16 * a + 16 ≤ length work.now }
    ensures { Starts (net_of work.now count) a result }
{
    let t = work[16 * a + 12] as usize;
    if count <= t {
        return None;
    }
    let e = (0..3).find(|&e| work[16 * t + e] as usize == a)?;
    Some(3 * t + e)
}

// The next half-edge around the start of h, counterclockwise to the left, if h is no side of the base.
fn onward(work: &[u32], count: usize, h: usize, left: bool) -> Option<usize>
    requires in_range { InRange count work.now }
    requires h_bound { h < 3 * count }
    ensures { IfSome result (λ g. g < 3 * count) }
{
    if left {
        return (work[16 * (h / 3) + 3 + (h % 3 + 2) % 3] as usize).checked_sub(1);
    }
    let g = (work[16 * (h / 3) + 3 + h % 3] as usize).checked_sub(1)?;
    Some(links::next(g))
}

// All half-edges that leave a, from one of them on, to the left or to the right, at most one in each triangle.
fn turn(
    points: &[i32],
    work: &[u32],
    count: usize,
    a: usize,
    b: usize,
    from: usize,
    left: bool,
) -> Option<Around>
    requires near { Near points.now }
    requires ranged { Ranged points.now count work.now }
    requires a_bound { (a < point_count points.now) × (b < point_count points.now) × (from < 3 * count) }
    ensures { Told Open (point points.now) (net_of work.now count) a b result }
{
    let mut h = from;
    for _ in 0..count {
        let met = looks::look(points, work, count, a, b, h);
        if met.is_some() {
            return met;
        }
        h = onward(work, count, h, left)?;
        if h == from {
            return None;
        }
    }
    None
}

// All half-edges of the net. This is a `for`, as the library has no law for `find_map` over a range.
fn scan(points: &[i32], work: &[u32], count: usize, a: usize, b: usize) -> Option<Around>
    requires near { Near points.now }
    requires ranged { Ranged points.now count work.now }
    requires a_bound { (a < point_count points.now) × (b < point_count points.now) }
    ensures { Told (Neither (point points.now) (net_of work.now count) a b) (point points.now) (net_of work.now count) a b result }
{
    for h in 0..3 * count {
        let met = looks::look(points, work, count, a, b, h);
        if met.is_some() {
            return met;
        }
    }
    None
}

// An edge between a and b, or the entry edge of the segment from a to b, or that there is neither. In a tiling no pair has both, as
// proofs/Apart shows, so the first that is met is the answer.
pub fn look_around(points: &[i32], work: &[u32], count: usize, a: usize, b: usize) -> Option<Around>
    requires figure { Figure points.now }
    requires ranged { Ranged points.now count work.now }
    requires a_bound { (a < point_count points.now) × (b < point_count points.now) }
    ensures { Told (Neither (point points.now) (net_of work.now count) a b) (point points.now) (net_of work.now count) a b result }
{
    if let Some(h) = start(work, count, a) {
        for left in [true, false] {
            let met = turn(points, work, count, a, b, h, left);
            if met.is_some() {
                return met;
            }
        }
    }
    scan(points, work, count, a, b)
}
