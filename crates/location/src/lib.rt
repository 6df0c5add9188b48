// Step 1 of the building steps: the triangle of the working area in which a point lies, and its edge that the point lies on. Crate nets says in
// specs/Location what each call answers.
#![tactic(auto)]

ghost use Rattle.std.specs.Prelude.{◌≡◌, suc, ◌+◌, ◌*◌, ◌<◌};
ghost use Rattle.tables.specs.Data.{point_count, point};
ghost use Rattle.nets.specs.Layout.{net_of, InRange};
ghost use Rattle.nets.specs.Location.{holds, walk, scan, locate, edge_at};
ghost use Rattle.segments.specs.Near.{Near};
ghost use Rattle.turns.specs.Moves.{Numbered};
ghost use Rattle.turns.specs.Numbers.{suc_or_0};

use turns::Turn;

// The walk from the newest slot: it enters at most 4 count + 16 triangles, and ends in one that holds p, or with none.
fn walk(points: &[i32], work: &[u32], count: usize, p: usize, newest: usize) -> Option<usize>
    requires near { Near points.now }
    requires numbered { Numbered points.now work.now count }
    requires in_range { InRange count work.now }
    requires p_bound { (p < point_count points.now) × (newest < count) }
    ensures { suc_or_0 result ≡ walk (point points.now) (net_of work.now count) (point points.now p) (4 * count + 16) (suc newest) }
{
    let mut t = newest;
    for _ in 0..4 * count + 16 {
        match turns::loc_in_tri(points, work, count, p, t) {
            Turn::Here => return Some(t),
            Turn::NoWay => return None,
            Turn::To(next) => t = next,
        }
    }
    None
}

// Slot t holds p.
fn holds(points: &[i32], work: &[u32], count: usize, p: usize, t: usize) -> bool
    requires near { Near points.now }
    requires numbered { Numbered points.now work.now count }
    requires in_range { InRange count work.now }
    requires p_bound { (p < point_count points.now) × (t < count) }
    ensures { result ≡ holds (point points.now) (net_of work.now count) (point points.now p) t }
{
    matches!(turns::loc_in_tri(points, work, count, p, t), Turn::Here)
}

// The lowest slot that holds p.
fn scan(points: &[i32], work: &[u32], count: usize, p: usize) -> Option<usize>
    requires near { Near points.now }
    requires numbered { Numbered points.now work.now count }
    requires in_range { InRange count work.now }
    requires p_bound { p < point_count points.now }
    ensures { suc_or_0 result ≡ scan (point points.now) (net_of work.now count) (point points.now p) count }
{
    (0..count).find(|&t| holds(points, work, count, p, t))
}

// The slot that holds point p: the walk's, and the scan's where the walk ends with none.
pub fn locate(points: &[i32], work: &[u32], count: usize, p: usize, newest: usize) -> Option<usize>
    requires near { Near points.now }
    requires numbered { Numbered points.now work.now count }
    requires in_range { InRange count work.now }
    requires p_bound { (p < point_count points.now) × (newest < count) }
    ensures { suc_or_0 result ≡ locate (point points.now) (net_of work.now count) (point points.now p) newest }
{
    walk(points, work, count, p, newest).or_else(|| scan(points, work, count, p))
}

// ---- the place in a triangle

// The first of the half-edges of slot t on whose line point p lies.
pub fn edge_at(points: &[i32], work: &[u32], count: usize, p: usize, t: usize) -> Option<usize>
    requires near { Near points.now }
    requires numbered { Numbered points.now work.now count }
    requires in_range { InRange count work.now }
    requires p_bound { (p < point_count points.now) × (t < count) }
    ensures { suc_or_0 result ≡ edge_at (point points.now) (net_of work.now count) (point points.now p) t }
{
    let at = 16 * t;
    let v0 = work[at] as usize;
    let v1 = work[at + 1] as usize;
    let v2 = work[at + 2] as usize;
    if segments::is_flat(points, v0, v1, p) {
        Some(3 * t)
    } else if segments::is_flat(points, v1, v2, p) {
        Some(3 * t + 1)
    } else if segments::is_flat(points, v2, v0, p) {
        Some(3 * t + 2)
    } else {
        None
    }
}
