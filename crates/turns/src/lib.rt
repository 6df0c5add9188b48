// A turn of the walk of step 1: what it does in a triangle of the working area.
//
// Crate nets says in specs/Location what each call answers. The walk is the hot loop of the building: in each triangle that it enters it
// asks for each of the three orientations once, and every coordinate is known to be near, so that they are computed in 32 bits.
#![tactic(auto)]

ghost use Rattle.std.specs.Prelude.{◌≡◌, cond, ◌*◌, ◌≤◌, ◌<◌, neg_ℤ, length};
ghost use Rattle.algebra.specs.Tests.{posb};
ghost use Rattle.plane.specs.Determinants.{orient};
ghost use Rattle.tables.specs.Data.{point_count, point};
ghost use Rattle.nets.specs.Layout.{net_of};
ghost use Rattle.nets.specs.Location.{slot_of};
ghost use Rattle.segments.specs.Near.{Near};
ghost use Rattle.turns.specs.Moves.{Numbered, turn_number, chosen, move};
ghost use Rattle.turns.specs.Numbers.{suc_or_0};

// What the walk does in a triangle: the point is here, or there is no way on, or the walk goes on to a slot.
#[derive(Clone, Copy)]
pub enum Turn {
    Here,
    NoWay,
    To(usize),
}

// p is strictly right of the line from a to b. The determinant is at most 2^29 in size.
// It stands beside segments::is_right, which computes in 64 bits, as the walk is quicker in 32.
fn is_right(points: &[i32], a: usize, b: usize, p: usize) -> bool
    requires near { Near points.now }
    requires a_bound { (a < point_count points.now) × (b < point_count points.now) × (p < point_count points.now) }
    ensures { result ≡ posb (neg_ℤ (orient (point points.now a) (point points.now b) (point points.now p))) }
{
    let px = points[2 * p];
    let py = points[2 * p + 1];
    let apx = points[2 * a] - px;
    let apy = points[2 * a + 1] - py;
    let bpx = points[2 * b] - px;
    let bpy = points[2 * b + 1] - py;
    apx * bpy - apy * bpx < 0
}

// The slot across an edge, if the point is beyond the edge and the edge has a partner, which is a half-edge and 1, or 0 for none.
// The flag beside the number is what `chosen` of crate nets takes.
fn over(beyond: bool, partner: u32) -> Option<usize>
    ensures { suc_or_0 result ≡ cond beyond (slot_of partner) 0 }
{
    if !beyond {
        return None;
    }
    match partner {
        0 => None,
        g => Some((g as usize - 1) / 3),
    }
}

// What the walk does in a triangle: edge k has the point strictly beyond it if sk is true, and its partner is ak.
fn choose(s0: bool, s1: bool, s2: bool, a0: u32, a1: u32, a2: u32) -> Turn
    ensures { turn_number result ≡ chosen s0 s1 s2 a0 a1 a2 }
{
    // This is no chain of `or`, which would divide for all three edges: it was measured, and took a third more time to build.
    if let Some(t) = over(s0, a0) {
        return Turn::To(t);
    }
    if let Some(t) = over(s1, a1) {
        return Turn::To(t);
    }
    if let Some(t) = over(s2, a2) {
        return Turn::To(t);
    }
    if s0 || s1 || s2 {
        Turn::NoWay
    } else {
        Turn::Here
    }
}

// The same of slot t and point p, which is here if it lies in the closed triangle.
pub fn loc_in_tri(points: &[i32], work: &[u32], count: usize, p: usize, t: usize) -> Turn
    requires near { Near points.now }
    requires numbered { Numbered points.now work.now count }
    requires p_bound { (p < point_count points.now) × (t < count) × (16 * count ≤ length work.now) }
    ensures { turn_number result ≡ move (point points.now) (net_of work.now count) (point points.now p) t }
{
    let at = 16 * t;
    let v0 = work[at] as usize;
    let v1 = work[at + 1] as usize;
    let v2 = work[at + 2] as usize;
    let s0 = is_right(points, v0, v1, p);
    let s1 = is_right(points, v1, v2, p);
    let s2 = is_right(points, v2, v0, p);
    choose(s0, s1, s2, work[at + 3], work[at + 4], work[at + 5])
}
