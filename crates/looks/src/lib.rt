// Step 4: what one half-edge of a triangle tells the search around a corner.
#![tactic(auto)]

ghost use Rattle.std.specs.Prelude.{◌*◌, ◌<◌};
ghost use Rattle.tables.specs.Data.{point_count, point};
ghost use Rattle.nets.specs.Layout.{net_of};
ghost use Rattle.segments.specs.Near.{Near};
ghost use Rattle.looks.specs.Around.{Ranged, Told, Passed};

// What a triangle has for a pair, by the triangle's slot and its edge 0, 1 or 2: an edge between the two points, or the entry edge.
#[derive(Clone, Copy, Debug, PartialEq, Eq)]
pub enum Around {
    Edge(usize, usize),
    Entry(usize, usize),
}

// What half-edge h of a triangle tells, if it leaves a: both edges of the triangle at a are tried, and the one across.
pub fn look(
    points: &[i32],
    work: &[u32],
    count: usize,
    a: usize,
    b: usize,
    h: usize,
) -> Option<Around>
    requires near { Near points.now }
    requires ranged { Ranged points.now count work.now }
    requires a_bound { (a < point_count points.now) × (b < point_count points.now) × (h < 3 * count) }
    ensures { Told (Passed (point points.now) (net_of work.now count) a b h) (point points.now) (net_of work.now count) a b result }
{
    let t = h / 3;
    let e = h % 3;
    if work[16 * t + e] as usize != a {
        return None;
    }
    let u = work[16 * t + (e + 1) % 3] as usize;
    let v = work[16 * t + (e + 2) % 3] as usize;
    if u == b {
        return Some(Around::Edge(t, e));
    }
    if v == b {
        return Some(Around::Edge(t, (e + 2) % 3));
    }
    if segments::is_right(points, a, b, u) && segments::is_left(points, a, b, v) {
        return Some(Around::Entry(t, (e + 1) % 3));
    }
    None
}
