// Steps 1 to 3 of the building steps: points in, a Delaunay tiling out. Crate nets says in specs/Building what the steps make of a net,
// and specs/Stages here how far they have come in the lent working area.
#![tactic(auto)]

ghost use Rattle.std.specs.Prelude.{◌≡◌, ℕ, suc, ◌+◌, ◌*◌, ◌≤◌, ◌<◌, length};
ghost use Rattle.tables.specs.Data.{point_count};
ghost use Rattle.tables.specs.Figures.{Figure};
ghost use Rattle.nets.specs.Building.{base_rec};
ghost use Rattle.nets.specs.Layout.{born, Kept};
ghost use Rattle.builder.specs.Stages.{Staged, Follows, Begun, Delaunay};

use store::Tri;

// How many triangles there are, and the slot of the newest.
#[derive(Clone, Copy)]
pub struct Progress {
    pub count: usize,
    pub newest: usize,
}

// The base alone, turned where it is clockwise.
fn begin(points: &[i32], work: &mut [u32])
    requires figure { Figure points.now }
    requires points_in_bounds { 64 * point_count points.now ≤ length work.old }
    ensures { Begun points.now work.old work.new }
{
    let corners = if segments::is_right(points, 0, 1, 2) {
        [0, 2, 1]
    } else {
        [0, 1, 2]
    };
    let base = Tri {
        v: corners,
        adj: [0; 3],
        con: [0; 3],
    };
    store::record(work, 0, base);
}

// Point p goes in: it is located, the triangles that hold it are split, and edges are flipped until step 3 flips none.
fn insert_point(points: &[i32], work: &mut [u32], p: usize, at: Progress) -> Progress
    requires staged { Staged points.now p work.old at.count at.newest }
    requires p_bound { p < point_count points.now }
    ensures follows { Follows points.now p work.old at.count at.newest work.new result.count result.newest }
    ensures kept { Kept (point_count points.now) work.old work.new }
{
    let t = location::locate(points, work, at.count, p, at.newest).unwrap();
    let grown = splitting::split_at(points, work, at.count, t, p);
    let last = flipping::legalize_suspects(points, work, grown.count, grown.many, grown.count - 1);
    Progress {
        count: grown.count,
        newest: last,
    }
}

// The triangles of all points, as steps 1 to 3 make them, in the working area. The answer is how many there are.
pub fn build(points: &[i32], work: &mut [u32]) -> usize
    requires figure { Figure points.now }
    requires points_in_bounds { 64 * point_count points.now ≤ length work.old }
    ensures { Delaunay points.now work.old work.new result }
{
    ranks::rank_points(points, work);
    begin(points, work);
    let mut at = Progress {
        count: 1,
        newest: 0,
    };
    for p in 3..points.len() / 2 {
        at = insert_point(points, work, p, at);
    }
    at.count
}
