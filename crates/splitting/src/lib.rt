// Step 1 of the building steps, once the triangle is known: a point splits the triangle that it lies in, or the one or two triangles of
// the edge that it lies on, and the new triangles become suspects in the order of their birth.
#![tactic(auto)]

ghost use Rattle.std.specs.Prelude.{cond, ◌≡◌, ℕ, ◌+◌, ◌*◌, ◌/◌, ◌≤◌, ◌<◌, length};
ghost use Rattle.tables.specs.Data.{point_count, point};
ghost use Rattle.nets.specs.Layout.{net_of, InRange};
ghost use Rattle.nets.specs.Location.{earlier, split_in};
ghost use Rattle.splitting.specs.Splits.{inside_pushed, side_pushed, edge_pushed, Tiled, Grown};

// How many triangles there are after a split, and how many of them are suspects.
// It has another second count than builder::Progress, so each has its own name.
#[derive(Drop)]
pub struct Growth {
    pub count: usize,
    pub many: usize,
}

fn split_interior(work: &mut [u32], count: usize, t: usize, p: usize)
    requires in_range { InRange count work.old }
    requires t_lt_count { (t < count) × (p < 4096) × (16 * p + 16 ≤ length work.old) × (16 * (count + 2) ≤ length work.old) × (count + 2 ≤ 8192) × (48 ≤ length work.old) }
    ensures { work.new ≡ inside_pushed work.old count t p }
{
    splits::split_interior(work, count, t, p as u32);
    suspects::push(work, 0, t);
    suspects::push(work, 1, count);
    suspects::push(work, 2, count + 1);
}

fn split_side(work: &mut [u32], count: usize, h: usize, p: usize)
    requires in_range { InRange count work.old }
    requires h_bound { (h < 3 * count) × (p < 4096) × (16 * p + 16 ≤ length work.old) × (16 * (count + 1) ≤ length work.old) × (count + 1 ≤ 8192) × (48 ≤ length work.old) }
    ensures { work.new ≡ side_pushed work.old count h p }
{
    splits::split_side(work, count, h, p as u32);
    suspects::push(work, 0, h / 3);
    suspects::push(work, 1, count);
}

fn split_both(work: &mut [u32], count: usize, h: usize, g: usize, p: usize)
    requires in_range { InRange count work.old }
    requires h_bound { (h < 3 * count) × (g < 3 * count) × (p < 4096) × (16 * p + 16 ≤ length work.old) × (16 * (count + 2) ≤ length work.old) × (count + 2 ≤ 8192) × (64 ≤ length work.old) }
    ensures { work.new ≡ edge_pushed work.old count h g p }
{
    edge_splits::split_edge(work, count, h, g, p as u32);
    suspects::push(work, 0, h / 3);
    suspects::push(work, 1, count);
    suspects::push(work, 2, g / 3);
    suspects::push(work, 3, count + 1);
}

// Of the two triangles of an edge, the one first in house order is split first.
fn split_edge(work: &mut [u32], count: usize, h: usize, g: usize, p: usize)
    requires in_range { InRange count work.old }
    requires h_bound { (h < 3 * count) × (g < 3 * count) × (p < 4096) × (16 * p + 16 ≤ length work.old) × (16 * (count + 2) ≤ length work.old) × (count + 2 ≤ 8192) × (64 ≤ length work.old) }
    ensures { work.new ≡ cond (earlier (net_of work.old count) (g / 3) (h / 3)) (edge_pushed work.old count g h p) (edge_pushed work.old count h g p) }
{
    if houses::earlier(work, count, g / 3, h / 3) {
        split_both(work, count, g, h, p);
    } else {
        split_both(work, count, h, g, p);
    }
}

// Point p goes into slot t, in whose closed triangle it lies.
pub fn split_at(points: &[i32], work: &mut [u32], count: usize, t: usize, p: usize) -> Growth
    requires tiled { Tiled points.now p work.old count }
    requires t_lt_count { (t < count) × (p < point_count points.now) }
    ensures { Grown points.now work.old (split_in (point points.now) (net_of work.old count) t p) work.new result.count result.many }
{
    let Some(h) = location::edge_at(points, work, count, p, t) else {
        split_interior(work, count, t, p);
        return Growth {
            count: count + 2,
            many: 3,
        };
    };
    let across = links::partner(work, h) as usize;
    if across == 0 {
        split_side(work, count, h, p);
        return Growth {
            count: count + 1,
            many: 2,
        };
    }
    split_edge(work, count, h, across - 1, p);
    Growth {
        count: count + 2,
        many: 4,
    }
}
