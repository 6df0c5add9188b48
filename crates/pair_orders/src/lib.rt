// The pairs in the order in which they begin: each pair is an item of the ranks of its lesser and of its greater end and of its number, and
// the items are sorted. A sweep along the points in order of rank meets the pairs in this order.
//
// The rows of items stay places of the lent area, three numbers each: the rule of fixed memory asks for it.
#![tactic(auto)]

ghost use Rattle.std.specs.Prelude.{◌+◌, ◌*◌, ◌≤◌, length};
ghost use Rattle.tables.specs.Data.{point_count, pair_count};
ghost use Rattle.tables.specs.Figures.{Figure};
ghost use Rattle.rooms.specs.Rest.{Rest};
ghost use Rattle.ranks.specs.Ranked.{Ordered};
ghost use Rattle.pair_checks.specs.Ends.{Ends};
ghost use Rattle.pair_orders.specs.Rows.{Filled, Row};

// The pairs' items stand from `at` on, in the pairs' order, behind the ranks.
fn fill(points: &[i32], pairs: &[u32], work: &mut [u32], at: usize)
    requires ends { Ends points.now pairs.now }
    requires ordered { Ordered points.now work.old }
    requires points_bound { (16 * point_count points.now ≤ at) × (at + 3 * pair_count pairs.now ≤ length work.old) × (pair_count pairs.now ≤ 40960) }
    ensures { Filled points.now pairs.now at (pair_count pairs.now) work.old work.new }
{
    for k in 0..pairs.len() / 2 {
        let r = work[16 * pairs[2 * k] as usize + 11];
        let s = work[16 * pairs[2 * k + 1] as usize + 11];
        sorts::set_item(work, at + 3 * k, (r.min(s), r.max(s), k as u32));
    }
}

// The row of the pairs stands behind the places of the ranks, and the room for the sort behind the row.
pub fn order_pairs(points: &[i32], pairs: &[u32], work: &mut [u32])
    requires figure { Figure points.now }
    requires ends { Ends points.now pairs.now }
    requires ordered { Ordered points.now work.old × (64 * point_count points.now ≤ length work.old) × (pair_count pairs.now ≤ 10 * point_count points.now) }
    ensures row { Row points.now pairs.now (16 * point_count points.now) work.new }
    ensures rest { Rest (64 * point_count points.now) work.old work.new }
{
    let n = points.len() / 2;
    let m = pairs.len() / 2;
    let at = 16 * n;
    fill(points, pairs, work, at);
    sorts::sort(work, at, m, at + 3 * m);
}
