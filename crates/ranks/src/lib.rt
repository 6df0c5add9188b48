// The ranks of the points, their places in the order of x, then y: each point is an item of the words of x, of y and of its number, the
// items are sorted, and each point's place is written where the working area keeps its rank.
//
// The rows of items stay places of the lent area, three numbers each: the rule of fixed memory asks for it.
#![tactic(auto)]

ghost use Rattle.std.specs.Prelude.{◌≡◌, ◌+◌, ◌*◌, ◌≤◌, nat_abs, length};
ghost use Rattle.signs.specs.Answers.{limit};
ghost use Rattle.tables.specs.Data.{point_count};
ghost use Rattle.tables.specs.Figures.{Figure};
ghost use Rattle.ranks.specs.Items.{word, Filled, Numbered, Marked};
ghost use Rattle.ranks.specs.Ranked.{Ranked};

// The word of a coordinate, in the same order.
fn word(x: i32) -> u32
    requires { nat_abs x ≤ limit }
    ensures { result ≡ word x }
{
    (x + 8192) as u32
}

// The points' items stand from lo on, in the points' order.
fn fill(points: &[i32], work: &mut [u32], lo: usize)
    requires { Figure points.now × (lo + 3 * point_count points.now ≤ length work.old) }
    ensures { Filled points.now lo (point_count points.now) work.old work.new }
{
    for i in 0..points.len() / 2 {
        let x = word(points[2 * i]);
        let y = word(points[2 * i + 1]);
        sorts::set_item(work, lo + 3 * i, (x, y, i as u32));
    }
}

// The place of each item in its row is written as the rank of the item's point.
fn mark(work: &mut [u32], lo: usize, n: usize)
    requires { (n ≤ 4096) × (16 * n ≤ lo) × (lo + 3 * n ≤ length work.old) × Numbered work.old lo n }
    ensures { Marked work.old lo n n work.new }
{
    for k in 0..n {
        let i = work[lo + 3 * k + 2] as usize;
        work[16 * i + 11] = k as u32;
    }
}

// Writes the rank of each point. The items stand behind the places of the ranks, and the room for the sort behind the items.
pub fn rank_points(points: &[i32], work: &mut [u32])
    requires figure { Figure points.now }
    requires points_in_bounds { 64 * point_count points.now ≤ length work.old }
    ensures { Ranked points.now work.old work.new }
{
    let n = points.len() / 2;
    let lo = 32 * n;
    fill(points, work, lo);
    sorts::sort(work, lo, n, 35 * n);
    mark(work, lo, n);
}
