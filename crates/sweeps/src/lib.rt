// Refusal 10 of document 01's table, the lowest pair that properly crosses one before it, in order of rank: of two segments that cross, one
// begins between the ends of the other in the order of x, then y. So the pairs stand in the order of their lesser ends, and each is tried with
// those alone that begin between its ends.
//
// The least number of a later pair of two that cross is kept on the way. A pair whose number is not below it cannot lower it, so it is not
// tried: of a figure that is refused, few pairs are tried once a low one is found.
#![tactic(auto)]

ghost use Rattle.std.specs.Prelude.{◌≡◌, ◌+◌, ◌*◌, ◌<◌, ◌≤◌, length};
ghost use Rattle.segments.specs.Near.{Near};
ghost use Rattle.tables.specs.Answers.{lowest};
ghost use Rattle.tables.specs.Data.{point_count, pair_count};
ghost use Rattle.tables.specs.Figures.{Figure};
ghost use Rattle.tables.specs.Refusals.{crossing};
ghost use Rattle.rooms.specs.Rest.{Rest};
ghost use Rattle.ranks.specs.Ranked.{Ordered};
ghost use Rattle.pair_checks.specs.Ends.{Ends};
ghost use Rattle.pair_orders.specs.Rows.{Row};
ghost use Rattle.sweeps.specs.Least.{lowered, Found, Tried, Swept, Together};

// The first place behind p whose pair begins elsewhere than the pair at p, or the end of the row; it is known if it is behind p.
fn group_end(work: &[u32], at: usize, m: usize, p: usize, known: usize) -> usize
    requires { (at + 3 * m ≤ length work.now) × (p < m) × (known ≤ m) × Together work.now at p known }
    ensures { (p < result) × (result ≤ m) × Together work.now at p result }
{
    if p < known {
        return known;
    }
    let start = work[at + 3 * p];
    (p + 1..m).find(|&q| work[at + 3 * q] != start).unwrap_or(m)
}

// The pair j from a to b is tried with the pair k. The number of the later one is the least now where they cross, unless k is not below the
// least.
// The number of the pairs stands for none here, as `lowered` and `Found` of specs/ have it: a minimum then needs no case of its own.
fn lowered(
    points: &[i32],
    pairs: &[u32],
    a: usize,
    b: usize,
    j: usize,
    k: usize,
    least: usize,
) -> usize
    requires near { Near points.now }
    requires ends { Ends points.now pairs.now }
    requires a_bound { (a < point_count points.now) × (b < point_count points.now) × (k < pair_count pairs.now) }
    ensures { result ≡ lowered points.now pairs.now a b j k least }
{
    if least <= k {
        return least;
    }
    let c = pairs[2 * k] as usize;
    let d = pairs[2 * k + 1] as usize;
    if crossings::crosses(points, a, b, c, d) {
        j.max(k)
    } else {
        least
    }
}

// The pair at p is tried with those behind it that begin between its ends. Those before `first` begin where it does.
fn scan(
    points: &[i32],
    pairs: &[u32],
    work: &[u32],
    at: usize,
    p: usize,
    first: usize,
    least: usize,
) -> usize
    requires figure { Figure points.now }
    requires ends { Ends points.now pairs.now }
    requires row { Row points.now pairs.now at work.now }
    requires found { Found points.now pairs.now least }
    requires pairs_in_bounds { (at + 3 * pair_count pairs.now ≤ length work.now) × (p < first) × (first ≤ pair_count pairs.now) × Together work.now at p first }
    ensures { Found points.now pairs.now result × (result ≤ least) × Tried points.now pairs.now at work.now p (pair_count pairs.now) result }
{
    let j = work[at + 3 * p + 2] as usize;
    if least <= j {
        return least;
    }
    let m = pairs.len() / 2;
    let end = work[at + 3 * p + 1];
    let a = pairs[2 * j] as usize;
    let b = pairs[2 * j + 1] as usize;
    let mut kept = least;
    for q in first..m {
        if end <= work[at + 3 * q] {
            return kept;
        }
        let k = work[at + 3 * q + 2] as usize;
        kept = lowered(points, pairs, a, b, j, k, kept);
    }
    kept
}

// The least number of a later pair of two that cross, or the number of the pairs. The pairs that begin together are passed over once for all
// of them.
// It stays a function of its own when it is compiled, so that its loop has all registers.
#[inline(never)]
fn sweep(points: &[i32], pairs: &[u32], work: &[u32], at: usize) -> usize
    requires figure { Figure points.now }
    requires ends { Ends points.now pairs.now }
    requires row { Row points.now pairs.now at work.now }
    requires pairs_in_bounds { at + 3 * pair_count pairs.now ≤ length work.now }
    ensures { Found points.now pairs.now result × Swept points.now pairs.now at work.now (pair_count pairs.now) result }
{
    let m = pairs.len() / 2;
    let mut least = m;
    let mut end = 0;
    for p in 0..m {
        end = group_end(work, at, m, p, end);
        least = scan(points, pairs, work, at, p, end, least);
    }
    least
}

// The lowest pair that properly crosses one before it.
pub fn crossing_pair(points: &[i32], pairs: &[u32], work: &mut [u32]) -> Option<usize>
    requires figure { Figure points.now }
    requires ends { Ends points.now pairs.now }
    requires ordered { Ordered points.now work.old × (64 * point_count points.now ≤ length work.old) × (pair_count pairs.now ≤ 10 * point_count points.now) }
    ensures value { result ≡ lowest (pair_count pairs.now) (crossing points.now pairs.now) }
    ensures rest { Rest (64 * point_count points.now) work.old work.new }
{
    pair_orders::order_pairs(points, pairs, work);
    let m = pairs.len() / 2;
    let n = points.len() / 2;
    let least = sweep(points, pairs, work, 16 * n);
    if least < m { Some(least) } else { None }
}
