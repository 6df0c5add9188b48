// Refusal 9 of document 01's table, the lowest pair with a point strictly inside its segment, in order of rank: such a point comes between
// the pair's ends in the order of x, then y, so only the points between them are tried.
//
// Crate ranks has written where each point stands in that order, and which point stands at each place of it.
#![tactic(auto)]

ghost use Rattle.std.specs.Prelude.{◌≡◌, ◌*◌, ◌<◌, ◌≤◌, length};
ghost use Rattle.algebra.specs.Tests.{any_to};
ghost use Rattle.tables.specs.Answers.{lowest};
ghost use Rattle.tables.specs.Data.{point_count, pair_count, point};
ghost use Rattle.tables.specs.Figures.{Figure};
ghost use Rattle.tables.specs.Refusals.{in_segment, blocked};
ghost use Rattle.tables.specs.Rules.{rank};
ghost use Rattle.ranks.specs.Ranked.{Ordered};
ghost use Rattle.pair_checks.specs.Ends.{Ends};

// Some point lies strictly inside the segment from a to b. The ranks of both are from lo to hi, so only the ranks between are tried.
fn holds_point(points: &[i32], work: &[u32], a: usize, b: usize, lo: usize, hi: usize) -> bool
    requires figure { Figure points.now }
    requires ordered { Ordered points.now work.now × (64 * point_count points.now ≤ length work.now) }
    requires a_bound { (a < point_count points.now) × (b < point_count points.now) × (hi < point_count points.now) }
    requires lo_bound { (lo ≤ rank points.now a) × (lo ≤ rank points.now b) × (rank points.now a ≤ hi) × (rank points.now b ≤ hi) }
    ensures { result ≡ any_to (point_count points.now) (λ i. in_segment (point points.now a) (point points.now b) (point points.now i)) }
{
    let n = points.len() / 2;
    (lo + 1..hi).any(|r| {
        let i = work[32 * n + 3 * r + 2] as usize;
        crossings::in_segment(points, a, b, i)
    })
}

fn is_blocked(points: &[i32], pairs: &[u32], work: &[u32], k: usize) -> bool
    requires figure { Figure points.now }
    requires ends { Ends points.now pairs.now }
    requires ordered { Ordered points.now work.now × (64 * point_count points.now ≤ length work.now) }
    requires k_bound { k < pair_count pairs.now }
    ensures { result ≡ blocked points.now pairs.now k }
{
    let a = pairs[2 * k] as usize;
    let b = pairs[2 * k + 1] as usize;
    let s = work[16 * a + 11] as usize;
    let t = work[16 * b + 11] as usize;
    if s < t {
        holds_point(points, work, a, b, s, t)
    } else {
        holds_point(points, work, a, b, t, s)
    }
}

// The lowest pair with a point strictly inside its segment.
// It stays a function of its own when it is compiled, so that its loop has all registers.
#[inline(never)]
pub fn blocked_pair(points: &[i32], pairs: &[u32], work: &[u32]) -> Option<usize>
    requires figure { Figure points.now }
    requires ends { Ends points.now pairs.now }
    requires ordered { Ordered points.now work.now × (64 * point_count points.now ≤ length work.now) }
    ensures { result ≡ lowest (pair_count pairs.now) (blocked points.now pairs.now) }
{
    (0..pairs.len() / 2).find(|&k| is_blocked(points, pairs, work, k))
}
