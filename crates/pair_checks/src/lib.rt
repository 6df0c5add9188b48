// Refusals 8 to 10 of document 01's table, whose places are pairs: the lowest pair with a bad end, with a point strictly inside its
// segment, and with a pair before it that it crosses. The promises are over the definitions of crate tables: Data, Refusals, Answers.
//
// Rows 9 and 10 try each pair with each point and with each pair before it, which serves where there are few pairs, or so many that there is
// no room to put them in order; crates spans and sweeps have these rows in order of rank. The inner loops only call `in_segment` and `crosses`,
// whose first tests nearly always go one way.
#![tactic(auto)]

ghost use Rattle.std.specs.Prelude.{◌≡◌, ◌<◌};
ghost use Rattle.segments.specs.Near.{Near};
ghost use Rattle.tables.specs.Answers.{lowest};
ghost use Rattle.tables.specs.Data.{pair_count};
ghost use Rattle.tables.specs.Refusals.{bad_pair, blocked, crossing};
ghost use Rattle.pair_checks.specs.Ends.{Ends};

// ---- row 8

fn is_bad(pairs: &[u32], n: usize, k: usize) -> bool
    requires { k < pair_count pairs.now }
    ensures { result ≡ bad_pair n pairs.now k }
{
    let a = pairs[2 * k] as usize;
    let b = pairs[2 * k + 1] as usize;
    n <= a || n <= b || a == b
}

// The lowest pair with an end that is no point's number, or with equal ends; n is the number of points.
pub fn bad_pair(pairs: &[u32], n: usize) -> Option<usize>
    ensures { result ≡ lowest (pair_count pairs.now) (bad_pair n pairs.now) }
{
    (0..pairs.len() / 2).find(|&k| is_bad(pairs, n, k))
}

// ---- row 9

fn is_blocked(points: &[i32], pairs: &[u32], k: usize) -> bool
    requires near { Near points.now }
    requires ends { Ends points.now pairs.now }
    requires k_bound { k < pair_count pairs.now }
    ensures { result ≡ blocked points.now pairs.now k }
{
    let a = pairs[2 * k] as usize;
    let b = pairs[2 * k + 1] as usize;
    (0..points.len() / 2).any(|i| crossings::in_segment(points, a, b, i))
}

// The lowest pair with a point strictly inside its segment.
pub fn blocked_pair(points: &[i32], pairs: &[u32]) -> Option<usize>
    requires near { Near points.now }
    requires ends { Ends points.now pairs.now }
    ensures { result ≡ lowest (pair_count pairs.now) (blocked points.now pairs.now) }
{
    (0..pairs.len() / 2).find(|&k| is_blocked(points, pairs, k))
}

// ---- row 10

fn is_crossing(points: &[i32], pairs: &[u32], k: usize) -> bool
    requires near { Near points.now }
    requires ends { Ends points.now pairs.now }
    requires k_bound { k < pair_count pairs.now }
    ensures { result ≡ crossing points.now pairs.now k }
{
    let c = pairs[2 * k] as usize;
    let d = pairs[2 * k + 1] as usize;
    (0..k).any(|j| {
        let a = pairs[2 * j] as usize;
        let b = pairs[2 * j + 1] as usize;
        crossings::crosses(points, a, b, c, d)
    })
}

// The lowest pair that properly crosses one before it.
pub fn crossing_pair(points: &[i32], pairs: &[u32]) -> Option<usize>
    requires near { Near points.now }
    requires ends { Ends points.now pairs.now }
    ensures { result ≡ lowest (pair_count pairs.now) (crossing points.now pairs.now) }
{
    (0..pairs.len() / 2).find(|&k| is_crossing(points, pairs, k))
}
