// Step 4 of document 01 in the lent working area: the apex of the triangle over the base of a part of the chain.
#![tactic(auto)]

ghost use Rattle.std.specs.Prelude.{◌≡◌, ◌+◌, ◌*◌, ◌<◌};
ghost use Rattle.algebra.specs.Tests.{posb};
ghost use Rattle.plane.specs.Determinants.{incircle};
ghost use Rattle.tables.specs.Data.{point_count, point};
ghost use Rattle.tables.specs.Figures.{Figure};
ghost use Rattle.cavities.specs.Choices.{replaces};
ghost use Rattle.chains.specs.Areas.{chain_of, Room};
ghost use Rattle.chains.specs.Scans.{left_of, apex};
ghost use Rattle.segments.specs.Near.{Near};

use signs::Sign;

// d is strictly inside the circle of a, b and c, which are counterclockwise.
fn inside(points: &[i32], a: usize, b: usize, c: usize, d: usize) -> bool
    requires near { Near points.now }
    requires a_bound { (a < point_count points.now) × (b < point_count points.now) × (c < point_count points.now) × (d < point_count points.now) }
    ensures { result ≡ posb (incircle (point points.now a) (point points.now b) (point points.now c) (point points.now d)) }
{
    matches!(segments::circle_at(points, a, b, c, d), Sign::Pos)
}

// v replaces the choice c over the base a b: c is collinear with the base, or v is strictly inside the circle through a, b and c.
fn replaces(points: &[i32], a: usize, b: usize, c: usize, v: usize) -> bool
    requires near { Near points.now }
    requires a_bound { (a < point_count points.now) × (b < point_count points.now) × (c < point_count points.now) × (v < point_count points.now) }
    ensures { result ≡ replaces (point points.now a) (point points.now b) (point points.now c) (point points.now v) }
{
    let sign = segments::orient_at(points, a, b, c);
    match sign {
        Sign::Pos => inside(points, a, b, c, v),
        Sign::Neg => inside(points, a, c, b, v),
        Sign::Zero => true,
    }
}

// The place of the apex over the corners at the places i and j of the chain.
pub fn choose(points: &[i32], work: &[u32], n: usize, count: usize, i: usize, j: usize) -> usize
    requires { Figure points.now × (n ≡ point_count points.now) × Room n count work.now × (i + 1 < j) × (j < 2 * n) }
    ensures { (result ≡ apex (point points.now) (chain_of n work.now) i j) × (i < result) × (result < j) }
{
    let a = seams::corner(work, n, i);
    let b = seams::corner(work, n, j);
    let mut k = i + 1;
    for x in i + 2..j {
        let c = seams::corner(work, n, k);
        let v = seams::corner(work, n, x);
        if replaces(points, a, b, c, v) {
            k = x;
        }
    }
    k
}

// The corner at place k is strictly left of the base from the corner at place i to that at place j.
pub fn is_over(
    points: &[i32],
    work: &[u32],
    n: usize,
    count: usize,
    i: usize,
    j: usize,
    k: usize,
) -> bool
    requires { Figure points.now × (n ≡ point_count points.now) × Room n count work.now × (i < 2 * n) × (j < 2 * n) × (k < 2 * n) }
    ensures { result ≡ left_of (point points.now) (chain_of n work.now i) (chain_of n work.now j) (chain_of n work.now k) }
{
    segments::is_left(
        points,
        seams::corner(work, n, i),
        seams::corner(work, n, j),
        seams::corner(work, n, k),
    )
}
