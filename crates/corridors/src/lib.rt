// The walk along the corridor of a pair, in the lent working area: from the first triangle, which has the corner a, from crossed edge to
// crossed edge until b is met. Each triangle that is entered is written down as a crossed slot, its far corner in the chain, and the edge
// that is not crossed is parked as a gap, for its triangle will be cut anew. Crate chains says in specs/ what stands where, and in
// specs/Walks when the walk sticks.
#![tactic(auto)]

ghost use Rattle.std.specs.Prelude.{◌≡◌, ℕ, ◌+◌, ◌-◌, ◌*◌, ◌/◌, ◌≤◌, ◌<◌, length, set};
ghost use Rattle.plane.specs.Halfedges.{nxt};
ghost use Rattle.nets.specs.Layout.{Kept};
ghost use Rattle.nets.specs.Nets.{prv};
ghost use Rattle.tables.specs.Data.{point_count, point};
ghost use Rattle.tables.specs.Figures.{Figure};
ghost use Rattle.chains.specs.Areas.{org, chain_cell, Room};
ghost use Rattle.chains.specs.Recoveries.{begin_w};
ghost use Rattle.chains.specs.Walks.{met, look_at, enter_w, left_w, right_w, arrive_w};
ghost use Rattle.corridors.specs.Collected.{Area, Collected};

use chains::{Beyond, Reason};
use signs::Sign;

// The corner that half-edge h starts from.
#[tactic(auto, unfolding(nets::specs::Layout::cell))]
fn start(work: &[u32], h: usize) -> usize
    requires { (h < 24576) × (16 * (h / 3) + 16 ≤ length work.now) }
    ensures { result ≡ org work.now h }
{
    work[16 * (h / 3) + h % 3] as usize
}

// The corner c stands at place x of the chain.
fn stand(work: &mut [u32], n: usize, x: usize, c: usize)
    requires { (n ≤ 4096) × (x < 2 * n) × (c < n) × (64 * n ≤ length work.old) }
    ensures { work.new ≡ set work.old (chain_cell n x) c }
{
    work[16 * (2 * n + x) + 9] = c as u32;
}

// ---- what lies behind an edge

// c is the far corner of the triangle that half-edge y enters.
fn meet(points: &[i32], a: usize, b: usize, y: usize, c: usize) -> Result<Beyond, Reason>
    requires figure { Figure points.now }
    requires a_bound { (a < point_count points.now) × (b < point_count points.now) × (c < point_count points.now) }
    ensures { result ≡ met (point points.now) a b y c }
{
    if c == b {
        return Ok(Beyond::Last(y));
    }
    let side = segments::orient_at(points, a, b, c);
    match side {
        Sign::Pos => Ok(Beyond::Left(y, c)),
        Sign::Neg => Ok(Beyond::Right(y, c)),
        Sign::Zero => Err(Reason::OnLine),
    }
}

// Behind the half-edge x of count triangles. A partner beyond them is a gap, so its triangle was crossed before.
fn look(
    points: &[i32],
    work: &[u32],
    count: usize,
    a: usize,
    b: usize,
    x: usize,
) -> Result<Beyond, Reason>
    requires figure { Figure points.now × Room (point_count points.now) count work.now }
    requires a_bound { (a < point_count points.now) × (b < point_count points.now) × (x < 3 * count) }
    ensures { result ≡ look_at (point points.now) count a b work.now x }
{
    let m = links::partner(work, x) as usize;
    if m == 0 {
        return Err(Reason::NoNeighbour);
    }
    if work[16 * (x / 3) + 6 + x % 3] != 0 {
        return Err(Reason::Marked);
    }
    if 3 * count < m {
        return Err(Reason::Twice);
    }
    let g = links::previous(m - 1);
    let c = start(work, g);
    meet(points, a, b, m - 1, c)
}

// ---- steps

// The k-th crossed slot is that of y. Its half-edge o is parked as the gap at place g, and the corner c stands at place e of the chain.
#[tactic(auto, unfolding(chains::specs::Walks::enter_w))]
fn enter(work: &mut [u32], n: usize, k: usize, y: usize, o: usize, g: usize, e: usize, c: usize)
    requires { Area n work.old × (k < 2 * n) × (y < 6 * n) × (o < 6 * n) × (g < 2 * n) × (e < 2 * n) × (c < n) }
    ensures { work.new ≡ enter_w n work.old k y o g e c }
{
    work[16 * (2 * n + k) + 10] = (y / 3) as u32;
    seams::move_to(work, o, 6 * n + g);
    stand(work, n, e, c);
}

// A corner on the left. The answer is the half-edge to cross next.
fn turn_left(work: &mut [u32], n: usize, l: usize, r: usize, y: usize, c: usize) -> usize
    requires { Area n work.old × (0 < l + r) × (l + r + 3 < 2 * n) × (y < 6 * n) × (c < n) }
    ensures { (result ≡ nxt y) × (work.new ≡ left_w n work.old l r y c) }
{
    let o = links::previous(y);
    enter(work, n, l + r - 1, y, o, l, l + 1, c);
    links::next(y)
}

// A corner on the right.
fn turn_right(work: &mut [u32], n: usize, l: usize, r: usize, y: usize, c: usize) -> usize
    requires { Area n work.old × (0 < l + r) × (l + r + 3 < 2 * n) × (y < 6 * n) × (c < n) }
    ensures { (result ≡ prv y) × (work.new ≡ right_w n work.old l r y c) }
{
    let o = links::next(y);
    let g = 2 * n - 2 - r;
    enter(work, n, l + r - 1, y, o, g, g, c);
    links::previous(y)
}

// b is met behind y: both edges beside it are parked.
fn arrive(work: &mut [u32], n: usize, l: usize, r: usize, y: usize, b: usize)
    requires { Area n work.old × (0 < l + r) × (l + r + 3 < 2 * n) × (y < 6 * n) × (b < n) }
    ensures { work.new ≡ arrive_w n work.old l r y b }
{
    turn_left(work, n, l, r, y, b);
    turn_right(work, n, l, r, y, b);
}

// The first triangle, which the segment leaves through half-edge x: both edges beside its corner a are parked, and both chains start at a.
pub fn begin(work: &mut [u32], n: usize, count: usize, a: usize, x: usize)
    requires { Room n count work.old × (a < n) × (x < 3 * count) }
    ensures { (work.new ≡ begin_w n work.old a x) × Room n count work.new × Kept n work.old work.new }
{
    let g = links::next(x);
    let f = links::previous(x);
    let v = start(work, g);
    let u = start(work, x);
    enter(work, n, 0, x, g, 0, 1, v);
    enter(work, n, 0, x, f, 2 * n - 2, 2 * n - 2, u);
    stand(work, n, 0, a);
    stand(work, n, 2 * n - 1, a);
}

// ---- the walk

// Walks from the crossed half-edge x0 on until b is met, and counts the corners on the left and on the right.
pub fn collect(
    points: &[i32],
    work: &mut [u32],
    n: usize,
    count: usize,
    a: usize,
    b: usize,
    x0: usize,
) -> Result<(usize, usize), Reason>
    requires figure { Figure points.now × (n ≡ point_count points.now) }
    requires room { Room n count work.old × (x0 < 3 * count) × (a < n) × (b < n) }
    ensures { Collected (point points.now) n count a b work.old x0 result work.new }
{
    let mut l = 1;
    let mut r = 1;
    let mut x = x0;
    // This is a `while`, as each turn raises one of two counts.
    while l + r <= count {
        let beyond = look(points, work, count, a, b, x)?;
        match beyond {
            Beyond::Left(y, c) => {
                x = turn_left(work, n, l, r, y, c);
                l += 1;
            }
            Beyond::Right(y, c) => {
                x = turn_right(work, n, l, r, y, c);
                r += 1;
            }
            Beyond::Last(y) => {
                arrive(work, n, l, r, y, b);
                return Ok((l, r));
            }
        }
    }
    Err(Reason::Twice)
}
