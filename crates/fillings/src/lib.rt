// Step 4 of document 01 in the lent working area: one side of a cavity is filled with triangles.
//
// The filling calls itself for both sides of the triangle over the base, so a call is as deep as the tree of triangles is high: at most
// as many calls as the chain has corners. So `fill` leaves all work but the calls to other functions, and its frame is small.
#![tactic(auto)]

ghost use Rattle.std.specs.Prelude.{◌≡◌, ◌+◌, ◌-◌, ◌*◌, ◌≤◌, ◌<◌};
ghost use Rattle.tables.specs.Data.{point_count, point};
ghost use Rattle.tables.specs.Figures.{Figure};
ghost use Rattle.chains.specs.Areas.{chain_of, slot_of, cut_w, Room};
ghost use Rattle.chains.specs.Fillings.{Came};

use chains::Reason;

// The y-th crossed slot gets the corners at the places i, j and k of the chain.
fn cut_over(
    work: &mut [u32],
    n: usize,
    count: usize,
    i: usize,
    j: usize,
    k: usize,
    y: usize,
) -> usize
    requires { Room n count work.old × (i < 2 * n) × (j < 2 * n) × (k < 2 * n) × (y < 2 * n) }
    ensures value { result ≡ slot_of n work.old y }
    ensures work_after { work.new ≡ cut_w work.old result (chain_of n work.old i) (chain_of n work.old j) (chain_of n work.old k) }
{
    let s = seams::slot(work, n, y);
    let a = seams::corner(work, n, i);
    let b = seams::corner(work, n, j);
    let c = seams::corner(work, n, k);
    seams::cut(work, s, a, b, c);
    s
}

// Fills the part i .. j of the chain under the half-edge top, with the crossed slots from the p-th on. A part without a corner between its
// ends is a gap, which moves to the top. Else the triangle over the base takes the last of the part's slots, both its other sides are filled,
// and it becomes the partner of the top.
pub fn fill(
    points: &[i32],
    work: &mut [u32],
    n: usize,
    count: usize,
    i: usize,
    j: usize,
    p: usize,
    top: usize,
) -> Result<(), Reason>
    requires figure { Figure points.now × (n ≡ point_count points.now) }
    requires room { Room n count work.old × (i < j) × (j < 2 * n) × (p + (j - i) ≤ 2 * n) × (top < 8 * n + 2) }
    ensures { Came (point points.now) n count work.old i j p top work.new result }
{
    if j == i + 1 {
        seams::move_to(work, 6 * n + i, top);
        return Ok(());
    }
    let k = apexes::choose(points, work, n, count, i, j);
    if !apexes::is_over(points, work, n, count, i, j, k) {
        return Err(Reason::Apex);
    }
    let s = cut_over(work, n, count, i, j, k, p + (j - i - 2));
    fill(points, work, n, count, i, k, p, 3 * s + 2)?;
    fill(points, work, n, count, k, j, p + (k - i - 1), 3 * s + 1)?;
    seams::join(work, 3 * s, top);
    Ok(())
}
