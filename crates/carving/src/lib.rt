// The recovery of a pair in the lent working area: the walk along its corridor and the filling of both sides of the cavity, put together;
// the mark of the new edge; the room that a recovery stands on; and the new triangles as suspects. Crate chains says in specs/ what stands
// where, and in specs/Recoveries what a recovery is.
#![tactic(auto)]

ghost use Rattle.std.specs.Prelude.{◌≡◌, ℕ, ◌+◌, ◌-◌, ◌*◌, ◌/◌, ◌≤◌, ◌<◌, length};
ghost use Rattle.tables.specs.Data.{point_count, point};
ghost use Rattle.tables.specs.Figures.{Figure};
ghost use Rattle.chains.specs.Areas.{adj, slot_of, mark_w, Room};
ghost use Rattle.chains.specs.Recoveries.{RecoversW};
ghost use Rattle.carving.specs.Closing.{Closing, CanMark};
ghost use Rattle.carving.specs.Clearing.{WipedRows, Cleared};
ghost use Rattle.carving.specs.Suspecting.{Different, Suspected};

use chains::Reason;

// ---- the recovery

// Fills both sides of the open cavity, and the right root takes the place above the left one.
fn close(
    points: &[i32],
    work: &mut [u32],
    n: usize,
    count: usize,
    l: usize,
    r: usize,
) -> Result<(), Reason>
    requires figure { Figure points.now × (n ≡ point_count points.now) }
    requires room { Room n count work.old × (1 ≤ l) × (1 ≤ r) × (l + r ≤ count) }
    ensures { Closing (point points.now) n count work.old l r result work.new }
{
    fillings::fill(points, work, n, count, 0, l + 1, 0, 8 * n)?;
    fillings::fill(
        points,
        work,
        n,
        count,
        2 * n - 2 - r,
        2 * n - 1,
        l,
        8 * n + 1,
    )?;
    let s = seams::slot(work, n, l + r - 1);
    seams::move_to(work, 8 * n, 3 * s);
    Ok(())
}

// Recovers the pair a b, whose segment leaves a triangle with the corner a through the half-edge x0 across from it.
pub fn recover(
    points: &[i32],
    work: &mut [u32],
    n: usize,
    count: usize,
    a: usize,
    b: usize,
    x0: usize,
) -> Result<usize, Reason>
    requires figure { Figure points.now × (n ≡ point_count points.now) }
    requires room { Room n count work.old × (x0 < 3 * count) × (a < n) × (b < n) }
    ensures { RecoversW (point points.now) n count a b work.old x0 result work.new }
{
    corridors::begin(work, n, count, a, x0);
    let (l, r) = corridors::collect(points, work, n, count, a, b, x0)?;
    close(points, work, n, count, l, r)?;
    Ok(l + r)
}

// The edge of half-edge h is marked, on both sides where it has two.
pub fn mark(work: &mut [u32], h: usize)
    requires { CanMark work.old h }
    ensures { work.new ≡ mark_w work.old h (adj work.old h) }
{
    let partner = (links::partner(work, h) as usize).checked_sub(1);
    work[16 * (h / 3) + 6 + h % 3] = 1;
    if let Some(g) = partner {
        work[16 * (g / 3) + 6 + g % 3] = 1;
    }
}

// ---- the room

// The places from lo up to hi of the rows from a up to b.
fn wipe_rows(work: &mut [u32], a: usize, b: usize, lo: usize, hi: usize)
    requires { (a ≤ b) × (b ≤ 16384) × (16 * b ≤ length work.old) × (lo ≤ hi) × (hi ≤ 16) }
    ensures { WipedRows a b lo hi work.old work.new }
{
    for s in a..b {
        work[16 * s + lo..16 * s + hi].fill(0);
    }
}

// Before the first recovery no row without a triangle has a partner, and the places of the chain and of the crossed slots are zero.
pub fn clear_rows(work: &mut [u32], n: usize, count: usize)
    requires { (n ≤ 4096) × (count ≤ 4 * n) × (64 * n ≤ length work.old) }
    ensures { Cleared n count work.old work.new }
{
    wipe_rows(work, count, 4 * n, 3, 6);
    wipe_rows(work, 2 * n, 4 * n, 9, 11);
}

// ---- suspects

// The first k crossed slots become suspects, in the order in which they were crossed.
pub fn suspect_all(work: &mut [u32], n: usize, count: usize, k: usize)
    requires { Room n count work.old × (k ≤ count) × Different k (slot_of n work.old) }
    ensures { Suspected n count k work.old work.new }
{
    for m in 0..k {
        let s = seams::slot(work, n, m);
        suspects::push(work, m, s);
    }
}
