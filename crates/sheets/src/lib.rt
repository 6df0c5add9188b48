// The sheet that is handed out: the triangles of the working area as triples of point numbers in house order. Each triple is turned so
// that its least number is first, and the triples are sorted as items of three words.
//
// The rows of items stay places of the lent area, three numbers each: the rule of fixed memory asks for it.
#![tactic(auto)]

ghost use Rattle.std.specs.Prelude.{◌+◌, ◌*◌, ◌≤◌, length};
ghost use Rattle.sheets.specs.Steps.{Turned, Gathered, Copied};
ghost use Rattle.sheets.specs.Sheets.{SheetWritten};

// The triple of slot t is written at the place `to`, turned so that its least number is first.
fn turn(work: &mut [u32], t: usize, to: usize)
    requires { (16 * t + 3 ≤ length work.old) × (to + 3 ≤ length work.old) }
    ensures { Turned work.old t to work.new }
{
    sorts::set_item(work, to, houses::turned(work, t));
}

// The triples of the first `count` slots stand as items from lo on, each turned, in the slots' order.
fn gather(work: &mut [u32], lo: usize, count: usize)
    requires { (16 * count ≤ lo) × (lo + 3 * count ≤ length work.old) }
    ensures { Gathered work.old lo count work.new }
{
    for t in 0..count {
        turn(work, t, lo + 3 * t);
    }
}

// The n numbers from lo on are copied to the front of `out`. A loop, since `copy_from_slice` would ask a program that links the library for
// memmove.
fn hand_out(work: &[u32], lo: usize, n: usize, out: &mut [u32])
    requires { (lo + n ≤ length work.now) × (n ≤ length out.old) }
    ensures { Copied work.now lo n out.old out.new }
{
    for k in 0..n {
        out[k] = work[lo + k];
    }
}

// Writes the triangles of the first `count` slots to the front of `out`, in house order. The items stand behind the slots of the working
// area, and the room for the sort behind the items.
pub fn write_sheet(work: &mut [u32], n: usize, count: usize, out: &mut [u32])
    requires count_bound { count ≤ 2 * n }
    requires n_in_bounds { 64 * n ≤ length work.old }
    requires count_in_bounds { 3 * count ≤ length out.old }
    ensures { SheetWritten n count work.old out.old work.new out.new }
{
    let lo = 32 * n;
    gather(work, lo, count);
    sorts::sort(work, lo, count, 38 * n);
    hand_out(work, lo, 3 * count, out);
}
