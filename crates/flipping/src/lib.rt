// Step 2 of the building steps: flipping from the suspects until none is left. Step 3, which edge flips, is crate wants; the stack of
// suspects is crate suspects; the flip is crate steps.
#![tactic(auto)]

ghost use Rattle.std.specs.Prelude.{◌<◌};
ghost use Rattle.tables.specs.Data.{point_count, point};
ghost use Rattle.tables.specs.Figures.{Figure};
ghost use Rattle.tables.specs.Rules.{rank};
ghost use Rattle.nets.specs.Flipping.{Legal};
ghost use Rattle.nets.specs.Layout.{net_of, Kept};
ghost use Rattle.suspects.specs.Stack.{stack, Suspects};
ghost use Rattle.wants.specs.Tries.{Ready};
ghost use Rattle.flipping.specs.Above.{Above};

// Flips until no suspect is left. The answer is the newest slot. No count of steps stands in for the end: a flip lowers the volume below
// the lifted triangles, or keeps it and lowers the ranks of the edges.
pub fn legalize_suspects(
    points: &[i32],
    work: &mut [u32],
    count: usize,
    many: usize,
    newest: usize,
) -> usize
    requires figure { Figure points.now × Ready points.now count work.old }
    requires suspects { Suspects count work.old (stack work.old many) × (newest < count) }
    ensures { (result < count)
        × Legal (point points.now) (rank points.now) (net_of work.old count) (stack work.old many) newest (net_of work.new count) result
        × Kept (point_count points.now) work.old work.new
        × Above count work.old work.new }
{
    let mut m = many;
    let mut z = newest;
    // This is a `while` that counts by hand: a turn takes one suspect, and may bring two back.
    while 0 < m {
        let t = suspects::pop(work, count, m);
        m -= 1;
        if let Some(e) = wants::first_edge(points, work, count, t) {
            let g = work[16 * t + 3 + e] as usize - 1;
            steps::flip(work, count, 3 * t + e, g);
            let n = g / 3;
            m = suspects::rebirth(work, count, m, t, n);
            z = n;
        }
    }
    z
}
