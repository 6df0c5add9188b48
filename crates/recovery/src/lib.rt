// Step 4 of the building steps: the pairs, in order. A pair that is an edge already is marked; else the triangles that its segment crosses are made
// anew, its edge is marked, and edges are flipped until step 3 flips none.
#![tactic(auto)]

ghost use Rattle.std.specs.Prelude.{◌<◌};
ghost use Rattle.tables.specs.Data.{pair_count, point, end_a, end_b};
ghost use Rattle.nets.specs.Layout.{net_of};
ghost use Rattle.chains.specs.Sticking.{Leaves};
ghost use Rattle.recovery.specs.Lines.{Lined, Goes, AllGo};

use looks::Around;

// The recovery of a pair sticks, with those before it in.
#[derive(Clone, Copy, Debug, PartialEq, Eq)]
pub struct Stuck {
    pub pair: usize,
}

// Recovers pair k, whose segment leaves a triangle of its first end through half-edge x.
fn recover_line(
    points: &[i32],
    pairs: &[u32],
    work: &mut [u32],
    count: usize,
    k: usize,
    x: usize,
) -> Result<(), Stuck>
    requires lined { Lined points.now pairs.now k work.old count × (k < pair_count pairs.now) }
    requires leaves { Leaves (point points.now) (net_of work.old count) (end_a pairs.now k) (end_b pairs.now k) x }
    ensures { Goes points.now pairs.now k work.old count work.new result }
{
    let n = points.len() / 2;
    let a = pairs[2 * k] as usize;
    let b = pairs[2 * k + 1] as usize;
    let Ok(many) = carving::recover(points, work, n, count, a, b, x) else {
        return Err(Stuck { pair: k });
    };
    let s = seams::slot(work, n, many - 1);
    carving::mark(work, 3 * s);
    carving::suspect_all(work, n, count, many);
    flipping::legalize_suspects(points, work, count, many, 0);
    Ok(())
}

// Pair k, with those before it in.
fn recover_pair(
    points: &[i32],
    pairs: &[u32],
    work: &mut [u32],
    count: usize,
    k: usize,
) -> Result<(), Stuck>
    requires { Lined points.now pairs.now k work.old count × (k < pair_count pairs.now) }
    ensures { Goes points.now pairs.now k work.old count work.new result }
{
    let a = pairs[2 * k] as usize;
    let b = pairs[2 * k + 1] as usize;
    let met = searches::look_around(points, work, count, a, b);
    let Some(Around::Edge(t, e)) = met else {
        let Some(Around::Entry(t, e)) = met else {
            return Err(Stuck { pair: k });
        };
        return recover_line(points, pairs, work, count, k, 3 * t + e);
    };
    carving::mark(work, 3 * t + e);
    Ok(())
}

// All pairs.
pub fn recover_pairs(
    points: &[i32],
    pairs: &[u32],
    work: &mut [u32],
    count: usize,
) -> Result<(), Stuck>
    requires { Lined points.now pairs.now 0 work.old count }
    ensures { AllGo points.now pairs.now work.old count work.new result }
{
    for k in 0..pairs.len() / 2 {
        recover_pair(points, pairs, work, count, k)?;
    }
    Ok(())
}
