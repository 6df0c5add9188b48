// The flip of the building steps, in the lent working area, and the triangle of a half-edge, which each step reads first. Crate nets says
// in specs/Layout what a step makes of the list, and in specs/Steps what it makes of the net.
//
// The lent area stays one list of numbers with places in it: the rule of fixed memory asks for it, and crate nets fixes the layout.
#![tactic(auto)]

ghost use Rattle.std.specs.Prelude.{◌≡◌, ◌*◌, ◌<◌, length};
ghost use Rattle.nets.specs.Layout.{flip_list, InRange};
ghost use Rattle.steps.specs.Seen.{seen, Low};

use store::Tri;

// The triangle of half-edge h, turned so that h is its edge 0. Half-edge 3 t + k has its numbers at 16 t + k, which is 13 t more than its
// own number.
#[tactic(auto, using(crate::proofs::Laws::near_next, crate::proofs::Laws::near_previous))]
pub fn seen_from(work: &[u32], count: usize, h: usize) -> Tri
    requires in_range { InRange count work.now }
    requires h_bound { h < 3 * count }
    ensures value { result ≡ seen work.now h }
    ensures low { Low count (length work.now) result }
{
    let b = 13 * (h / 3);
    let i = b + h;
    let j = b + links::next(h);
    let k = b + links::previous(h);
    Tri {
        v: [work[i], work[j], work[k]],
        adj: [work[i + 3], work[j + 3], work[k + 3]],
        con: [work[i + 6], work[j + 6], work[k + 6]],
    }
}

// Replaces (a, b, c) and (b, a, d), across half-edge h from a to b and its partner g, by (a, d, c) and (d, b, c).
pub fn flip(work: &mut [u32], count: usize, h: usize, g: usize)
    requires in_range { InRange count work.old }
    requires h_bound { (h < 3 * count) × (g < 3 * count) }
    ensures { work.new ≡ flip_list work.old h g }
{
    let x = seen_from(work, count, h);
    let y = seen_from(work, count, g);
    let c = x.v[2];
    let d = y.v[2];
    let bc = x.adj[1];
    let ca = x.adj[2];
    let ad = y.adj[1];
    let db = y.adj[2];
    let s = h / 3;
    let t = g / 3;
    let i = 3 * s;
    let j = 3 * t;
    let first = Tri {
        v: [x.v[0], d, c],
        adj: [ad, (j + 3) as u32, ca],
        con: [y.con[1], 0, x.con[2]],
    };
    let second = Tri {
        v: [d, x.v[1], c],
        adj: [db, bc, (i + 2) as u32],
        con: [y.con[2], x.con[1], 0],
    };
    store::record(work, s, first);
    store::record(work, t, second);
    links::rewire(work, bc, j + 1);
    links::rewire(work, db, j);
    links::rewire(work, ca, i + 2);
    links::rewire(work, ad, i);
}
