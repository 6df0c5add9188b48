// The split of two triangles at a point on their common edge, in the lent working area. Crate nets says in specs/Layout what it makes of
// the list, and in specs/Steps what it makes of the net. It stands apart from the other splits because its proof is the longest of them.
//
// The lent area stays one list of numbers with places in it: the rule of fixed memory asks for it, and crate nets fixes the layout.
#![tactic(auto)]

ghost use Rattle.std.specs.Prelude.{◌≡◌, ◌+◌, ◌*◌, ◌≤◌, ◌<◌, length};
ghost use Rattle.nets.specs.Layout.{edge_list, InRange};

use store::Tri;

// Splits (a, b, c) and (b, a, d), across half-edge h from a to b and its partner g, at point p on that edge, into (a, p, c) and (p, b, c),
// (b, p, d) and (p, a, d).
pub fn split_edge(work: &mut [u32], count: usize, h: usize, g: usize, p: u32)
    requires in_range { InRange count work.old }
    requires h_bound { (h < 3 * count) × (g < 3 * count) × (16 * p + 16 ≤ length work.old) × (16 * (count + 2) ≤ length work.old) × (count + 2 ≤ 8192) }
    ensures { work.new ≡ edge_list work.old count h g p }
{
    let x = steps::seen_from(work, count, h);
    let y = steps::seen_from(work, count, g);
    let a = x.v[0];
    let b = x.v[1];
    let c = x.v[2];
    let d = y.v[2];
    let bc = x.adj[1];
    let ca = x.adj[2];
    let ad = y.adj[1];
    let db = y.adj[2];
    let m = x.con[0];
    let s = h / 3;
    let t = g / 3;
    let i = 3 * s;
    let j = 3 * t;
    let k = 3 * count;
    let first = Tri {
        v: [a, p, c],
        adj: [(k + 4) as u32, (k + 3) as u32, ca],
        con: [m, 0, x.con[2]],
    };
    let second = Tri {
        v: [p, b, c],
        adj: [(j + 1) as u32, bc, (i + 2) as u32],
        con: [m, x.con[1], 0],
    };
    let third = Tri {
        v: [b, p, d],
        adj: [(k + 1) as u32, (k + 6) as u32, db],
        con: [m, 0, y.con[2]],
    };
    let fourth = Tri {
        v: [p, a, d],
        adj: [(i + 1) as u32, ad, (j + 2) as u32],
        con: [m, y.con[1], 0],
    };
    store::record(work, s, first);
    store::record(work, count, second);
    store::record(work, t, third);
    store::record(work, count + 1, fourth);
    links::rewire(work, ad, k + 4);
    links::rewire(work, db, j + 2);
    links::rewire(work, bc, k + 1);
    links::rewire(work, ca, i + 2);
}
