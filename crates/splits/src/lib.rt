// The splits of one triangle, at a point inside it and at a point on a side of the base, in the lent working area. Crate nets says in
// specs/Layout what each makes of the list, and in specs/Steps what each makes of the net.
//
// The lent area stays one list of numbers with places in it: the rule of fixed memory asks for it, and crate nets fixes the layout.
#![tactic(auto)]

ghost use Rattle.std.specs.Prelude.{◌≡◌, ◌+◌, ◌*◌, ◌≤◌, ◌<◌, length};
ghost use Rattle.nets.specs.Layout.{inside_list, side_list, InRange};

use store::Tri;

// Splits slot t = (a, b, c) at point p inside it into (a, b, p), (b, c, p), (c, a, p).
pub fn split_interior(work: &mut [u32], count: usize, t: usize, p: u32)
    requires in_range { InRange count work.old }
    requires t_lt_count { (t < count) × (16 * p + 16 ≤ length work.old) × (16 * (count + 2) ≤ length work.old) × (count + 2 ≤ 8192) }
    ensures { work.new ≡ inside_list work.old count t p }
{
    let i = 3 * t;
    let j = 3 * count;
    let x = steps::seen_from(work, count, i);
    let a = x.v[0];
    let b = x.v[1];
    let c = x.v[2];
    let ab = x.adj[0];
    let bc = x.adj[1];
    let ca = x.adj[2];
    let first = Tri {
        v: [a, b, p],
        adj: [ab, (j + 3) as u32, (j + 5) as u32],
        con: [x.con[0], 0, 0],
    };
    let second = Tri {
        v: [b, c, p],
        adj: [bc, (j + 6) as u32, (i + 2) as u32],
        con: [x.con[1], 0, 0],
    };
    let third = Tri {
        v: [c, a, p],
        adj: [ca, (i + 3) as u32, (j + 2) as u32],
        con: [x.con[2], 0, 0],
    };
    store::record(work, t, first);
    store::record(work, count, second);
    store::record(work, count + 1, third);
    links::rewire(work, ca, j + 3);
    links::rewire(work, bc, j);
    links::rewire(work, ab, i);
}

// Splits (a, b, c) at point p on half-edge h, from a to b along the base, into (a, p, c) and (p, b, c).
pub fn split_side(work: &mut [u32], count: usize, h: usize, p: u32)
    requires in_range { InRange count work.old }
    requires h_bound { (h < 3 * count) × (16 * p + 16 ≤ length work.old) × (16 * (count + 1) ≤ length work.old) × (count + 1 ≤ 8192) }
    ensures { work.new ≡ side_list work.old count h p }
{
    let x = steps::seen_from(work, count, h);
    let c = x.v[2];
    let bc = x.adj[1];
    let ca = x.adj[2];
    let m = x.con[0];
    let s = h / 3;
    let i = 3 * s;
    let j = 3 * count;
    let first = Tri {
        v: [x.v[0], p, c],
        adj: [0, (j + 3) as u32, ca],
        con: [m, 0, x.con[2]],
    };
    let second = Tri {
        v: [p, x.v[1], c],
        adj: [0, bc, (i + 2) as u32],
        con: [m, x.con[1], 0],
    };
    store::record(work, s, first);
    store::record(work, count, second);
    links::rewire(work, bc, j + 1);
    links::rewire(work, ca, i + 2);
}
