// The triangles in the lent working area: the record of a triangle by value, and its place. Crate nets says in specs/Layout
// what stands where.
//
// The lent area stays one list of numbers with places in it: the rule of fixed memory asks for it, and crate nets fixes the layout.
#![tactic(auto)]

ghost use Rattle.std.specs.Prelude.{◌≡◌, ◌+◌, ◌*◌, ◌≤◌, ◌<◌, length, get_or};
ghost use Rattle.nets.specs.Layout.{put_rec, born};
ghost use Rattle.store.specs.Tri.{tri_at, rec_of};

// A triangle: its corners, counterclockwise; for edge k, from corner k to the next, the neighbour's half-edge and 1, or 0 for none; and
// the edge's mark, 0 for none.
// Document 01 names the three arrays.
#[derive(Clone, Copy)]
pub struct Tri {
    pub v: [u32; 3],
    pub adj: [u32; 3],
    pub con: [u32; 3],
}

#[tactic(auto, unfolding(crate::specs::Tri::tri_at))]
pub fn load(work: &[u32], t: usize) -> Tri
    requires { 16 * t + 16 ≤ length work.now }
    ensures { result ≡ tri_at work.now t }
{
    let b = 16 * t;
    Tri {
        v: [work[b], work[b + 1], work[b + 2]],
        adj: [work[b + 3], work[b + 4], work[b + 5]],
        con: [work[b + 6], work[b + 7], work[b + 8]],
    }
}

#[tactic(auto, unfolding(nets::specs::Layout::put_rec))]
pub fn store(work: &mut [u32], t: usize, x: Tri)
    requires { 16 * t + 16 ≤ length work.old }
    ensures { work.new ≡ put_rec work.old t (rec_of x) }
{
    let b = 16 * t;
    let Tri { v, adj, con } = x;
    work[b] = v[0];
    work[b + 1] = v[1];
    work[b + 2] = v[2];
    work[b + 3] = adj[0];
    work[b + 4] = adj[1];
    work[b + 5] = adj[2];
    work[b + 6] = con[0];
    work[b + 7] = con[1];
    work[b + 8] = con[2];
}

// A triangle is born in slot s: its record is put there, and each of its corners has it.
#[tactic(auto, unfolding(nets::specs::Layout::born, nets::specs::Layout::hint))]
pub fn record(work: &mut [u32], s: usize, x: Tri)
    requires s_in_bounds { 16 * s + 16 ≤ length work.old }
    requires v_in_bounds { (16 * get_or x.v 0 0 + 16 ≤ length work.old) × (16 * get_or x.v 1 0 + 16 ≤ length work.old) × (16 * get_or x.v 2 0 + 16 ≤ length work.old) }
    requires s_bound { s < 8192 }
    ensures { work.new ≡ born work.old s (rec_of x) }
{
    store(work, s, x);
    let a = x.v[0] as usize;
    let b = x.v[1] as usize;
    let c = x.v[2] as usize;
    work[16 * a + 12] = s as u32;
    work[16 * b + 12] = s as u32;
    work[16 * c + 12] = s as u32;
}
