// Single half-edges in the lent working area. Crate nets says in specs/Layout what stands where.
//
// The lent area stays one list of numbers with places in it: the rule of fixed memory asks for it, and crate nets fixes the layout.
#![tactic(auto)]

ghost use Rattle.std.specs.Prelude.{◌≡◌, ◌+◌, ◌*◌, ◌/◌, ◌≤◌, ◌<◌, length, get_or};
ghost use Rattle.plane.specs.Halfedges.{nxt};
ghost use Rattle.nets.specs.Layout.{cell, tell};
ghost use Rattle.nets.specs.Nets.{prv};

// The next half-edge of the same triangle.
#[tactic(auto, unfolding(plane::specs::Halfedges::nxt))]
pub fn next(h: usize) -> usize
    requires { h < 24576 }
    ensures { result ≡ nxt h }
{
    if h % 3 == 2 { h - 2 } else { h + 1 }
}

// The half-edge before h in its triangle.
#[tactic(auto, unfolding(plane::specs::Halfedges::nxt))]
pub fn previous(h: usize) -> usize
    requires { h < 24576 }
    ensures { result ≡ prv h }
{
    if h % 3 == 0 { h + 2 } else { h - 1 }
}

// The partner of half-edge h and 1, or 0 for none: the number as the lent area holds it, whose layout crate nets fixes.
#[tactic(auto, unfolding(nets::specs::Layout::cell))]
pub fn partner(work: &[u32], h: usize) -> u32
    requires { (h < 24576) × (16 * (h / 3) + 16 ≤ length work.now) }
    ensures { result ≡ get_or work.now (cell 3 h) 0 }
{
    work[16 * (h / 3) + 3 + h % 3]
}

// The partner, where there is one, is told that its partner is half-edge y.
#[tactic(auto, unfolding(nets::specs::Layout::tell, nets::specs::Layout::cell))]
pub fn rewire(work: &mut [u32], partner: u32, y: usize)
    requires y_bound { (y < 49152) × (partner ≤ 49152) }
    requires partner_in_bounds { 16 * ((partner + 2) / 3) ≤ length work.old }
    ensures { work.new ≡ tell partner y work.old }
{
    if partner != 0 {
        let o = partner as usize - 1;
        work[16 * (o / 3) + 3 + o % 3] = (y + 1) as u32;
    }
}
