// An index of the directed edges of a list of triples, in lent room: for each point the last edge that leaves it, and for each edge the
// one before it that leaves the same point. An edge is found along the few that leave its first end.
//
// The index stays heads and links in the lent room: the rule of fixed memory asks for it.
#![tactic(auto)]

ghost use Rattle.std.specs.Prelude.{◌≡◌, ℕ, ◌+◌, ◌≤◌, ◌<◌, ◌%◌, length, get_or};
ghost use Rattle.plane.specs.Halfedges.{nxt};
ghost use Rattle.rooms.specs.Rest.{Rest};
ghost use Rattle.edges.specs.Index.{Corners, Fits, Indexed, last_edge, found_at};

// The edge after h in its triple.
#[tactic(auto, unfolding(plane::specs::Halfedges::nxt))]
pub fn next_edge(h: usize) -> usize
    requires { h < 4294967295 }
    ensures { result ≡ nxt h }
{
    if h % 3 == 2 { h - 2 } else { h + 1 }
}

// The index of the list's edges, in numbers that were zero: n heads, then a link for each edge.
pub fn build(list: &[u32], work: &mut [u32], n: usize)
    requires { Corners n list.now × Fits n list.now work.old × Indexed n list.now 0 work.old }
    ensures { Indexed n list.now (length list.now) work.new × Rest (n + length list.now) work.old work.new }
{
    for h in 0..list.len() {
        let v = list[h] as usize;
        work[n + h] = work[v];
        work[v] = (h + 1) as u32;
    }
}

// The last edge from u to v, if there is one.
#[tactic(auto, using(crate::proofs::Search::nxt_low))]
pub fn find(list: &[u32], work: &[u32], n: usize, u: u32, v: u32) -> Option<usize>
    requires { (u < n) × (length list.now % 3 ≡ 0) × Fits n list.now work.now × Indexed n list.now (length list.now) work.now }
    ensures { result ≡ found_at (last_edge list.now u v (length list.now)) }
{
    let mut link = work[u as usize] as usize;
    while let Some(h) = link.checked_sub(1) {
        if list[next_edge(h)] == v {
            return Some(h);
        }
        link = work[n + h] as usize;
    }
    None
}
