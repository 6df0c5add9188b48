// The sheet rules that ask for an edge and its reverse: 3 and 7.
#![tactic(auto)]

ghost use Rattle.std.specs.Prelude.{◌≡◌, true, ◌||◌, ℕ, ◌+◌, ◌*◌, ◌<◌, ◌≤◌, length};
ghost use Rattle.algebra.specs.Tests.{all_to, any_to};
ghost use Rattle.plane.specs.Halfedges.{nxt};
ghost use Rattle.tables.specs.Data.{point_count, clockwise};
ghost use Rattle.tables.specs.Rules.{corner, reverse, along_side, rule2, rule3};
ghost use Rattle.segments.specs.Near.{Near};
ghost use Rattle.edges.specs.Index.{Corners};
ghost use Rattle.list_rules.specs.Listed.{Listed, Room};
ghost use Rattle.edge_rules.specs.Stays.{Triples, turning, stays, all_stay};

// The other end of edge h.
#[tactic(auto, using(edges::proofs::Search::nxt_low))]
fn head(list: &[u32], h: usize) -> u32
    requires { Triples list.now × (h < length list.now) }
    ensures { result ≡ corner list.now (nxt h) }
{
    list[edges::next_edge(h)]
}

// Whether the list has the reverse of edge h.
#[tactic(auto, using(edges::proofs::Search::nxt_low))]
fn has_reverse(list: &[u32], work: &[u32], n: usize, h: usize) -> bool
    requires { Listed n list.now work.now × (h < length list.now) }
    ensures { result ≡ any_to (length list.now) (reverse list.now h) }
{
    edges::find(list, work, n, head(list, h), list[h]).is_some()
}

#[tactic(auto, using(edges::proofs::Search::nxt_low))]
fn is_met(points: &[i32], list: &[u32], work: &[u32], cw: bool, h: usize) -> bool
    requires { Near points.now × (3 ≤ point_count points.now) × (cw ≡ clockwise points.now) × Listed (point_count points.now) list.now work.now × (h < length list.now) }
    ensures { result ≡ (any_to (length list.now) (reverse list.now h) || along_side points.now (corner list.now h) (corner list.now (nxt h))) }
{
    let u = list[h] as usize;
    let v = head(list, h) as usize;
    has_reverse(list, work, points.len() / 2, h) || place_rules::along_side(points, cw, u, v)
}

// Rule 3: the reverse of each edge is in a triple, or the edge lies along a side of the base.
pub fn edges_met(points: &[i32], list: &[u32], work: &[u32], cw: bool) -> bool
    requires { Near points.now × (3 ≤ point_count points.now) × (cw ≡ clockwise points.now) × Listed (point_count points.now) list.now work.now }
    ensures { result ≡ rule3 points.now list.now }
{
    (0..list.len()).all(|h| is_met(points, list, work, cw, h))
}

// The corner of edge h's triple that is not on it.
#[tactic(auto, using(edges::proofs::Search::nxt_low))]
fn apex(list: &[u32], h: usize) -> usize
    requires { Triples list.now × (h < length list.now) }
    ensures { result ≡ corner list.now (nxt (nxt h)) }
{
    list[edges::next_edge(edges::next_edge(h))] as usize
}

// Step 3 flips edge h, whose reverse is g.
#[tactic(auto, using(edges::proofs::Search::nxt_low))]
fn turns(points: &[i32], list: &[u32], h: usize, g: usize) -> bool
    requires { Near points.now × Triples list.now × Corners (point_count points.now) list.now × (h < length list.now) × (g < length list.now) }
    ensures { result ≡ turning points.now list.now h g }
{
    let a = list[h] as usize;
    let b = head(list, h) as usize;
    flip_rules::would_flip(points, a, b, apex(list, h), apex(list, g))
}

// Edge h is marked or has no reverse, or step 3 would not flip it.
#[tactic(auto, using(edges::proofs::Search::nxt_low))]
fn stays(points: &[i32], list: &[u32], work: &[u32], h: usize) -> bool
    requires { Near points.now × Listed (point_count points.now) list.now work.now × Room (point_count points.now) list.now work.now × (rule2 list.now ≡ true) × (h < length list.now) }
    ensures { result ≡ all_to (length list.now) (stays points.now list.now work.now h) }
{
    let n = points.len() / 2;
    if work[7 * n + h] != 0 {
        return true;
    }
    match edges::find(list, work, n, head(list, h), list[h]) {
        Some(g) => !turns(points, list, h, g),
        None => true,
    }
}

// Rule 7, by the marks: step 3 would flip no edge that has no mark.
pub fn edges_stay(points: &[i32], list: &[u32], work: &[u32]) -> bool
    requires { Near points.now × Listed (point_count points.now) list.now work.now × Room (point_count points.now) list.now work.now × (rule2 list.now ≡ true) }
    ensures { result ≡ all_stay points.now list.now work.now }
{
    (0..list.len()).all(|h| stays(points, list, work, h))
}
