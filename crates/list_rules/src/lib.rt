// The sheet rules that ask for the numbers of a list alone: 2 and 4.
#![tactic(auto)]

ghost use Rattle.std.specs.Prelude.{◌≡◌, ◌+◌, ◌*◌, ◌<◌, eqb, length};
ghost use Rattle.algebra.specs.Tests.{all_to, any_to};
ghost use Rattle.plane.specs.Halfedges.{nxt};
ghost use Rattle.tables.specs.Rules.{triples, corner, rule2};
ghost use Rattle.edges.specs.Index.{last_edge};
ghost use Rattle.list_rules.specs.Listed.{Listed};

// Edge h is the last from its first end to its second.
#[tactic(auto, using(edges::proofs::Search::nxt_low))]
fn is_last(list: &[u32], work: &[u32], n: usize, h: usize) -> bool
    requires { Listed n list.now work.now × (h < length list.now) }
    ensures { result ≡ eqb (last_edge list.now (corner list.now h) (corner list.now (nxt h)) (length list.now)) (h + 1) }
{
    edges::find(list, work, n, list[h], list[edges::next_edge(h)]) == Some(h)
}

// Rule 2: each edge is the last of its kind, so it is the only one.
pub fn edges_once(list: &[u32], work: &[u32], n: usize) -> bool
    requires { Listed n list.now work.now }
    ensures { result ≡ rule2 list.now }
{
    (0..list.len()).all(|h| is_last(list, work, n, h))
}

// Rule 4: an edge leaves each point.
pub fn points_met(list: &[u32], work: &[u32], n: usize) -> bool
    requires { Listed n list.now work.now }
    ensures { result ≡ all_to n (λ i. any_to (3 * triples list.now) (λ h. eqb (corner list.now h) i)) }
{
    (0..n).all(|i| work[i] != 0)
}
