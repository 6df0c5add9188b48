// Rule 6: each pair is an edge of the list. The edges that are pairs are marked, for rule 7.
#![tactic(auto)]

ghost use Rattle.std.specs.Prelude.{◌≡◌, true, ◌||◌, ◌<◌, length};
ghost use Rattle.algebra.specs.Tests.{any_to};
ghost use Rattle.tables.specs.Rules.{edge_is, rule2};
ghost use Rattle.list_rules.specs.Listed.{Listed, Room, Blank, Painted, PairsMet, Ends};

// Whether an edge runs from u to v; it is marked.
fn mark(list: &[u32], work: &mut [u32], n: usize, u: u32, v: u32) -> bool
    requires { Listed n list.now work.old × Room n list.now work.old × (rule2 list.now ≡ true) × (u < n) }
    ensures found { result ≡ any_to (length list.now) (λ h. edge_is list.now h u v) }
    ensures marks { Painted n list.now (λ h. edge_is list.now h u v) work.old work.new }
{
    match edges::find(list, work, n, u, v) {
        Some(h) => {
            work[7 * n + h] = 1;
            true
        }
        None => false,
    }
}

// Whether an edge joins u and v, one way or the other; it is marked on both sides.
fn mark_both(list: &[u32], work: &mut [u32], n: usize, u: u32, v: u32) -> bool
    requires { Listed n list.now work.old × Room n list.now work.old × (rule2 list.now ≡ true) × (u < n) × (v < n) }
    ensures found { result ≡ any_to (length list.now) (λ h. edge_is list.now h u v || edge_is list.now h v u) }
    ensures marks { Painted n list.now (λ h. edge_is list.now h u v || edge_is list.now h v u) work.old work.new }
{
    let there = mark(list, work, n, u, v);
    let back = mark(list, work, n, v, u);
    there || back
}

// Rule 6: each pair is an edge. Its edges are marked, for rule 7.
pub fn pairs_met(pairs: &[u32], list: &[u32], work: &mut [u32], n: usize) -> bool
    requires { Listed n list.now work.old × Room n list.now work.old × (rule2 list.now ≡ true) × Ends n pairs.now × Blank n list.now work.old }
    ensures { PairsMet n pairs.now list.now work.old work.new result }
{
    for k in 0..pairs.len() / 2 {
        if !mark_both(list, work, n, pairs[2 * k], pairs[2 * k + 1]) {
            return false;
        }
    }
    true
}
