// Rule 1, which asks of each triple where its points lie.
//
// Document 01, "The eight sheet rules", says what the call answers. The definitions are those of crate tables.
#![tactic(auto)]

ghost use Rattle.std.specs.Prelude.{◌≡◌};
ghost use Rattle.tables.specs.Rules.{proper_triple, rule1};
ghost use Rattle.segments.specs.Near.{Near};

// Three point numbers below n, distinct and strictly counterclockwise.
fn proper(points: &[i32], a: u32, b: u32, c: u32) -> bool
    requires { Near points.now }
    ensures { result ≡ proper_triple points.now a b c }
{
    let n = points.len() / 2;
    let i = a as usize;
    let j = b as usize;
    let k = c as usize;
    i < n && j < n && k < n && i != j && j != k && k != i && segments::is_left(points, i, j, k)
}

// Rule 1: 1 to 2n - 5 triples of distinct point numbers, each strictly counterclockwise. The 5 is added on the other side, since 2n - 5
// would wrap below three points.
#[tactic(auto, unfolding(tables::specs::Rules::rule1))]
pub fn triples_proper(points: &[i32], list: &[u32]) -> bool
    requires { Near points.now }
    ensures { result ≡ rule1 points.now list.now }
{
    let n = points.len() / 2;
    let count = list.len() / 3;
    1 <= count
        && count + 5 <= 2 * n
        && (0..count).all(|t| proper(points, list[3 * t], list[3 * t + 1], list[3 * t + 2]))
}
