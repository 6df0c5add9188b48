// House order: the order of two triples, and rule 8, that the triples of a list are in it.
#![tactic(auto)]

ghost use Rattle.std.specs.Prelude.{◌≡◌, ◌+◌, ◌*◌, ◌≤◌, length};
ghost use Rattle.tables.specs.Rules.{least_first, rises, corner, rule8};

// The triple t is before the triple u.
pub fn rises(t: (u32, u32, u32), u: (u32, u32, u32)) -> bool
    ensures { result ≡ rises t.0 t.1 t.2 u.0 u.1 u.2 }
{
    t < u
}

// Triple t of the list.
fn triple(list: &[u32], t: usize) -> (u32, u32, u32)
    requires { 3 * t + 3 ≤ length list.now }
    ensures { result ≡ (corner list.now (3 * t), corner list.now (3 * t + 1), corner list.now (3 * t + 2)) }
{
    (list[3 * t], list[3 * t + 1], list[3 * t + 2])
}

// The least number of triple t is its first.
fn least_first(list: &[u32], t: usize) -> bool
    requires { 3 * t + 3 ≤ length list.now }
    ensures { result ≡ least_first list.now t }
{
    let (a, b, c) = triple(list, t);
    a < b && a < c
}

// Rule 8: house order.
pub fn house_order(list: &[u32]) -> bool
    ensures { result ≡ rule8 list.now }
{
    let n = list.len() / 3;
    (0..n).all(|t| least_first(list, t))
        && (0..n.saturating_sub(1)).all(|t| rises(triple(list, t), triple(list, t + 1)))
}
