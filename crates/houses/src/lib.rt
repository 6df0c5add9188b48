// The house order of two triangles of the working area: each is turned so that its least number is first.
#![tactic(auto)]

ghost use Rattle.std.specs.Prelude.{◌≡◌, ◌+◌, ◌*◌, ◌≤◌, ◌<◌, length, get_or};
ghost use Rattle.nets.specs.Layout.{net_of};
ghost use Rattle.nets.specs.Location.{least, second, third, earlier};

// The triple of slot t, turned so that its least number is first.
pub fn turned(work: &[u32], t: usize) -> (u32, u32, u32)
    requires { 16 * t + 3 ≤ length work.now }
    ensures { let a = get_or work.now (16 * t) 0 in let b = get_or work.now (16 * t + 1) 0 in let c = get_or work.now (16 * t + 2) 0 in result ≡ (least a b c, second a b c, third a b c) }
{
    let (a, b, c) = (work[16 * t], work[16 * t + 1], work[16 * t + 2]);
    if a <= b && a <= c {
        (a, b, c)
    } else if b <= c {
        (b, c, a)
    } else {
        (c, a, b)
    }
}

// The triangle of slot s comes before that of slot t.
pub fn earlier(work: &[u32], count: usize, s: usize, t: usize) -> bool
    requires { (s < count) × (t < count) × (16 * count ≤ length work.now) }
    ensures { result ≡ earlier (net_of work.now count) s t }
{
    order_rules::rises(turned(work, s), turned(work, t))
}
