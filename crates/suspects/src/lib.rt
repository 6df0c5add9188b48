// The stack of suspects in the lent working area, for step 2 of the building steps. Suspect i stands at place 16 i + 10, and a slot that is
// a suspect has a flag at place 16 s + 9, so that a slot that is none is known without a search.
//
// The lent area stays one list of numbers with places in it: the rule of fixed memory asks for it, and crate nets fixes the layout.
#![tactic(auto)]

ghost use Rattle.std.specs.Prelude.{◌≡◌, ◌+◌, ◌-◌, ◌*◌, ◌≤◌, ◌<◌, length, get_or, set};
ghost use Rattle.nets.specs.Layout.{flag_cell, stack_cell};
ghost use Rattle.suspects.specs.Stack.{stack, Fresh, Suspects, pushed, Placed, Closed, Left, Reborn};

// Slot s comes on top of m suspects.
#[tactic(auto, unfolding(crate::specs::Stack::pushed))]
pub fn push(work: &mut [u32], m: usize, s: usize)
    requires { (16 * m + 16 ≤ length work.old) × (16 * s + 16 ≤ length work.old) × (s < 8192) × (m ≤ 8192) }
    ensures { work.new ≡ pushed work.old m s }
{
    work[16 * m + 10] = s as u32;
    work[16 * s + 9] = 1;
}

// Takes the last of m suspects.
pub fn pop(work: &mut [u32], count: usize, m: usize) -> usize
    requires { (16 * count ≤ length work.old) × (count ≤ 8192) × (0 < m) × Suspects count work.old (stack work.old m) }
    ensures { (result ≡ get_or work.old (stack_cell (m - 1)) 0) × (work.new ≡ set work.old (flag_cell result) 0) }
{
    let s = work[16 * (m - 1) + 10] as usize;
    work[16 * s + 9] = 0;
    s
}

// The place of s among m suspects. A slot that has to leave was mostly born a short while ago, so the search is from the top.
fn find(work: &[u32], m: usize, s: usize) -> Option<usize>
    requires { (16 * m ≤ length work.now) × (m ≤ 8192) }
    ensures { Placed work.now m s result }
{
    for k in (0..m).rev() {
        if work[16 * k + 10] as usize == s {
            return Some(k);
        }
    }
    None
}

// Closes the gap that suspect k leaves among m.
fn close_gap(work: &mut [u32], k: usize, m: usize)
    requires { (16 * m ≤ length work.old) × (m ≤ 8192) × (k < m) }
    ensures { Closed work.old k m work.new }
{
    for j in k..m - 1 {
        work[16 * j + 10] = work[16 * j + 26];
    }
}

// Slot s leaves m suspects, if it is one. The answer is how many are left.
fn take_out(work: &mut [u32], count: usize, m: usize, s: usize) -> usize
    requires m_in_bounds { (16 * m ≤ length work.old) × (m ≤ 8192) × (16 * s + 16 ≤ length work.old) × (s < 8192) }
    requires suspects { Suspects count work.old (stack work.old m) }
    ensures { Left work.old m s work.new result }
{
    if work[16 * s + 9] == 0 {
        return m;
    }
    match find(work, m, s) {
        None => m,
        Some(k) => {
            close_gap(work, k, m);
            m - 1
        }
    }
}

// After a flip of slots t and n: t is no suspect, and n is perhaps one. Both are born again, n last. The answer is how many there are.
pub fn rebirth(work: &mut [u32], count: usize, m: usize, t: usize, n: usize) -> usize
    requires count_in_bounds { (16 * count + 16 ≤ length work.old) × (count ≤ 8192) × (t < count) × (n < count) × ((t ≡ n) → ⊥) }
    requires suspects { Suspects count work.old (stack work.old m) × Fresh t (stack work.old m) }
    ensures { Reborn count work.old m t n work.new result }
{
    let k = take_out(work, count, m, n);
    push(work, k, t);
    push(work, k + 1, n);
    k + 2
}
