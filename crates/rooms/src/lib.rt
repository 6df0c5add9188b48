// Row 3 of the refusals' table, the rooms, and the clearing of lent room.
#![tactic(auto)]

ghost use Rattle.std.specs.Prelude.{◌≡◌, ◌≤◌, length};
ghost use Rattle.tables.specs.Refusals.{short_room};
ghost use Rattle.tables.specs.Verdicts.{cleared};

// The output or the working area is too short for n points: the output has less than 3(2n - 5) numbers, or the working area less than 64n.
// The divisions keep every number small.
pub fn is_short(n: usize, out: usize, work: usize) -> bool
    requires { n ≤ 9223372036854775807 }
    ensures { result ≡ short_room n out work }
{
    n >= 3 && out / 3 < 2 * n - 5 || work / 64 < n
}

// The first k numbers become zero.
pub fn clear(work: &mut [u32], k: usize)
    requires { k ≤ length work.old }
    ensures { work.new ≡ cleared k work.old }
{
    work[..k].fill(0);
}
