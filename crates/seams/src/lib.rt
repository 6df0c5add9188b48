// Step 4 of document 01 in the lent working area: single steps of a recovery. A half-edge moves, two become partners, and a slot gets its corners; and the
// corners and the slots that the chain holds.
//
// The cavity's corners stand in the chain, and the gap after each of them is a parked half-edge; crate chains says in specs/Areas what stands
// where.
//
// The lent area stays one list of numbers with places in it: the rule of fixed memory asks for it, and crate nets fixes the layout.
#![tactic(auto)]

ghost use Rattle.std.specs.Prelude.{◌≡◌, ◌*◌, ◌≤◌, ◌<◌, length};
ghost use Rattle.chains.specs.Areas.{chain_of, slot_of, move_w, join_w, cut_w};
ghost use Rattle.seams.specs.Fits.{Row, CanMove, CanCut};

// Half-edge o becomes half-edge v: partner and mark go over, and the partner is told.
#[tactic(auto, unfolding(chains::specs::Areas::move_w, nets::specs::Layout::cell))]
pub fn move_to(work: &mut [u32], o: usize, v: usize)
    requires { CanMove work.old o v }
    ensures { work.new ≡ move_w work.old o v }
{
    let partner = work[16 * (o / 3) + 3 + o % 3];
    let mark = work[16 * (o / 3) + 6 + o % 3];
    links::rewire(work, partner, v);
    work[16 * (v / 3) + 3 + v % 3] = partner;
    work[16 * (v / 3) + 6 + v % 3] = mark;
}

// x and y become partners, with no mark.
#[tactic(auto, unfolding(chains::specs::Areas::join_w, nets::specs::Layout::cell))]
pub fn join(work: &mut [u32], x: usize, y: usize)
    requires { Row work.old x × Row work.old y }
    ensures { work.new ≡ join_w work.old x y }
{
    work[16 * (x / 3) + 3 + x % 3] = (y + 1) as u32;
    work[16 * (x / 3) + 6 + x % 3] = 0;
    work[16 * (y / 3) + 3 + y % 3] = (x + 1) as u32;
    work[16 * (y / 3) + 6 + y % 3] = 0;
}

// Slot s gets the corners a, b, c, and each of them has it.
#[tactic(auto, unfolding(chains::specs::Areas::cut_w, nets::specs::Layout::hint))]
pub fn cut(work: &mut [u32], s: usize, a: usize, b: usize, c: usize)
    requires { CanCut work.old s a b c }
    ensures { work.new ≡ cut_w work.old s a b c }
{
    work[16 * s] = a as u32;
    work[16 * s + 1] = b as u32;
    work[16 * s + 2] = c as u32;
    work[16 * a + 12] = s as u32;
    work[16 * b + 12] = s as u32;
    work[16 * c + 12] = s as u32;
}

// The corner at place x of the chain.
#[tactic(auto, unfolding(chains::specs::Areas::chain_of))]
pub fn corner(work: &[u32], n: usize, x: usize) -> usize
    requires { (n ≤ 4096) × (x < 2 * n) × (64 * n ≤ length work.now) }
    ensures { result ≡ chain_of n work.now x }
{
    work[16 * (2 * n + x) + 9] as usize
}

// The y-th crossed slot.
#[tactic(auto, unfolding(chains::specs::Areas::slot_of))]
pub fn slot(work: &[u32], n: usize, y: usize) -> usize
    requires { (n ≤ 4096) × (y < 2 * n) × (64 * n ≤ length work.now) }
    ensures { result ≡ slot_of n work.now y }
{
    work[16 * (2 * n + y) + 10] as usize
}
