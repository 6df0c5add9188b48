// The checker: any list, from anyone, is judged by the eight sheet rules. It is told nothing of who made the list.
#![tactic(auto)]

ghost use Rattle.std.specs.Prelude.{◌≡◌, ℕ, ◌*◌, ◌≤◌, length};
ghost use Rattle.tables.specs.Answers.{of_rules, of_verdict};
ghost use Rattle.tables.specs.Data.{point_count};
ghost use Rattle.tables.specs.Verdicts.{verdict, rules, left_work};
ghost use Rattle.rooms.specs.Rest.{Rest};
ghost use Rattle.list_rules.specs.Listed.{Listed, Ends};
ghost use Rattle.checker.specs.Parts.{Sound, Zero, rules345, rules678, Indexing, Lined};

use tables::{Objection, Rule};

// Rules 1 and 2, and the index of the edges.
fn shape(points: &[i32], list: &[u32], work: &mut [u32]) -> Result<(), Rule>
    requires { Sound points.now list.now work.old × Zero points.now work.old }
    ensures { Indexing points.now list.now work.old work.new result }
{
    if !triple_rules::triples_proper(points, list) {
        return Err(Rule::TriplesProper);
    }
    let n = points.len() / 2;
    edges::build(list, work, n);
    if list_rules::edges_once(list, work, n) {
        Ok(())
    } else {
        Err(Rule::EdgesOnce)
    }
}

// Rules 3, 4 and 5.
fn cover(points: &[i32], list: &[u32], work: &[u32]) -> Result<(), Rule>
    requires { Sound points.now list.now work.now × Listed (point_count points.now) list.now work.now × (length list.now ≤ 24561) }
    ensures { of_rules result ≡ rules345 points.now list.now }
{
    let cw = base_checks::is_clockwise(points);
    if !edge_rules::edges_met(points, list, work, cw) {
        return Err(Rule::EdgesMet);
    }
    if !list_rules::points_met(list, work, points.len() / 2) {
        return Err(Rule::PointsMet);
    }
    if place_rules::areas_fill(points, list, cw) {
        Ok(())
    } else {
        Err(Rule::AreasFill)
    }
}

// Rules 6, 7 and 8.
fn lines(points: &[i32], pairs: &[u32], list: &[u32], work: &mut [u32]) -> Result<(), Rule>
    requires { Sound points.now list.now work.old × Lined points.now pairs.now list.now work.old }
    ensures { (of_rules result ≡ rules678 points.now pairs.now list.now) × Rest (64 * point_count points.now) work.old work.new }
{
    let n = points.len() / 2;
    if !pair_rules::pairs_met(pairs, list, work, n) {
        return Err(Rule::PairsMet);
    }
    if !edge_rules::edges_stay(points, list, work) {
        return Err(Rule::EdgesStay);
    }
    if order_rules::house_order(list) {
        Ok(())
    } else {
        Err(Rule::HouseOrder)
    }
}

// The eight rules in order.
fn judge(points: &[i32], pairs: &[u32], list: &[u32], work: &mut [u32]) -> Result<(), Rule>
    requires { Sound points.now list.now work.old × Zero points.now work.old × Ends (point_count points.now) pairs.now }
    ensures { (of_rules result ≡ rules points.now pairs.now list.now) × Rest (64 * point_count points.now) work.old work.new }
{
    shape(points, list, work)?;
    cover(points, list, work)?;
    lines(points, pairs, list, work)
}

// Refusals 1 to 10 in the table's order, 1 also for a list whose length is no multiple of 3 and 3 for the working area only; then yes, or the
// lowest broken rule. The working area: unchanged on 1 to 3, else its first 64n numbers zero and the rest unchanged. `rows` leaves it so, and
// the rules, which begin on a cleared area, are followed by another clearing.
pub fn check(points: &[i32], pairs: &[u32], list: &[u32], work: &mut [u32]) -> Result<(), Objection>
    ensures verdict { of_verdict result ≡ verdict points.now pairs.now list.now (length work.old) }
    ensures work { work.new ≡ left_work (verdict points.now pairs.now list.now (length work.old)) (point_count points.now) work.old }
{
    let n = points.len() / 2;
    let odd = list.len() % 3 != 0;
    let short = work.len() / 64 < n;
    checks::rows(points, pairs, odd, short, work).map_err(Objection::Refused)?;
    let answer = judge(points, pairs, list, work);
    rooms::clear(work, 64 * n);
    answer.map_err(Objection::Breaks)
}
