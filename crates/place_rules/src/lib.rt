// What the sheet rules ask of the base: that the areas fill it, which is rule 5, and which edges lie along its sides, for rule 3.
//
// Document 01, "The eight sheet rules", says what each call answers. The definitions are those of crate tables.
#![tactic(auto)]

ghost use Rattle.std.specs.Prelude.{◌≡◌, cond, ◌&&◌, ◌<◌, ◌≤◌, pos, length};
ghost use Rattle.algebra.specs.Tests.{eq_z};
ghost use Rattle.tables.specs.Data.{point_count, clockwise};
ghost use Rattle.tables.specs.Rules.{along_side, rule5};
ghost use Rattle.segments.specs.Near.{Near};
ghost use Rattle.edges.specs.Index.{Corners};
ghost use Rattle.place_rules.specs.Numbered.{area};

// The second and the third corner of the base, which reads 0, 1, 2, or 0, 2, 1 where it is clockwise.
fn after_first(cw: bool) -> (usize, usize)
    ensures { (result.0 ≡ cond cw 2 1) × (result.1 ≡ cond cw 1 2) }
{
    if cw { (2, 1) } else { (1, 2) }
}

// Both u and v are on the line through a and b.
fn both_on(points: &[i32], a: usize, b: usize, u: usize, v: usize) -> bool
    requires near { Near points.now }
    requires a_bound { (a < point_count points.now) × (b < point_count points.now) × (u < point_count points.now) × (v < point_count points.now) }
    ensures { result ≡ eq_z (area points.now a b u) (pos 0) && eq_z (area points.now a b v) (pos 0) }
{
    segments::is_flat(points, a, b, u) && segments::is_flat(points, a, b, v)
}

// The edge from u to v lies along a side of the base.
pub fn along_side(points: &[i32], cw: bool, u: usize, v: usize) -> bool
    requires near { Near points.now }
    requires bound { (3 ≤ point_count points.now) × (u < point_count points.now) × (v < point_count points.now) × (cw ≡ clockwise points.now) }
    ensures { result ≡ along_side points.now u v }
{
    let (b, c) = after_first(cw);
    both_on(points, 0, b, u, v) || both_on(points, b, c, u, v) || both_on(points, c, 0, u, v)
}

// ---- rule 5

// Twice the area of a, b and c, which is negative where they are clockwise.
fn twice_area(points: &[i32], a: usize, b: usize, c: usize) -> i64
    requires near { Near points.now }
    requires a_bound { (a < point_count points.now) × (b < point_count points.now) × (c < point_count points.now) }
    ensures { result ≡ area points.now a b c }
{
    let a = segments::point_at(points, a);
    let b = segments::point_at(points, b);
    let c = segments::point_at(points, c);
    signs::orient_det(a, b, c)
}

// Rule 5: twice the areas of the triples sum to twice the base's. The sum fits, since there are at most 8,187 triples and each area is at
// most 8 · 8,192² in size.
pub fn areas_fill(points: &[i32], list: &[u32], cw: bool) -> bool
    requires near { Near points.now }
    requires bound { (3 ≤ point_count points.now) × (cw ≡ clockwise points.now) × Corners (point_count points.now) list.now × (length list.now ≤ 24561) }
    ensures { result ≡ rule5 points.now list.now }
{
    let mut sum: i64 = 0;
    for t in 0..list.len() / 3 {
        sum += twice_area(
            points,
            list[3 * t] as usize,
            list[3 * t + 1] as usize,
            list[3 * t + 2] as usize,
        );
    }
    let (b, c) = after_first(cw);
    sum == twice_area(points, 0, b, c)
}
