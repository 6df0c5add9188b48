// The numbers of a picture: where its points are, and its frame. The picture has the figure's own coordinates with y upwards.
#![tactic(auto)]

ghost use Rattle.std.specs.Prelude.{◌≤◌, ◌≤ℤ◌, pos, neg_ℤ};

use signs::LIMIT;
use std::fmt;

// A coordinate of the list, or 0 for one that it lacks or that is beyond the limit. A sheet's list has all that are asked for, and each is within it.
fn coordinate(points: &[i32], i: usize) -> i32
    ensures { (neg_ℤ (pos 8192) ≤ℤ result) × (result ≤ℤ pos 8192) }
{
    let z = points.get(i).copied().unwrap_or(0);
    if -LIMIT <= z && z <= LIMIT { z } else { 0 }
}

// Where a point is. It is printed as `x y`, so it is no `signs::Point`, which has no text.
#[derive(Clone, Copy, Debug, PartialEq, Eq)]
pub struct Place {
    pub x: i32,
    pub y: i32,
    ghost near_x: { (neg_ℤ (pos 8192) ≤ℤ x) × (x ≤ℤ pos 8192) },
    ghost near_y: { (neg_ℤ (pos 8192) ≤ℤ y) × (y ≤ℤ pos 8192) },
}

impl Place {
    pub fn of(points: &[i32], p: u32) -> Place {
        let i = 2 * (p as usize);
        Place {
            x: coordinate(points, i),
            y: coordinate(points, i + 1),
        }
    }

    // Its y with y downwards.
    pub fn down(self) -> i32 {
        self.y.saturating_neg()
    }
}

impl fmt::Display for Place {
    fn fmt<W: fmt::Write>(&self, f: &mut fmt::Formatter<W>) -> fmt::Result {
        let x = self.x;
        let y = self.y;
        write!(f, "{x} {y}")
    }
}

// The number n / 1,000, which is printed with three digits after the point.
#[derive(Clone, Copy, Debug, PartialEq, Eq)]
pub struct Thousandths(pub usize);

impl fmt::Display for Thousandths {
    fn fmt<W: fmt::Write>(&self, f: &mut fmt::Formatter<W>) -> fmt::Result {
        let whole = self.0 / 1000;
        let rest = self.0 % 1000;
        write!(f, "{whole}.{rest:03}")
    }
}

// The frame of the picture, which has a margin on each side: its upper left corner with y downwards, how wide and how high it is, and the same
// in dots.
#[derive(Clone, Copy, Debug, PartialEq, Eq)]
pub struct Frame {
    pub left: i64,
    pub top: i64,
    pub width: usize,
    pub height: usize,
    pub dots_wide: usize,
    pub dots_high: usize,
    // The size of the numbers, in thousandths: the more points, the smaller. The other sizes are parts of it.
    pub letter: usize,
    // The base's corners are within the limit, and the margin is at most 1,366.
    ghost near_left: { (neg_ℤ (pos 9558) ≤ℤ left) × (left ≤ℤ pos 8191) },
    ghost near_top: { (neg_ℤ (pos 9558) ≤ℤ top) × (top ≤ℤ pos 8191) },
    ghost small: { (width ≤ 100000) × (height ≤ 100000) },
}

// An edge of the frame, a margin before the base's outermost corner.
fn edge(corner: i32, margin: usize) -> i64
    requires { (neg_ℤ (pos 8192) ≤ℤ corner) × (corner ≤ℤ pos 8192) × (1 ≤ margin) × (margin ≤ 1366) }
    ensures { (neg_ℤ (pos 9558) ≤ℤ result) × (result ≤ℤ pos 8191) }
{
    corner as i64 - margin as i64
}

impl Frame {
    // The base holds all points, so its corners are as far out as any point: no two are more than 16,384 apart in x or in y. The longer
    // side of the picture takes 720 dots.
    pub fn of(points: &[i32]) -> Frame {
        let a = Place::of(points, 0);
        let b = Place::of(points, 1);
        let c = Place::of(points, 2);
        let left = a.x.min(b.x).min(c.x);
        let right = a.x.max(b.x).max(c.x);
        let low = a.y.min(b.y).min(c.y);
        let high = a.y.max(b.y).max(c.y);
        let wide = right.abs_diff(left).min(16384) as usize;
        let tall = high.abs_diff(low).min(16384) as usize;
        let extent = wide.max(tall);
        let margin = extent / 12 + 1;
        let width = wide + 2 * margin;
        let height = tall + 2 * margin;
        let longer = width.max(height);
        Frame {
            left: edge(left, margin),
            top: edge(-high, margin),
            width,
            height,
            dots_wide: 720 * width / longer,
            dots_high: 720 * height / longer,
            letter: 1000 * extent / (24 + points.len() / 8) + 1,
        }
    }
}
