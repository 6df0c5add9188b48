// The cases of the signs, of the intake, of the parts and of the filter.
use crate::print;
use float_signs::{Intake, PointIntake, Vec2};
use signs::{Point, Sign};
use std::{fmt, io};

// A sign in a word.
#[derive(Drop)]
struct Word(Sign);

impl fmt::Display for Word {
    fn fmt<W: fmt::Write>(&self, f: &mut fmt::Formatter<W>) -> fmt::Result {
        f.write_str(match self.0 {
            Sign::Neg => "negative",
            Sign::Zero => "zero",
            Sign::Pos => "positive",
        })
    }
}

fn answer(rt: &impl Print, a: Option<Sign>) -> io::Result<()> {
    match a {
        Some(s) => println!(rt; "{}", Word(s)),
        None => rt.println("out of range"),
    }
}

fn at(x: i32, y: i32) -> Point {
    Point { x, y }
}

// Which coordinate has which value.
fn replaced(rt: &impl Print, what: &str, i: usize, x: i32) -> io::Result<()> {
    if i == 0 {
        print!(rt; "{what}, coordinate 0 at {x}: ")
    } else {
        print!(rt; "{what}, coordinate {i} the same: ")
    }
}

// The orientation of (0,0), (1,0), (0,1) with each coordinate in turn at x.
fn orient_each(rt: &impl Print, x: i32) -> io::Result<()> {
    for i in 0..6 {
        let mut places = [0, 0, 1, 0, 0, 1];
        places[i] = x;
        let [ax, ay, bx, by, cx, cy] = places;
        replaced(rt, "orientation", i, x)?;
        answer(rt, signs::orient_sign(at(ax, ay), at(bx, by), at(cx, cy)))?;
    }
    Ok(())
}

// The circle sign of (0,0), (4,0), (0,4) and (1,1) with each coordinate in turn at x.
fn circle_each(rt: &impl Print, x: i32) -> io::Result<()> {
    for i in 0..8 {
        let mut places = [0, 0, 4, 0, 0, 4, 1, 1];
        places[i] = x;
        let [ax, ay, bx, by, cx, cy, dx, dy] = places;
        replaced(rt, "circle", i, x)?;
        answer(
            rt,
            signs::circle_sign(at(ax, ay), at(bx, by), at(cx, cy), at(dx, dy)),
        )?;
    }
    Ok(())
}

// The circle sign of (0,0), (4,0), (0,4) and a fourth point.
fn circle_with(rt: &impl Print, d: Point) -> io::Result<()> {
    answer(rt, signs::circle_sign(at(0, 0), at(4, 0), at(0, 4), d))
}

// The circle sign of three corners of the limit's square and a fourth point.
fn square_with(rt: &impl Print, d: Point) -> io::Result<()> {
    answer(
        rt,
        signs::circle_sign(at(-8192, -8192), at(8192, -8192), at(8192, 8192), d),
    )
}

pub fn whole(rt: &impl Print) -> io::Result<()> {
    for x in [8192, -8192, 8193, -8193, 2147483647, -2147483648] {
        orient_each(rt, x)?;
    }
    for x in [8192, -8192, 8193, -8193] {
        circle_each(rt, x)?;
    }
    rt.print("P7, circle of (0,0), (4,0), (0,4) with (1,1): ")?;
    circle_with(rt, at(1, 1))?;
    rt.print("P8, the same with (4,4): ")?;
    circle_with(rt, at(4, 4))?;
    rt.print("P9, the same with (5,5): ")?;
    circle_with(rt, at(5, 5))?;
    rt.print("circle of the limit's square and its middle: ")?;
    square_with(rt, at(0, 0))?;
    rt.print("circle of the limit's square and its fourth corner: ")?;
    square_with(rt, at(-8192, 8192))
}

fn taken(rt: &impl Print, v: f64) -> io::Result<()> {
    match float_signs::take_in(v) {
        Intake::Whole(n) => {
            print::text(rt, b"whole ")?;
            print::small(rt, n)?;
        }
        Intake::NotFinite(x) => {
            print::text(rt, b"not finite, ")?;
            print::float(rt, x)?;
        }
        Intake::TooLarge(x) => {
            print::text(rt, b"too large, ")?;
            print::float(rt, x)?;
        }
        Intake::Fraction(x) => {
            print::text(rt, b"not whole, ")?;
            print::float(rt, x)?;
        }
    }
    print::line_end(rt)
}

pub fn intake(rt: &impl Print) -> io::Result<()> {
    let cases = [
        ("8192.5", 8192.5),
        ("-8192.5", -8192.5),
        ("0.5", 0.5),
        ("-0.0", -0.0),
        ("8192.0", 8192.0),
        ("-8192.0", -8192.0),
        ("8191.5", 8191.5),
        ("a NaN", 0.0 / 0.0),
        ("infinity", 1.0 / 0.0),
        ("minus infinity", -1.0 / 0.0),
        ("the least subnormal", 5e-324),
        ("the largest finite", 1.7976931348623157e308),
    ];
    for (name, v) in cases {
        print!(rt; "intake of {name}: ")?;
        taken(rt, v)?;
    }
    Ok(())
}

fn taken_point(rt: &impl Print, x: f64, y: f64) -> io::Result<()> {
    match float_signs::take_in_point(Vec2 { x, y }) {
        PointIntake::Whole(m, n) => {
            print::text(rt, b"whole ")?;
            print::small(rt, m)?;
            print::text(rt, b", ")?;
            print::small(rt, n)?;
        }
        PointIntake::NotFinite(v) => {
            print::text(rt, b"not finite, ")?;
            print::float(rt, v)?;
        }
        PointIntake::TooLarge(v) => {
            print::text(rt, b"too large, ")?;
            print::float(rt, v)?;
        }
        PointIntake::Fraction(v) => {
            print::text(rt, b"not whole, ")?;
            print::float(rt, v)?;
        }
    }
    print::line_end(rt)
}

pub fn points(rt: &impl Print) -> io::Result<()> {
    let cases = [
        ("3.0, -7.0", 3.0, -7.0),
        ("0.5, 8193.0", 0.5, 8193.0),
        ("8193.0, 0.5", 8193.0, 0.5),
        ("3.0, infinity", 3.0, 1.0 / 0.0),
    ];
    for (name, x, y) in cases {
        print!(rt; "intake of the point {name}: ")?;
        taken_point(rt, x, y)?;
    }
    Ok(())
}

fn parted(rt: &impl Print, v: f64) -> io::Result<()> {
    match float_signs::decomp(v) {
        Some(d) => println!(rt; "{} times 2 to the {}", d.mantissa, d.exponent),
        None => rt.println("not finite"),
    }
}

pub fn parts(rt: &impl Print) -> io::Result<()> {
    let cases = [
        ("12.0", 12.0),
        ("-0.5", -0.5),
        ("0.0", 0.0),
        ("-0.0", -0.0),
        ("a NaN", 0.0 / 0.0),
        ("infinity", 1.0 / 0.0),
        ("minus infinity", -1.0 / 0.0),
        ("the least subnormal", 5e-324),
        ("the largest finite", 1.7976931348623157e308),
    ];
    for (name, v) in cases {
        print!(rt; "decomp of {name}: ")?;
        parted(rt, v)?;
    }
    Ok(())
}

fn filtered(rt: &impl Print, x: f64, y: f64) -> io::Result<()> {
    let a = Vec2 { x: 0.0, y: 0.0 };
    let b = Vec2 {
        x: 8192.0,
        y: 8192.0,
    };
    match float_signs::orient2d_filter(a, b, Vec2 { x, y }) {
        Some(s) => println!(rt; "{}", Word(s)),
        None => rt.println("no sign"),
    }
}

pub fn filter(rt: &impl Print) -> io::Result<()> {
    let cases = [
        ("8191,8191", 8191.0, 8191.0),
        ("8191,8192", 8191.0, 8192.0),
        ("8192,8191", 8192.0, 8191.0),
        ("a NaN,0", 0.0 / 0.0, 0.0),
    ];
    for (name, x, y) in cases {
        print!(rt; "orient2d_filter of (0,0), (8192,8192), ({name}): ")?;
        filtered(rt, x, y)?;
    }
    Ok(())
}
