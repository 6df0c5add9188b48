// P1 to P12 of document 01, and P5 and P6 with other numbers and with a clockwise base.
use runs::Run;
use signs::{Point, Sign};
use std::io;

const BEFORE_THE_SIGNS: [Run<'static>; 6] = [
    Run {
        name: "P1",
        points: &[0, 0, 8, 0, 0, 8],
        pairs: &[],
    },
    Run {
        name: "P2",
        points: &[0, 0, 0, 8, 8, 0],
        pairs: &[],
    },
    Run {
        name: "P3",
        points: &[0, 0, 8, 0, 0, 8, 2, 2],
        pairs: &[],
    },
    Run {
        name: "P4",
        points: &[0, 0, 8, 0, 0, 8, 4, 0],
        pairs: &[],
    },
    Run {
        name: "P5",
        points: &[0, 0, 8, 0, 0, 8, 1, 1, 3, 1, 3, 3, 1, 3],
        pairs: &[],
    },
    Run {
        name: "P6",
        points: &[0, 0, 8, 0, 0, 8, 1, 1, 3, 1, 3, 3, 1, 3],
        pairs: &[4, 6],
    },
];

// P7, P8 and P9: what is asked, and the point that has the circle sign with (0,0), (4,0), (0,4).
const SIGNS: [(&str, Point); 3] = [
    (
        "P7, circle sign of (0,0), (4,0), (0,4) with (1,1)",
        Point { x: 1, y: 1 },
    ),
    ("P8, the same with (4,4)", Point { x: 4, y: 4 }),
    ("P9, the same with (5,5)", Point { x: 5, y: 5 }),
];

const AFTER_THE_SIGNS: [Run<'static>; 7] = [
    Run {
        name: "P10",
        points: &[0, 0, 8, 0, 0, 8, 4, 0],
        pairs: &[0, 1],
    },
    Run {
        name: "P11",
        points: &[0, 0, 8, 0, 0, 8, 1, 1, 3, 1, 3, 3, 1, 3],
        pairs: &[4, 6, 3, 5],
    },
    Run {
        name: "P12",
        points: &[0, 0, 8, 0, 0, 8, 2, 2, 2, 2],
        pairs: &[],
    },
    Run {
        name: "P5, renumbered",
        points: &[0, 0, 8, 0, 0, 8, 3, 3, 1, 3, 3, 1, 1, 1],
        pairs: &[],
    },
    Run {
        name: "P6, renumbered",
        points: &[0, 0, 8, 0, 0, 8, 3, 3, 1, 3, 3, 1, 1, 1],
        pairs: &[5, 4],
    },
    Run {
        name: "P5, a clockwise base",
        points: &[0, 0, 0, 8, 8, 0, 1, 1, 3, 1, 3, 3, 1, 3],
        pairs: &[],
    },
    Run {
        name: "P6, a clockwise base",
        points: &[0, 0, 0, 8, 8, 0, 1, 1, 3, 1, 3, 3, 1, 3],
        pairs: &[4, 6],
    },
];

pub fn all(rt: &impl Print) -> io::Result<()> {
    runs::small(rt, &BEFORE_THE_SIGNS)?;
    let a = Point { x: 0, y: 0 };
    let b = Point { x: 4, y: 0 };
    let c = Point { x: 0, y: 4 };
    for (name, d) in SIGNS {
        let told = match signs::circle_sign(a, b, c, d) {
            Some(Sign::Neg) => "negative",
            Some(Sign::Zero) => "zero",
            Some(Sign::Pos) => "positive",
            None => "out of range",
        };
        println!(rt; "{name}: {told}")?;
    }
    runs::small(rt, &AFTER_THE_SIGNS)
}
