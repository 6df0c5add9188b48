// The limits of document 01 on small figures: coordinates, three points, and the lent room.
use reports::MARK;
use runs::Run;
use std::io;

const COORDINATES: [Run<'static>; 4] = [
    Run {
        name: "8,192 and -8,192",
        points: &[-8192, -8192, 8192, -8192, -8192, 8192],
        pairs: &[],
    },
    Run {
        name: "8,192 and -8,192, with a point in the middle of a side",
        points: &[-8192, -8192, 8192, 8192, -8192, 8192, 0, 0],
        pairs: &[],
    },
    Run {
        name: "8,193",
        points: &[-8192, -8192, 8193, -8192, -8192, 8192],
        pairs: &[],
    },
    Run {
        name: "-8,193",
        points: &[-8192, -8193, 8192, -8192, -8192, 8192],
        pairs: &[],
    },
];

const NO_ROOM: [Run<'static>; 3] = [
    Run {
        name: "n = 3, no room at all",
        points: &[0, 0, 8, 0, 0, 8],
        pairs: &[],
    },
    Run {
        name: "refusal 3 before refusal 4",
        points: &[0, 0, 8193, 0, 0, 8],
        pairs: &[],
    },
    Run {
        name: "refusal 2 before refusal 3",
        points: &[0, 0, 8, 0],
        pairs: &[],
    },
];

// P6 and a base alone are cut with an output and a working area of exactly the size, and with one number less.
pub fn all(rt: &impl Print) -> io::Result<()> {
    runs::small(rt, &COORDINATES)?;

    let three = |name| Run {
        name,
        points: &[0, 0, 8, 0, 0, 8],
        pairs: &[],
    };
    three("n = 3, just room enough").cut(rt, &mut [MARK; 3], &mut [MARK; 192])?;
    three("n = 3, an output of 2").cut(rt, &mut [MARK; 2], &mut [MARK; 192])?;
    three("n = 3, a working area of 64n - 1").cut(rt, &mut [MARK; 3], &mut [MARK; 191])?;

    for run in NO_ROOM {
        run.cut(rt, &mut [], &mut [])?;
    }

    let seven = |name| Run {
        name,
        points: &[0, 0, 8, 0, 0, 8, 1, 1, 3, 1, 3, 3, 1, 3],
        pairs: &[4, 6],
    };
    seven("P6, just room enough").cut(rt, &mut [MARK; 27], &mut [MARK; 448])?;
    seven("P6, an output one short").cut(rt, &mut [MARK; 26], &mut [MARK; 448])?;
    seven("P6, a working area one short").cut(rt, &mut [MARK; 27], &mut [MARK; 447])?;

    // T is below 2n - 5 where points lie on the sides, and the output must have room for 2n - 5 triples all the same.
    let side = Run {
        name: "P4, an output one short of 3(2n - 5)",
        points: &[0, 0, 8, 0, 0, 8, 4, 0],
        pairs: &[],
    };
    side.cut(rt, &mut [MARK; 8], &mut [MARK; 256])
}
